//! The one encoding of a difference.
ghost use Rattle.std.specs.Prelude.{◌≡◌, ◌++◌, IfOk, OnOk};
ghost use Rattle.std.specs.List.{flat_map};
ghost use Rattle.image_update.specs.Encoding.{encoded, long, step_bytes};

use crate::differing::Difference;
use crate::steps::Step;
use std::alloc::{AllocError, Global};

#[tactic(auto, unfolding(crate::specs::Encoding::long))]
fn push_long(out: &mut Vec<u8>, number: u64) -> Result<(), AllocError>
    ensures { OnOk result (out.new.items ≡ out.old.items ++ long number) }
{
    out.extend_from_slice(&number.to_le_bytes())
}

#[tactic(auto, unfolding(crate::specs::Encoding::step_bytes))]
fn push_step(out: &mut Vec<u8>, step: Step) -> Result<(), AllocError>
    ensures { OnOk result (out.new.items ≡ out.old.items ++ step_bytes step) }
{
    push_long(out, step.keep)?;
    push_long(out, step.skip)?;
    push_long(out, step.put)
}

#[tactic(auto, using(lemmas::proofs::List::flat_map_next))]
fn push_steps(out: &mut Vec<u8>, steps: &[Step]) -> Result<(), AllocError>
    ensures { OnOk result (out.new.items ≡ out.old.items ++ flat_map step_bytes steps.now) }
{
    for step in steps {
        push_step(out, *step)?;
    }
    Ok(())
}

/// The one encoding of a difference.
#[tactic(auto, unfolding(crate::specs::Encoding::encoded))]
pub fn encode(alloc: Global, difference: &Difference) -> Result<Vec<u8>, AllocError>
    ensures { IfOk result (λ bytes. bytes.items ≡ encoded difference.now) }
{
    let mut out = Vec::new(alloc);
    push_long(&mut out, difference.steps.len() as u64)?;
    push_steps(&mut out, &difference.steps)?;
    out.extend_from_slice(&difference.put)?;
    Ok(out)
}

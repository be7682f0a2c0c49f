//! What changed from one front to the next.
ghost use Rattle.std.specs.Prelude.{◌≡◌, ◌⊎◌, ◌^◌, ◌<◌, ◌≤◌, Some, IfOk, IfErr};
ghost use Rattle.std.specs.List.{AllByRecursion};
ghost use Rattle.image_update.specs.Changes.{patched};
ghost use Rattle.image_update.specs.Encoding.{IsEven, IsStep, encoded_length};
ghost use Rattle.image_update.specs.Layout.{difference_of};
ghost use Rattle.image_update.specs.Pairs.{built_in, changes_of};

use crate::building::Builder;
use crate::refusals::NoDifference;
use crate::steps::{COUNT_BYTES, LARGEST_DIFFERENCE, STEP_BYTES, Step};
use crate::walking::walk;
use std::alloc::Global;
use std::marker::Model;

/// What changed from one front to the next. It has an encoding.
#[derive(Drop)]
pub struct Difference {
    pub(crate) steps: Vec<Step>,
    pub(crate) put: Vec<u8>,
}

impl Model for Difference {
    ghost use Rattle.image_update.specs.Changes.{Changes};
    ghost use Rattle.image_update.specs.Encoding.{IsDifference};

    ghost Value = { Changes };

    ghost view = { λ d. record { steps = d.steps.items; put = d.put.items } };

    ghost invariant = { λ d. IsDifference (record { steps = d.steps.items; put = d.put.items }) };
}

// The most steps that a difference has room for.
const MOST_STEPS: usize = (LARGEST_DIFFERENCE - COUNT_BYTES) / STEP_BYTES;

/// What was built, where its encoding isn't longer than one may be.
fn within_largest(out: Builder) -> Result<Difference, NoDifference>
    requires even { IsEven (changes_of (built_in out)) }
    requires steps { AllByRecursion IsStep (changes_of (built_in out)).steps }
    ensures exact { IfOk result (λ d. d ≡ changes_of (built_in out)) }
    ensures small { IfOk result (λ d. encoded_length d ≤ 2 ^ 24) }
    ensures larger { IfErr result (λ why. (why ≡ NoDifference.NoMemory)
        ⊎ ((why ≡ NoDifference.TooLarge) × (2 ^ 24 < encoded_length (changes_of (built_in out))))) }
{
    let mut steps = out.done;
    steps.push(out.last)?;
    if steps.len() > MOST_STEPS {
        return Err(NoDifference::TooLarge);
    }
    if out.put.len() > LARGEST_DIFFERENCE - COUNT_BYTES - STEP_BYTES * steps.len() {
        return Err(NoDifference::TooLarge);
    }
    Ok(Difference {
        steps,
        put: out.put,
    })
}

/// What changed from the old front to the new one: `patched` makes the new one of it and the old
/// one. A unit that is the same in both isn't put.
pub fn difference_between(alloc: Global, old: &[u8], new: &[u8]) -> Result<Difference, NoDifference>
    ensures exact { IfOk result (λ d. d ≡ difference_of old.now new.now) }
    ensures whole { IfOk result (λ d. patched d old.now ≡ Some new.now) }
    ensures small { IfOk result (λ d. encoded_length d ≤ 2 ^ 24) }
    ensures larger { IfErr result (λ why. (why ≡ NoDifference.NoMemory)
        ⊎ ((why ≡ NoDifference.TooLarge)
        × (2 ^ 24 < encoded_length (difference_of old.now new.now)))) }
{
    let out = walk(alloc, old, new)?;
    within_largest(out)
}

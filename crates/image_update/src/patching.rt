//! What a difference makes of a front.
ghost use Rattle.std.specs.Prelude.{◌≡◌, ◌⊎◌, None, Some, IfOk, IfErr};
ghost use Rattle.image_update.specs.Changes.{applied, patched};

use crate::differing::Difference;
use crate::refusals::NotPatched;
use crate::steps::Step;
use std::alloc::Global;

/// What steps give of a front and of the bytes that they put.
fn apply_steps(alloc: Global, steps: &[Step], old: &[u8], put: &[u8]) -> Result<Vec<u8>, NotPatched>
    ensures whole { IfOk result (λ new. applied steps.now old.now put.now ≡ Some new.items) }
    ensures other { IfErr result (λ why. (why ≡ NotPatched.NoMemory)
        ⊎ ((why ≡ NotPatched.OtherFront) × (applied steps.now old.now put.now ≡ None))) }
{
    let mut new = Vec::new(alloc);
    let mut old = old;
    let mut put = put;
    for step in steps {
        if step.keep > old.len() as u64 {
            return Err(NotPatched::OtherFront);
        }
        let (kept, rest) = old.split_at(step.keep as usize);
        if step.skip > rest.len() as u64 || step.put > put.len() as u64 {
            return Err(NotPatched::OtherFront);
        }
        let (_, rest) = rest.split_at(step.skip as usize);
        let (came, put_rest) = put.split_at(step.put as usize);
        new.extend_from_slice(kept)?;
        new.extend_from_slice(came)?;
        old = rest;
        put = put_rest;
    }
    if !old.is_empty() || !put.is_empty() {
        return Err(NotPatched::OtherFront);
    }
    Ok(new)
}

/// The bytes of the front that a difference makes of this one: of the old front that it was taken
/// from, the new one. `OtherFront` exactly where it isn't of a front of as many bytes.
pub fn patched(alloc: Global, old: &[u8], difference: &Difference) -> Result<Vec<u8>, NotPatched>
    ensures whole { IfOk result (λ new. patched difference.now old.now ≡ Some new.items) }
    ensures other { IfErr result (λ why. (why ≡ NotPatched.NoMemory)
        ⊎ ((why ≡ NotPatched.OtherFront) × (patched difference.now old.now ≡ None))) }
{
    apply_steps(alloc, &difference.steps, old, &difference.put)
}

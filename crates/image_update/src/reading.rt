//! How a difference is read from its encoding.
ghost use Rattle.std.specs.Prelude.{◌≡◌, ◌≢◌, ◌⊎◌, ◌*◌, ◌≤◌, None, Some, IfOk, IfErr};
ghost use Rattle.std.specs.Prelude.{MatchResult, length};
ghost use Rattle.image_update.specs.Changes.{Changes};
ghost use Rattle.image_update.specs.Encoding.{IsDifference, changes_in, encoded, fault_of};
ghost use Rattle.image_update.specs.Encoding.{step_in, steps_in, count_put};

use crate::differing::Difference;
use crate::numbers::long_at;
use crate::refusals::Unread;
use crate::steps::{COUNT_BYTES, LARGEST_DIFFERENCE, STEP_BYTES, Step};
use std::alloc::Global;

/// The step that the bytes begin with.
#[tactic(auto, unfolding(crate::specs::Encoding::step_in))]
fn first_step(bytes: &[u8]) -> Step
    requires { 24 ≤ length bytes.now }
    ensures { result ≡ step_in bytes.now }
{
    Step {
        keep: long_at(bytes, 0),
        skip: long_at(bytes, 8),
        put: long_at(bytes, 16),
    }
}

/// The first steps, where they put this many bytes.
fn read_steps(alloc: Global, count: u64, bytes: &[u8], put: usize) -> Result<Vec<Step>, Unread>
    requires { 24 * count ≤ length bytes.now }
    ensures read { IfOk result (λ steps. steps.items ≡ steps_in count bytes.now) }
    ensures even { IfOk result (λ steps. count_put (steps_in count bytes.now) ≡ put) }
    ensures uneven { IfErr result (λ unread. (unread ≡ Unread.NoMemory)
        ⊎ ((unread ≡ Unread.Uneven) × (count_put (steps_in count bytes.now) ≢ put))) }
{
    let mut steps = Vec::new(alloc);
    let mut rest = bytes;
    let mut left = put as u64;
    for _ in 0..count {
        let step = first_step(rest);
        if step.put > left {
            return Err(Unread::Uneven);
        }
        left -= step.put;
        steps.push(step)?;
        let (_, others) = rest.split_at(STEP_BYTES);
        rest = others;
    }
    if left > 0 {
        return Err(Unread::Uneven);
    }
    Ok(steps)
}

/// What the bytes encode, or the first fault.
fn read_all(alloc: Global, bytes: &[u8]) -> Result<Difference, Unread>
    ensures read { IfOk result (λ d. d ≡ changes_in bytes.now) }
    ensures back { IfOk result (λ d. encoded (changes_in bytes.now) ≡ bytes.now) }
    ensures none { IfOk result (λ d. fault_of bytes.now ≡ None) }
    ensures fault { IfErr result (λ unread. (unread ≡ Unread.NoMemory)
        ⊎ (fault_of bytes.now ≡ Some unread)) }
{
    if bytes.len() > LARGEST_DIFFERENCE {
        return Err(Unread::TooLarge);
    }
    if bytes.len() < COUNT_BYTES {
        return Err(Unread::Cut);
    }
    let count = long_at(bytes, 0);
    let (_, rest) = bytes.split_at(COUNT_BYTES);
    if count > (rest.len() / STEP_BYTES) as u64 {
        return Err(Unread::Cut);
    }
    let (_, put_bytes) = rest.split_at(STEP_BYTES * count as usize);
    let steps = read_steps(alloc, count, rest, put_bytes.len())?;
    let mut put = Vec::new(alloc);
    put.extend_from_slice(put_bytes)?;
    Ok(Difference { steps, put })
}

/// The difference that the bytes encode, all of them. Otherwise the first fault: they are more than
/// an encoding may have, they end before the steps do, or those after the steps aren't as many as
/// these put.
pub fn decode(alloc: Global, bytes: &[u8]) -> Result<Difference, Unread>
    ensures found { IfOk result (λ d. bytes.now ≡ encoded d) }
    ensures read { IfOk result (λ d. d ≡ changes_in bytes.now) }
    ensures none { IfOk result (λ d. fault_of bytes.now ≡ None) }
    ensures fault { IfErr result (λ unread. (unread ≡ Unread.NoMemory)
        ⊎ (fault_of bytes.now ≡ Some unread)) }
    ensures only { (changes : Changes) → IsDifference changes → bytes.now ≡ encoded changes
        → MatchResult result (λ d. d ≡ changes) (λ unread. unread ≡ Unread.NoMemory) }
{
    read_all(alloc, bytes)
}

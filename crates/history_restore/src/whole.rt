//! All objects of a drive are made what they were at a moment.
ghost use Rattle.std.specs.Prelude.{◌≡◌, ◌<◌, IfOk, IfErr, MatchBool};
ghost use Rattle.drive.specs.Fields.{state_in, store_of};
ghost use Rattle.history_restore.specs.Keeping.{LeavesPast};
ghost use Rattle.history_restore.specs.Aims.{targets_of};
ghost use Rattle.history_restore.specs.Rows.{AscendBelow, is_among};
ghost use Rattle.history_restore.specs.Whole.{IsCounted, LeavesRest, RestoresEach};
ghost use Rattle.history_restore.specs.Whole.{RestoresInTurn, StopsAll};

use crate::aims::{Aim, own_aim};
use crate::failures::{Failure, unread};
use crate::restoring::{Restored, restore_object};
use drive::{Drive, Session};
use s4_types::{Moment, ObjectId, Refusal};
use segment_word::Naming;
use std::alloc::Global;

/// Whether an object is among those that are asked for.
pub(crate) fn is_among(asked: &[ObjectId], object: ObjectId) -> bool
    ensures { result ≡ is_among asked.now object }
{
    asked.iter().any(|one| *one == object)
}

/// Makes objects what they were at a moment, under ascending numbers.
fn restore_each<J: Naming>(
    alloc: Global,
    drive: &mut Drive<J>,
    session: &mut Session<J>,
    aims: &[Aim],
    at: Moment,
    now: Moment,
) -> Result<Vec<Restored>, Failure>
    requires { AscendBelow 0 (state_in drive.old).next (targets_of aims.now) }
    ensures each { IfOk result
        (λ all. RestoresEach (state_in drive.old) (state_in drive.new) at aims.now all.items) }
    ensures turn { IfOk result
        (λ all. RestoresInTurn (state_in drive.old) (store_of drive.old) now at all.items
        (state_in drive.new) (store_of drive.new)) }
    ensures counted { IfOk result
        (λ all. IsCounted (state_in drive.old) (state_in drive.new) now all.items) }
    ensures stopped { IfErr result (StopsAll (state_in drive.old) (state_in drive.new) at) }
    ensures rest { LeavesRest (state_in drive.old) (state_in drive.new) aims.now }
    ensures past { LeavesPast (state_in drive.old) (state_in drive.new) }
{
    let mut all = Vec::new(alloc);
    for aim in aims {
        let restored = restore_object(alloc, drive, session, aim, at, now)?;
        let Ok(()) = all.push(restored) else {
            return Err(unread(aim, Refusal::NoMemory));
        };
    }
    Ok(all)
}

/// Whether a number is above one and below another.
fn is_between(low: u64, number: u64, high: u64) -> bool
    ensures { MatchBool result ((low < number) × (number < high))
        ((low < number) × (number < high) → ⊥) }
{
    low < number && number < high
}

/// Whether the numbers under which objects are restored ascend from 1 on and are below the next
/// one.
#[tactic(auto, using(crate::proofs::Rows::ascend_ends, crate::proofs::Rows::ascend_whole))]
fn ascends_below(aims: &[Aim], next: ObjectId) -> bool
    ensures { MatchBool result (AscendBelow 0 next (targets_of aims.now))
        (AscendBelow 0 next (targets_of aims.now) → ⊥) }
{
    let mut last = 0;
    for aim in aims {
        let number = aim.target.number();
        if !is_between(last, number, next.number()) {
            return false;
        }
        last = number;
    }
    true
}

/// Makes these objects what they were at a moment, by requests at the moment `now` of the server's
/// clock, and says of each what was done, in their order: each by [`restore_object`]. The numbers
/// under which they are restored ascend, and were given.
///
/// A refusal says of which object and why, as [`Failure`] tells. What was done before it stays;
/// Expired comes where the floor has passed the moment by the changes that were made. NoObject of
/// object 0 where the numbers aren't such, and then nothing was done. An object that is made anew is
/// a new one and isn't visited again.
pub fn restore_these<J: Naming>(
    alloc: Global,
    drive: &mut Drive<J>,
    session: &mut Session<J>,
    aims: &[Aim],
    at: Moment,
    now: Moment,
) -> Result<Vec<Restored>, Failure>
    ensures each { IfOk result
        (λ all. RestoresEach (state_in drive.old) (state_in drive.new) at aims.now all.items) }
    ensures turn { IfOk result
        (λ all. RestoresInTurn (state_in drive.old) (store_of drive.old) now at all.items
        (state_in drive.new) (store_of drive.new)) }
    ensures counted { IfOk result
        (λ all. IsCounted (state_in drive.old) (state_in drive.new) now all.items) }
    ensures stopped { AscendBelow 0 (state_in drive.old).next (targets_of aims.now)
        → IfErr result (StopsAll (state_in drive.old) (state_in drive.new) at) }
    ensures rest { LeavesRest (state_in drive.old) (state_in drive.new) aims.now }
    ensures past { LeavesPast (state_in drive.old) (state_in drive.new) }
{
    if !ascends_below(aims, drive.next()) {
        let none = own_aim(ObjectId::new(0));
        return Err(unread(&none, Refusal::NoObject));
    }
    restore_each(alloc, drive, session, aims, at, now)
}

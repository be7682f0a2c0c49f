//! An object is made what it was at a moment.
ghost use Rattle.std.specs.Prelude.{◌≡◌, true, false, IfOk, IfErr, OnOk};
ghost use Rattle.s4_model.specs.Refusals.{present};
ghost use Rattle.s4_model.specs.VersionAt.{version_of};
ghost use Rattle.s4_model.specs.Visible.{IsVisible};
ghost use Rattle.drive.specs.Fields.{state_in, store_of};
ghost use Rattle.history_restore.specs.Asking.{IsMovedBy, is_of_room};
ghost use Rattle.history_restore.specs.Joining.{IsTaken};
ghost use Rattle.history_restore.specs.Plans.{IsPlan, change_count, is_joined};
ghost use Rattle.history_restore.specs.Keeping.{IsDatedFrom, LeavesPast, LeavesOthers};
ghost use Rattle.history_restore.specs.Restoring.{IsUnread, LacksRoom, Restores, IsStopped};
ghost use Rattle.history_restore.specs.Restoring.{StoresPlan, number_after};

use crate::aims::Aim;
use crate::changing::perform;
use crate::choosing::choose;
use crate::comparing::compare;
use crate::failures::{Failure, stopped, unread};
use crate::laws::a_plan_turns_back;
use crate::plans::{Plan, plan_of};
use drive::{Drive, Session};
use s4_types::{Moment, ObjectId, Refusal};
use segment_word::Naming;
use std::alloc::Global;

/// What was done to an object.
#[derive(Clone, Copy)]
pub struct Restored {
    /// The object, and the number under which it was compared.
    pub aim: Aim,
    /// The number that it has now: another one where it was made anew.
    pub number: ObjectId,
    pub plan: Plan,
}

/// What would be done under a number, so that an object is what it was at a moment, as long as its
/// journal has room for each run of blocks that differ. Nothing is done.
///
/// Future, Expired or Flushed where the moment can't be read; NoMemory where memory was refused;
/// Busy alone else.
pub fn plan_object<J: Naming>(
    alloc: Global,
    drive: &mut Drive<J>,
    session: &mut Session<J>,
    aim: &Aim,
    at: Moment,
) -> Result<Plan, Refusal>
    ensures plan { IfOk result
        (IsPlan (version_of (state_in drive.old) aim.now.object at)
        (present (state_in drive.old) aim.now.target)) }
    ensures apart { IfOk result (λ plan. is_joined plan ≡ false) }
    ensures visible { OnOk result (IsVisible (state_in drive.old) aim.now.object at) }
    ensures refused { IfErr result (IsUnread (state_in drive.old) aim.now.object at) }
    ensures state { state_in drive.new ≡ state_in drive.old }
    ensures store { store_of drive.new ≡ store_of drive.old }
{
    let compared = compare(alloc, drive, session, aim, at)?;
    let runs = compared.runs.as_slice();
    Ok(plan_of(&compared.earlier, &compared.latest, runs))
}

/// Makes an object what it was at a moment, by requests at the moment `now` of the server's clock:
/// exactly what [`plan_object`] plans; or where the object's journal is too full for that, with
/// fewer writes, of runs joined that one block lies between. The first of these changes has the
/// greater of `now` and of the first moment after the clock, each further one the next. An object
/// that was deleted since stays deleted, as numbers are given once; what it was is made anew under
/// the next number. Where the number is that of a stand-in, this is what becomes what the object
/// was.
///
/// A refusal says why, as [`Failure`] tells. What was done before it stays.
pub fn restore_object<J: Naming>(
    alloc: Global,
    drive: &mut Drive<J>,
    session: &mut Session<J>,
    aim: &Aim,
    at: Moment,
    now: Moment,
) -> Result<Restored, Failure>
    ensures restored { IfOk result (Restores (state_in drive.old) (state_in drive.new) aim.now at) }
    ensures taken { IfOk result
        (λ restored. IsTaken (state_in drive.old) (store_of drive.old) aim.now at restored.plan) }
    ensures stopped { IfErr result
        (IsStopped (state_in drive.old) (state_in drive.new) aim.now at) }
    ensures stored { IfOk result
        (StoresPlan (state_in drive.old) aim.now at (store_of drive.old) (store_of drive.new)) }
    ensures lacks { IfErr result
        (λ failure. is_of_room failure.refusal ≡ true
        → LacksRoom (state_in drive.old) (store_of drive.old) aim.now at failure.refusal) }
    ensures moved { IfOk result
        (λ restored. IsMovedBy (state_in drive.old) now (change_count restored.plan)
        (state_in drive.new)) }
    ensures dated { IsDatedFrom now (state_in drive.old) (state_in drive.new) }
    ensures others { LeavesOthers (number_after (state_in drive.old) aim.now at)
        (state_in drive.old) (state_in drive.new) }
    ensures past { LeavesPast (state_in drive.old) (state_in drive.new) }
{
    a_plan_turns_back();
    let chosen = match choose(alloc, drive, session, aim, at) {
        Ok(chosen) => chosen,
        Err(refusal) => return Err(unread(aim, refusal)),
    };
    let plan = chosen.plan;
    let before = &chosen.compared.earlier;
    let runs = chosen.compared.runs.as_slice();
    let target = aim.target;
    match perform(alloc, drive, session, target, before, runs, plan, now) {
        Ok(number) => Ok(Restored {
            aim: *aim,
            number,
            plan,
        }),
        Err(refusal) => Err(stopped(aim, refusal, at, &chosen.compared.latest)),
    }
}

//! What restoring objects asks for, before anything is changed.
ghost use Rattle.std.specs.Prelude.{◌≡◌, ◌+◌, ◌≤◌, if◌then◌else◌, min, filter, IfOk, IfErr};
ghost use Rattle.s4_model.specs.Refusals.{last_number};
ghost use Rattle.drive.specs.Fields.{state_in, store_of};
ghost use Rattle.history_restore.specs.Plans.{change_count, count_of, count_of_changes};
ghost use Rattle.history_restore.specs.Planning.{IsPlanned, IsUnplanned, PlansEach, aims_planned};
ghost use Rattle.history_restore.specs.Planning.{changes_planned, is_older};
ghost use Rattle.history_restore.specs.Whole.{is_chosen};

use crate::aims::Aim;
use crate::failures::{Failure, unread};
use crate::plans::{Changes, Plan};
use crate::restoring::plan_object;
use drive::{Drive, Session};
use s4_types::{Moment, Refusal};
use segment_word::Naming;
use std::alloc::{AllocError, Global};

/// What would be done to an object.
#[derive(Clone, Copy)]
pub struct ObjectPlan {
    /// The object, and the number under which that is done.
    pub aim: Aim,
    pub plan: Plan,
}

fn plan_one<J: Naming>(
    alloc: Global,
    drive: &mut Drive<J>,
    session: &mut Session<J>,
    aim: &Aim,
    at: Moment,
) -> Result<ObjectPlan, Failure>
    ensures aim { IfOk result (λ planned. planned.aim ≡ aim.now) }
    ensures planned { IfOk result (IsPlanned (state_in drive.old) at) }
    ensures unplanned { IfErr result (IsUnplanned (state_in drive.old) at) }
    ensures state { state_in drive.new ≡ state_in drive.old }
    ensures store { store_of drive.new ≡ store_of drive.old }
{
    match plan_object(alloc, drive, session, aim, at) {
        Ok(plan) => Ok(ObjectPlan { aim: *aim, plan }),
        Err(refusal) => Err(unread(aim, refusal)),
    }
}

/// What would be done under these numbers, in their order. Nothing is done.
///
/// Future, Expired or Flushed where the moment can't be read of one of these objects, with its
/// number; NoMemory where memory was refused, Busy where a read would have needed a pin.
pub fn plan_each<J: Naming>(
    alloc: Global,
    drive: &mut Drive<J>,
    session: &mut Session<J>,
    aims: &[Aim],
    at: Moment,
) -> Result<Vec<ObjectPlan>, Failure>
    ensures planned { IfOk result
        (λ plans. PlansEach (state_in drive.old) at aims.now plans.items) }
    ensures unplanned { IfErr result (IsUnplanned (state_in drive.old) at) }
    ensures state { state_in drive.new ≡ state_in drive.old }
    ensures store { store_of drive.new ≡ store_of drive.old }
{
    let mut plans = Vec::new(alloc);
    for aim in aims {
        let planned = plan_one(alloc, drive, session, aim, at)?;
        let Ok(()) = plans.push(planned) else {
            return Err(unread(aim, Refusal::NoMemory));
        };
    }
    Ok(plans)
}

fn count_of<T: Copy>(part: Option<T>) -> u64
    ensures count { result ≡ count_of part }
    ensures most { result ≤ 1 }
{
    match part {
        None => 0,
        Some(_) => 1,
    }
}

fn count_if(wanted: bool) -> u64
    ensures count { result ≡ if wanted then 1 else 0 }
    ensures most { result ≤ 1 }
{
    if wanted { 1 } else { 0 }
}

fn count_of_changes(changes: &Changes) -> u64
    ensures { result ≡ min last_number (count_of_changes changes.now) }
{
    let others = count_of(changes.cut) + count_if(changes.attribute);
    changes.writes.saturating_add(others)
}

/// How many changes a plan has: each is one request, and one moment. The greatest number where
/// there are more.
fn change_count(plan: &Plan) -> u64
    ensures { result ≡ min last_number (change_count plan.now) }
{
    match plan {
        Plan::Keep => 0,
        Plan::Delete => 1,
        Plan::Remake(changes) => count_of_changes(changes).saturating_add(1),
        Plan::Change(changes) => count_of_changes(changes),
    }
}

/// How many changes plans have together: as many moments as restoring takes. The greatest number
/// where there are more.
pub fn count_changes(plans: &[ObjectPlan]) -> u64
    ensures { result ≡ min last_number (changes_planned plans.now) }
{
    let mut count: u64 = 0;
    for planned in plans {
        count = count.saturating_add(change_count(&planned.plan));
    }
    count
}

/// Whether a plan is of an object that was there at the moment, or isn't there any more. One that
/// was made since is to be deleted.
fn is_older(plan: &Plan) -> bool
    ensures { result ≡ is_older plan.now }
{
    match plan {
        Plan::Delete => false,
        _ => true,
    }
}

/// Whether an object is to be restored: where newer ones are kept, one that wasn't made since.
fn is_chosen(planned: &ObjectPlan, keep_newer: bool) -> bool
    ensures { result ≡ is_chosen keep_newer planned.now }
{
    !keep_newer || is_older(&planned.plan)
}

/// Of these plans those of objects that are to be restored: where newer objects are kept without
/// those that were made since the moment.
pub fn chosen_plans(
    alloc: Global,
    plans: &[ObjectPlan],
    keep_newer: bool,
) -> Result<Vec<ObjectPlan>, AllocError>
    ensures { IfOk result (λ chosen. chosen.items ≡ filter (is_chosen keep_newer) plans.now) }
{
    let mut chosen = Vec::new(alloc);
    for planned in plans {
        if is_chosen(planned, keep_newer) {
            chosen.push(*planned)?;
        }
    }
    Ok(chosen)
}

/// What plans are of, in their order.
pub fn planned_aims(alloc: Global, plans: &[ObjectPlan]) -> Result<Vec<Aim>, AllocError>
    ensures { IfOk result (λ aims. aims.items ≡ aims_planned plans.now) }
{
    let mut aims = Vec::new(alloc);
    for planned in plans {
        aims.push(planned.aim)?;
    }
    Ok(aims)
}

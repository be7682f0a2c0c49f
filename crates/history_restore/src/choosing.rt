//! Which plan of an object is taken: where its journal is too full for the one by single runs, the
//! one by runs that are joined.
ghost use Rattle.std.specs.Prelude.{◌≡◌, true, false, IfOk, IfErr, MatchOption, OnOk};
ghost use Rattle.s4_model.specs.Refusals.{present};
ghost use Rattle.s4_model.specs.VersionAt.{version_of};
ghost use Rattle.s4_model.specs.Visible.{IsVisible};
ghost use Rattle.drive.specs.Fields.{state_in, store_of};
ghost use Rattle.history_restore.specs.Joining.{IsTaken, is_too_full};
ghost use Rattle.history_restore.specs.Plans.{IsPlan, runs_between, runs_planned};
ghost use Rattle.history_restore.specs.Restoring.{IsUnread};

use crate::aims::Aim;
use crate::comparing::{Compared, compare, runs_of};
use crate::costs::is_too_long;
use crate::plans::{Changes, Plan, joined_plan, plan_of};
use drive::{Drive, Session};
use s4_types::{Moment, ObjectId, Refusal};
use segment_word::Naming;
use std::alloc::Global;

/// What an object was and what is there, and what is done to it.
#[derive(Drop)]
pub(crate) struct Chosen {
    /// With the runs that are written.
    pub(crate) compared: Compared,
    pub(crate) plan: Plan,
}

/// The changes of a plan by single runs, where the object's journal is too full for it.
fn too_full<J: Naming>(
    drive: &mut Drive<J>,
    object: ObjectId,
    compared: &Compared,
    plan: Plan,
) -> Option<Changes>
    requires { compared.now.runs.items
        ≡ runs_between 0 compared.now.earlier compared.now.latest }
    ensures full { MatchOption result
        (is_too_full (store_of drive.old) (state_in drive.old).clock object compared.now.earlier
        compared.now.latest plan ≡ false)
        (λ changes. (plan ≡ Plan.Change changes)
        × (is_too_full (store_of drive.old) (state_in drive.old).clock object
        compared.now.earlier compared.now.latest plan ≡ true)) }
    ensures state { state_in drive.new ≡ state_in drive.old }
    ensures store { store_of drive.new ≡ store_of drive.old }
{
    match plan {
        Plan::Change(changes) => {
            let runs = compared.runs.as_slice();
            if is_too_long(drive, object, &compared.earlier, runs, &changes) {
                return Some(changes);
            }
            None
        }
        _ => None,
    }
}

/// The plan that is taken of an object, by what it was at a moment that can be read: where its
/// journal is too full for the one by single runs, that by runs of which those are joined that one
/// block lies between. Nothing is done.
pub(crate) fn choose<J: Naming>(
    alloc: Global,
    drive: &mut Drive<J>,
    session: &mut Session<J>,
    aim: &Aim,
    at: Moment,
) -> Result<Chosen, Refusal>
    ensures earlier { IfOk result
        (λ c. c.compared.earlier ≡ version_of (state_in drive.old) aim.now.object at) }
    ensures latest { IfOk result
        (λ c. c.compared.latest ≡ present (state_in drive.old) aim.now.target) }
    ensures runs { IfOk result
        (λ c. c.compared.runs.items
        ≡ runs_planned c.plan c.compared.earlier c.compared.latest) }
    ensures plan { IfOk result (λ c. IsPlan c.compared.earlier c.compared.latest c.plan) }
    ensures taken { IfOk result
        (λ c. IsTaken (state_in drive.old) (store_of drive.old) aim.now at c.plan) }
    ensures visible { OnOk result (IsVisible (state_in drive.old) aim.now.object at) }
    ensures refused { IfErr result (IsUnread (state_in drive.old) aim.now.object at) }
    ensures state { state_in drive.new ≡ state_in drive.old }
    ensures store { store_of drive.new ≡ store_of drive.old }
{
    let mut compared = compare(alloc, drive, session, aim, at)?;
    let single = compared.runs.as_slice();
    let plan = plan_of(&compared.earlier, &compared.latest, single);
    let Some(changes) = too_full(drive, aim.target, &compared, plan) else {
        return Ok(Chosen { compared, plan });
    };
    let Ok(runs) = runs_of(alloc, &compared.earlier, &compared.latest, 1) else {
        return Err(Refusal::NoMemory);
    };
    let plan = joined_plan(changes, runs.as_slice());
    compared.runs = runs;
    Ok(Chosen { compared, plan })
}

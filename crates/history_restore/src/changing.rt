//! What a plan asks for, done by requests.
ghost use Rattle.std.specs.Prelude.{◌≡◌, ◌+◌, ◌-◌, ◌≤◌, [], ◌∷◌, true, false, length};
ghost use Rattle.std.specs.Prelude.{IfOk, IfErr, OnOk};
ghost use Rattle.s4_types.specs.declared.changes.Change.TheVariants as change;
ghost use Rattle.s4_types.specs.declared.versions.Version.TheVariants.{Absent};
ghost use Rattle.s4_types.specs.declared.limits.TheConstants.{OBJECT_BYTES, ATTRIBUTE_BYTES};
ghost use Rattle.s4_model.specs.Limits.{IsWithinLimits};
ghost use Rattle.s4_model.specs.Refusals.{present, is_absent};
ghost use Rattle.s4_model.specs.Step.{part};
ghost use Rattle.drive.specs.Fields.{state_in, store_of};
ghost use Rattle.history_view.specs.Contents.{attribute_of, content_of as bytes_of};
ghost use Rattle.history_restore.specs.Content.{content_of, holding};
ghost use Rattle.history_restore.specs.Plans.{cut_by, runs_by, attribute_by, turned};
ghost use Rattle.history_restore.specs.Plans.{number_by};
ghost use Rattle.history_restore.specs.Plans.{next_by_plan, FitsCut, IsWithinPlan};
ghost use Rattle.history_restore.specs.Plans.{IsThereFor};
ghost use Rattle.history_restore.specs.Plans.{cut_changes, attribute_changes};
ghost use Rattle.history_restore.specs.Plans.{runs_changes, changes_by};
ghost use Rattle.history_restore.specs.Plans.{AreWithin};
ghost use Rattle.history_restore.specs.Asking.{is_left, AsksFor};
ghost use Rattle.history_restore.specs.Keeping.{LeavesPast, LeavesOthers};

use crate::asking::ask;
use crate::plans::{Changes, Plan};
use block_runs::Run;
use drive::{Drive, Session};
use history_view::{attribute_of, content_of};
use s4_types::{Bytes, Moment, ObjectId, ObjectRequest, Refusal, Version};
use segment_word::Naming;
use std::alloc::Global;

/// The bytes of a run.
fn part(bytes: &[u8], run: Run) -> &[u8]
    requires { AreWithin bytes.now (run ∷ []) }
    ensures { result.now ≡ part bytes.now run.offset (run.end - run.offset) }
{
    &bytes[run.offset as usize..run.end as usize]
}

/// The object is cut to a size, where one is given.
fn cut<J: Naming>(
    drive: &mut Drive<J>,
    session: &mut Session<J>,
    object: ObjectId,
    size: Option<u64>,
    now: Moment,
) -> Result<(), Refusal>
    ensures content { OnOk result
        (content_of (present (state_in drive.new) object)
        ≡ content_of (cut_by size object 0 (present (state_in drive.old) object))) }
    ensures next { OnOk result ((state_in drive.new).next ≡ (state_in drive.old).next) }
    ensures refused { IfErr result
        (λ e. is_absent (present (state_in drive.old) object) ≡ false → FitsCut size
        → is_left e ≡ true) }
    ensures asked { AsksFor drive.old now (cut_changes object size) result drive.new }
    ensures others { LeavesOthers object (state_in drive.old) (state_in drive.new) }
    ensures past { LeavesPast (state_in drive.old) (state_in drive.new) }
{
    match size {
        None => Ok(()),
        Some(size) => ask(
            drive,
            session,
            ObjectRequest::Truncate { object, size },
            now,
        ),
    }
}

/// The bytes of a run are written.
fn write_run<J: Naming>(
    alloc: Global,
    drive: &mut Drive<J>,
    session: &mut Session<J>,
    object: ObjectId,
    bytes: &[u8],
    run: Run,
    now: Moment,
) -> Result<(), Refusal>
    requires { AreWithin bytes.now (run ∷ []) }
    ensures content { OnOk result
        (content_of (present (state_in drive.new) object)
        ≡ content_of
        (runs_by bytes.now (run ∷ []) object 0 (present (state_in drive.old) object))) }
    ensures next { OnOk result ((state_in drive.new).next ≡ (state_in drive.old).next) }
    ensures refused { IfErr result
        (λ e. is_absent (present (state_in drive.old) object) ≡ false
        → length bytes.now ≤ OBJECT_BYTES → is_left e ≡ true) }
    ensures asked { AsksFor drive.old now (runs_changes object bytes.now (run ∷ [])) result
        drive.new }
    ensures others { LeavesOthers object (state_in drive.old) (state_in drive.new) }
    ensures past { LeavesPast (state_in drive.old) (state_in drive.new) }
{
    let new = part(bytes, run);
    let Ok(bytes) = Bytes::from_slice(alloc, new) else {
        return Err(Refusal::NoMemory);
    };
    let update = ObjectRequest::Write {
        object,
        offset: run.offset,
        bytes,
    };
    ask(drive, session, update, now)
}

/// Bytes are written, run by run.
fn write_runs<J: Naming>(
    alloc: Global,
    drive: &mut Drive<J>,
    session: &mut Session<J>,
    object: ObjectId,
    bytes: &[u8],
    runs: &[Run],
    now: Moment,
) -> Result<(), Refusal>
    requires { AreWithin bytes.now runs.now }
    ensures content { OnOk result
        (content_of (present (state_in drive.new) object)
        ≡ content_of
        (runs_by bytes.now runs.now object 0 (present (state_in drive.old) object))) }
    ensures next { OnOk result ((state_in drive.new).next ≡ (state_in drive.old).next) }
    ensures refused { IfErr result
        (λ e. is_absent (present (state_in drive.old) object) ≡ false
        → length bytes.now ≤ OBJECT_BYTES → is_left e ≡ true) }
    ensures asked { AsksFor drive.old now (runs_changes object bytes.now runs.now) result
        drive.new }
    ensures others { LeavesOthers object (state_in drive.old) (state_in drive.new) }
    ensures past { LeavesPast (state_in drive.old) (state_in drive.new) }
{
    for run in runs {
        write_run(alloc, drive, session, object, bytes, *run, now)?;
    }
    Ok(())
}

/// The attribute is replaced, where that is wanted.
fn set_attribute<J: Naming>(
    alloc: Global,
    drive: &mut Drive<J>,
    session: &mut Session<J>,
    object: ObjectId,
    attribute: &[u8],
    wanted: bool,
    now: Moment,
) -> Result<(), Refusal>
    ensures content { OnOk result
        (content_of (present (state_in drive.new) object)
        ≡ content_of
        (attribute_by attribute.now wanted object 0
        (present (state_in drive.old) object))) }
    ensures next { OnOk result ((state_in drive.new).next ≡ (state_in drive.old).next) }
    ensures refused { IfErr result
        (λ e. is_absent (present (state_in drive.old) object) ≡ false
        → length attribute.now ≤ ATTRIBUTE_BYTES → is_left e ≡ true) }
    ensures asked { AsksFor drive.old now (attribute_changes object attribute.now wanted) result
        drive.new }
    ensures others { LeavesOthers object (state_in drive.old) (state_in drive.new) }
    ensures past { LeavesPast (state_in drive.old) (state_in drive.new) }
{
    if !wanted {
        return Ok(());
    }
    let Ok(attribute) = Bytes::from_slice(alloc, attribute) else {
        return Err(Refusal::NoMemory);
    };
    ask(
        drive,
        session,
        ObjectRequest::SetAttr { object, attribute },
        now,
    )
}

/// The changes of an object that was there and is there.
fn change<J: Naming>(
    alloc: Global,
    drive: &mut Drive<J>,
    session: &mut Session<J>,
    object: ObjectId,
    before: &Version,
    runs: &[Run],
    changes: Changes,
    now: Moment,
) -> Result<(), Refusal>
    requires { IsWithinPlan (bytes_of before.now) runs.now (Plan.Change changes) }
    ensures content { OnOk result
        (content_of (present (state_in drive.new) object)
        ≡ content_of
        (turned before.now runs.now (Plan.Change changes) object 0
        (present (state_in drive.old) object))) }
    ensures next { OnOk result ((state_in drive.new).next ≡ (state_in drive.old).next) }
    ensures refused { IfErr result
        (λ e. IsWithinLimits before.now
        → is_absent (present (state_in drive.old) object) ≡ false → is_left e ≡ true) }
    ensures asked { AsksFor drive.old now (changes_by before.now runs.now (Plan.Change changes) 0
        object) result drive.new }
    ensures others { LeavesOthers object (state_in drive.old) (state_in drive.new) }
    ensures past { LeavesPast (state_in drive.old) (state_in drive.new) }
{
    let bytes = content_of(before);
    let attribute = attribute_of(before);
    cut(drive, session, object, changes.cut, now)?;
    write_runs(alloc, drive, session, object, bytes, runs, now)?;
    set_attribute(
        alloc,
        drive,
        session,
        object,
        attribute,
        changes.attribute,
        now,
    )
}

/// The next object is made, with the attribute that a version has.
fn create<J: Naming>(
    alloc: Global,
    drive: &mut Drive<J>,
    session: &mut Session<J>,
    attribute: &[u8],
    now: Moment,
) -> Result<ObjectId, Refusal>
    ensures number { IfOk result (λ number. number ≡ (state_in drive.old).next) }
    ensures content { OnOk result
        (content_of (present (state_in drive.new) (state_in drive.old).next)
        ≡ holding [] attribute.now) }
    ensures next { OnOk result ((state_in drive.new).next ≡ (state_in drive.old).next + 1) }
    ensures refused { IfErr result
        (λ e. length attribute.now ≤ ATTRIBUTE_BYTES → is_left e ≡ true) }
    ensures asked { AsksFor drive.old now
        (change.Create (state_in drive.old).next attribute.now ∷ []) result drive.new }
    ensures others { LeavesOthers (state_in drive.old).next (state_in drive.old)
        (state_in drive.new) }
    ensures past { LeavesPast (state_in drive.old) (state_in drive.new) }
{
    let number = drive.next();
    let Ok(attribute) = Bytes::from_slice(alloc, attribute) else {
        return Err(Refusal::NoMemory);
    };
    ask(drive, session, ObjectRequest::Create { attribute }, now)?;
    Ok(number)
}

/// An object is made anew, with the attribute of a version, and changed as that says.
fn remake<J: Naming>(
    alloc: Global,
    drive: &mut Drive<J>,
    session: &mut Session<J>,
    before: &Version,
    runs: &[Run],
    changes: Changes,
    now: Moment,
) -> Result<ObjectId, Refusal>
    requires { IsWithinPlan (bytes_of before.now) runs.now (Plan.Remake changes) }
    ensures number { IfOk result (λ number. number ≡ (state_in drive.old).next) }
    ensures content { OnOk result
        (content_of (present (state_in drive.new) (state_in drive.old).next)
        ≡ content_of (turned before.now runs.now (Plan.Remake changes) 0 0 Absent)) }
    ensures next { OnOk result ((state_in drive.new).next ≡ (state_in drive.old).next + 1) }
    ensures refused { IfErr result (λ e. IsWithinLimits before.now → is_left e ≡ true) }
    ensures asked { AsksFor drive.old now (changes_by before.now runs.now (Plan.Remake changes)
        (state_in drive.old).next 0) result drive.new }
    ensures others { LeavesOthers (state_in drive.old).next (state_in drive.old)
        (state_in drive.new) }
    ensures past { LeavesPast (state_in drive.old) (state_in drive.new) }
{
    let number = create(alloc, drive, session, attribute_of(before), now)?;
    change(alloc, drive, session, number, before, runs, changes, now)?;
    Ok(number)
}

/// Does what a plan asks for, and answers the object's number. What the object was is `before`, and
/// it differs from what it is in these runs.
pub(crate) fn perform<J: Naming>(
    alloc: Global,
    drive: &mut Drive<J>,
    session: &mut Session<J>,
    object: ObjectId,
    before: &Version,
    runs: &[Run],
    plan: Plan,
    now: Moment,
) -> Result<ObjectId, Refusal>
    requires { IsWithinPlan (bytes_of before.now) runs.now plan }
    ensures number { IfOk result
        (λ number. number ≡ number_by plan (state_in drive.old).next object) }
    ensures content { OnOk result
        (content_of (present (state_in drive.new) (number_by plan (state_in drive.old).next object))
        ≡ content_of
        (turned before.now runs.now plan object 0 (present (state_in drive.old) object))) }
    ensures next { OnOk result
        ((state_in drive.new).next ≡ next_by_plan plan (state_in drive.old).next) }
    ensures refused { IfErr result
        (λ e. IsWithinLimits before.now
        → IsThereFor plan (present (state_in drive.old) object) → is_left e ≡ true) }
    ensures asked { AsksFor drive.old now
        (changes_by before.now runs.now plan (state_in drive.old).next object) result drive.new }
    ensures others { LeavesOthers (number_by plan (state_in drive.old).next object)
        (state_in drive.old) (state_in drive.new) }
    ensures past { LeavesPast (state_in drive.old) (state_in drive.new) }
{
    match plan {
        Plan::Keep => Ok(object),
        Plan::Delete => {
            ask(drive, session, ObjectRequest::Delete { object }, now)?;
            Ok(object)
        }
        Plan::Remake(changes) => remake(alloc, drive, session, before, runs, changes, now),
        Plan::Change(changes) => {
            change(alloc, drive, session, object, before, runs, changes, now)?;
            Ok(object)
        }
    }
}

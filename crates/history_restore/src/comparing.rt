//! What an object was at a moment, beside what is there now under the number under which it is
//! restored.
ghost use Rattle.std.specs.Prelude.{◌≡◌, IfOk, IfErr, OnOk};
ghost use Rattle.s4_model.specs.Refusals.{present};
ghost use Rattle.s4_model.specs.VersionAt.{version_of};
ghost use Rattle.s4_model.specs.Visible.{IsVisible};
ghost use Rattle.drive.specs.Fields.{state_in, store_of};
ghost use Rattle.history_restore.specs.Plans.{runs_between};
ghost use Rattle.history_restore.specs.Restoring.{IsUnread};

use crate::aims::Aim;
use block_runs::{Run, runs_to};
use drive::{Drive, Session};
use history_view::{content_of, version_at};
use s4_types::{Moment, Refusal, Version};
use segment_word::Naming;
use std::alloc::{AllocError, Global};

/// What an object was, and what it is compared with.
#[derive(Drop)]
pub(crate) struct Compared {
    /// What the object was at the moment.
    pub(crate) earlier: Version,
    /// What is there now.
    pub(crate) latest: Version,
    /// Where their bytes differ, once the latest are cut: single runs.
    pub(crate) runs: Vec<Run>,
}

/// What an object was at a moment that can be read, and what is there now under its number or that
/// of its stand-in.
pub(crate) fn compare<J: Naming>(
    alloc: Global,
    drive: &mut Drive<J>,
    session: &mut Session<J>,
    aim: &Aim,
    at: Moment,
) -> Result<Compared, Refusal>
    ensures earlier { IfOk result
        (λ c. c.earlier ≡ version_of (state_in drive.old) aim.now.object at) }
    ensures latest { IfOk result (λ c. c.latest ≡ present (state_in drive.old) aim.now.target) }
    ensures runs { IfOk result (λ c. c.runs.items ≡ runs_between 0 c.earlier c.latest) }
    ensures visible { OnOk result (IsVisible (state_in drive.old) aim.now.object at) }
    ensures refused { IfErr result (IsUnread (state_in drive.old) aim.now.object at) }
    ensures state { state_in drive.new ≡ state_in drive.old }
    ensures store { store_of drive.new ≡ store_of drive.old }
{
    drive.rules();
    let clock = drive.clock();
    let earlier = version_at(alloc, drive, session, aim.object, at)?;
    let latest = version_at(alloc, drive, session, aim.target, clock)?;
    let Ok(runs) = runs_of(alloc, &earlier, &latest, 0) else {
        return Err(Refusal::NoMemory);
    };
    Ok(Compared {
        earlier,
        latest,
        runs,
    })
}

/// Where the bytes of what an object was differ from those that it has, once these are cut, as runs
/// of which those are one that no more than this many blocks lie between.
pub(crate) fn runs_of(
    alloc: Global,
    before: &Version,
    now: &Version,
    gap: u64,
) -> Result<Vec<Run>, AllocError>
    ensures { IfOk result (λ runs. runs.items ≡ runs_between gap before.now now.now) }
{
    runs_to(alloc, content_of(before), content_of(now), gap)
}

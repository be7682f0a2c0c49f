//! Objects are tried one after the other, also after one that can't be restored.
ghost use Rattle.std.specs.Prelude.{◌≡◌, ◌++◌, ◌∷◌, [], IfErr, IfOk, OnOk};
ghost use Rattle.s4_images.specs.Failures.{HasNoMoments};
ghost use Rattle.restore_trials.specs.Trying.{AreRestoredOver, Carries, PassesFine, RestoresAll};
ghost use Rattle.restore_trials.specs.Trying.{TriesFine};

use drive::{Drive, Session};
use history_restore::{Aim, Changes, ObjectPlan, Plan, restore_object};
use journal_chain::packing::blocks_needed;
use restore_orders::{Moments, failure_of};
use restore_search::{Lack, Lacking};
use s4_images::Failure;
use s4_types::Refusal;
use s4_types::limits::{OBJECT_BLOCKS, SHORTEST_ENTRY_BYTES};
use segment_word::Naming;
use std::alloc::Global;
use undo_redo::entry_sizes;

/// An object under the number under which it isn't restored.
pub(crate) fn lacking_of(aim: &Aim, lack: Lack) -> Lacking
    ensures { result ≡ record { object = aim.now.target; lack = lack } }
{
    Lacking {
        object: aim.target,
        lack,
    }
}

/// Adds to a list. An error where memory was refused.
pub(crate) fn push<T: Drop>(list: &mut Vec<T>, item: T) -> Result<(), Failure>
    ensures pushed { OnOk result (list.new.items ≡ list.old.items ++ item ∷ []) }
    ensures style { IfErr result HasNoMoments }
{
    match list.push(item) {
        Ok(()) => Ok(()),
        Err(_) => Err(Failure::from(Refusal::NoMemory)),
    }
}

/// How far a trial came.
#[derive(Drop)]
struct Progress {
    /// What can't be had in the room that is left, whatever is tried before it.
    deferred: Vec<ObjectPlan>,
    /// How many blocks were appended in part for what wasn't restored then.
    wasted: usize,
}

/// Restores each of these that can be, one after the other. What certainly isn't comes last, so
/// that it takes nothing from the others. Where nothing is listed as lacking, all of these were
/// restored.
pub(crate) fn try_all<J: Naming>(
    alloc: Global,
    drive: &mut Drive<J>,
    session: &mut Session<J>,
    moments: &Moments,
    chosen: &[ObjectPlan],
    lacking: &mut Vec<Lacking>,
) -> Result<(), Failure>
    ensures carries { OnOk result
        (Carries moments.now drive.old lacking.old.items drive.new lacking.new.items) }
    ensures fine { OnOk result
        (lacking.new.items ≡ [] → RestoresAll drive.old moments.now chosen.now drive.new) }
{
    let mut progress = Progress {
        deferred: Vec::new(alloc),
        wasted: 0,
    };
    for planned in chosen {
        try_planned(
            alloc,
            drive,
            session,
            moments,
            planned,
            &mut progress,
            lacking,
        )?;
    }
    let deferred = progress.deferred.as_slice();
    try_deferred(alloc, drive, session, moments, deferred, lacking)
}

// Tries what was put off, one after the other.
fn try_deferred<J: Naming>(
    alloc: Global,
    drive: &mut Drive<J>,
    session: &mut Session<J>,
    moments: &Moments,
    deferred: &[ObjectPlan],
    lacking: &mut Vec<Lacking>,
) -> Result<(), Failure>
    ensures carries { OnOk result
        (Carries moments.now drive.old lacking.old.items drive.new lacking.new.items) }
    ensures fine { OnOk result
        (lacking.new.items ≡ []
        → (lacking.old.items ≡ []) × AreRestoredOver drive.old moments.now deferred.now drive.new) }
{
    for planned in deferred {
        let _is_restored = try_aim(alloc, drive, session, moments, &planned.aim, true, lacking)?;
    }
    Ok(())
}

// Restores one of these, or puts it off where it certainly can't be restored. Once blocks were
// wasted it isn't said of anything that it lacks blocks, since it may have found them before.
fn try_planned<J: Naming>(
    alloc: Global,
    drive: &mut Drive<J>,
    session: &mut Session<J>,
    moments: &Moments,
    planned: &ObjectPlan,
    progress: &mut Progress,
    lacking: &mut Vec<Lacking>,
) -> Result<(), Failure>
    ensures carries { OnOk result
        (Carries moments.now drive.old lacking.old.items drive.new lacking.new.items) }
    ensures fine { OnOk result (lacking.new.items ≡ []
        → PassesFine drive.old moments.now planned.now lacking.old.items progress.old.deferred.items progress.new.deferred.items progress.old.wasted progress.new.wasted drive.new) }
{
    let room = drive.room();
    if room.saturating_add(progress.wasted) < least_blocks(&planned.plan) {
        return push(&mut progress.deferred, *planned);
    }
    let is_sure = progress.wasted == 0;
    let is_restored = try_aim(
        alloc,
        drive,
        session,
        moments,
        &planned.aim,
        is_sure,
        lacking,
    )?;
    if !is_restored {
        let used = room.saturating_sub(drive.room());
        progress.wasted = progress.wasted.saturating_add(used);
    }
    Ok(())
}

// Whether an object is restored. Where it is refused for a full journal, or for a lack of blocks
// and that is sure, that is added.
fn try_aim<J: Naming>(
    alloc: Global,
    drive: &mut Drive<J>,
    session: &mut Session<J>,
    moments: &Moments,
    aim: &Aim,
    is_sure: bool,
    lacking: &mut Vec<Lacking>,
) -> Result<bool, Failure>
    ensures carries { OnOk result
        (Carries moments.now drive.old lacking.old.items drive.new lacking.new.items) }
    ensures fine { IfOk result
        (λ is_restored. lacking.new.items ≡ []
        → TriesFine drive.old moments.now aim.now lacking.old.items is_sure is_restored drive.new) }
{
    let (at, now) = (moments.at, moments.asked);
    let failure = match restore_object(alloc, drive, session, aim, at, now) {
        Ok(_) => return Ok(true),
        Err(failure) => failure,
    };
    match failure.refusal {
        Refusal::ChainFull => leave(lacking, aim, Lack::Journal),
        Refusal::NoSpace if is_sure => leave(lacking, aim, Lack::Blocks),
        Refusal::NoSpace => Ok(false),
        _ => Err(failure_of(drive, at, failure)),
    }
}

// Adds why an object isn't restored.
fn leave(lacking: &mut Vec<Lacking>, aim: &Aim, lack: Lack) -> Result<bool, Failure>
    ensures { OnOk result (lacking.new.items ≡ lacking.old.items ++ record { object = aim.now.target; lack = lack } ∷ []) }
{
    push(lacking, lacking_of(aim, lack))?;
    Ok(false)
}

// How many blocks a plan appends at least: its data, and a journal block for each change, of a
// single write as many as it takes. Of what is made anew by one, with an attribute of few bytes,
// exactly.
fn least_blocks(plan: &Plan) -> usize {
    match plan {
        Plan::Keep => 0,
        Plan::Delete => 1,
        Plan::Remake(changes) => least_of(SHORTEST_ENTRY_BYTES, changes).saturating_add(1),
        Plan::Change(changes) => least_of(0, changes),
    }
}

// How many blocks changes append at least, by how many bytes of entries the newest journal block
// has.
fn least_of(filled: usize, changes: &Changes) -> usize {
    let written = match changes.writes {
        1 => blocks_of(filled, changes.blocks as usize),
        writes => changes.blocks.saturating_add(writes) as usize,
    };
    let others = usize::from(changes.cut.is_some()) + usize::from(changes.attribute);
    written.saturating_add(others)
}

// How many blocks a write of this many appends by how many bytes of entries the newest journal
// block has.
fn blocks_of(filled: usize, data: usize) -> usize {
    if data == 0 {
        return 0;
    }
    let data = data.min(OBJECT_BLOCKS);
    data.saturating_add(blocks_needed(filled, entry_sizes(data, 0).as_slice()))
}

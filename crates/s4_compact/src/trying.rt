//! What each way of compacting leaves, found by trials of which nothing is kept.
ghost use Rattle.std.specs.Prelude.{◌≡◌, IfOk};
ghost use Rattle.segment_table.specs.Room.{log_of};
ghost use Rattle.version_store.specs.Store.{fields_of};
ghost use Rattle.drive.specs.Opened.{base_of};
ghost use Rattle.s4_images.specs.Commands.{OverImage, OverOpened};
ghost use Rattle.drive.specs.Fields.{DriveFields, store_of};
ghost use Rattle.drive_compaction.specs.Compacting.{blocks_left};
ghost use Rattle.s4_compact.specs.Trying.{AreTried, Leaves, TriesPass, best_way, found_of};
ghost use Rattle.s4_compact.specs.Trying.{is_enough, is_less, is_no_more, left_with, serves_by};

use crate::ways::{Way, compact_drive};
use drive::{Drive, OpenedDrive};
use drive_compaction::{FullPass, blocks_left, pass_over};
use image_commands::{Files, read_image};
use s4_images::Failure;
use s4_types::Refusal;
use segment_word::Naming;
use std::alloc::Global;
use std::marker::Brand;
use std::thread::Threads;
use verifier::open;

/// What the trial of a way found.
#[derive(Clone, Copy)]
pub struct Trial {
    /// How many blocks are left to be appended, those of the reserve among them: after the full pass
    /// where that is made. So of two drives without room the one with less of its reserve is the
    /// worse.
    pub left: usize,
    /// How a full pass ends that follows it.
    pub pass: FullPass,
}

/// What the trial of each way found; none where a step of it leaves fewer blocks than there were
/// before.
#[derive(Clone, Copy)]
pub struct Found {
    pub cleaned: Option<Trial>,
    pub moved: Option<Trial>,
    pub moved_first: Option<Trial>,
}

impl Found {
    /// What the trial of this way found.
    pub(crate) fn trial_of(&self, way: Way) -> Option<Trial>
        ensures { result ≡ found_of self.now way }
    {
        match way {
            Way::Cleaning => self.cleaned,
            Way::Moves => self.moved,
            Way::MovesFirst => self.moved_first,
        }
    }
}

/// Whether no other way is better, by what was found, than this one that leaves this many blocks.
/// Of ways that leave the same the one with the cleaner is made, and else moves alone.
pub(crate) fn is_enough(way: Way, found: &Found, left: usize) -> bool
    ensures { result ≡ is_enough way found.now left }
{
    match way {
        Way::Cleaning => is_no_more(found.moved, left) && is_no_more(found.moved_first, left),
        Way::Moves => is_less(found.cleaned, left) && is_no_more(found.moved_first, left),
        Way::MovesFirst => is_less(found.cleaned, left) && is_less(found.moved, left),
    }
}

fn is_no_more(other: Option<Trial>, left: usize) -> bool
    ensures { result ≡ is_no_more other left }
{
    match other {
        None => true,
        Some(other) => other.left <= left,
    }
}

fn is_less(other: Option<Trial>, left: usize) -> bool
    ensures { result ≡ is_less other left }
{
    match other {
        None => true,
        Some(other) => other.left < left,
    }
}

// Whether this way, whose trial found this, serves best.
fn serves(way: Way, found: &Found, trial: Option<Trial>) -> bool
    ensures { result ≡ serves_by way found.now trial }
{
    match trial {
        None => false,
        Some(trial) => is_enough(way, found, trial.left),
    }
}

/// The way that serves best; the one with the cleaner where each leaves fewer blocks than there
/// were.
pub(crate) fn best_way(found: &Found) -> Way
    ensures { result ≡ best_way found.now }
{
    if serves(Way::Moves, found, found.moved) {
        return Way::Moves;
    }
    if serves(Way::MovesFirst, found, found.moved_first) {
        return Way::MovesFirst;
    }
    Way::Cleaning
}

/// Tries each way over the drive of an image.
pub(crate) fn try_ways<T: Threads, F: Files>(
    rt: &T,
    alloc: Global,
    files: &F,
    image: &str,
) -> Result<Found, Failure>
    ensures tried { IfOk result (AreTried (F.contents files.now image.now)) }
{
    let cleaned = try_image(rt, alloc, files, image, Way::Cleaning)?;
    let moved = try_image(rt, alloc, files, image, Way::Moves)?;
    let moved_first = try_image(rt, alloc, files, image, Way::MovesFirst)?;
    Ok(Found {
        cleaned,
        moved,
        moved_first,
    })
}

// Tries this way over the drive of an image; none where a step of it leaves fewer blocks than there
// were before.
fn try_image<T: Threads, F: Files>(
    rt: &T,
    alloc: Global,
    files: &F,
    image: &str,
    way: Way,
) -> Result<Option<Trial>, Failure>
    ensures leaves { IfOk result (λ trial. OverImage (F.contents files.now image.now)
        (λ drive. Leaves way drive trial)) }
{
    let image = read_image(rt, alloc, files, image)?;
    let opened = open(alloc, image)?;
    try_opened::<Brand>(alloc, opened, way)
}

// The same of a drive that was just opened.
fn try_opened<J: Naming>(
    alloc: Global,
    opened: OpenedDrive,
    way: Way,
) -> Result<Option<Trial>, Failure>
    requires accepts { opened.accepts ≡ J.accepts }
    requires frames { opened.store.table.seat.table ≡ J.frames }
    requires base { base_of (fields_of log_of opened.store) opened.timeline opened.next
        opened.audit ≡ J.base }
    ensures leaves { IfOk result (λ trial. OverOpened opened (λ drive. Leaves way drive trial)) }
{
    let mut drive = opened.named::<J>();
    try_drive(alloc, &mut drive, way)
}

// The same of a drive, which is compacted for it.
fn try_drive<J: Naming>(
    alloc: Global,
    drive: &mut Drive<J>,
    way: Way,
) -> Result<Option<Trial>, Failure>
    ensures leaves { IfOk result (Leaves way drive.old) }
{
    match compact_drive(alloc, drive, way) {
        Ok(_compaction) => {
            let trial = try_pass(alloc, drive)?;
            Ok(Some(trial))
        }
        Err(Refusal::NoRoom) => Ok(None),
        Err(refusal) => Err(Failure::from(refusal)),
    }
}

// How a full pass over a drive ends, and how many blocks are left: before it, unless it is made.
fn try_pass<J: Naming>(alloc: Global, drive: &mut Drive<J>) -> Result<Trial, Refusal>
    ensures tries { IfOk result (TriesPass drive.old) }
{
    let before = blocks_left(drive);
    let pass = pass_over(alloc, drive)?;
    let left = left_with(drive, pass, before);
    Ok(Trial { left, pass })
}

// How many blocks are left where a full pass ended so: in this drive where it is made, else as many
// as before it.
fn left_with<J: Naming>(drive: &mut Drive<J>, pass: FullPass, before: usize) -> usize
    ensures left { (d : DriveFields) → before ≡ blocks_left (store_of d)
        → result ≡ left_with pass d drive.old }
{
    match pass {
        FullPass::Made => blocks_left(drive),
        FullPass::CostsRoom | FullPass::Refused => before,
    }
}

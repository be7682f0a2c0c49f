//! How many versions are left out of a copy.
ghost use Rattle.std.specs.Prelude.{◌≡◌, IfErr, IfOk};
ghost use Rattle.segment_table.specs.Room.{log_of};
ghost use Rattle.version_store.specs.Store.{fields_of};
ghost use Rattle.s4_types.specs.declared.refusals.Refusal.TheVariants.{NoMemory};
ghost use Rattle.drive.specs.Fields.{state_in, store_of};
ghost use Rattle.drive.specs.Opened.{base_of};
ghost use Rattle.s4_images.specs.Commands.{OverOpened};
ghost use Rattle.s4_copy.specs.Counting.{IsLeftOut, LosesVersions, versions_lost};
ghost use Rattle.s4_copy.specs.Failures.{RefusesCount};

use drive::{Drive, OpenedDrive};
use history_export::beginnings;
use history_view::all_objects;
use migration::CopyAsked;
use s4_types::{ObjectId, Refusal};
use segment_word::Naming;
use std::alloc::Global;
use std::marker::Brand;
use std::thread::Threads;
use verifier::{open, verify};

/// How many versions that can be read of an image its copy lacks, which has this many objects less.
/// The image is opened for it where that is any: Damaged with the cause of the first test that
/// fails, NoMemory where memory was refused, and Busy where a count of those that share a part of
/// the drive was full. Busy comes only where there are such objects.
pub(crate) fn versions_left_out<T: Threads>(
    rt: &T,
    alloc: Global,
    bytes: &[u8],
    wanted: &CopyAsked<'_>,
    left_out: u32,
) -> Result<u64, Refusal>
    ensures left_out { IfOk result (IsLeftOut wanted.now bytes.now left_out) }
    ensures refused { IfErr result (RefusesCount bytes.now left_out) }
{
    if left_out == 0 {
        return Ok(0);
    }
    let image = verify(rt, alloc, bytes)?;
    let opened = open(alloc, image)?;
    lost_of_opened::<Brand>(alloc, opened, wanted)
}

// How many versions that can be read of a drive that was just opened its copy lacks.
fn lost_of_opened<J: Naming>(
    alloc: Global,
    opened: OpenedDrive,
    wanted: &CopyAsked<'_>,
) -> Result<u64, Refusal>
    requires accepts { opened.accepts ≡ J.accepts }
    requires frames { opened.store.table.seat.table ≡ J.frames }
    requires base { base_of (fields_of log_of opened.store) opened.timeline opened.next
        opened.audit ≡ J.base }
    ensures lost { IfOk result
        (λ count. OverOpened opened (λ drive. LosesVersions wanted.now drive count)) }
    ensures refused { IfErr result (λ e. e ≡ NoMemory) }
{
    let mut drive = opened.named::<J>();
    let lost = lost_of_drive(alloc, &mut drive, wanted);
    drop(drive);
    lost
}

// The same of a drive.
fn lost_of_drive<J: Naming>(
    alloc: Global,
    drive: &mut Drive<J>,
    wanted: &CopyAsked<'_>,
) -> Result<u64, Refusal>
    ensures lost { IfOk result (LosesVersions wanted.now drive.old) }
    ensures refused { IfErr result (λ e. e ≡ NoMemory) }
{
    let objects = all_objects(alloc, drive)?;
    let mut lost: u64 = 0;
    for object in objects.as_slice() {
        let versions = lost_of_object(alloc, drive, *object, wanted)?;
        lost = lost.saturating_add(versions);
    }
    Ok(lost)
}

// How many of them are an object's.
fn lost_of_object<J: Naming>(
    alloc: Global,
    drive: &mut Drive<J>,
    object: ObjectId,
    wanted: &CopyAsked<'_>,
) -> Result<u64, Refusal>
    ensures lost { IfOk result
        (λ count. count
        ≡ versions_lost wanted.now (state_in drive.old) (store_of drive.old) object) }
    ensures refused { IfErr result (λ e. e ≡ NoMemory) }
    ensures ledger { drive.new.ledger ≡ drive.old.ledger }
    ensures store { store_of drive.new ≡ store_of drive.old }
{
    let Some(row) = drive.row(object) else {
        return Ok(0);
    };
    if wanted.stays(object, row.created) {
        return Ok(0);
    }
    let moments = beginnings(alloc, drive, object)?;
    Ok(moments.len() as u64)
}

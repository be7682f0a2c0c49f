//! How many blocks and frames the objects of an image of an earlier version take.
ghost use Rattle.std.specs.Prelude.{◌≡◌, ◌+◌, ◌<◌, ◌≤◌, IfOk, IfErr, MatchOption};
ghost use Rattle.std.specs.Prelude.{option_copied, ◌^◌};
ghost use Rattle.std.specs.List.{AllByRecursion};
ghost use Rattle.s4_types.specs.declared.limits.TheConstants.{CHECKPOINT_BLOCKS, MOST_FRAMES};
ghost use Rattle.s4_types.specs.declared.limits.TheConstants.{RESERVE_FRAMES};
ghost use Rattle.s4_types.specs.declared.refusals.Refusal.TheVariants.{NoMemory};
ghost use Rattle.row_changes.specs.Moving.{kept_blocks};
ghost use Rattle.image_objects.specs.Versions.{ObjectStandsBy};
ghost use Rattle.migration.specs.Rows.{blocks_of, blocks_of_rows};
ghost use Rattle.migration.specs.Frames.{frames_filled, frames_needed};
ghost use Rattle.migration.specs.declared.counting.TheConstants.{MOST_COPIED};

use crate::objects::inode_kept;
use crate::places::data_places;
use checkpoint::checkpoint_blocks;
use checkpoint::laws::a_checkpoint_is_in_its_blocks;
use codec::{ImageVersion, Inode};
use image_objects::writing_laws::an_object_of_a_version_can_be_written;
use image_objects::{ImageRow, UsedBlocks, read_object_by};
use row_changes::journal_blocks;
use s4_types::limits::{FEWEST_FRAMES, MOST_FRAMES, PAYLOAD_BLOCKS, RESERVE_FRAMES};
use s4_types::{Moment, Refusal};
use std::alloc::Global;

/// As many blocks can be copied as fill all frames but the reserve.
const MOST_COPIED: usize = (MOST_FRAMES - RESERVE_FRAMES) * PAYLOAD_BLOCKS;

/// How many blocks the checkpoint of an inode takes, if there is one.
fn kept_blocks(kept: Option<&Inode>) -> usize
    ensures blocks { result ≡ kept_blocks (option_copied kept.entry) }
    ensures few { result ≤ CHECKPOINT_BLOCKS }
{
    a_checkpoint_is_in_its_blocks();
    match kept {
        None => 0,
        Some(inode) => checkpoint_blocks(inode),
    }
}

/// How many blocks the object of a row still has. NoMemory alone.
fn blocks_of<U: UsedBlocks>(
    alloc: Global,
    version: ImageVersion,
    used: &U,
    row: &ImageRow,
    clock: Moment,
) -> Result<usize, Refusal>
    requires { ObjectStandsBy version (U.used used.now) row.now clock }
    ensures blocks { IfOk result (λ n. n ≡ blocks_of version (U.used used.now) row.now) }
    ensures few { IfOk result (λ n. n < 2 ^ 62) }
    ensures refusal { IfErr result (λ e. e ≡ NoMemory) }
{
    an_object_of_a_version_can_be_written();
    let Some(versions) = read_object_by(alloc, version, used, row, clock)? else {
        unreachable!()
    };
    let kept = inode_kept(used, row);
    let entries = versions.chain.entries.as_slice();
    let places = data_places(alloc, kept.as_ref(), entries)?;
    Ok(places.len() + (kept_blocks(kept.as_ref()) + journal_blocks(entries)))
}

/// How many blocks the objects of all rows of an image still have. None where they are more than
/// `MOST_COPIED`. NoMemory alone.
pub(crate) fn count_blocks<U: UsedBlocks>(
    alloc: Global,
    version: ImageVersion,
    used: &U,
    rows: &[ImageRow],
    clock: Moment,
) -> Result<Option<usize>, Refusal>
    requires { AllByRecursion (λ row. ObjectStandsBy version (U.used used.now) row clock) rows.now }
    ensures blocks { IfOk result
        (λ found. MatchOption found (MOST_COPIED < blocks_of_rows version (U.used used.now) rows.now)
        (λ n. (n ≡ blocks_of_rows version (U.used used.now) rows.now) × (n ≤ MOST_COPIED))) }
    ensures refusal { IfErr result (λ e. e ≡ NoMemory) }
{
    let mut count = 0;
    for row in rows {
        count += blocks_of(alloc, version, used, row, clock)?;
        if count > MOST_COPIED {
            return Ok(None);
        }
    }
    Ok(Some(count))
}

/// How many frames hold a block where this many are copied.
pub(crate) fn frames_filled(blocks: usize) -> u16
    requires { blocks ≤ MOST_COPIED }
    ensures filled { result ≡ frames_filled blocks }
    ensures few { result + RESERVE_FRAMES ≤ MOST_FRAMES }
{
    ((blocks + (PAYLOAD_BLOCKS - 1)) / PAYLOAD_BLOCKS) as u16
}

/// How many frames the new image has where the old one has this many, and as many blocks are
/// copied.
pub(crate) fn frames_needed(old: usize, blocks: usize) -> usize
    requires old { old ≤ MOST_FRAMES }
    requires blocks { blocks ≤ MOST_COPIED }
    ensures needed { result ≡ frames_needed old blocks }
    ensures few { result ≤ MOST_FRAMES }
{
    let filled = frames_filled(blocks) as usize;
    old.max(FEWEST_FRAMES).max(RESERVE_FRAMES + filled)
}

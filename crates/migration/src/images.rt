//! All objects of an image, copied into a new table of as many frames as are needed.
ghost use Rattle.std.specs.Prelude.{◌≡◌, ◌⊎◌, ◌<◌, ◌≤◌, IfOk, IfErr};
ghost use Rattle.std.specs.List.{AllByRecursion};
ghost use Rattle.s4_types.specs.declared.limits.TheConstants.{MOST_FRAMES};
ghost use Rattle.s4_types.specs.declared.refusals.Refusal.TheVariants.{NoMemory, NoRoom};
ghost use Rattle.segment_table.specs.Room.{log_of};
ghost use Rattle.image_objects.specs.Versions.{ObjectStandsBy};
ghost use Rattle.migration.specs.Frames.{FillsFrames, frames_needed, fresh_log};
ghost use Rattle.migration.specs.Rows.{AscendAbove, CopyRows, blocks_of_rows};

use crate::counting::{count_blocks, frames_filled, frames_needed};
use crate::objects::copy_objects;
use crate::tables::NewTable;
use codec::ImageVersion;
use image_objects::{ImageRow, UsedBlocks};
use object_map::Row;
use s4_types::{Moment, Refusal};
use segment_table::SegmentTable;
use std::alloc::Global;

/// The objects of an image in a new table.
#[derive(Drop)]
pub(crate) struct Copied {
    pub(crate) table: SegmentTable,
    /// How many of its frames have blocks.
    pub(crate) filled: u16,
    /// The rows of the objects, by ascending object.
    pub(crate) rows: Vec<Row>,
}

/// Copies the objects of all rows of an image into a new table that has this many frames, or as many
/// as are needed.
///
/// NoRoom exactly where these are more than it may have; NoMemory where memory was refused.
pub(crate) fn copy_image<U: UsedBlocks>(
    alloc: Global,
    version: ImageVersion,
    used: &U,
    rows: &[ImageRow],
    clock: Moment,
    old: usize,
    most: usize,
) -> Result<Copied, Refusal>
    requires old { old ≤ MOST_FRAMES }
    requires most { most ≤ MOST_FRAMES }
    requires ascend { AscendAbove 0 rows.now }
    requires stand { AllByRecursion (λ row. ObjectStandsBy version (U.used used.now) row clock)
        rows.now }
    ensures copied { IfOk result (λ c. CopyRows version (U.used used.now) rows.now c.rows.items (fresh_log (frames_needed old (blocks_of_rows version (U.used used.now) rows.now))) (log_of c.table)) }
    ensures frames { IfOk result (λ c. FillsFrames (blocks_of_rows version (U.used used.now) rows.now) (frames_needed old (blocks_of_rows version (U.used used.now) rows.now)) c.table) }
    ensures fits { IfOk result
        (λ c. frames_needed old (blocks_of_rows version (U.used used.now) rows.now) ≤ most) }
    ensures refusal { IfErr result
        (λ e. (e ≡ NoMemory)
        ⊎ ((e ≡ NoRoom)
        × (most < frames_needed old (blocks_of_rows version (U.used used.now) rows.now)))) }
{
    let Some(blocks) = count_blocks(alloc, version, used, rows, clock)? else {
        return Err(Refusal::NoRoom);
    };
    let frames = frames_needed(old, blocks);
    if frames > most {
        return Err(Refusal::NoRoom);
    }
    let mut table = NewTable::new(alloc, frames)?;
    let laters = copy_objects(alloc, &mut table, version, used, rows, clock)?;
    let table = table.into_table();
    Ok(Copied {
        table,
        filled: frames_filled(blocks),
        rows: laters,
    })
}

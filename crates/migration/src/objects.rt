//! The objects of an image of an earlier version, copied into a table one after the other.
ghost use Rattle.std.specs.Prelude.{◌≡◌, ◌≤◌, ℕ, List, length, None, [], IfOk, IfErr};
ghost use Rattle.std.specs.List.{AllByRecursion};
ghost use Rattle.s4_types.specs.Pointer.{Place};
ghost use Rattle.s4_types.specs.declared.refusals.Refusal.TheVariants.{NoMemory};
ghost use Rattle.version_store.specs.Store.{HasNothing};
ghost use Rattle.image_objects.specs.Versions.{ObjectStandsBy};
ghost use Rattle.image_objects.specs.Writing.{inode_kept_in};
ghost use Rattle.migration.specs.Rows.{AscendAbove, CopiesObject, CopyRows, blocks_of, blocks_of_rows};

use crate::rows::copy_row;
use block_log::Blocks;
use codec::{ImageVersion, Inode};
use image_objects::writing_laws::an_object_of_a_version_can_be_written;
use image_objects::{ImageRow, UsedBlocks, read_checkpoint, read_object_by};
use object_map::Row;
use s4_types::{Moment, Refusal};
use std::alloc::Global;

/// The inode in the checkpoint that a row names, if it names one.
pub(crate) fn inode_kept<U: UsedBlocks>(used: &U, row: &ImageRow) -> Option<Inode>
    ensures { result ≡ inode_kept_in (U.used used.now) row.now }
{
    let place = row.checkpoint?;
    let checkpoint = read_checkpoint(used, row.object, place)?;
    Some(*checkpoint.inode())
}

/// Copies the object of a row of an image into a table that holds nothing of it and has room for
/// it, and answers its row there. NoMemory alone.
fn copy_object<B: Blocks, U: UsedBlocks>(
    alloc: Global,
    table: &mut B,
    version: ImageVersion,
    used: &U,
    row: &ImageRow,
    clock: Moment,
) -> Result<Row, Refusal>
    requires object { 1 ≤ row.now.object }
    requires stands { ObjectStandsBy version (U.used used.now) row.now clock }
    requires nothing { HasNothing (B.log table.old).held row.now.object }
    requires room { blocks_of version (U.used used.now) row.now ≤ length (B.log table.old).ahead }
    ensures copied { IfOk result (λ later. CopiesObject version (U.used used.now) row.now (B.log table.old) (B.log table.new) later) }
    ensures refusal { IfErr result (λ e. e ≡ NoMemory) }
{
    an_object_of_a_version_can_be_written();
    let Some(mut versions) = read_object_by(alloc, version, used, row, clock)? else {
        unreachable!()
    };
    let kept = inode_kept(used, row);
    let entries = versions.chain.entries.as_mut_slice();
    copy_row(alloc, table, used, row, kept, entries)
}

/// Copies the objects of all rows of an image, by ascending object, into a table that holds nothing
/// and has room for them, and answers their rows there. NoMemory alone.
pub(crate) fn copy_objects<B: Blocks, U: UsedBlocks>(
    alloc: Global,
    table: &mut B,
    version: ImageVersion,
    used: &U,
    rows: &[ImageRow],
    clock: Moment,
) -> Result<Vec<Row>, Refusal>
    requires ascend { AscendAbove 0 rows.now }
    requires stand { AllByRecursion (λ row. ObjectStandsBy version (U.used used.now) row clock)
        rows.now }
    requires empty { (p : Place) → (B.log table.old).held p ≡ None }
    requires room { blocks_of_rows version (U.used used.now) rows.now ≤ length (B.log table.old).ahead }
    ensures copied { IfOk result (λ laters. CopyRows version (U.used used.now) rows.now laters.items (B.log table.old) (B.log table.new)) }
    ensures refusal { IfErr result (λ e. e ≡ NoMemory) }
{
    let mut laters = Vec::new(alloc);
    for row in rows {
        let later = copy_object(alloc, table, version, used, row, clock)?;
        laters.push(later)?;
    }
    Ok(laters)
}

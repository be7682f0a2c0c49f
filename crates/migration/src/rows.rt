//! One object of an image, copied into a table.
ghost use Rattle.std.specs.Prelude.{◌≡◌, ◌≤◌, length, IfOk, IfErr, option_map};
ghost use Rattle.s4_types.specs.declared.refusals.Refusal.TheVariants.{NoMemory};
ghost use Rattle.chain_rewriting.specs.Mapping.{mapped_inode};
ghost use Rattle.version_store.specs.Store.{HasNothing};
ghost use Rattle.migration.specs.Moves.{moved_by};
ghost use Rattle.migration.specs.Copied.{CanCopy, CopiesRow, object_blocks};

use crate::copies::copy_data;
use crate::copy_laws::a_copied_object_keeps_its_history;
use crate::moves::Moves;
use crate::places::data_places;
use block_log::Blocks;
use chain_rewriting::{map_entries, map_inode};
use codec::{Entry, Inode};
use image_objects::{ImageRow, UsedBlocks};
use object_map::Row;
use row_changes::write_row;
use s4_types::Refusal;
use std::alloc::Global;

/// The inode of a checkpoint, if there is one, with its pointers mapped.
fn map_kept(moves: &Moves, kept: Option<Inode>) -> Option<Inode>
    ensures { result ≡ option_map (mapped_inode (moved_by moves.now.list.items)) kept }
{
    let mut inode = kept?;
    map_inode(moves, &mut inode);
    Some(inode)
}

/// Copies the object of a row of an image into a table that holds nothing of it, and answers its
/// row there. The object has this inode in its checkpoint, if it has one, and these entries; what
/// they come to in the table is left in `entries`.
///
/// There must be room for all of its blocks. NoMemory alone, where the memory for the list of its
/// blocks is refused; then the table may have some of them.
pub(crate) fn copy_row<B: Blocks, U: UsedBlocks>(
    alloc: Global,
    table: &mut B,
    used: &U,
    row: &ImageRow,
    kept: Option<Inode>,
    entries: &mut [Entry],
) -> Result<Row, Refusal>
    requires object { 1 ≤ row.now.object }
    requires can { CanCopy (U.used used.now) row.now kept entries.old }
    requires nothing { HasNothing (B.log table.old).held row.now.object }
    requires room { object_blocks kept entries.old ≤ length (B.log table.old).ahead }
    ensures copied { IfOk result (λ later. CopiesRow (U.used used.now) row.now kept entries.old (B.log table.old) (B.log table.new) later) }
    ensures refusal { IfErr result (λ e. e ≡ NoMemory) }
{
    a_copied_object_keeps_its_history();
    let places = data_places(alloc, kept.as_ref(), entries)?;
    let moves = copy_data(alloc, table, used, row.object, places.as_slice())?;
    let kept = map_kept(&moves, kept);
    map_entries(&moves, entries);
    let fresh = Row::fresh(row.created);
    let moment = row.checkpoint_moment;
    let Ok(later) = write_row(table, row.object, &fresh, kept.as_ref(), moment, entries) else {
        unreachable!()
    };
    Ok(later)
}

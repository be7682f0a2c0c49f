//! An object's newest checkpoint and its whole journal, written anew once its older checkpoints are
//! dropped.
ghost use Rattle.std.specs.Prelude.{◌≡◌, ◌≤◌, true, length, option_copied};
ghost use Rattle.s4_types.specs.declared.limits.TheConstants.{CHAIN_ENTRY_BYTES};
ghost use Rattle.block_log.specs.Taken.{TakesPlaces};
ghost use Rattle.codec.specs.Checkpoint.{checkpoint_rules};
ghost use Rattle.codec.specs.Entry.{entries_length};
ghost use Rattle.undo_redo.specs.Runs.{AllBy, Run, undone_all};
ghost use Rattle.undo_redo.specs.Groups.{grouped};
ghost use Rattle.time_read.specs.Rows.{IsRow};
ghost use Rattle.row_changes.specs.Moving.{CanTell, moved_blocks};
ghost use Rattle.row_changes.specs.Rewritten.{OnlyMetadataChanged, rewritten_blocks};
ghost use Rattle.version_store.specs.private.Replacing.{Rewrites};
ghost use Rattle.version_store.specs.private.Relocating.{Moved};

use block_log::Blocks;
use codec::{Entry, Inode};
use object_map::Row;
use row_changes::{drop_sides, move_row, rewrite_row};
use s4_types::{Moment, ObjectId};

/// Writes an object's present inode as its checkpoint of a moment, and its whole journal with these
/// entries, where there is room, in place of all that stood; its older checkpoints are dropped.
pub(crate) fn rewrite_blocks<B: Blocks>(
    table: &mut B,
    object: ObjectId,
    row: &Row,
    present: &Inode,
    moment: Moment,
    entries: &[Entry],
) -> Row
    requires row { IsRow (B.log table.old).held object row.now }
    requires run { Run (undone_all entries.now present.now) entries.now present.now }
    requires groups { grouped entries.now ≡ true }
    requires latest { AllBy moment entries.now }
    requires limit { entries_length entries.now ≤ CHAIN_ENTRY_BYTES }
    requires created { present.now.created ≡ row.now.created }
    requires rules { checkpoint_rules (record { object = object; moment = moment; inode = present.now }) ≡ true }
    requires room { rewritten_blocks present.now entries.now ≤ length (B.log table.old).ahead }
    ensures rewritten { Rewrites (B.log table.new) object row.now result present.now entries.now
        moment }
    ensures others { OnlyMetadataChanged object (B.log table.old).held (B.log table.new).held }
    ensures takes { TakesPlaces (rewritten_blocks present.now entries.now) (B.log table.old)
        (B.log table.new) }
    ensures named { (B.log table.new).named ≡ (B.log table.old).named }
{
    let bare = drop_sides(table, object, row);
    let Ok(next) = rewrite_row(table, object, &bare, present, moment, entries) else {
        unreachable!()
    };
    next
}

/// Writes an object's newest checkpoint, if it has one, with this inode, and its whole journal with
/// these entries at other places, where there is room; its older checkpoints are dropped.
pub(crate) fn move_blocks<B: Blocks>(
    table: &mut B,
    object: ObjectId,
    row: &Row,
    kept: Option<&Inode>,
    entries: &[Entry],
) -> Row
    requires row { IsRow (B.log table.old).held object row.now }
    requires tell { CanTell object row.now (option_copied kept) entries.now }
    requires room { moved_blocks (option_copied kept) entries.now ≤ length (B.log table.old).ahead }
    ensures moved { Moved (B.log table.old) (B.log table.new) object row.now result
        (option_copied kept.entry) entries.now }
    ensures named { (B.log table.new).named ≡ (B.log table.old).named }
{
    let bare = drop_sides(table, object, row);
    let Ok(next) = move_row(table, object, &bare, kept, entries) else {
        unreachable!()
    };
    next
}

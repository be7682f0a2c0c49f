//! An object's journal and checkpoint, renamed and written at other places together with copies of
//! its data.
ghost use Rattle.s4_types.specs.declared.limits.TheConstants.{ROW_POINTERS};
ghost use Rattle.std.specs.Prelude.{◌≡◌, ℕ, ◌≤◌, length, option_map};
ghost use Rattle.std.specs.List.{All, AllByRecursion};
ghost use Rattle.s4_types.specs.Pointer.{Place};
ghost use Rattle.time_read.specs.Journals.{IsJournalOf};
ghost use Rattle.time_read.specs.Rows.{IsRow, entries_of};
ghost use Rattle.time_read.specs.Orderly.{IsOrderly};
ghost use Rattle.chain_rewriting.specs.CleaningLaws.{TellsWithin};
ghost use Rattle.chain_rewriting.specs.Renaming.{renamed_entries, renamed_inode};
ghost use Rattle.chain_rewriting.specs.Apart.{HasDistinctPlaces, IsNotNew};
ghost use Rattle.version_store.specs.Store.{IsLed, IsNamedBy, pointers_named, pointers_of};
ghost use Rattle.version_store.specs.Relocating.{AreCopies, blocks_relocated};
ghost use Rattle.version_store.specs.private.Relocating.{NamesMove, Relocates};

use crate::copies::{CopiedBlock, append_copies};
use crate::laws::what_relocations_rest_on;
use crate::names::drop_copied;
use crate::recounts::count_renaming;
use crate::written_anew::move_blocks;
use block_log::Blocks;
use chain_rewriting::Renaming;
use codec::Inode;
use object_map::Row;
use s4_types::{ObjectId, Ptr};
use time_read::ObjectJournal;

/// Renames the pointers of an inode, if there is one.
fn rename_checkpoint(checkpoint: &mut Option<Inode>, renaming: &Renaming)
    ensures { checkpoint.new ≡ option_map (renamed_inode renaming.now) checkpoint.old }
{
    if let Some(inode) = checkpoint {
        renaming.rename_inode(inode);
    }
}

/// Renames all pointers of a journal and its checkpoint: none of the new places may be among those
/// that they name.
fn rename(journal: &mut ObjectJournal, renaming: &Renaming)
    requires distinct { HasDistinctPlaces renaming.now }
    requires apart { AllByRecursion (TellsWithin (IsNotNew renaming.now))
        journal.old.entries.items }
    ensures checkpoint { journal.new.checkpoint
        ≡ option_map (renamed_inode renaming.now) journal.old.checkpoint }
    ensures entries { journal.new.entries.items
        ≡ renamed_entries renaming.now journal.old.entries.items }
{
    rename_checkpoint(&mut journal.checkpoint, renaming);
    renaming.rename_in_place(journal.entries.as_mut_slice());
}

/// An object's row once its blocks were moved, and where its data went.
#[derive(Clone, Copy)]
pub(crate) struct Relocated {
    pub(crate) row: Row,
    pub(crate) renaming: Renaming,
}

/// Appends copies of an object's data blocks where there is room, renames the pointers of its
/// journal and its newest checkpoint, writes these at other places, and drops what was copied, and
/// all older checkpoints.
pub(crate) fn relocate_blocks<B: Blocks>(
    table: &mut B,
    object: ObjectId,
    row: &Row,
    journal: &mut ObjectJournal,
    led: &[Option<Ptr>],
    names: &[Option<Ptr>],
    copies: &[CopiedBlock],
) -> Relocated
    requires row { IsRow (B.log table.old).held object row.now }
    requires orderly { (latest : ℕ) × IsOrderly (B.log table.old).held object row.now latest }
    requires led { All (IsLed (B.log table.old).held object)
        (pointers_of (B.log table.old).held object row.now) }
    requires pointers { led.now ≡ pointers_of (B.log table.old).held object row.now }
    requires names { names.now ≡ pointers_named (B.log table.old).held object row.now }
    requires journal { IsJournalOf (B.log table.old).held object row.now journal.old }
    requires copies { AreCopies (B.log table.old).held object copies.now }
    requires room { blocks_relocated (B.log table.old).held object row.now copies.now
        ≤ length (B.log table.old).ahead }
    requires counted { IsNamedBy object (B.log table.old)
        (pointers_named (B.log table.old).held object row.now) }
    requires few_names { (p : Place) → (B.log table.old).named p ≤ ROW_POINTERS }
    requires few { length (pointers_named (B.log table.old).held object row.now) ≤ ROW_POINTERS }
    ensures moved { Relocates (B.log table.old) object row.now copies.now result.row
        (B.log table.new) result.renaming }
    ensures named { NamesMove (B.log table.old) object row.now result.renaming (B.log table.new) }
    ensures entries { journal.new.entries.items
        ≡ renamed_entries result.renaming (entries_of (B.log table.old).held object row.now) }
{
    what_relocations_rest_on();
    table.names();
    let renaming = append_copies(table, object, copies);
    count_renaming(table, object, &renaming, led, names, copies);
    rename(journal, &renaming);
    let checkpoint = journal.checkpoint.as_ref();
    let row = move_blocks(table, object, row, checkpoint, journal.entries.as_slice());
    table.names();
    drop_copied(table, copies);
    table.names();
    Relocated { row, renaming }
}

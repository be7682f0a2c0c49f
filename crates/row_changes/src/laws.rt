//! Laws of rows that change, for the layers above: each function does nothing, and its contract is
//! the law.
ghost use Rattle.std.specs.Prelude.{◌≡◌, ℕ, ◌≤◌, Option};
ghost use Rattle.s4_types.specs.Pointer.{Place};
ghost use Rattle.block_log.specs.declared.kinds.BlockKind.TheVariants.{Journal};
ghost use Rattle.block_log.specs.Log.{Stored, of_kind};
ghost use Rattle.undo_redo.specs.Runs.{blank};
ghost use Rattle.object_map.specs.declared.map.Row.{Row};
ghost use Rattle.object_map.specs.Rows.{fresh_row};
ghost use Rattle.time_read.specs.Rows.{IsRow, inode_of};
ghost use Rattle.time_read.specs.Orderly.{IsOrderly};
ghost use Rattle.row_changes.specs.Recent.{IsBy};
ghost use Rattle.row_changes.specs.Laws.{AFreshRowStands, WhatARowTellsCanBeWritten};
ghost use Rattle.row_changes.specs.Laws.{ARowBeginsWithWhatIsKept, AMappedChainCanBeWritten};
ghost use Rattle.row_changes.specs.Laws.{ItsFirstInodeIsMapped, AMappedRowIsInOrder};
ghost use Rattle.row_changes.specs.Laws.{AMappedRowShowsTheSame};
ghost use Rattle.row_changes.specs.private.Joining.{LaterEntriesJoin};

use chain_rewriting::mapping_laws::{
    a_mapped_chain_shows_the_same, a_mapped_chain_takes_as_many_bytes, a_mapped_run_is_a_run,
    mapped_entries_stay_in_order, mapping_commutes_with_undo_and_redo,
};
use journal_chain::laws::{a_chain_is_in_its_journal_blocks, an_empty_chain_is_held};
use time_read::laws::a_row_tells_a_chain;
use undo_redo::laws::{entries_determine_a_run, groups_part_at_a_moment};

/// The row of an object that was just made is where no journal block and no checkpoint of the
/// object is held, tells of no moment yet, and the inode is blank at each.
pub fn a_fresh_row_stands()
    ensures row { AFreshRowStands }
    ensures latest { (held : Place → Option Stored) (o created : ℕ)
        → IsBy held o (fresh_row created) 0 }
    ensures inode { (held : Place → Option Stored) (o created t : ℕ)
        → inode_of held o (fresh_row created) t ≡ blank created }
{
    an_empty_chain_is_held();
}

/// What a row tells can be written, and so it can with its places mapped to others, as those of an
/// object that goes to other frames. The inode before all entries is then mapped, too.
pub fn what_a_row_tells_can_be_written()
    ensures row { WhatARowTellsCanBeWritten }
    ensures first { ARowBeginsWithWhatIsKept }
    ensures mapped { AMappedChainCanBeWritten }
    ensures begins { ItsFirstInodeIsMapped }
{
    entries_determine_a_run();
    mapping_commutes_with_undo_and_redo();
    a_mapped_run_is_a_run();
    mapped_entries_stay_in_order();
    a_mapped_chain_takes_as_many_bytes();
}

/// A row whose places are mapped is in order where it was, and shows at each moment what it showed,
/// over bytes that are as the old ones, each at its new place.
pub fn a_mapped_row_tells_the_same()
    ensures order { AMappedRowIsInOrder }
    ensures shown { AMappedRowShowsTheSame }
{
    what_a_row_tells_can_be_written();
    mapped_entries_stay_in_order();
    a_mapped_chain_shows_the_same();
}

/// What is of a moment or an earlier one is so at each later moment too; and it is a matter of the
/// object's journal blocks alone.
pub fn a_row_is_by_later_moments()
    ensures later { (held : Place → Option Stored) (o : ℕ) (row : Row) (a b : ℕ) → a ≤ b
        → IsBy held o row a → IsBy held o row b }
    ensures journal { (held later : Place → Option Stored) (o : ℕ) (row : Row) (t : ℕ)
        → of_kind Journal o later ≡ of_kind Journal o held → IsBy held o row t
        → IsBy later o row t }
{}

/// A row that is in order up to a moment tells of no later one.
#[tactic(auto, using(crate::proofs::OrderKept::orderly_is_by))]
pub fn an_orderly_row_is_by_its_moment()
    ensures { (held : Place → Option Stored) (o : ℕ) (row : Row) (latest : ℕ) → IsRow held o row
        → IsOrderly held o row latest → IsBy held o row latest }
{}

/// From the moment on by which all is told, the inode stays.
pub fn the_last_inode_stays()
    ensures { (held : Place → Option Stored) (o : ℕ) (row : Row) (a t : ℕ) → IsBy held o row a
        → a ≤ t → inode_of held o row t ≡ inode_of held o row a }
{
    entries_determine_a_run();
}

/// At each moment the inode tells when the object was made.
pub fn a_row_keeps_the_making()
    ensures { (held : Place → Option Stored) (o : ℕ) (row : Row) (t : ℕ) → IsRow held o row
        → (inode_of held o row t).created ≡ row.created }
{
    entries_determine_a_run();
    groups_part_at_a_moment();
}

/// Entries of a later moment that come after those of a row make one run and one chain with them.
/// `record_change` rests on this.
pub(crate) fn later_entries_join_a_row()
    ensures { LaterEntriesJoin }
{
    entries_determine_a_run();
    groups_part_at_a_moment();
    a_chain_is_in_its_journal_blocks();
    a_row_tells_a_chain();
}

//! Laws of rows, for the layers above: each function does nothing, and its contract is the law.
ghost use Rattle.std.specs.Prelude.{◌≡◌, ℕ, ◌≤◌, true, length, take, drop, Option, IsSome};
ghost use Rattle.s4_types.specs.declared.limits.TheConstants.{CHAIN_ENTRY_BYTES};
ghost use Rattle.s4_types.specs.declared.limits.TheConstants.{JOURNAL_ENTRY_BYTES};
ghost use Rattle.s4_types.specs.Pointer.{Place};
ghost use Rattle.block_log.specs.declared.kinds.BlockKind.TheVariants.{Journal};
ghost use Rattle.block_log.specs.Log.{Stored, of_kind};
ghost use Rattle.checkpoint.specs.Held.{of_checkpoints};
ghost use Rattle.journal_chain.specs.Chain.{chain_entries};
ghost use Rattle.object_map.specs.declared.map.Row.{Row};
ghost use Rattle.undo_redo.specs.Runs.{AllBy, AllPast, entries_by};
ghost use Rattle.time_read.specs.Rows.{IsRow, entries_of, first_of, inode_of, last_inode};
ghost use Rattle.time_read.specs.Orderly.{inode_behind, IsFromTo, IsOrderly};

use journal_chain::packing::laws::packing_keeps_the_rule;
use undo_redo::laws::{entries_determine_a_run, groups_part_at_a_moment};

/// A row is a matter of its object's journal blocks and checkpoints alone: where those are the
/// same, it is as before, and the inode at each moment is the same.
#[tactic(auto, using(crate::proofs::Staying::same_row, crate::proofs::Staying::same_inode))]
pub fn a_row_is_its_own_blocks()
    ensures row { (held later : Place → Option Stored) (o : ℕ) (row : Row)
        → of_kind Journal o later ≡ of_kind Journal o held
        → of_checkpoints o later ≡ of_checkpoints o held
        → IsRow held o row → IsRow later o row }
    ensures inode { (held later : Place → Option Stored) (o t : ℕ) (row : Row)
        → of_kind Journal o later ≡ of_kind Journal o held
        → of_checkpoints o later ≡ of_checkpoints o held
        → inode_of later o row t ≡ inode_of held o row t }
{}

/// From the moment of its last entry on, an object's inode is the one after all entries.
#[tactic(auto, using(crate::proofs::Reading::inode_of_first))]
pub fn the_last_inode_is_current()
    ensures { (held : Place → Option Stored) (o t : ℕ) (row : Row)
        → AllBy t (entries_of held o row) → inode_of held o row t ≡ last_inode held o row }
{
    entries_determine_a_run();
}

/// A row tells a journal that can be read: at most `CHAIN_ENTRY_BYTES` of entries, at most
/// `JOURNAL_ENTRY_BYTES` of them in the newest block, and each of its blocks is held.
#[tactic(auto, using(crate::proofs::Reading::few_bytes, crate::proofs::Reading::chain_is_there))]
pub fn a_row_tells_a_chain()
    ensures bytes { (held : Place → Option Stored) (o : ℕ) (row : Row) → IsRow held o row
        → row.journal_bytes ≤ CHAIN_ENTRY_BYTES }
    ensures newest { (held : Place → Option Stored) (o : ℕ) (row : Row) → IsRow held o row
        → row.head_bytes ≤ JOURNAL_ENTRY_BYTES }
    ensures walk { (held : Place → Option Stored) (o : ℕ) (row : Row) → IsRow held o row
        → IsSome (chain_entries held o row.head) }
{
    packing_keeps_the_rule();
}

/// Whether a row is in order up to a moment is a matter of its object's journal blocks and
/// checkpoints alone, and not of its stamp. A row that is in order up to a moment is so up to each
/// later one.
pub fn an_orderly_row_stays()
    ensures blocks { (held later : Place → Option Stored) (o latest : ℕ) (row : Row)
        → of_kind Journal o later ≡ of_kind Journal o held
        → of_checkpoints o later ≡ of_checkpoints o held
        → IsOrderly held o row latest → IsOrderly later o row latest }
    ensures stamp { (held : Place → Option Stored) (o latest n : ℕ) (row : Row) → IsOrderly held o row latest → IsOrderly held o (record row { stamp = n }) latest }
    ensures later { (held : Place → Option Stored) (o : ℕ) (row : Row) (a b : ℕ) → a ≤ b
        → IsOrderly held o row a → IsOrderly held o row b }
{}

/// At each moment an object's inode is one of its chain: the one after the entries up to the
/// moment; and an inode of the chain is current at each moment that parts its entries so. So where
/// the row is in order up to a latest moment, the last change of each live inode was from the
/// object's making to that moment.
pub fn each_inode_is_of_the_chain()
    ensures behind { (held : Place → Option Stored) (o : ℕ) (row : Row) (t : ℕ) → IsRow held o row
        → inode_of held o row t
        ≡ inode_behind (first_of held o row) (entries_of held o row)
        (length (entries_by t (entries_of held o row))) }
    ensures current { (held : Place → Option Stored) (o : ℕ) (row : Row) (n t : ℕ) → AllBy t (take n (entries_of held o row)) → AllPast t (drop n (entries_of held o row))
        → inode_behind (first_of held o row) (entries_of held o row) n ≡ inode_of held o row t }
    ensures changed { (held : Place → Option Stored) (o : ℕ) (row : Row) (t latest : ℕ) → IsRow held o row → IsOrderly held o row latest
        → (inode_of held o row t).alive ≡ true
        → IsFromTo row.created latest (inode_of held o row t).changed }
{
    groups_part_at_a_moment();
    entries_determine_a_run();
}

//! An object's checkpoint and journal at other places, as of the moments that they have.
ghost use Rattle.std.specs.Prelude.{◌≡◌, ℕ, ◌<◌, ◌≤◌, [], length, map, IsSome, IfOk, OnErr};
ghost use Rattle.std.specs.Prelude.{MatchResult, MatchOption, is_some, option_copied, take};
ghost use Rattle.std.specs.List.{Contains};
ghost use Rattle.s4_types.specs.Pointer.{Place};
ghost use Rattle.s4_types.specs.declared.limits.TheConstants.{CHECKPOINT_BLOCKS};
ghost use Rattle.s4_types.specs.declared.refusals.Refusal.TheVariants.{NoRoom};
ghost use Rattle.block_log.specs.declared.kinds.BlockKind.TheVariants.{Journal};
ghost use Rattle.block_log.specs.Log.{of_kind};
ghost use Rattle.block_log.specs.Taken.{TakesPlaces};
ghost use Rattle.codec.specs.Entry.{entry_length, entries_length};
ghost use Rattle.undo_redo.specs.Runs.{inode_after};
ghost use Rattle.checkpoint.specs.Held.{of_checkpoints};
ghost use Rattle.time_read.specs.Rows.{IsRow, entries_of, first_of, checkpoint_of, inode_of};
ghost use Rattle.time_read.specs.Orderly.{IsFromTo, IsOrderly, IsOrderlyChain, BeginsDead};
ghost use Rattle.row_changes.specs.Rewritten.{OnlyMetadataChanged};
ghost use Rattle.row_changes.specs.Moving.{CanTell, kept_blocks, inode_kept, checkpoint_with};
ghost use Rattle.row_changes.specs.Moving.{first_with, moved_blocks, row_blocks};

use crate::writing::write_row;
use arrayvec::ArrayVec;
use block_log::Blocks;
use checkpoint::laws::a_checkpoint_is_in_its_blocks;
use checkpoint::placed_blocks;
use codec::{Entry, Inode};
use journal_chain::Chain;
use journal_chain::packing::blocks_needed;
use journal_chain::packing::laws::chains_are_short;
use object_map::Row;
use s4_types::limits::CHAIN_ENTRIES;
use s4_types::{ObjectId, Refusal};
use time_read::laws::a_row_tells_a_chain;

/// The bytes of each entry of an object's journal. It is walked from the newest entry back.
fn sizes_told<B: Blocks>(
    table: &mut B,
    object: ObjectId,
    row: &Row,
) -> ArrayVec<usize, CHAIN_ENTRIES>
    requires { IsRow (B.log table.old).held object row.now }
    ensures sizes { result.items
        ≡ map entry_length (entries_of (B.log table.old).held object row.now) }
    ensures same { B.log table.new ≡ B.log table.old }
{
    a_row_tells_a_chain();
    chains_are_short();
    let chain = Chain::of(object, row.head, row.journal_bytes, row.head_bytes);
    let mut sizes = ArrayVec::new();
    let mut back = chain.entries_back();
    while let Some(entry) = back.next(table) {
        sizes.push(entry.byte_count());
    }
    sizes.reverse();
    sizes
}

/// How many blocks the checkpoint of an object that has this row is in, if it has one.
fn standing_blocks<B: Blocks>(table: &mut B, object: ObjectId, row: &Row) -> usize
    requires { IsRow (B.log table.old).held object row.now }
    ensures blocks { result ≡ kept_blocks (inode_kept (B.log table.old).held object row.now) }
    ensures few { result ≤ CHECKPOINT_BLOCKS }
    ensures same { B.log table.new ≡ B.log table.old }
{
    a_checkpoint_is_in_its_blocks();
    match row.checkpoint {
        None => 0,
        Some(place) => placed_blocks(table, object, place),
    }
}

/// How many places it takes to write an object's checkpoint, if it has one, and its whole journal
/// at other places: what `move_row` counts before anything is written. Takes no memory.
pub fn moved_blocks<B: Blocks>(table: &mut B, object: ObjectId, row: &Row) -> usize
    requires { IsRow (B.log table.old).held object row.now }
    ensures blocks { result ≡ row_blocks (B.log table.old).held object row.now }
    ensures same { B.log table.new ≡ B.log table.old }
{
    chains_are_short();
    let sizes = sizes_told(table, object, row);
    standing_blocks(table, object, row) + blocks_needed(0, sizes.as_slice())
}

/// Writes an object's checkpoint, if it has one, with this inode, and then its whole journal afresh
/// with these entries, the oldest first, in place of what stood; and answers its row after that.
/// The checkpoint keeps its moment, and none appears where there was none. No block of the old
/// journal is held any more, and each of the new one is at a place that was taken for it.
///
/// At each moment the inode is then the one that the entries tell. A row whose new entries are in
/// order is in order. The row names no older checkpoints.
///
/// NoRoom exactly where fewer places are ahead than the checkpoint and the entries take; then
/// nothing has changed.
pub fn move_row<B: Blocks>(
    table: &mut B,
    object: ObjectId,
    row: &Row,
    kept: Option<&Inode>,
    entries: &[Entry],
) -> Result<Row, Refusal>
    requires row { IsRow (B.log table.old).held object row.now }
    requires sides { row.now.sides ≡ [] }
    requires tell { CanTell object row.now (option_copied kept) entries.now }
    ensures row { IfOk result (λ later. IsRow (B.log table.new).held object later) }
    ensures entries { IfOk result
        (λ later. entries_of (B.log table.new).held object later ≡ entries.now) }
    ensures checkpoint { IfOk result
        (λ later. checkpoint_of (B.log table.new).held object later
        ≡ checkpoint_with object row.now (option_copied kept.entry)) }
    ensures first { IfOk result
        (λ later. first_of (B.log table.new).held object later
        ≡ first_with object row.now (option_copied kept.entry) entries.now) }
    ensures inode { IfOk result
        (λ later. (t : ℕ)
        → inode_of (B.log table.new).held object later t
        ≡ inode_after (first_with object row.now (option_copied kept.entry) entries.now)
        entries.now t) }
    ensures orderly { IfOk result (λ later. (latest : ℕ) → IsOrderlyChain row.now.created latest (first_with object row.now (option_copied kept.entry) entries.now) entries.now
        → IsFromTo 1 latest row.now.created
        → MatchOption row.now.checkpoint (BeginsDead entries.now)
        (λ p. IsFromTo row.now.created latest row.now.checkpoint_moment)
        → IsOrderly (B.log table.new).held object later latest) }
    ensures fields { IfOk result (λ later. later ≡ record row.now {
      checkpoint = later.checkpoint;
      head = later.head;
      journal_bytes = entries_length entries.now;
      head_bytes = later.head_bytes;
    }) }
    ensures some { IfOk result (λ later. is_some later.checkpoint ≡ is_some row.now.checkpoint) }
    ensures others { OnlyMetadataChanged object (B.log table.old).held (B.log table.new).held }
    ensures takes { IfOk result
        (λ _. TakesPlaces (moved_blocks (option_copied kept.entry) entries.now) (B.log table.old)
        (B.log table.new)) }
    ensures named { (B.log table.new).named ≡ (B.log table.old).named }
    ensures journal { IfOk result
        (λ _. (p : Place)
        → IsSome (of_kind Journal object (B.log table.new).held p)
        → Contains
        (take (moved_blocks (option_copied kept.entry) entries.now) (B.log table.old).ahead)
        p) }
    ensures checkpoints { IfOk result
        (λ _. (p : Place)
        → IsSome (of_checkpoints object (B.log table.new).held p)
        → Contains
        (take (moved_blocks (option_copied kept.entry) entries.now) (B.log table.old).ahead)
        p) }
    ensures answer { MatchResult result
        (λ _. moved_blocks (option_copied kept.entry) entries.now ≤ length (B.log table.old).ahead)
        (λ e. (e ≡ NoRoom)
        × (length (B.log table.old).ahead
        < moved_blocks (option_copied kept.entry) entries.now)) }
    ensures unchanged { OnErr result (B.log table.new ≡ B.log table.old) }
{
    write_row(table, object, row, kept, row.checkpoint_moment, entries)
}

//! An object's checkpoint and its whole journal, written in place of what stood.
ghost use Rattle.std.specs.Prelude.{◌≡◌, ℕ, ◌<◌, ◌≤◌, true, [], length, map, IsSome, IfSome, IfOk};
ghost use Rattle.std.specs.Prelude.{◌++◌, Some, None, OnErr, MatchResult, MatchOption, is_some};
ghost use Rattle.std.specs.Prelude.{option_copied, reverse, take};
ghost use Rattle.std.specs.List.{Contains};
ghost use Rattle.s4_types.specs.Pointer.{Place};
ghost use Rattle.s4_types.specs.declared.limits.TheConstants.{CHAIN_ENTRIES, CHAIN_ENTRY_BYTES};
ghost use Rattle.s4_types.specs.declared.limits.TheConstants.{CHECKPOINT_BLOCKS};
ghost use Rattle.s4_types.specs.declared.limits.TheConstants.{JOURNAL_ENTRY_BYTES};
ghost use Rattle.s4_types.specs.declared.refusals.Refusal.TheVariants.{NoRoom};
ghost use Rattle.block_log.specs.declared.kinds.BlockKind.TheVariants.{Journal};
ghost use Rattle.block_log.specs.Log.{of_kind};
ghost use Rattle.block_log.specs.Taken.{TakesPlaces};
ghost use Rattle.codec.specs.Entry.{entry_length, entries_length};
ghost use Rattle.codec.specs.Checkpoint.{checkpoint_rules};
ghost use Rattle.undo_redo.specs.Runs.{inode_after};
ghost use Rattle.journal_chain.specs.Chain.{Holds, OnlyJournalChanged, chain_places};
ghost use Rattle.journal_chain.specs.Push.{whole_blocks};
ghost use Rattle.checkpoint.specs.Held.{checkpoint_held, checkpoint_places, checkpoint_blocks};
ghost use Rattle.checkpoint.specs.Held.{of_checkpoints, places_named, is_one_of};
ghost use Rattle.checkpoint.specs.Held.{OnlyCheckpointChanged};
ghost use Rattle.time_read.specs.Rows.{IsRow, chain_of, entries_of, first_of, checkpoint_of};
ghost use Rattle.time_read.specs.Rows.{inode_of, checkpoint_places_of};
ghost use Rattle.time_read.specs.Orderly.{IsFromTo, IsOrderly, IsOrderlyChain, BeginsDead};
ghost use Rattle.row_changes.specs.Rewritten.{OnlyMetadataChanged};
ghost use Rattle.row_changes.specs.Moving.{CanWrite, checkpoint_made, checkpoint_kept, first_kept};
ghost use Rattle.row_changes.specs.Moving.{kept_blocks, moved_blocks};

use crate::checkpoints::{drop_named, put_ahead};
use arrayvec::ArrayVec;
use block_log::Blocks;
use checkpoint::laws::a_checkpoint_is_in_its_blocks;
use checkpoint::{checkpoint_blocks, drop_checkpoint};
use codec::{Entry, Inode};
use journal_chain::Chain;
use journal_chain::laws::a_chain_is_in_its_journal_blocks;
use journal_chain::packing::blocks_needed;
use journal_chain::packing::laws::chains_are_short;
use object_map::Row;
use s4_types::limits::CHAIN_ENTRIES;
use s4_types::{Moment, ObjectId, Ptr, Refusal};
use time_read::laws::a_row_tells_a_chain;

/// The bytes of each of the entries of a chain.
fn sizes_of(entries: &[Entry]) -> ArrayVec<usize, CHAIN_ENTRIES>
    requires { length entries.now ≤ CHAIN_ENTRIES }
    ensures { result.items ≡ map entry_length entries.now }
{
    let mut sizes = ArrayVec::new();
    for entry in entries {
        sizes.push(entry.byte_count());
    }
    sizes
}

/// How many places it takes to write a whole journal of these entries anew, of at most
/// `CHAIN_ENTRY_BYTES`.
pub fn journal_blocks(entries: &[Entry]) -> usize
    requires { entries_length entries.now ≤ CHAIN_ENTRY_BYTES }
    ensures blocks { result ≡ whole_blocks entries.now }
    ensures few { result ≤ CHAIN_ENTRIES }
{
    chains_are_short();
    let sizes = sizes_of(entries);
    blocks_needed(0, sizes.as_slice())
}

/// How many blocks the checkpoint of an inode takes, if there is one.
fn kept_blocks(kept: Option<&Inode>) -> usize
    ensures blocks { result ≡ kept_blocks (option_copied kept.entry) }
    ensures few { result ≤ CHECKPOINT_BLOCKS }
{
    match kept {
        None => 0,
        Some(inode) => checkpoint_blocks(inode),
    }
}

/// Puts a checkpoint of this inode as of a moment in place of the one that an object's row names, if
/// it names one, where there is room.
fn put_anew<B: Blocks>(
    table: &mut B,
    object: ObjectId,
    row: &Row,
    inode: &Inode,
    moment: Moment,
) -> Ptr
    requires row { IsRow (B.log table.old).held object row.now }
    requires sides { row.now.sides ≡ [] }
    requires rules { checkpoint_rules (checkpoint_made object moment inode.now) ≡ true }
    requires room { checkpoint_blocks inode.now ≤ length (B.log table.old).ahead }
    ensures told { checkpoint_held (B.log table.new).held object result
        ≡ Some (checkpoint_made object moment inode.now) }
    ensures only { (p : Place)
        → IsSome (of_checkpoints object (B.log table.new).held p)
        → is_one_of (checkpoint_places (B.log table.new).held object result) p ≡ true }
    ensures places { (p : Place)
        → IsSome (of_checkpoints object (B.log table.new).held p)
        → Contains (take (checkpoint_blocks inode.now) (B.log table.old).ahead) p }
    ensures order { (B.log table.old).ahead
        ≡ checkpoint_places (B.log table.new).held object result ++ (B.log table.new).ahead }
    ensures others { OnlyCheckpointChanged object (B.log table.old).held (B.log table.new).held }
    ensures takes { TakesPlaces (checkpoint_blocks inode.now) (B.log table.old) (B.log table.new) }
    ensures named { (B.log table.new).named ≡ (B.log table.old).named }
{
    a_checkpoint_is_in_its_blocks();
    let place = put_ahead(table, object, inode, moment);
    drop_checkpoint(table, object, row.checkpoint);
    place
}

/// Puts a checkpoint of this inode as of a moment, if there is one, in place of the one that an
/// object's row names, if it names one, where there is room; and answers where it stands.
fn put_kept<B: Blocks>(
    table: &mut B,
    object: ObjectId,
    row: &Row,
    kept: Option<&Inode>,
    moment: Moment,
) -> Option<Ptr>
    requires row { IsRow (B.log table.old).held object row.now }
    requires sides { row.now.sides ≡ [] }
    requires rules { IfSome (option_copied kept)
        (λ i. checkpoint_rules (checkpoint_made object moment i) ≡ true) }
    requires room { kept_blocks (option_copied kept) ≤ length (B.log table.old).ahead }
    ensures told { checkpoint_of (B.log table.new).held object (record row.now { checkpoint = result }) ≡ checkpoint_kept object moment (option_copied kept.entry) }
    ensures some { is_some result ≡ is_some (option_copied kept.entry) }
    ensures only { (p : Place)
        → IsSome (of_checkpoints object (B.log table.new).held p)
        → is_one_of (places_named (of_checkpoints object (B.log table.new).held) result) p ≡ true }
    ensures places { (p : Place)
        → IsSome (of_checkpoints object (B.log table.new).held p)
        → Contains (take (kept_blocks (option_copied kept.entry)) (B.log table.old).ahead) p }
    ensures order { (B.log table.old).ahead
        ≡ places_named (of_checkpoints object (B.log table.new).held) result
        ++ (B.log table.new).ahead }
    ensures others { OnlyCheckpointChanged object (B.log table.old).held (B.log table.new).held }
    ensures takes { TakesPlaces (kept_blocks (option_copied kept.entry)) (B.log table.old)
        (B.log table.new) }
    ensures named { (B.log table.new).named ≡ (B.log table.old).named }
{
    let Some(inode) = kept else {
        drop_named(table, object, row);
        return None;
    };
    Some(put_anew(table, object, row, inode, moment))
}

/// Drops all journal blocks of an object.
fn drop_chain<B: Blocks>(table: &mut B, object: ObjectId, row: &Row)
    requires object { 1 ≤ object }
    requires bytes { row.now.journal_bytes ≤ CHAIN_ENTRY_BYTES }
    requires one_block { row.now.head_bytes ≤ JOURNAL_ENTRY_BYTES }
    requires held { Holds (B.log table.old).held (chain_of object row.now)
        (entries_of (B.log table.old).held object row.now) }
    ensures gone { (p : Place) → of_kind Journal object (B.log table.new).held p ≡ None }
    ensures others { OnlyJournalChanged object (B.log table.old).held (B.log table.new).held }
    ensures takes { TakesPlaces 0 (B.log table.old) (B.log table.new) }
    ensures named { (B.log table.new).named ≡ (B.log table.old).named }
{
    let mut chain = Chain::of(object, row.head, row.journal_bytes, row.head_bytes);
    let Ok(()) = chain.rewrite(table, &[]) else {
        unreachable!()
    };
}

/// Drops all journal blocks of an object, and then writes its journal afresh where there is room,
/// and answers its chain. So each journal block of it is at a place that was taken.
fn write_chain<B: Blocks>(table: &mut B, object: ObjectId, row: &Row, entries: &[Entry]) -> Chain
    requires object { 1 ≤ object }
    requires bytes { row.now.journal_bytes ≤ CHAIN_ENTRY_BYTES }
    requires one_block { row.now.head_bytes ≤ JOURNAL_ENTRY_BYTES }
    requires held { Holds (B.log table.old).held (chain_of object row.now)
        (entries_of (B.log table.old).held object row.now) }
    requires limit { entries_length entries.now ≤ CHAIN_ENTRY_BYTES }
    requires room { whole_blocks entries.now ≤ length (B.log table.old).ahead }
    ensures holds { Holds (B.log table.new).held result entries.now }
    ensures object { result.object ≡ object }
    ensures places { (p : Place)
        → IsSome (of_kind Journal object (B.log table.new).held p)
        → Contains (take (whole_blocks entries.now) (B.log table.old).ahead) p }
    ensures order { (B.log table.old).ahead
        ≡ reverse (chain_places (of_kind Journal object (B.log table.new).held) object result.head)
        ++ (B.log table.new).ahead }
    ensures others { OnlyJournalChanged object (B.log table.old).held (B.log table.new).held }
    ensures takes { TakesPlaces (whole_blocks entries.now) (B.log table.old) (B.log table.new) }
    ensures named { (B.log table.new).named ≡ (B.log table.old).named }
{
    a_chain_is_in_its_journal_blocks();
    drop_chain(table, object, row);
    Chain::write_whole(object, table, entries)
}

/// Writes a checkpoint of this inode as of a moment, if there is an inode, and then a whole journal
/// of these entries, the oldest first, in place of all that an object's row names, and answers its
/// row after that. No block of what stood is held any more, and each of the new ones is at a place
/// that was taken for it. With neither an inode nor entries no block of the object's is left but its
/// data.
///
/// At each moment the inode is then the one that the entries tell. A row whose new entries are in
/// order is in order. The row names no older checkpoints.
///
/// NoRoom exactly where fewer places are ahead than the checkpoint and the entries take; then
/// nothing has changed.
pub fn write_row<B: Blocks>(
    table: &mut B,
    object: ObjectId,
    row: &Row,
    kept: Option<&Inode>,
    moment: Moment,
    entries: &[Entry],
) -> Result<Row, Refusal>
    requires row { IsRow (B.log table.old).held object row.now }
    requires sides { row.now.sides ≡ [] }
    requires tell { CanWrite object row.now.created moment (option_copied kept) entries.now }
    ensures row { IfOk result (λ later. IsRow (B.log table.new).held object later) }
    ensures entries { IfOk result
        (λ later. entries_of (B.log table.new).held object later ≡ entries.now) }
    ensures checkpoint { IfOk result
        (λ later. checkpoint_of (B.log table.new).held object later
        ≡ checkpoint_kept object moment (option_copied kept.entry)) }
    ensures first { IfOk result
        (λ later. first_of (B.log table.new).held object later
        ≡ first_kept object row.now.created moment (option_copied kept.entry) entries.now) }
    ensures inode { IfOk result
        (λ later. (t : ℕ)
        → inode_of (B.log table.new).held object later t
        ≡ inode_after
        (first_kept object row.now.created moment (option_copied kept.entry) entries.now)
        entries.now t) }
    ensures orderly { IfOk result (λ later. (latest : ℕ) → IsOrderlyChain row.now.created latest (first_kept object row.now.created moment (option_copied kept.entry) entries.now) entries.now
        → IsFromTo 1 latest row.now.created
        → MatchOption (option_copied kept.entry) (BeginsDead entries.now)
        (λ _. IsFromTo row.now.created latest moment)
        → IsOrderly (B.log table.new).held object later latest) }
    ensures fields { IfOk result (λ later. later ≡ record row.now {
      checkpoint = later.checkpoint;
      checkpoint_moment = moment;
      head = later.head;
      journal_bytes = entries_length entries.now;
      head_bytes = later.head_bytes;
    }) }
    ensures some { IfOk result
        (λ later. is_some later.checkpoint ≡ is_some (option_copied kept.entry)) }
    ensures others { OnlyMetadataChanged object (B.log table.old).held (B.log table.new).held }
    ensures takes { IfOk result
        (λ _. TakesPlaces (moved_blocks (option_copied kept.entry) entries.now) (B.log table.old)
        (B.log table.new)) }
    ensures named { (B.log table.new).named ≡ (B.log table.old).named }
    ensures journal { IfOk result
        (λ _. (p : Place)
        → IsSome (of_kind Journal object (B.log table.new).held p)
        → Contains
        (take (moved_blocks (option_copied kept.entry) entries.now) (B.log table.old).ahead)
        p) }
    ensures checkpoints { IfOk result
        (λ _. (p : Place)
        → IsSome (of_checkpoints object (B.log table.new).held p)
        → Contains
        (take (moved_blocks (option_copied kept.entry) entries.now) (B.log table.old).ahead)
        p) }
    ensures order { IfOk result
        (λ later. (B.log table.old).ahead
        ≡ checkpoint_places_of (B.log table.new).held object later
        ++ (reverse
        (chain_places (of_kind Journal object (B.log table.new).held) object later.head)
        ++ (B.log table.new).ahead)) }
    ensures answer { MatchResult result
        (λ _. moved_blocks (option_copied kept.entry) entries.now ≤ length (B.log table.old).ahead)
        (λ e. (e ≡ NoRoom)
        × (length (B.log table.old).ahead
        < moved_blocks (option_copied kept.entry) entries.now)) }
    ensures unchanged { OnErr result (B.log table.new ≡ B.log table.old) }
{
    a_chain_is_in_its_journal_blocks();
    a_row_tells_a_chain();
    if table.blocks_left() < kept_blocks(kept) + journal_blocks(entries) {
        return Err(Refusal::NoRoom);
    }
    let checkpoint = put_kept(table, object, row, kept, moment);
    let chain = write_chain(table, object, row, entries);
    Ok(Row {
        checkpoint,
        checkpoint_moment: moment,
        head: chain.head(),
        journal_bytes: chain.bytes() as u16,
        head_bytes: chain.filled() as u16,
        ..*row
    })
}

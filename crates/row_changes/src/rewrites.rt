ghost use Rattle.std.specs.Prelude.{◌≡◌, ℕ, ◌<◌, ◌≤◌, true, [], length, IsSome, IfOk, OnErr};
ghost use Rattle.std.specs.Prelude.{MatchResult};
ghost use Rattle.s4_types.specs.declared.limits.TheConstants.{CHAIN_ENTRY_BYTES};
ghost use Rattle.s4_types.specs.declared.refusals.Refusal.TheVariants.{NoRoom};
ghost use Rattle.block_log.specs.Taken.{TakesPlaces};
ghost use Rattle.codec.specs.Entry.{entries_length};
ghost use Rattle.codec.specs.Checkpoint.{checkpoint_rules};
ghost use Rattle.undo_redo.specs.Runs.{AllBy, Run, inode_after, undone_all};
ghost use Rattle.undo_redo.specs.Groups.{grouped};
ghost use Rattle.time_read.specs.Rows.{IsRow, entries_of, first_of, inode_of, last_inode};
ghost use Rattle.time_read.specs.Orderly.{IsFromTo, IsOrderly, IsOrderlyChain};
ghost use Rattle.row_changes.specs.Recent.{IsBy};
ghost use Rattle.row_changes.specs.Rewritten.{OnlyMetadataChanged, rewritten_blocks};

use crate::writing::{journal_blocks, write_row};
use block_log::Blocks;
use checkpoint::checkpoint_blocks;
use codec::{Entry, Inode};
use object_map::Row;
use s4_types::{Moment, ObjectId, Refusal};
use undo_redo::laws::entries_determine_a_run;

/// How many places it takes to write an object's checkpoint of an inode and its whole journal anew
/// with these entries, of at most `CHAIN_ENTRY_BYTES`: what `rewrite_row` counts before anything is
/// written.
pub fn rewritten_blocks(present: &Inode, entries: &[Entry]) -> usize
    requires { entries_length entries.now ≤ CHAIN_ENTRY_BYTES }
    ensures { result ≡ rewritten_blocks present.now entries.now }
{
    checkpoint_blocks(present) + journal_blocks(entries)
}

/// Writes an object's present inode as its checkpoint of a moment, and then its whole journal
/// afresh with these entries, the oldest first and at most `CHAIN_ENTRY_BYTES` of them, in place of
/// what stood; and answers its row after that. With no entry there is no journal, and the
/// checkpoint alone tells the inode.
///
/// At each moment the inode is then the one that the entries tell. A row whose new entries are in
/// order is in order. The row names no older checkpoints.
///
/// NoRoom exactly where fewer places are ahead than `rewritten_blocks` counts; then nothing has
/// changed.
pub fn rewrite_row<B: Blocks>(
    table: &mut B,
    object: ObjectId,
    row: &Row,
    present: &Inode,
    moment: Moment,
    entries: &[Entry],
) -> Result<Row, Refusal>
    requires row { IsRow (B.log table.old).held object row.now }
    requires sides { row.now.sides ≡ [] }
    requires run { Run (undone_all entries.now present.now) entries.now present.now }
    requires groups { grouped entries.now ≡ true }
    requires latest { AllBy moment entries.now }
    requires limit { entries_length entries.now ≤ CHAIN_ENTRY_BYTES }
    requires created { present.now.created ≡ row.now.created }
    requires rules { checkpoint_rules (record { object = object; moment = moment; inode = present.now }) ≡ true }
    ensures row { IfOk result (λ later. IsRow (B.log table.new).held object later) }
    ensures latest { IfOk result (λ later. IsBy (B.log table.new).held object later moment) }
    ensures entries { IfOk result
        (λ later. entries_of (B.log table.new).held object later ≡ entries.now) }
    ensures first { IfOk result
        (λ later. first_of (B.log table.new).held object later
        ≡ undone_all entries.now present.now) }
    ensures inode { IfOk result
        (λ later. (t : ℕ)
        → inode_of (B.log table.new).held object later t
        ≡ inode_after (undone_all entries.now present.now) entries.now t) }
    ensures last { IfOk result
        (λ later. last_inode (B.log table.new).held object later ≡ present.now) }
    ensures orderly { IfOk result (λ later. (latest : ℕ) → IsOrderlyChain row.now.created latest (undone_all entries.now present.now) entries.now
        → IsFromTo row.now.created latest moment → IsFromTo 1 latest row.now.created → IsOrderly (B.log table.new).held object later latest) }
    ensures fields { IfOk result (λ later. later ≡ record row.now {
      checkpoint = later.checkpoint;
      checkpoint_moment = moment;
      head = later.head;
      journal_bytes = entries_length entries.now;
      head_bytes = later.head_bytes;
    }) }
    ensures some { IfOk result (λ later. IsSome later.checkpoint) }
    ensures others { OnlyMetadataChanged object (B.log table.old).held (B.log table.new).held }
    ensures takes { IfOk result
        (λ _. TakesPlaces (rewritten_blocks present.now entries.now) (B.log table.old)
        (B.log table.new)) }
    ensures named { (B.log table.new).named ≡ (B.log table.old).named }
    ensures answer { MatchResult result
        (λ _. rewritten_blocks present.now entries.now ≤ length (B.log table.old).ahead)
        (λ e. (e ≡ NoRoom)
        × (length (B.log table.old).ahead < rewritten_blocks present.now entries.now)) }
    ensures unchanged { OnErr result (B.log table.new ≡ B.log table.old) }
{
    entries_determine_a_run();
    write_row(table, object, row, Some(present), moment, entries)
}

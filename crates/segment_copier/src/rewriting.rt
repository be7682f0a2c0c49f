//! What a move writes of an object beside the data blocks that it copies: the object's checkpoint
//! and its journal.
ghost use Rattle.std.specs.Prelude.{◌≡◌, ◌≤◌, length, is_some};
ghost use Rattle.std.specs.List.{count_by};
ghost use Rattle.s4_types.specs.declared.limits.TheConstants.{CHECKPOINT_BLOCKS, CHECKPOINT_PARTS};
ghost use Rattle.checkpoint.specs.Held.{checkpoint_places, of_checkpoints, HasBytes};
ghost use Rattle.time_read.specs.Rows.{IsRow};
ghost use Rattle.row_changes.specs.Moving.{kept_blocks, inode_kept};
ghost use Rattle.segment_table.specs.Table.{held_at};
ghost use Rattle.segment_copier.specs.declared.rewriting.TheConstants.{MOST_IN_JOURNAL};
ghost use Rattle.segment_copier.specs.declared.rewriting.TheConstants.{MOST_REWRITTEN};
ghost use Rattle.segment_copier.specs.Gathering.{most_journal, most_rewritten};

use checkpoint::laws::a_checkpoint_is_in_its_blocks;
use codec::{FirstBlock, decode_first_block};
use drive::Drive;
use object_map::Row;
use s4_types::limits::{CHECKPOINT_BLOCKS, JOURNAL_ENTRY_BYTES};
use s4_types::{ObjectId, Ptr};
use segment_table::OverFrames;
use segment_word::Naming;

/// Blocks that a journal is counted as at most, whatever a row tells of its bytes.
const MOST_IN_JOURNAL: usize = u16::MAX as usize / JOURNAL_ENTRY_BYTES * 2 + 1;

/// Blocks that an object's checkpoint and journal are counted as at most.
pub const MOST_REWRITTEN: usize = MOST_IN_JOURNAL + CHECKPOINT_BLOCKS;

/// A way to count what a move writes of an object beside the data blocks that it copies, whatever
/// frame the object leaves.
pub trait Rewrites<J: Naming> {
    ghost use Rattle.std.specs.Prelude.{ℕ};
    ghost use Rattle.drive.specs.Fields.{DriveFields};

    /// How many blocks are counted of an object.
    ghost written: { Self → DriveFields → ℕ → ℕ };

    /// How many blocks are counted of an object. The drive is as before.
    fn blocks_of(&self, drive: &mut Drive<J>, object: ObjectId) -> usize
        ensures blocks { result ≡ written self.now drive.old object }
        ensures few { result ≤ MOST_REWRITTEN }
        ensures same { drive.new ≡ drive.old };
}

/// How many parts of a checkpoint have a block of their own.
fn parts_placed(first: &FirstBlock) -> usize
    ensures count { result ≡ count_by is_some first.now.parts }
    ensures few { result ≤ CHECKPOINT_PARTS }
{
    first.parts.iter().filter(|part| part.is_some()).count()
}

/// How many blocks the checkpoint of an object that a pointer refers to is in. Its first block
/// alone is read.
#[tactic(auto, unfolding(checkpoint::specs::Held::places_in), using(checkpoint::proofs::OwnBlocks::seen_is, checkpoint::proofs::OwnBlocks::held_there, checkpoint::proofs::OwnBlocks::has_some))]
fn placed_blocks<J: Naming>(drive: &mut Drive<J>, object: ObjectId, place: Ptr) -> usize
    requires { HasBytes (of_checkpoints object (held_at drive.old.store.table) place) }
    ensures blocks { result
        ≡ length (checkpoint_places (held_at drive.old.store.table) object place) }
    ensures few { result ≤ CHECKPOINT_BLOCKS }
    ensures same { drive.new ≡ drive.old }
{
    match decode_first_block(&drive.block(place)) {
        None => 1,
        Some(first) => parts_placed(&first) + 1,
    }
}

/// How many blocks the checkpoint is in that the row of an object names, if it names one.
pub fn checkpoint_size<J: Naming>(drive: &mut Drive<J>, object: ObjectId, row: &Row) -> usize
    requires { IsRow (held_at drive.old.store.table) object row.now }
    ensures blocks { result ≡ kept_blocks (inode_kept (held_at drive.old.store.table) object row.now) }
    ensures few { result ≤ CHECKPOINT_BLOCKS }
    ensures same { drive.new ≡ drive.old }
{
    a_checkpoint_is_in_its_blocks();
    match row.checkpoint {
        None => 0,
        Some(place) => placed_blocks(drive, object, place),
    }
}

/// How many blocks a journal has at most, by the bytes of its entries and of those in its newest
/// block: of two neighbouring blocks the entries have more bytes together than one block holds.
fn most_in_journal(bytes: u16, in_newest: u16) -> usize
    ensures most { result ≡ most_journal bytes in_newest }
    ensures few { result ≤ MOST_IN_JOURNAL }
{
    if bytes == 0 {
        return 0;
    }
    if bytes == in_newest {
        return 1;
    }
    bytes as usize / JOURNAL_ENTRY_BYTES * 2 + 1
}

/// How many blocks an object's journal has at most, with those that its checkpoint has.
fn most_of<J: Naming>(drive: &mut Drive<J>, object: ObjectId) -> usize
    ensures most { result ≡ most_rewritten drive.old object }
    ensures few { result ≤ MOST_REWRITTEN }
    ensures same { drive.new ≡ drive.old }
{
    drive.rules();
    let Some(row) = drive.row(object) else {
        return 0;
    };
    let journal = most_in_journal(row.journal_bytes, row.head_bytes);
    journal + checkpoint_size(drive, object, &row)
}

/// Counts by an object's row: no journal is read, and so more blocks may be counted than are
/// written.
pub(crate) struct ByRow;

impl<J: Naming> Rewrites<J> for ByRow {
    ghost use Rattle.segment_copier.specs.Gathering.{most_rewritten};

    ghost written = { λ by. most_rewritten };

    fn blocks_of(&self, drive: &mut Drive<J>, object: ObjectId) -> usize {
        most_of(drive, object)
    }
}

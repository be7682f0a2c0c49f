ghost use Rattle.std.specs.Prelude.{◌≡◌, ℕ, ◌+◌, ◌-◌, ◌*◌, ◌/◌, ◌<◌, ◌≤◌, if◌then◌else◌, Some};
ghost use Rattle.std.specs.Prelude.{None, length, slice_get};
ghost use Rattle.s4_types.specs.declared.limits.TheConstants.{OBJECT_BLOCKS, OBJECT_BYTES};
ghost use Rattle.s4_types.specs.declared.changes.Change.TheVariants.{Write};
ghost use Rattle.s4_model.specs.Effect.{effect};
ghost use Rattle.codec.specs.Checkpoint.{pointer_at};
ghost use Rattle.inode.specs.Contents.{meaning, contents_of};
ghost use Rattle.inode.specs.Tidiness.{Tidy, PointersHeld, PointersLead};
ghost use Rattle.inode.specs.Growth.{log_grown, data_block, with_data, GrowsBy};
ghost use Rattle.inode.specs.Touched.{touched_count, is_touched};
ghost use Rattle.inode.specs.Changed.{byte_written, block_of, blocks_written, size_written};
ghost use Rattle.inode.specs.Changed.{Written};
ghost use Rattle.inode.specs.private.Placing.{Placed};

use crate::appends::append_data;
use crate::counts::blocks_of_write;
use crate::loads::{load, zero_block};
use block_log::{Block, Blocks};
use codec::Inode;
use s4_types::limits::BLOCK_BYTES;
use s4_types::{Moment, ObjectId, Ptr};

/// Puts the bytes of a write at an offset, as far as they are in the block of an index, into that
/// block.
fn place(block: &mut Block, index: usize, offset: usize, bytes: &[u8])
    requires index { index < OBJECT_BLOCKS }
    requires end { offset + length bytes.now ≤ OBJECT_BYTES }
    requires low { offset < 512 * index + 512 }
    requires high { 512 * index < offset + length bytes.now }
    ensures count { length block.new ≡ 512 }
    ensures bytes { Placed index offset bytes.now block.old block.new }
{
    let start = index * BLOCK_BYTES;
    let first = start.saturating_sub(offset);
    let from = offset.saturating_sub(start);
    let to = (offset + bytes.len() - start).min(BLOCK_BYTES);
    block[from..to].copy_from_slice(&bytes[first..first + (to - from)]);
}

/// Appends the block of an index as a write leaves it: the bytes of the write that are in it, and
/// what was there.
#[tactic(auto, using(crate::proofs::Placing::placed_block, crate::proofs::Placing::covered_block))]
fn write_block<B: Blocks>(
    table: &mut B,
    object: ObjectId,
    inode: &Inode,
    index: usize,
    offset: usize,
    bytes: &[u8],
) -> Ptr
    requires object { 1 ≤ object }
    requires index { index < OBJECT_BLOCKS }
    requires end { offset + length bytes.now ≤ OBJECT_BYTES }
    requires low { offset < 512 * index + 512 }
    requires high { 512 * index < offset + length bytes.now }
    requires count { length inode.now.pointers ≡ OBJECT_BLOCKS }
    requires lead { PointersLead (B.log table.old).held inode.now }
    requires room { 0 < length (B.log table.old).ahead }
    ensures log { B.log table.new
        ≡ log_grown (B.log table.old)
        (data_block object
        (block_of
        (byte_written (contents_of (B.log table.old).held) inode.now offset bytes.now)
        index)) }
    ensures place { slice_get (B.log table.old).ahead 0 ≡ Some result }
    ensures fresh { (B.log table.old).held result ≡ None }
{
    let start = index * BLOCK_BYTES;
    if offset <= start && start + BLOCK_BYTES <= offset + bytes.len() {
        let mut block = zero_block();
        place(&mut block, index, offset, bytes);
        return append_data(table, object, &block);
    }
    let mut block = load(table, inode, index);
    place(&mut block, index, offset, bytes);
    append_data(table, object, &block)
}

/// Appends each block that a write touches, by ascending index, and puts pointers to them into a
/// copy of the inode.
fn write_blocks<B: Blocks>(
    table: &mut B,
    object: ObjectId,
    inode: &Inode,
    offset: usize,
    bytes: &[u8],
    next: &mut Inode,
)
    requires object { 1 ≤ object }
    requires end { offset + length bytes.now ≤ OBJECT_BYTES }
    requires count { length inode.now.pointers ≡ OBJECT_BLOCKS }
    requires lead { PointersLead (B.log table.old).held inode.now }
    requires room { touched_count offset (length bytes.now) ≤ length (B.log table.old).ahead }
    requires copy { next.old ≡ inode.now }
    ensures log { B.log table.new
        ≡ with_data object
        (blocks_written (contents_of (B.log table.old).held) inode.now offset bytes.now)
        (B.log table.old) }
    ensures growth { GrowsBy object
        (blocks_written (contents_of (B.log table.old).held) inode.now offset bytes.now)
        (B.log table.old) (B.log table.new) }
    ensures count { length next.new.pointers ≡ OBJECT_BLOCKS }
    ensures rest { next.new ≡ record inode.now { pointers = next.new.pointers } }
    ensures pointers { (k : ℕ)
        → pointer_at next.new k
        ≡ (if is_touched offset (length bytes.now) k
        then slice_get (B.log table.old).ahead (k - offset / 512)
        else pointer_at inode.now k) }
{
    let first = offset / BLOCK_BYTES;
    let count = blocks_of_write(offset as u64, bytes.len());
    for index in first..first + count {
        let place = write_block(table, object, inode, index, offset, bytes);
        next.pointers[index] = Some(place);
    }
}

/// The size after a write of `len` bytes.
fn size_after(size: u32, offset: usize, len: usize) -> u32
    requires { offset + len ≤ OBJECT_BYTES }
    ensures { result ≡ size_written size offset len }
{
    if len == 0 {
        return size;
    }
    size.max((offset + len) as u32)
}

/// Writes bytes at an offset of a live object, up to a size of at most `OBJECT_BYTES`, and makes of
/// a copy of its inode the next one, changed at the moment. Each block that has one of the bytes is
/// appended anew, by ascending index, as `blocks_of_write` counts them; between the old end and the
/// offset stand zeros. Without bytes nothing but the moment changes.
pub fn write<B: Blocks>(
    table: &mut B,
    object: ObjectId,
    inode: &Inode,
    moment: Moment,
    offset: u64,
    bytes: &[u8],
    next: &mut Inode,
)
    requires object { 1 ≤ object }
    requires end { offset + length bytes.now ≤ OBJECT_BYTES }
    requires tidy { Tidy (contents_of (B.log table.old).held) inode.now }
    requires pointers { PointersHeld (B.log table.old).held object inode.now }
    requires room { touched_count offset (length bytes.now) ≤ length (B.log table.old).ahead }
    requires copy { next.old ≡ inode.now }
    ensures meaning { meaning (contents_of (B.log table.new).held) next.new
        ≡ effect (Write object offset bytes.now) moment
        (meaning (contents_of (B.log table.old).held) inode.now) }
    ensures tidy { Tidy (contents_of (B.log table.new).held) next.new }
    ensures pointers { PointersHeld (B.log table.new).held object next.new }
    ensures inode { Written (B.log table.old).ahead moment offset (length bytes.now) inode.now
        next.new }
    ensures log { B.log table.new
        ≡ with_data object
        (blocks_written (contents_of (B.log table.old).held) inode.now offset bytes.now)
        (B.log table.old) }
    ensures growth { GrowsBy object
        (blocks_written (contents_of (B.log table.old).held) inode.now offset bytes.now)
        (B.log table.old) (B.log table.new) }
{
    let offset = offset as usize;
    write_blocks(table, object, inode, offset, bytes, next);
    next.size = size_after(inode.size, offset, bytes.len());
    next.changed = moment;
}

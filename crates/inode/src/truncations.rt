ghost use Rattle.std.specs.Prelude.{◌≡◌, ℕ, true, ◌+◌, ◌*◌, ◌/◌, ◌<◌, ◌≤◌, nat_le, nat_lt};
ghost use Rattle.std.specs.Prelude.{if◌then◌else◌, Some, None, length, slice_get, slice_index};
ghost use Rattle.s4_types.specs.declared.limits.TheConstants.{OBJECT_BLOCKS, OBJECT_BYTES};
ghost use Rattle.s4_types.specs.declared.changes.Change.TheVariants.{Truncate};
ghost use Rattle.s4_model.specs.Effect.{effect};
ghost use Rattle.codec.specs.Checkpoint.{pointer_at};
ghost use Rattle.inode.specs.Contents.{meaning, contents_of};
ghost use Rattle.inode.specs.Tidiness.{Tidy, PointersHeld, PointersLead};
ghost use Rattle.inode.specs.Growth.{log_grown, data_block, with_data, GrowsBy};
ghost use Rattle.inode.specs.Touched.{cut_count};
ghost use Rattle.inode.specs.Changed.{byte_cut, block_of, blocks_cut, Truncated};

use crate::appends::append_data;
use crate::counts::blocks_of_truncate;
use crate::loads::load;
use block_log::{Block, Blocks};
use codec::Inode;
use s4_types::limits::{BLOCK_BYTES, OBJECT_BLOCKS};
use s4_types::{Moment, ObjectId, Ptr};

/// Puts zeros into a block from a byte on.
fn clear_from(block: &mut Block, from: usize)
    requires { from ≤ 512 }
    ensures count { length block.new ≡ 512 }
    ensures bytes { (n : ℕ) → n < 512
        → slice_index block.new n ≡ (if nat_lt n from then slice_index block.old n else 0) }
{
    block[from..].fill(0);
}

/// Appends the block that a truncation cuts, with zeros past the size.
#[tactic(auto, using(crate::proofs::Truncates::cut_is))]
fn cut_block<B: Blocks>(table: &mut B, object: ObjectId, inode: &Inode, size: u32) -> Ptr
    requires object { 1 ≤ object }
    requires size { size < OBJECT_BYTES }
    requires count { length inode.now.pointers ≡ OBJECT_BLOCKS }
    requires lead { PointersLead (B.log table.old).held inode.now }
    requires room { 0 < length (B.log table.old).ahead }
    ensures log { B.log table.new
        ≡ log_grown (B.log table.old)
        (data_block object
        (block_of (byte_cut (contents_of (B.log table.old).held) inode.now size)
        (size / 512))) }
    ensures place { slice_get (B.log table.old).ahead 0 ≡ Some result }
    ensures fresh { (B.log table.old).held result ≡ None }
{
    let size = size as usize;
    let mut block = load(table, inode, size / BLOCK_BYTES);
    clear_from(&mut block, size % BLOCK_BYTES);
    append_data(table, object, &block)
}

/// The inode with holes at and past a size.
fn without_pointers_past(inode: &Inode, size: u32) -> Inode
    requires size { size ≤ OBJECT_BYTES }
    requires count { length inode.now.pointers ≡ OBJECT_BLOCKS }
    ensures count { length result.pointers ≡ OBJECT_BLOCKS }
    ensures rest { result ≡ record inode.now { pointers = result.pointers } }
    ensures pointers { (k : ℕ)
        → pointer_at result k ≡ (if nat_le size (512 * k) then None else pointer_at inode.now k) }
{
    let first = (size as usize).div_ceil(BLOCK_BYTES);
    let mut next = *inode;
    for index in first..OBJECT_BLOCKS {
        next.pointers[index] = None;
    }
    next
}

/// Cuts a live object to a size of at most `OBJECT_BYTES`, or lengthens it to that by zeros, and
/// answers its next inode, changed at the moment. Pointers past the new end are holes. Where the
/// size cuts a block in two that isn't a hole, it is appended anew with zeros past the size, as
/// `blocks_of_truncate` counts it.
pub fn truncate<B: Blocks>(
    table: &mut B,
    object: ObjectId,
    inode: &Inode,
    moment: Moment,
    size: u32,
) -> Inode
    requires object { 1 ≤ object }
    requires size { size ≤ OBJECT_BYTES }
    requires tidy { Tidy (contents_of (B.log table.old).held) inode.now }
    requires pointers { PointersHeld (B.log table.old).held object inode.now }
    requires room { cut_count inode.now size ≤ length (B.log table.old).ahead }
    ensures meaning { meaning (contents_of (B.log table.new).held) result
        ≡ effect (Truncate object size) moment
        (meaning (contents_of (B.log table.old).held) inode.now) }
    ensures tidy { Tidy (contents_of (B.log table.new).held) result }
    ensures pointers { PointersHeld (B.log table.new).held object result }
    ensures inode { Truncated (B.log table.old).ahead moment size inode.now result }
    ensures log { B.log table.new
        ≡ with_data object (blocks_cut (contents_of (B.log table.old).held) inode.now size)
        (B.log table.old) }
    ensures growth { GrowsBy object (blocks_cut (contents_of (B.log table.old).held) inode.now size)
        (B.log table.old) (B.log table.new) }
{
    let mut next = without_pointers_past(inode, size);
    next.size = size;
    next.changed = moment;
    if blocks_of_truncate(inode, size) == 0 {
        return next;
    }
    let place = cut_block(table, object, inode, size);
    next.pointers[size as usize / BLOCK_BYTES] = Some(place);
    next
}

ghost use Rattle.std.specs.Prelude.{◌≡◌, ◌+◌, ◌-◌, ◌<◌, ◌≤◌, ◌++◌, length, take, drop, Some};
ghost use Rattle.std.specs.Prelude.{IsSome, IfOk, OnOk, IfErr};
ghost use Rattle.s4_types.specs.Pointer.{Place};
ghost use Rattle.s4_types.specs.declared.limits.TheConstants.{BLOCK_BYTES, OBJECT_BLOCKS};
ghost use Rattle.s4_types.specs.declared.limits.TheConstants.{OBJECT_BYTES};
ghost use Rattle.s4_types.specs.declared.refusals.Refusal.TheVariants.{NoMemory};
ghost use Rattle.codec.specs.Checkpoint.{pointer_at};
ghost use Rattle.inode.specs.Contents.{contents_of, byte_in, byte_of, bytes_of, listed};
ghost use Rattle.inode.specs.Tidiness.{PointersLead, Tidy};

use block_log::Blocks;
use codec::Inode;
use s4_types::limits::BLOCK_BYTES;
use s4_types::{Ptr, Refusal};
use std::alloc::Global;

/// Adds bytes of the block that a slot refers to, from one place of it on and up to another; zeros
/// for a hole.
fn append_slot<B: Blocks>(
    table: &mut B,
    slot: Option<Ptr>,
    from: usize,
    to: usize,
    bytes: &mut Vec<u8>,
) -> Result<(), Refusal>
    requires held { (p : Place) → slot ≡ Some p → IsSome ((B.log table.old).held p) }
    requires range { (from ≤ to) × (to ≤ BLOCK_BYTES) }
    ensures bytes { OnOk result
        (bytes.new.items
        ≡ bytes.old.items
        ++ listed (byte_in (contents_of (B.log table.old).held) slot) from (to - from)) }
    ensures err { IfErr result (λ refusal. refusal ≡ NoMemory) }
    ensures same { B.log table.new ≡ B.log table.old }
{
    let Some(place) = slot else {
        bytes.resize(bytes.len() + (to - from), 0)?;
        return Ok(());
    };
    table.get_bytes(place, from, to, bytes)?;
    Ok(())
}

/// The slot of a block's index.
#[tactic(auto, using(crate::proofs::ReadBytes::slot_is))]
fn slot_of(inode: &Inode, index: usize) -> Option<Ptr>
    requires index { index < OBJECT_BLOCKS }
    requires count { length inode.now.pointers ≡ OBJECT_BLOCKS }
    ensures { result ≡ pointer_at inode.now index }
{
    inode.pointers[index]
}

/// Adds the bytes of an object from a place on, up to an end or to that of their block, and answers
/// where they end.
fn read_piece<B: Blocks>(
    table: &mut B,
    inode: &Inode,
    at: usize,
    end: usize,
    bytes: &mut Vec<u8>,
) -> Result<usize, Refusal>
    requires start { at < end }
    requires end { end ≤ OBJECT_BYTES }
    requires count { length inode.now.pointers ≡ OBJECT_BLOCKS }
    requires lead { PointersLead (B.log table.old).held inode.now }
    ensures later { IfOk result (λ next. at < next) }
    ensures within { IfOk result (λ next. next ≤ end) }
    ensures bytes { IfOk result
        (λ next. bytes.new.items
        ≡ bytes.old.items
        ++ listed (byte_of (contents_of (B.log table.old).held) inode.now) at (next - at)) }
    ensures err { IfErr result (λ refusal. refusal ≡ NoMemory) }
    ensures same { B.log table.new ≡ B.log table.old }
{
    let index = at / BLOCK_BYTES;
    let start = index * BLOCK_BYTES;
    let next = end.min(start + BLOCK_BYTES);
    append_slot(
        table,
        slot_of(inode, index),
        at - start,
        next - start,
        bytes,
    )?;
    Ok(next)
}

/// The bytes of an object from an offset on, `len` of them or as many as there are: none where the
/// offset is at or past the size. Each block is loaded once, and memory is taken once. NoMemory
/// where that is refused.
pub fn read<B: Blocks>(
    alloc: Global,
    table: &mut B,
    inode: &Inode,
    offset: u64,
    len: u64,
) -> Result<Vec<u8>, Refusal>
    requires size { inode.now.size ≤ OBJECT_BYTES }
    requires count { length inode.now.pointers ≡ OBJECT_BLOCKS }
    requires lead { PointersLead (B.log table.old).held inode.now }
    ensures ok { IfOk result
        (λ bytes. bytes.items
        ≡ take len (drop offset (bytes_of (contents_of (B.log table.old).held) inode.now))) }
    ensures err { IfErr result (λ refusal. refusal ≡ NoMemory) }
    ensures same { B.log table.new ≡ B.log table.old }
{
    let left = (inode.size as u64).saturating_sub(offset);
    let count = len.min(left) as usize;
    let mut at = offset as usize;
    let end = at + count;
    let mut bytes = Vec::with_capacity(alloc, count)?;
    while at < end {
        at = read_piece(table, inode, at, end, &mut bytes)?;
    }
    Ok(bytes)
}

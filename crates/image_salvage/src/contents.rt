//! The bytes that whole frames have of an object.
ghost use Rattle.std.specs.Prelude.{◌≡◌, ◌<◌, None, slice_index_or, IfOk, IfErr};
ghost use Rattle.s4_types.specs.declared.refusals.Refusal.TheVariants.{NoMemory};
ghost use Rattle.codec.specs.Checkpoint.{pointer_at};
ghost use Rattle.inode.specs.Contents.{byte_in, byte_of};
ghost use Rattle.segment_table.specs.Used.{used_at};
ghost use Rattle.image_salvage.specs.Contents.{data_of, salvaged_bytes, leads_nowhere, is_gone};
ghost use Rattle.image_salvage.specs.Contents.{blocks_gone};

use block_log::BlockKind;
use codec::Inode;
use image_objects::bytes_at;
use s4_types::limits::{BLOCK_BYTES, OBJECT_BLOCKS};
use s4_types::{ObjectId, Ptr, Refusal};
use segment_table::TableBuilder;
use std::alloc::Global;
use verifier::TableBlocks;

/// The slot of an index, or none after the last.
fn slot_at(slots: &[Option<Ptr>], index: usize) -> Option<Ptr>
    ensures { result ≡ slice_index_or slots.now index None }
{
    if index >= slots.len() {
        return None;
    }
    slots[index]
}

/// The pointer of an index of an inode, or none where that is a hole or after the last.
fn slot_of(inode: &Inode, index: usize) -> Option<Ptr>
    ensures { result ≡ pointer_at inode.now index }
{
    slot_at(&inode.pointers, index)
}

/// The byte of an index in the data block of an object that a slot refers to: 0 in a hole, and
/// where the block is gone.
fn byte_in(table: &TableBuilder, object: ObjectId, slot: Option<Ptr>, index: usize) -> u8
    requires { index < 512 }
    ensures { result ≡ byte_in (data_of (used_at table.now) object) slot index }
{
    let Some(place) = slot else {
        return 0;
    };
    let blocks = TableBlocks { table };
    match bytes_at(&blocks, BlockKind::Data, object, place) {
        Some(block) => block[index],
        None => 0,
    }
}

/// The bytes of an inode of an object, cut to its size: zeros represent the blocks that are gone.
/// NoMemory alone.
pub(crate) fn content_of(
    alloc: Global,
    table: &TableBuilder,
    object: ObjectId,
    inode: &Inode,
) -> Result<Vec<u8>, Refusal>
    ensures bytes { IfOk result
        (λ bytes. bytes.items ≡ salvaged_bytes (used_at table.now) object inode.now) }
    ensures refusal { IfErr result (λ e. e ≡ NoMemory) }
{
    let mut bytes = Vec::new(alloc);
    for n in 0..inode.size {
        let place = n as usize;
        let slot = slot_of(inode, place / BLOCK_BYTES);
        bytes.push(byte_in(table, object, slot, place % BLOCK_BYTES))?;
    }
    Ok(bytes)
}

/// Whether a pointer refers to no data block of an object.
fn leads_nowhere(table: &TableBuilder, object: ObjectId, slot: Option<Ptr>) -> bool
    ensures { result ≡ leads_nowhere (used_at table.now) object slot }
{
    let Some(place) = slot else {
        return false;
    };
    let blocks = TableBlocks { table };
    bytes_at(&blocks, BlockKind::Data, object, place).is_none()
}

/// Whether the block of an index, of those that an inode has, is within its size, and gone.
fn is_gone(table: &TableBuilder, object: ObjectId, inode: &Inode, index: usize) -> bool
    requires { index < OBJECT_BLOCKS }
    ensures { result ≡ is_gone (used_at table.now) object inode.now index }
{
    let slot = slot_of(inode, index);
    BLOCK_BYTES * index < inode.size as usize && leads_nowhere(table, object, slot)
}

/// How many blocks of an inode of an object are within its size, and gone.
pub(crate) fn count_gone(table: &TableBuilder, object: ObjectId, inode: &Inode) -> usize
    ensures { result ≡ blocks_gone (used_at table.now) object inode.now }
{
    let mut gone = 0;
    for index in 0..OBJECT_BLOCKS {
        if is_gone(table, object, inode, index) {
            gone += 1;
        }
    }
    gone
}

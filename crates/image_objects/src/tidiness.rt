//! Whether the inodes that are current at some moment are tidy.
ghost use Rattle.std.specs.Prelude.{◌≡◌, ℕ, ◌<◌, ◌≤◌, true, length, slice_index, slice_index_or};
ghost use Rattle.std.specs.Prelude.{None};
ghost use Rattle.s4_types.specs.declared.limits.TheConstants.{OBJECT_BLOCKS};
ghost use Rattle.undo_redo.specs.Groups.{grouped};
ghost use Rattle.undo_redo.specs.Runs.{inode_after};
ghost use Rattle.inode.specs.Contents.{contents_of};
ghost use Rattle.inode.specs.Tidiness.{Tidy};
ghost use Rattle.image_objects.specs.private.Ends.{HasZerosFrom, EndsInZeros};

use crate::UsedBlocks;
use codec::{Entry, Inode};
use s4_types::limits::{BLOCK_BYTES, OBJECT_BLOCKS, OBJECT_BYTES};
use s4_types::{Moment, Ptr};
use undo_redo::laws::groups_part_at_a_moment;
use undo_redo::redo;

/// Whether the bytes from an index on are zeros.
fn ends_in_zeros(bytes: &[u8], from: usize) -> bool
    ensures is { result ≡ true → (n : ℕ) → from ≤ n → n < length bytes.now
        → slice_index bytes.now n ≡ 0 }
    ensures only { ((n : ℕ) → from ≤ n → n < length bytes.now → slice_index bytes.now n ≡ 0)
        → result ≡ true }
{
    for index in from..bytes.len() {
        if bytes[index] != 0 {
            return false;
        }
    }
    true
}

/// Whether the bytes that a slot refers to are zeros from an index on. A hole has zeros alone.
fn has_zeros_from<U: UsedBlocks>(used: &U, slot: Option<Ptr>, from: usize) -> bool
    ensures is { result ≡ true → HasZerosFrom (contents_of (U.used used.now)) slot from }
    ensures only { HasZerosFrom (contents_of (U.used used.now)) slot from → result ≡ true }
{
    let Some(place) = slot else {
        return true;
    };
    let Some(block) = used.block(place) else {
        return true;
    };
    ends_in_zeros(&block.bytes, from)
}

/// Whether each slot from an index on is a hole.
fn has_holes_from(slots: &[Option<Ptr>], from: usize) -> bool
    ensures is { result ≡ true → (k : ℕ) → from ≤ k → slice_index_or slots.now k None ≡ None }
    ensures only { ((k : ℕ) → from ≤ k → slice_index_or slots.now k None ≡ None) → result ≡ true }
{
    for index in from..slots.len() {
        if slots[index].is_some() {
            return false;
        }
    }
    true
}

/// Whether the bytes of an inode at and past its size are zeros, in the block that the size ends
/// in.
fn ends_tidily<U: UsedBlocks>(used: &U, inode: &Inode) -> bool
    requires { length inode.now.pointers ≡ OBJECT_BLOCKS }
    ensures is { result ≡ true → EndsInZeros (contents_of (U.used used.now)) inode.now }
    ensures only { EndsInZeros (contents_of (U.used used.now)) inode.now → result ≡ true }
{
    let index = inode.size as usize / BLOCK_BYTES;
    if index >= OBJECT_BLOCKS {
        return true;
    }
    has_zeros_from(
        used,
        inode.pointers[index],
        inode.size as usize % BLOCK_BYTES,
    )
}

/// Whether an inode of `OBJECT_BLOCKS` pointers is tidy.
fn is_tidy<U: UsedBlocks>(used: &U, inode: &Inode) -> bool
    requires { length inode.now.pointers ≡ OBJECT_BLOCKS }
    ensures is { result ≡ true → Tidy (contents_of (U.used used.now)) inode.now }
    ensures only { Tidy (contents_of (U.used used.now)) inode.now → result ≡ true }
{
    let size = inode.size as usize;
    if size > OBJECT_BYTES as usize {
        return false;
    }
    if !has_holes_from(&inode.pointers, size.div_ceil(BLOCK_BYTES)) {
        return false;
    }
    ends_tidily(used, inode)
}

/// Whether an inode is tidy, where it is current at some moment: it is so from a first moment on,
/// up to the next entry's.
fn stands_tidily<U: UsedBlocks>(used: &U, inode: &Inode, first: Moment, next: Moment) -> bool
    requires { length inode.now.pointers ≡ OBJECT_BLOCKS }
    ensures is { result ≡ true → first < next → Tidy (contents_of (U.used used.now)) inode.now }
    ensures only { (first < next → Tidy (contents_of (U.used used.now)) inode.now) → result ≡ true }
{
    next <= first || is_tidy(used, inode)
}

/// Whether the inode of a chain is tidy at each moment. One that is between two entries of a moment
/// is not looked at.
pub(crate) fn are_tidy<U: UsedBlocks>(used: &U, first: &Inode, entries: &[Entry]) -> bool
    requires count { length first.now.pointers ≡ OBJECT_BLOCKS }
    requires groups { grouped entries.now ≡ true }
    ensures is { result ≡ true → (t : ℕ)
        → Tidy (contents_of (U.used used.now)) (inode_after first.now entries.now t) }
    ensures only { ((t : ℕ)
        → Tidy (contents_of (U.used used.now)) (inode_after first.now entries.now t))
        → result ≡ true }
{
    groups_part_at_a_moment();
    let mut inode = *first;
    let mut since = Moment::new(0);
    // Each inode is looked at whole, its last block too where an entry left that: a chain has at
    // most `CHAIN_ENTRIES`.
    for entry in entries {
        if !stands_tidily(used, &inode, since, entry.moment()) {
            return false;
        }
        since = entry.moment();
        redo(entry, &mut inode);
    }
    is_tidy(used, &inode)
}

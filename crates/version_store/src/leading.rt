//! An object's inode at a moment, from what is kept of the object.
ghost use Rattle.std.specs.Prelude.{◌≡◌, IsTrue, IsFalse};
ghost use Rattle.time_read.specs.Caches.{IsTrueOf, AddsTrue};
ghost use Rattle.time_read.specs.Presents.{IsIndexOf};
ghost use Rattle.time_read.specs.Rows.{IsRow, entries_of, inode_of, last_inode};
ghost use Rattle.time_read.specs.Within.{IsLedWithin};

use block_log::Blocks;
use checkpoint::InodeCache;
use codec::Inode;
use object_map::{Kept, Row};
use s4_types::{Moment, ObjectId};
use std::alloc::Global;
use time_read::{BlockRange, Present, inode_at};

/// Makes of an inode the object's at a moment, led to from the nearest checkpoint. False where the
/// memory for the entries is refused; then the inode is as it was.
fn lead_from_nearest<B: Blocks>(
    alloc: Global,
    table: &mut B,
    cache: &mut InodeCache,
    object: ObjectId,
    row: &Row,
    at: Moment,
    inode: &mut Inode,
) -> bool
    requires row { IsRow (B.log table.old).held object row.now }
    requires cached { IsTrueOf cache.old.pairs (B.log table.old).held object row.now }
    ensures inode { IsTrue result → inode.new ≡ inode_of (B.log table.old).held object row.now at }
    ensures refused { IsFalse result → inode.new ≡ inode.old }
    ensures added { AddsTrue (B.log table.old).held object row.now cache.old.pairs cache.new.pairs }
    ensures same { B.log table.new ≡ B.log table.old }
{
    match inode_at(alloc, table, cache, object, row, at) {
        Ok(found) => {
            *inode = found;
            true
        }
        Err(_) => false,
    }
}

/// Makes of an object's inode after all its entries the one at a moment, in its place: by the index
/// of its entries; or where there is none from the nearest checkpoint; or where the memory for that
/// is refused by a walk of the journal.
pub(crate) fn lead_back<B: Blocks>(
    alloc: Global,
    table: &mut B,
    cache: &mut InodeCache,
    object: ObjectId,
    kept: &Kept<Present>,
    at: Moment,
    inode: &mut Inode,
)
    requires row { IsRow (B.log table.old).held object kept.now.row }
    requires index { IsIndexOf kept.now.value.index
        (entries_of (B.log table.old).held object kept.now.row) }
    requires cached { IsTrueOf cache.old.pairs (B.log table.old).held object kept.now.row }
    requires present { inode.old ≡ last_inode (B.log table.old).held object kept.now.row }
    ensures inode { inode.new ≡ inode_of (B.log table.old).held object kept.now.row at }
    ensures added { AddsTrue (B.log table.old).held object kept.now.row cache.old.pairs
        cache.new.pairs }
    ensures same { B.log table.new ≡ B.log table.old }
{
    // With an index no inode is made beside the one that is led back.
    if kept.value.index.is_none()
        && lead_from_nearest(alloc, table, cache, object, &kept.row, at, inode)
    {
        return;
    }
    kept.value.lead_back(table, object, &kept.row, at, inode);
}

/// Makes of an object's inode after all its entries the one at a moment, in its place, for a read
/// that needs no other pointers than those to the blocks of a range.
pub(crate) fn lead_back_to_read<B: Blocks>(
    alloc: Global,
    table: &mut B,
    cache: &mut InodeCache,
    object: ObjectId,
    kept: &Kept<Present>,
    at: Moment,
    needed: BlockRange,
    inode: &mut Inode,
)
    requires row { IsRow (B.log table.old).held object kept.now.row }
    requires index { IsIndexOf kept.now.value.index
        (entries_of (B.log table.old).held object kept.now.row) }
    requires cached { IsTrueOf cache.old.pairs (B.log table.old).held object kept.now.row }
    requires present { inode.old ≡ last_inode (B.log table.old).held object kept.now.row }
    ensures inode { IsLedWithin needed inode.old
        (inode_of (B.log table.old).held object kept.now.row at) inode.new }
    ensures added { AddsTrue (B.log table.old).held object kept.now.row cache.old.pairs
        cache.new.pairs }
    ensures same { B.log table.new ≡ B.log table.old }
{
    // Mostly there is an index. All else needs room on the stack for more inodes: it is a call of
    // its own, which the compiler leaves one, so that no read with an index clears that room.
    let Some(index) = &kept.value.index else {
        lead_back(alloc, table, cache, object, kept, at, inode);
        return;
    };
    index.undo_past_within(at, needed, inode);
}

//! A change of which journal blocks may be lost, and an object without it.
ghost use Rattle.std.specs.Prelude.{◌≡◌};
ghost use Rattle.segment_table.specs.Used.{used_at};
ghost use Rattle.image_objects.specs.Chains.{entries_used};
ghost use Rattle.image_objects.specs.Inodes.{first_used};
ghost use Rattle.image_objects.specs.VersionChain.{present_used};
ghost use Rattle.image_salvage.specs.LeftOut.{cut_at, cut_moment, inode_before, is_at_end};
ghost use Rattle.image_salvage.specs.LeftOut.{is_last_of_frame, may_go_on, newest_of};

use codec::{Entry, Inode, Triple};
use image_objects::{ImageRow, VersionChain, redo_by};
use s4_types::limits::{BLOCK_BYTES, ENTRY_TRIPLES, OBJECT_BLOCKS, PAYLOAD_BLOCKS};
use s4_types::{Moment, Ptr};
use segment_table::TableBuilder;

/// Whether the change of an entry can have no pointer after this one, the entry's last: an object
/// has no further block, or it ends there and didn't end later before the change.
fn is_at_end(entry: &Entry, last: Option<Triple>) -> bool
    ensures { result ≡ is_at_end entry.now last }
{
    let Some(triple) = last else {
        return false;
    };
    let end = triple.index as usize + 1;
    let (before, after) = (entry.before(), entry.after());
    let is_first = before.changed < entry.moment();
    let grew = is_first && before.size <= after.size;
    end == OBJECT_BLOCKS || (grew && after.size as usize <= BLOCK_BYTES * end)
}

/// Whether the change of an entry may have another entry after this one.
fn may_go_on(entry: &Entry) -> bool
    ensures { result ≡ may_go_on entry.now }
{
    let triples = entry.triples();
    triples.len() == ENTRY_TRIPLES && !is_at_end(entry, triples.last().copied())
}

/// Whether the next block of a journal would be in another frame than its newest one.
fn is_last_of_frame(head: Option<Ptr>) -> bool
    ensures { result ≡ is_last_of_frame head }
{
    match head {
        None => false,
        Some(place) => place.block() as usize == PAYLOAD_BLOCKS,
    }
}

/// The moment of the newest of entries, where its change may not be whole.
fn cut_at(ends: bool, entries: &[Entry]) -> Option<Moment>
    ensures { result ≡ cut_at ends (newest_of entries.now) }
{
    let entry = entries.last()?;
    if !ends || !may_go_on(entry) {
        return None;
    }
    Some(entry.moment())
}

/// The moment of the newest change of a row, where it may not be whole.
pub(crate) fn cut_moment(table: &TableBuilder, row: &ImageRow, entries: &[Entry]) -> Option<Moment>
    requires entries { entries.now ≡ entries_used (used_at table.now) row.now }
    ensures { result ≡ cut_moment (used_at table.now) row.now }
{
    cut_at(is_last_of_frame(row.head), entries)
}

/// The inode of a row after all of its entries, or after those before a moment.
pub(crate) fn inode_before(
    table: &TableBuilder,
    row: &ImageRow,
    versions: &VersionChain,
    cut: Option<Moment>,
) -> Inode
    requires entries { versions.now.chain.entries.items ≡ entries_used (used_at table.now) row.now }
    requires first { versions.now.first ≡ first_used (used_at table.now) row.now }
    requires present { versions.now.present ≡ present_used (used_at table.now) row.now }
    ensures { result ≡ inode_before (used_at table.now) row.now cut }
{
    let Some(moment) = cut else {
        return versions.present;
    };
    let before = Moment::new(moment.number().saturating_sub(1));
    let mut inode = versions.first;
    redo_by(versions.chain.entries.as_slice(), before, &mut inode);
    inode
}

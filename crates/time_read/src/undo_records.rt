//! What is kept of one entry.
ghost use Rattle.std.specs.Prelude.{◌≡◌, ◌<◌, ◌≤◌, ◌++◌, true, false, nat_le, length, map, reverse};
ghost use Rattle.std.specs.Prelude.{IfOk, IfErr, OnOk, option_map, option_to_list};
ghost use Rattle.std.specs.List.{All};
ghost use Rattle.std.specs.List.Sorted.{IsNonDecreasingBy, IsPartitionPoint};
ghost use Rattle.s4_types.specs.declared.limits.TheConstants.{OBJECT_BLOCKS};
ghost use Rattle.s4_types.specs.declared.refusals.Refusal.TheVariants.{NoMemory};
ghost use Rattle.time_read.specs.Undoings.{Extends, Spans, earlier_of, undoing_of};
ghost use Rattle.time_read.specs.Undoings.{fields_undone, undone_from, undoing_in};
ghost use Rattle.time_read.specs.Within.{IsLedWithin};

use crate::block_ranges::BlockRange;
use crate::earlier_pointers::EarlierPointers;
use codec::{Attribute, Entry, Inode, Pair, Status, Triple};
use s4_types::{Moment, Refusal};

/// More pointers than these aren't searched for one by one.
const MOST_SEARCHED: usize = 8;

/// A search for a pointer takes less than to put back more than these.
const SEARCH_COST: usize = 8;

/// What undoes an entry, but for its attribute and its pointers, which are in lists of their own.
/// The pointers are those from a first place up to an end, in reverse order. The attribute is the
/// one at a place, if it tells one; if not, the place is that of the next attribute a later record
/// tells.
#[derive(Clone, Copy)]
pub(crate) struct UndoRecord {
    pub(crate) moment: Moment,
    pub(crate) before: Status,
    pub(crate) first: u16,
    pub(crate) end: u16,
    pub(crate) attribute: u16,
    pub(crate) tells_attribute: bool,
}

/// A place in a list, from 0 to 65,535. NoMemory beyond, where a record has no room for its number.
fn place(index: usize) -> Result<u16, Refusal>
    ensures place { IfOk result (λ n. n ≡ index) }
    ensures refusal { IfErr result (λ e. e ≡ NoMemory) }
{
    if index > u16::MAX as usize {
        return Err(Refusal::NoMemory);
    }
    Ok(index as u16)
}

/// Keeps the earlier pointers of an entry, the last one first.
fn keep_pointers(pointers: &mut EarlierPointers, triples: &[Triple]) -> Result<(), Refusal>
    requires { All (λ t. t.index < OBJECT_BLOCKS) triples.now }
    ensures kept { OnOk result
        (pointers.new ≡ pointers.old ++ reverse (map earlier_of triples.now)) }
    ensures extends { Extends pointers.old pointers.new }
    ensures refusal { IfErr result (λ e. e ≡ NoMemory) }
{
    for triple in triples.iter().rev() {
        pointers.push(triple)?;
    }
    Ok(())
}

/// Keeps the earlier attribute of an entry that has two.
#[tactic(auto, using(crate::proofs::Undone::extends_none, crate::proofs::Undone::extends_push, crate::proofs::Undone::nothing_more))]
fn keep_attribute(attributes: &mut Vec<Attribute>, pair: Option<Pair>) -> Result<(), Refusal>
    ensures kept { OnOk result
        (attributes.new.items
        ≡ attributes.old.items ++ option_to_list (option_map (λ p. p.before) pair)) }
    ensures extends { Extends attributes.old.items attributes.new.items }
    ensures refusal { IfErr result (λ e. e ≡ NoMemory) }
{
    if let Some(pair) = pair {
        attributes.push(pair.before)?;
    }
    Ok(())
}

/// Keeps what undoes an entry, at the ends of the lists. Where memory is refused, what was kept of
/// it stays at their ends.
#[tactic(auto, using(undo_redo::proofs::Indices::are_low, crate::proofs::Undone::extends_none, crate::proofs::Undone::undoing_is, crate::proofs::Undone::spans_made))]
pub(crate) fn keep(
    pointers: &mut EarlierPointers,
    attributes: &mut Vec<Attribute>,
    entry: &Entry,
) -> Result<UndoRecord, Refusal>
    ensures spans { IfOk result
        (λ r. Spans (length pointers.old) (length attributes.old.items)
        (length pointers.new) (length attributes.new.items) r) }
    ensures told { IfOk result
        (λ r. undoing_in pointers.new attributes.new.items r ≡ undoing_of entry.now) }
    ensures pointers { Extends pointers.old pointers.new }
    ensures attributes { Extends attributes.old.items attributes.new.items }
    ensures refusal { IfErr result (λ e. e ≡ NoMemory) }
{
    let first = place(pointers.len())?;
    let attribute = place(attributes.len())?;
    let pair = entry.pair();
    keep_pointers(pointers, entry.triples())?;
    let end = place(pointers.len())?;
    keep_attribute(attributes, pair)?;
    Ok(UndoRecord {
        moment: entry.moment(),
        before: entry.before(),
        first,
        end,
        attribute,
        tells_attribute: pair.is_some(),
    })
}

/// Makes of an inode what it was before the entry of a record, but for its pointers, where all after
/// that are undone with it.
fn undo_fields(oldest: &UndoRecord, attributes: &[Attribute], inode: &mut Inode)
    ensures { inode.new ≡ fields_undone attributes.now oldest.now inode.old }
{
    inode.alive = oldest.before.alive;
    inode.size = oldest.before.size;
    inode.changed = oldest.before.changed;
    if let Some(attribute) = attributes.get(oldest.attribute as usize) {
        inode.attribute = *attribute;
    }
}

/// Makes of an inode what it was before the entry of a record, where all after that are undone with
/// it.
#[tactic(auto, unfolding(crate::specs::Undoings::undone_from))]
pub(crate) fn undo_from(
    oldest: &UndoRecord,
    pointers: &EarlierPointers,
    attributes: &[Attribute],
    inode: &mut Inode,
)
    requires { oldest.now.first ≤ length pointers.now }
    ensures { inode.new ≡ undone_from pointers.now attributes.now oldest.now inode.old }
{
    undo_fields(oldest, attributes, inode);
    pointers.put_all_back(oldest.first as usize, &mut inode.pointers);
}

/// Whether a search for each pointer of a range takes less than to put back as many as there are
/// after a place.
fn is_searched(needed: BlockRange, later: usize) -> bool {
    let count = needed.end.saturating_sub(needed.first);
    count <= MOST_SEARCHED && count * SEARCH_COST < later
}

/// The same, but no other pointers need be made what they were than those of a range.
#[tactic(auto, using(crate::proofs::Within::led_whole, crate::proofs::Within::led_within))]
pub(crate) fn undo_within(
    oldest: &UndoRecord,
    pointers: &EarlierPointers,
    attributes: &[Attribute],
    needed: BlockRange,
    inode: &mut Inode,
)
    requires { oldest.now.first ≤ length pointers.now }
    ensures { IsLedWithin needed inode.old
        (undone_from pointers.now attributes.now oldest.now inode.old) inode.new }
{
    let first = oldest.first as usize;
    if !is_searched(needed, pointers.len() - first) {
        undo_from(oldest, pointers, attributes, inode);
        return;
    }
    undo_fields(oldest, attributes, inode);
    pointers.put_some_back(first, needed, &mut inode.pointers);
}

/// How many records are before those that are later than a moment, where moments don't descend.
/// Logarithmic in the records.
pub(crate) fn count_up_to(records: &[UndoRecord], at: Moment) -> usize
    ensures bound { result ≤ length records.now }
    ensures point { IsNonDecreasingBy (λ r. r.moment) records.now
        → IsPartitionPoint (λ r. nat_le r.moment at ≡ true) (λ r. nat_le r.moment at ≡ false)
        records.now result }
{
    records.partition_point(|record| record.moment <= at)
}

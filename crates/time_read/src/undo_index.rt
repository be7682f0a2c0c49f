//! The index of one object.
ghost use Rattle.std.specs.Prelude.{◌≡◌, ◌++◌, true, List, [], ◌∷◌, length, map, IfErr, OnOk};
ghost use Rattle.std.specs.Prelude.{OnErr};
ghost use Rattle.s4_types.specs.declared.refusals.Refusal.TheVariants.{NoMemory};
ghost use Rattle.codec.specs.declared.inodes.Inode.{Inode as InodeFields};
ghost use Rattle.codec.specs.Entry.{EntryFields};
ghost use Rattle.undo_redo.specs.Runs.{Run, inode_after};
ghost use Rattle.undo_redo.specs.Groups.{grouped};
ghost use Rattle.time_read.specs.Undoings.{Undoing, Extends, Tells, Tile, undoing_of, undoing_in};
ghost use Rattle.time_read.specs.Within.{IsLedWithin};

use crate::block_ranges::BlockRange;
use crate::earlier_pointers::EarlierPointers;
use crate::undo_records::{UndoRecord, count_up_to, keep, undo_from, undo_within};
use codec::{Attribute, Entry, Inode};
use s4_types::{Moment, Refusal};
use std::alloc::Global;
use std::marker::Model;
use undo_redo::laws::groups_part_at_a_moment;

/// What undoes each entry of an object, oldest first. Contracts see the list of undoings.
///
/// A record has 32 bytes, an earlier pointer 13, and an attribute one byte more than
/// `ATTRIBUTE_BYTES`. In a chain an entry has `SHORTEST_ENTRY_BYTES` and more, a pointer
/// `TRIPLE_BYTES`, and an attribute 3 at least. So less than three times `CHAIN_ENTRY_BYTES` are in
/// use here; without attributes no more than those. The lists may have asked for more, to grow.
pub struct UndoIndex {
    records: Vec<UndoRecord>,
    pointers: EarlierPointers,
    attributes: Vec<Attribute>,
}

// Written by hand, so that an owner lets it go by one call.
impl Drop for UndoIndex {
    fn drop(self) {
        let UndoIndex {
            records: _,
            pointers: _,
            attributes: _,
        } = self;
    }
}

impl Model for UndoIndex {
    ghost use Rattle.std.specs.Prelude.{List, length, map};
    ghost use Rattle.time_read.specs.Undoings.{Undoing, Tile, undoing_in};

    ghost Value = { List Undoing };

    ghost view = { λ x. map (undoing_in x.pointers x.attributes.items) x.records.items };

    ghost invariant = { λ x. Tile 0 0 x.records.items (length x.pointers) (length x.attributes.items) };
}

/// Appends what undoes an entry. Where memory is refused, the lists begin with what they were.
#[tactic(auto, using(crate::proofs::Undone::extends_none, crate::proofs::Undone::extends_push, crate::proofs::Undone::tells_pushed))]
fn push_entry(
    records: &mut Vec<UndoRecord>,
    pointers: &mut EarlierPointers,
    attributes: &mut Vec<Attribute>,
    entry: &Entry,
) -> Result<(), Refusal>
    ensures told { (us : List Undoing)
        → Tells records.old.items pointers.old attributes.old.items us
        → OnOk result
        (Tells records.new.items pointers.new attributes.new.items
        (us ++ undoing_of entry.now ∷ [])) }
    ensures records { Extends records.old.items records.new.items }
    ensures pointers { Extends pointers.old pointers.new }
    ensures attributes { Extends attributes.old.items attributes.new.items }
    ensures refusal { IfErr result (λ e. e ≡ NoMemory) }
{
    let record = keep(pointers, attributes, entry)?;
    records.push(record)?;
    Ok(())
}

/// Appends what undoes each of the entries. Where memory is refused, the lists begin with what they
/// were.
#[tactic(auto, using(crate::proofs::Undone::extends_none, crate::proofs::Undone::extends_on))]
fn push_all(
    records: &mut Vec<UndoRecord>,
    pointers: &mut EarlierPointers,
    attributes: &mut Vec<Attribute>,
    entries: &[Entry],
) -> Result<(), Refusal>
    ensures told { (us : List Undoing)
        → Tells records.old.items pointers.old attributes.old.items us
        → OnOk result
        (Tells records.new.items pointers.new attributes.new.items
        (us ++ map undoing_of entries.now)) }
    ensures records { Extends records.old.items records.new.items }
    ensures pointers { Extends pointers.old pointers.new }
    ensures attributes { Extends attributes.old.items attributes.new.items }
    ensures refusal { IfErr result (λ e. e ≡ NoMemory) }
{
    for entry in entries {
        push_entry(records, pointers, attributes, entry)?;
    }
    Ok(())
}

/// Undoes by all records that are later than a moment, from the oldest of them on.
fn undo_past(
    records: &[UndoRecord],
    pointers: &EarlierPointers,
    attributes: &[Attribute],
    at: Moment,
    inode: &mut Inode,
)
    requires { Tile 0 0 records.now (length pointers.now) (length attributes.now) }
    ensures { (first : InodeFields) (entries : List EntryFields) → map undoing_of entries ≡ map (undoing_in pointers.now attributes.now) records.now → grouped entries ≡ true → Run first entries inode.old
        → inode.new ≡ inode_after first entries at }
{
    groups_part_at_a_moment();
    if let Some(oldest) = records.get(count_up_to(records, at)) {
        undo_from(oldest, pointers, attributes, inode);
    }
}

/// The same, for a reader that needs no other pointers than those to the blocks of a range.
fn undo_past_within(
    records: &[UndoRecord],
    pointers: &EarlierPointers,
    attributes: &[Attribute],
    at: Moment,
    needed: BlockRange,
    inode: &mut Inode,
)
    requires { Tile 0 0 records.now (length pointers.now) (length attributes.now) }
    ensures { (first : InodeFields) (entries : List EntryFields) → map undoing_of entries ≡ map (undoing_in pointers.now attributes.now) records.now → grouped entries ≡ true → Run first entries inode.old
        → IsLedWithin needed inode.old (inode_after first entries at) inode.new }
{
    groups_part_at_a_moment();
    if let Some(oldest) = records.get(count_up_to(records, at)) {
        undo_within(oldest, pointers, attributes, needed, inode);
    }
}

impl UndoIndex {
    /// An index of no entries. Takes no memory.
    pub fn new(alloc: Global) -> Self
        ensures { result ≡ [] }
    {
        UndoIndex {
            records: Vec::new(alloc),
            pointers: EarlierPointers::new(alloc),
            attributes: Vec::new(alloc),
        }
    }

    /// Appends what undoes each of the entries, the first one first. NoMemory, and nothing has
    /// changed, where the index couldn't grow: where memory is refused, or where it would hold more
    /// than 65,535 pointers, or holds more attributes than that.
    pub fn push(&mut self, entries: &[Entry]) -> Result<(), Refusal>
        ensures told { OnOk result (self.new ≡ self.old ++ map undoing_of entries.now) }
        ensures refusal { IfErr result (λ e. e ≡ NoMemory) }
        ensures unchanged { OnErr result (self.new ≡ self.old) }
    {
        let records = self.records.len();
        let pointers = self.pointers.len();
        let attributes = self.attributes.len();
        let pushed = push_all(
            &mut self.records,
            &mut self.pointers,
            &mut self.attributes,
            entries,
        );
        if pushed.is_err() {
            self.records.truncate(records);
            self.pointers.truncate(pointers);
            self.attributes.truncate(attributes);
        }
        pushed
    }

    /// Undoes all entries later than a moment, the newest first. Where the index tells the undoings
    /// of a run's entries, and the inode is the run's last one, it becomes the one that is current
    /// at the moment. Takes no memory. Logarithmic in the entries, and linear in the pointers of
    /// those that are undone.
    pub fn undo_past(&self, at: Moment, inode: &mut Inode)
        ensures { (first : InodeFields) (entries : List EntryFields)
            → map undoing_of entries ≡ self.now → grouped entries ≡ true
            → Run first entries inode.old → inode.new ≡ inode_after first entries at }
    {
        undo_past(
            self.records.as_slice(),
            &self.pointers,
            self.attributes.as_slice(),
            at,
            inode,
        );
    }

    /// As [`undo_past`](Self::undo_past) does, but for pointers to blocks that aren't needed: each of
    /// these may be left as it is. Takes no memory. Where few are needed it is logarithmic in the
    /// entries, but for a search over a byte of each pointer of those that are undone.
    pub fn undo_past_within(&self, at: Moment, needed: BlockRange, inode: &mut Inode)
        ensures { (first : InodeFields) (entries : List EntryFields)
            → map undoing_of entries ≡ self.now → grouped entries ≡ true
            → Run first entries inode.old
            → IsLedWithin needed inode.old (inode_after first entries at) inode.new }
    {
        undo_past_within(
            self.records.as_slice(),
            &self.pointers,
            self.attributes.as_slice(),
            at,
            needed,
            inode,
        );
    }
}

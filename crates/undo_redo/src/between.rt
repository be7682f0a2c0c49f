ghost use Rattle.std.specs.Iterator.{YieldsFirst, item_count};
ghost use Rattle.std.specs.Prelude.{◌≡◌, ◌≤◌, ◌∷◌, true, take};
ghost use Rattle.s4_types.specs.declared.limits.TheConstants.{ENTRY_TRIPLES, OBJECT_BLOCKS};
ghost use Rattle.codec.specs.Fields.{Reads};
ghost use Rattle.codec.specs.Entry.{entry_rules, checked_entry};
ghost use Rattle.undo_redo.specs.Between.{CanLead, triples_between, leading_entry, further_entry};
ghost use Rattle.undo_redo.specs.Between.{AreSameOutside, entries_between};
ghost use Rattle.undo_redo.specs.private.Further.{AreLeft, entries_from};

use crate::pieces::{pair_between, piece_from, status_of};
use codec::{Entry, Inode, Triples};
use s4_types::Moment;
use s4_types::limits::OBJECT_BLOCKS;
use std::marker::Model;

/// The entries of a moment that lead from an inode to another, the first of which is made.
/// Contracts see the list of them.
///
/// The first tells all but the pointers that it has no room for; those are in further ones, as many
/// in each as it holds.
#[derive(Drop)]
pub struct EntriesBetween<'a> {
    first: Entry,
    others: OtherEntries<'a>,
}

impl<'a> Model for EntriesBetween<'a> {
    ghost use Rattle.std.specs.Prelude.{◌∷◌, List};
    ghost use Rattle.codec.specs.Entry.{EntryFields};

    ghost Value = { List EntryFields };

    ghost view = { λ e. e.first ∷ e.others };
}

impl<'a> EntriesBetween<'a> {
    /// The entries of a moment that lead from an inode to another.
    pub fn new(before: &'a Inode, after: &'a Inode, moment: Moment) -> Self
        requires { CanLead before.now after.now moment }
        ensures { result ≡ entries_between before.entry.now after.entry.now moment }
    {
        EntriesBetween::within(before, after, 0, OBJECT_BLOCKS, moment)
    }

    /// The entries of a moment that lead from an inode to another. Only pointers in a range of
    /// indices may differ: those outside of it aren't compared.
    pub fn within(
        before: &'a Inode,
        after: &'a Inode,
        first: usize,
        end: usize,
        moment: Moment,
    ) -> Self
        requires lead { CanLead before.now after.now moment }
        requires range { (first ≤ end) × (end ≤ OBJECT_BLOCKS) }
        requires same { AreSameOutside first end before.now after.now }
        ensures { result ≡ entries_between before.entry.now after.entry.now moment }
    {
        let (triples, from) = piece_from(before, after, first, end);
        let leading = leading_entry(before, after, moment, triples).unwrap();
        EntriesBetween {
            first: leading,
            others: OtherEntries::new(before, after, moment, from, end),
        }
    }

    /// The first entry, and the others, to be made one at a time.
    pub fn split_first(&self) -> (&Entry, OtherEntries<'a>)
        ensures { self.now ≡ result.0.now ∷ result.1 }
    {
        (&self.first, self.others.anew())
    }

    /// As [`EntriesBetween::split_first`].
    pub fn into_parts(self) -> (Entry, OtherEntries<'a>)
        ensures { self.entry ≡ result.0 ∷ result.1 }
    {
        let EntriesBetween { first, others } = self;
        (first, others)
    }
}

/// The entries of a moment that lead from an inode to another, after the first: each is made when
/// it is asked for. Contracts see the list of those that were not given.
#[derive(Drop)]
pub struct OtherEntries<'a> {
    before: &'a Inode,
    after: &'a Inode,
    moment: Moment,
    // The pointers from this index on were not told.
    from: usize,
    // From this index on none differs.
    end: usize,
}

impl<'a> Model for OtherEntries<'a> {
    ghost use Rattle.std.specs.Prelude.{List};
    ghost use Rattle.codec.specs.Entry.{EntryFields};
    ghost use Rattle.undo_redo.specs.private.Further.{AreLeft, entries_from};

    ghost Value = { List EntryFields };

    ghost view = { λ e. entries_from e.before.now e.after.now e.moment e.from };

    ghost invariant = { λ e. AreLeft e.before.now e.after.now e.moment e.from e.end };
}

impl<'a> OtherEntries<'a> {
    /// The entries that tell the pointers from an index on; from an end on none differs.
    pub(crate) fn new(
        before: &'a Inode,
        after: &'a Inode,
        moment: Moment,
        from: usize,
        end: usize,
    ) -> Self
        requires { AreLeft before.now after.now moment from end }
        ensures { result ≡ entries_from before.entry.now after.entry.now moment from }
    {
        OtherEntries {
            before,
            after,
            moment,
            from,
            end,
        }
    }

    /// The same entries, to be made anew.
    fn anew(&self) -> OtherEntries<'a>
        ensures { result ≡ self.now }
    {
        OtherEntries {
            before: self.before,
            after: self.after,
            moment: self.moment,
            from: self.from,
            end: self.end,
        }
    }
}

impl<'a> Iterator for OtherEntries<'a> {
    type Item = Entry;

    ghost next_gives = { YieldsFirst (λ e. e) };

    ghost remaining = { item_count (λ e. e) };

    fn next(&mut self) -> Option<Entry> {
        if self.from >= self.end {
            return None;
        }
        let (triples, next) = piece_from(self.before, self.after, self.from, self.end);
        self.from = next;
        if triples.len() == 0 {
            return None;
        }
        Some(further_entry(self.after, self.moment, triples))
    }
}

/// The first entry, with the first pointers that differ. None where it would break a rule of
/// entries.
#[tactic(auto, unfolding(crate::specs::Between::leading_entry))]
pub(crate) fn leading_entry(
    before: &Inode,
    after: &Inode,
    moment: Moment,
    triples: Triples,
) -> Option<Entry>
    requires { triples.items ≡ take ENTRY_TRIPLES (triples_between before.now after.now) }
    ensures { Reads (λ entry. entry) result
        (checked_entry (leading_entry before.now after.now moment)) }
{
    let pair = pair_between(before.attribute, after.attribute);
    Entry::new(moment, status_of(before), status_of(after), pair, triples)
}

/// An entry of further pointers.
fn further_entry(inode: &Inode, moment: Moment, triples: Triples) -> Entry
    requires { entry_rules (further_entry inode.now moment triples.items) ≡ true }
    ensures { result ≡ further_entry inode.now moment triples.items }
{
    let made = Entry::new(moment, status_of(inode), status_of(inode), None, triples);
    made.unwrap()
}

ghost use Rattle.std.specs.Prelude.{◌≡◌, ℕ, ◌+◌, ◌*◌, ◌≤◌, ◌<◌, ◌++◌, IsTrue, Bool, true, false};
ghost use Rattle.std.specs.Prelude.{List, [], length, Option, Some, None, IfSome, IfNone, IsSome};
ghost use Rattle.std.specs.Prelude.{◌&&◌, ◌||◌, not, nat_lt, nat_le};
ghost use Rattle.std.specs.List.{flat_map, AllByRecursion};
ghost use Rattle.s4_types.specs.declared.limits.TheConstants.{OBJECT_BLOCKS, ENTRY_TRIPLES};
ghost use Rattle.s4_types.specs.declared.limits.TheConstants.{ATTRIBUTE_PAIR_BYTES};
ghost use Rattle.s4_types.specs.declared.limits.TheConstants.{SHORTEST_ENTRY_BYTES};
ghost use Rattle.s4_types.specs.declared.limits.TheConstants.{LONGEST_ENTRY_BYTES};
ghost use Rattle.codec.specs.Fields.{Reads, slot, bit};
ghost use Rattle.codec.specs.Entry.{EntryFields, same_slot, ascend_from, was_nothing, changes_now};
ghost use Rattle.codec.specs.Entry.{differs, entry_rules, checked_entry, pair_length, entry_length};
ghost use Rattle.codec.specs.Entry.{entry_length_by};

use crate::attributes::Attribute;
use crate::versions::ImageVersion;
use arrayvec::ArrayVec;
use s4_types::limits::{
    ENTRY_TRIPLES, OBJECT_BLOCKS, OBJECT_BYTES, SHORTEST_ENTRY_BYTES, TRIPLE_BYTES,
};
use s4_types::{Moment, Ptr};
use std::marker::Model;

/// What an entry tells of an inode in front of a moment, or after it.
#[derive(Clone, Copy, PartialEq, Eq)]
pub struct Status {
    pub alive: bool,
    /// In bytes.
    pub size: u32,
    pub changed: Moment,
}

/// The index of a pointer among those of an inode.
pub type PointerIndex = u16;

/// A pointer that changed: its index, what was there and what is there.
#[derive(Clone, Copy, Default, PartialEq, Eq)]
pub struct Triple {
    pub index: PointerIndex,
    pub before: Option<Ptr>,
    pub after: Option<Ptr>,
}

/// An attribute that changed.
#[derive(Clone, Copy, PartialEq, Eq)]
pub struct Pair {
    pub before: Attribute,
    pub after: Attribute,
}

/// Pointers that changed, by ascending index.
pub type Triples = ArrayVec<Triple, ENTRY_TRIPLES>;

/// Which of its parts an entry has.
#[derive(Clone, Copy)]
pub(crate) struct Flags {
    pub(crate) before: bool,
    pub(crate) after: bool,
    pub(crate) pair: bool,
}

/// What a change at a moment made of an inode, both ways.
///
/// The rules of a single entry hold: the moment is at least 1, one of the two is alive, what was
/// dead had no size and no moment of change, what is alive was changed at the moment, of what is
/// dead the flag alone changed, the attributes of a pair differ, and so do the two pointers of a
/// triple, whose indices ascend.
#[derive(Clone, Drop, PartialEq, Eq)]
pub struct Entry {
    moment: Moment,
    before: Status,
    after: Status,
    pair: Option<Pair>,
    triples: Triples,
}

impl Model for Entry {
    ghost use Rattle.std.specs.Prelude.{◌≡◌, true};
    ghost use Rattle.codec.specs.Entry.{EntryFields, entry_rules};

    ghost Value = { EntryFields };

    ghost view = { λ e. record { moment = e.moment; before = e.before; after = e.after; pair = e.pair; triples = e.triples.items } };

    ghost invariant = { λ e. entry_rules (record { moment = e.moment; before = e.before; after = e.after; pair = e.pair; triples = e.triples.items }) ≡ true };

    ghost inverse = { λ e. record { moment = e.moment; before = e.before; after = e.after; pair = e.pair; triples = record { items = e.triples } } };
}

/// The least entry: the making of an object at moment 1.
impl Default for Entry {
    ghost is_default = { λ e. e ≡ record {
      moment = 1;
      before = record { alive = false; size = 0; changed = 0 };
      after = record { alive = true; size = 0; changed = 1 };
      pair = None;
      triples = [];
    } };

    #[tactic(auto, unfolding(crate::specs::Entry::entry_rules, crate::specs::Entry::ascend_from))]
    fn default() -> Self {
        let status = Status {
            alive: false,
            size: 0,
            changed: Moment::new(0),
        };
        Entry {
            moment: Moment::new(1),
            before: status,
            after: Status {
                alive: true,
                size: 0,
                changed: Moment::new(1),
            },
            pair: None,
            triples: Triples::new(),
        }
    }
}

fn is_same_slot(one: Option<Ptr>, other: Option<Ptr>) -> bool
    ensures { result ≡ same_slot one other }
{
    match (one, other) {
        (None, None) => true,
        (Some(one), Some(other)) => {
            one.frame() == other.frame()
                && one.block() == other.block()
                && one.generation() == other.generation()
        }
        _ => false,
    }
}

/// Whether a triple may be where indices begin at `low`.
fn may_stand(low: PointerIndex, triple: Triple) -> bool
    ensures exact { result
        ≡ (nat_le low triple.index
        && (nat_lt triple.index OBJECT_BLOCKS && not (same_slot triple.before triple.after))) }
    ensures room { IsTrue result → triple.index < OBJECT_BLOCKS }
{
    low <= triple.index
        && (triple.index as usize) < OBJECT_BLOCKS
        && !is_same_slot(triple.before, triple.after)
}

fn ascends(triples: &[Triple]) -> bool
    ensures { result ≡ ascend_from 0 triples.now }
{
    let mut low = 0;
    for triple in triples {
        if !may_stand(low, *triple) {
            return false;
        }
        low = triple.index + 1;
    }
    true
}

fn was_fresh(before: &Status) -> bool
    ensures { result ≡ was_nothing before.now }
{
    before.alive || (before.size == 0 && before.changed.number() == 0)
}

fn differ(pair: &Option<Pair>) -> bool
    ensures { result ≡ differs pair.now }
{
    match pair {
        None => true,
        Some(pair) => pair.before.as_slice() != pair.after.as_slice(),
    }
}

#[tactic(auto, unfolding(crate::specs::Entry::pair_length))]
fn pair_bytes(pair: Option<Pair>) -> usize
    ensures exact { result ≡ pair_length pair }
    ensures most { result ≤ ATTRIBUTE_PAIR_BYTES }
{
    match pair {
        None => 0,
        Some(pair) => 1 + pair.before.as_slice().len() + (1 + pair.after.as_slice().len()),
    }
}

fn is_timely(
    moment: Moment,
    before: &Status,
    after: &Status,
    pair: &Option<Pair>,
    triples: &Triples,
) -> bool
    ensures { result ≡ changes_now (record { moment = moment; before = before.now; after = after.now; pair = pair.now; triples = triples.now.items }) }
{
    if after.alive {
        return after.changed.number() == moment.number();
    }
    before.size == after.size
        && before.changed.number() == after.changed.number()
        && pair.is_none()
        && triples.len() == 0
}

#[tactic(auto, unfolding(crate::specs::Entry::entry_rules))]
fn keeps_rules(
    moment: Moment,
    before: &Status,
    after: &Status,
    pair: &Option<Pair>,
    triples: &Triples,
) -> bool
    ensures { result ≡ entry_rules (record { moment = moment; before = before.now; after = after.now; pair = pair.now; triples = triples.now.items }) }
{
    moment.number() >= 1
        && (before.alive || after.alive)
        && before.size <= OBJECT_BYTES as u32
        && after.size <= OBJECT_BYTES as u32
        && was_fresh(before)
        && is_timely(moment, before, after, pair, triples)
        && differ(pair)
        && ascends(triples.as_slice())
}

impl Entry {
    /// The entry of a change. None where it breaks a rule of single entries.
    pub fn new(
        moment: Moment,
        before: Status,
        after: Status,
        pair: Option<Pair>,
        triples: Triples,
    ) -> Option<Self>
        ensures { Reads (λ e. e) result (checked_entry (record { moment = moment; before = before; after = after; pair = pair; triples = triples.items })) }
    {
        if !keeps_rules(moment, &before, &after, &pair, &triples) {
            return None;
        }
        Some(Entry {
            moment,
            before,
            after,
            pair,
            triples,
        })
    }

    pub fn moment(&self) -> Moment
        ensures { result ≡ self.now.moment }
    {
        self.moment
    }

    pub fn before(&self) -> Status
        ensures { result ≡ self.now.before }
    {
        self.before
    }

    pub fn after(&self) -> Status
        ensures { result ≡ self.now.after }
    {
        self.after
    }

    pub fn pair(&self) -> Option<Pair>
        ensures { result ≡ self.now.pair }
    {
        self.pair
    }

    pub fn triples(&self) -> &[Triple]
        ensures triples { result.now ≡ self.now.triples }
        ensures count { length self.now.triples ≤ ENTRY_TRIPLES }
        ensures rules { entry_rules self.now ≡ true }
    {
        self.triples.as_slice()
    }

    /// How many bytes the entry's encoding has: `SHORTEST_ENTRY_BYTES` to `LONGEST_ENTRY_BYTES`.
    #[tactic(auto, unfolding(crate::specs::Entry::entry_length))]
    pub fn byte_count(&self) -> usize
        ensures exact { result ≡ entry_length self.now }
        ensures least { SHORTEST_ENTRY_BYTES ≤ result }
        ensures most { result ≤ LONGEST_ENTRY_BYTES }
    {
        SHORTEST_ENTRY_BYTES + pair_bytes(self.pair) + TRIPLE_BYTES * self.triples.len()
    }

    /// How many bytes the entry's encoding has in an image of a version.
    #[tactic(auto, unfolding(crate::specs::Entry::entry_length_by))]
    pub fn byte_count_by(&self, version: ImageVersion) -> usize
        ensures exact { result ≡ entry_length_by version self.now }
        ensures least { SHORTEST_ENTRY_BYTES ≤ result }
        ensures most { result ≤ LONGEST_ENTRY_BYTES }
    {
        let triples = version.bytes_of_triples(self.triples.len() as u8);
        SHORTEST_ENTRY_BYTES + pair_bytes(self.pair) + triples
    }
}

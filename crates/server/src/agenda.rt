//! Which objects the cleaner is to visit. Nothing that is answered rests on it.
ghost use Rattle.std.specs.Prelude.{◌≡◌, ◌≢◌, [], true, false, IfOk, MatchOption};
ghost use Rattle.std.specs.List.{list_any};
ghost use Rattle.std.specs.List.Sorted.{IsPermutation, IsSorted};
ghost use Rattle.std.specs.Ordering.{nat_cmp};
ghost use Rattle.server.specs.Agenda.{PutsFloor, AddsFloor, PutsDeleted, PutsHistory, Deletes};
ghost use Rattle.server.specs.Agenda.{Forgets, has_key, due_from, due_objects, removable, above};
ghost use Rattle.server.specs.Agenda.{is_removal};
ghost use Rattle.server.specs.Rounds.{BeginsRound, BeginsRemovals, writing};

use drive::Drive;
use s4_types::limits::JOURNAL_ENTRY_BYTES;
use s4_types::{Moment, ObjectId};
use segment_word::Naming;
use std::alloc::{AllocError, Global};
use std::collections::BTreeMap;
use std::mem::replace;

/// What an object that was cleaned or changed has left for later turns.
#[derive(Clone, Copy)]
pub(crate) struct History {
    /// The moment of its oldest entry above the floor.
    pub oldest: Moment,
    /// The moment of its Delete, if it is deleted. From that floor on a turn removes the object,
    /// and writes nothing.
    pub deleted: Option<Moment>,
    /// All its entries fit one journal block.
    pub is_short: bool,
}

impl History {
    /// The floor from which on a turn frees more than it writes. A deleted object with few entries
    /// has a checkpoint and a journal block less only once it is removed.
    fn due(&self) -> Moment
        ensures { result ≡ due_from self.now }
    {
        match self.deleted {
            Some(deleted) if self.is_short => deleted,
            _ => self.oldest,
        }
    }
}

/// The objects of which a turn of the cleaner may free something, now or later: those that have
/// history.
#[derive(Drop)]
pub(crate) struct Agenda {
    alloc: Global,
    /// Of each the floor from which on a turn may free something.
    floors: BTreeMap<u64, u64>,
    /// The deleted ones, by the moments of their Deletes.
    deleted: BTreeMap<u64, u64>,
    /// Some may be missing: nothing is known yet, or memory was refused. A walk over all objects is
    /// to find them.
    has_gaps: bool,
    /// Such a walk has begun, and not ended: each round goes on with it.
    is_walking: bool,
    /// Moments of all objects were hidden since the last round began.
    is_hidden: bool,
}

impl Agenda {
    /// Nothing is known of any object.
    pub(crate) fn new(alloc: Global) -> Self
        ensures known { (result.floors.entries ≡ []) × (result.deleted.entries ≡ []) }
        ensures gaps { result.has_gaps ≡ true }
        ensures rounds { (result.is_walking ≡ false) × (result.is_hidden ≡ false) }
    {
        Agenda {
            alloc,
            floors: BTreeMap::new(alloc),
            deleted: BTreeMap::new(alloc),
            has_gaps: true,
            is_walking: false,
            is_hidden: false,
        }
    }

    /// How many objects are known to have history of which a turn may write something.
    pub(crate) fn count(&self) -> u64
        ensures { result ≡ writing self.now }
    {
        (self.floors.len() as u64).saturating_sub(self.deleted.len() as u64)
    }

    /// Whether at this floor an object can be removed.
    pub(crate) fn has_removal(&self, floor: u64) -> bool
        ensures { result ≡ list_any (is_removal floor) self.now.deleted.entries }
    {
        match self.deleted.first_key_value() {
            Some((moment, _)) => *moment <= floor,
            None => false,
        }
    }

    /// A turn of this object may free something from a floor on.
    fn put(&mut self, object: ObjectId, floor: Moment)
        ensures { PutsFloor self.old object floor self.new }
    {
        if self.floors.insert(object.number(), floor.number()).is_err() {
            self.has_gaps = true;
        }
    }

    /// An object was deleted at this moment.
    fn put_deleted(&mut self, object: ObjectId, deleted: Moment)
        ensures { PutsDeleted self.old object deleted self.new }
    {
        if self
            .deleted
            .insert(deleted.number(), object.number())
            .is_err()
        {
            self.has_gaps = true;
        }
    }

    /// An object was changed at this moment.
    pub(crate) fn add(&mut self, object: ObjectId, moment: Moment)
        ensures { AddsFloor self.old object moment self.new }
    {
        if !self.floors.contains_key(&object.number()) {
            self.put(object, moment);
        }
    }

    /// An object was deleted at this moment, whose entries may fit one journal block.
    pub(crate) fn delete(&mut self, object: ObjectId, moment: Moment, is_short: bool)
        ensures { Deletes self.old object moment is_short self.new }
    {
        self.put_deleted(object, moment);
        if is_short {
            self.put(object, moment);
        } else {
            self.add(object, moment);
        }
    }

    /// An object had its turn, and has this history left, or none.
    pub(crate) fn settle(&mut self, object: ObjectId, left: Option<History>)
        ensures { MatchOption left (Forgets self.old object self.new)
            (λ history. PutsHistory self.old object history self.new) }
    {
        match left {
            Some(history) => self.put_history(object, history),
            None => drop(self.floors.remove(&object.number())),
        }
    }

    /// An object has this history left.
    fn put_history(&mut self, object: ObjectId, history: History)
        ensures { PutsHistory self.old object history self.new }
    {
        self.put(object, history.due());
        if let Some(deleted) = history.deleted {
            self.put_deleted(object, deleted);
        }
    }

    /// An object could not be cleaned, and has another turn in the next round.
    pub(crate) fn keep(&mut self, object: ObjectId)
        ensures { PutsFloor self.old object 0 self.new }
    {
        self.put(object, Moment::new(0));
    }

    /// Moments of an object were hidden, or of all where its number is 0.
    pub(crate) fn hide(&mut self, object: ObjectId)
        ensures all { object ≡ 0 → self.new ≡ record self.old { is_hidden = true } }
        ensures known { object ≢ 0 → has_key self.old.floors.entries object ≡ true
            → PutsFloor self.old object 0 self.new }
        ensures unknown { object ≢ 0 → has_key self.old.floors.entries object ≡ false
            → self.new ≡ self.old }
    {
        if object.number() == 0 {
            self.is_hidden = true;
        } else if self.floors.contains_key(&object.number()) {
            self.put(object, Moment::new(0));
        }
    }

    /// Whether rounds go on with a walk over all objects.
    pub(crate) fn is_walking(&self) -> bool
        ensures { result ≡ self.now.is_walking }
    {
        self.is_walking
    }

    /// All objects were visited.
    pub(crate) fn end_walk(&mut self)
        ensures { self.new ≡ record self.old { is_walking = false } }
    {
        self.is_walking = false;
    }

    /// A round begins at this floor: the objects that it is to visit, by ascending number, beside
    /// some more of a walk. None where it is to visit all: what is hidden is freed in one round, and
    /// a list may be refused memory.
    pub(crate) fn begin_round(&mut self, floor: Moment) -> Option<Vec<ObjectId>>
        ensures { BeginsRound self.old floor result self.new }
    {
        let is_hidden = replace(&mut self.is_hidden, false);
        if !self.is_walking {
            self.is_walking = replace(&mut self.has_gaps, false);
        }
        if self.is_walking && is_hidden {
            return None;
        }
        let last = if is_hidden { u64::MAX } else { floor.number() };
        self.forget_removed(floor.number());
        self.due(last).ok()
    }

    /// A round begins at this floor that writes nothing: the objects that can be removed, by
    /// ascending number. Where a list is refused memory it has no objects, and a later one has these.
    pub(crate) fn begin_removals(&mut self, floor: Moment) -> Vec<ObjectId>
        ensures { BeginsRemovals self.old floor result self.new }
    {
        let Ok(objects) = self.removable(floor.number()) else {
            return Vec::new(self.alloc);
        };
        self.forget_removed(floor.number());
        objects
    }

    /// The objects whose Deletes have passed the floor have their turn now. One that can't be
    /// removed is visited again as others are.
    fn forget_removed(&mut self, floor: u64)
        ensures deleted { self.new.deleted.entries ≡ above floor self.old.deleted.entries }
        ensures kept { self.new ≡ record self.old { deleted = self.new.deleted } }
    {
        self.deleted.retain(|moment, _| floor < *moment);
    }

    /// The objects whose Deletes have passed the floor, by ascending number.
    fn removable(&self, floor: u64) -> Result<Vec<ObjectId>, AllocError>
        ensures removed { IfOk result (λ objects. IsPermutation (removable floor self.now.deleted.entries)
            objects.items) }
        ensures sorted { IfOk result (λ objects. IsSorted nat_cmp objects.items) }
    {
        let mut removable = Vec::new(self.alloc);
        for (moment, object) in self.deleted.iter() {
            if *moment <= floor {
                removable.push(ObjectId::new(*object))?;
            }
        }
        removable.sort()?;
        Ok(removable)
    }

    /// The objects whose floor is at most this one, each once, by ascending number.
    fn due(&self, last: u64) -> Result<Vec<ObjectId>, AllocError>
        ensures { IfOk result (λ objects. objects.items
            ≡ due_objects last self.now.floors.entries) }
    {
        let mut due = Vec::new(self.alloc);
        for (object, floor) in self.floors.iter() {
            if *floor <= last {
                due.push(ObjectId::new(*object))?;
            }
        }
        Ok(due)
    }
}

/// What the entries of an object show of its state at a moment.
#[derive(Clone, Copy, PartialEq, Eq)]
struct State {
    /// When it was last changed. A Delete leaves that as it is.
    changed: Moment,
    is_alive: bool,
}

/// The state of an object at a moment, or of its life alone. None where it has no row.
fn state_at<J: Naming>(
    drive: &mut Drive<J>,
    object: ObjectId,
    at: u64,
    is_of_life: bool,
) -> Option<State>
    ensures { drive.new.ledger ≡ drive.old.ledger }
{
    let inode = drive.inode_at(object, Moment::new(at))?;
    Some(State {
        changed: if is_of_life {
            Moment::new(0)
        } else {
            inode.changed
        },
        is_alive: inode.alive,
    })
}

/// The first moment above the floor at which an object's state is another one than at the floor, or
/// the clock. It is searched for by halves, which reads no block and takes no memory.
fn first_change<J: Naming>(drive: &mut Drive<J>, object: ObjectId, is_of_life: bool) -> Moment
    ensures { drive.new.ledger ≡ drive.old.ledger }
{
    let mut low = drive.floor().number();
    let mut high = drive.clock().number();
    let first = state_at(drive, object, low, is_of_life);
    for _ in 0..u64::BITS {
        let half = high.saturating_sub(low) / 2;
        let middle = low.saturating_add(half);
        if half == 0 {
            break;
        }
        if state_at(drive, object, middle, is_of_life) == first {
            low = middle;
        } else {
            high = middle;
        }
    }
    Moment::new(high)
}

/// When an object was deleted, if it is.
fn deletion<J: Naming>(drive: &mut Drive<J>, object: ObjectId) -> Option<Moment>
    ensures { drive.new.ledger ≡ drive.old.ledger }
{
    let clock = drive.clock().number();
    match state_at(drive, object, clock, true) {
        Some(state) if !state.is_alive => Some(first_change(drive, object, true)),
        _ => None,
    }
}

/// Whether the entries of an object fit one journal block.
pub(crate) fn is_short<J: Naming>(drive: &Drive<J>, object: ObjectId) -> bool {
    match drive.row(object) {
        Some(row) => row.journal_bytes as usize <= JOURNAL_ENTRY_BYTES,
        None => true,
    }
}

/// The history that an object has left which was cleaned, if it has any.
pub(crate) fn history_left<J: Naming>(drive: &mut Drive<J>, object: ObjectId) -> Option<History>
    ensures { drive.new.ledger ≡ drive.old.ledger }
{
    let row = drive.row(object)?;
    if row.journal_bytes == 0 {
        return None;
    }
    Some(History {
        oldest: first_change(drive, object, false),
        deleted: deletion(drive, object),
        is_short: is_short(drive, object),
    })
}

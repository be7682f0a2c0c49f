ghost use Rattle.std.specs.Prelude.{◌≡◌, ℕ, ◌+◌, ◌<◌, ◌^◌, Some, None, IsSome, IfSome, IfNone};
ghost use Rattle.std.specs.Prelude.{IfOk, IfErr, OnOk, OnErr, [], ◌∷◌, ◌++◌, length, option_copied};
ghost use Rattle.std.specs.Prelude.{option_map};
ghost use Rattle.object_map.specs.Objects.{value_of, without_value, PutsAt, IsNextAbove, IsKeptOf};
ghost use Rattle.object_map.specs.Objects.{unboxed};
ghost use Rattle.object_map.specs.Objects.{AreBelow, Puts, PutsBehind, PutsRow, Removes};
ghost use Rattle.object_map.specs.Rows.{row_of, fresh_row};
ghost use Rattle.object_map.specs.Sides.{sides_after, side_gone, sides_named};
ghost use Rattle.object_map.specs.Lending.{LendsChanged};
ghost use Rattle.std.specs.Option.{option_to_list};
ghost use Rattle.std.specs.Borrow.{sem};
ghost use Rattle.std.specs.Option.{option_copied_mut};
ghost use Rattle.s4_types.specs.declared.refusals.Refusal.TheVariants.{NoMemory};

use crate::sides::{Side, Sides};
use s4_types::{Moment, ObjectId, Ptr, Refusal};
use std::alloc::Global;
use std::collections::BTreeMap;
use std::marker::Model;
use std::ops::Bound;

/// Where an object's versions stand.
#[derive(Clone, Copy, PartialEq, Eq)]
pub struct Row {
    /// The moment of the object's creation.
    pub created: Moment,
    /// The block of an inode of the object, if one was written.
    pub checkpoint: Option<Ptr>,
    /// The moment of that inode, and 0 where there is none.
    pub checkpoint_moment: Moment,
    /// The newest block of the object's journal, if there is one.
    pub head: Option<Ptr>,
    /// Bytes of all entries of the journal, kept so that they needn't be counted.
    pub journal_bytes: u16,
    /// Bytes of the entries in the newest block.
    pub head_bytes: u16,
    /// The older checkpoints, each of an earlier moment than the next and than the row's own.
    pub sides: Sides,
    /// How often the row was changed.
    pub stamp: u64,
}

impl Row {
    /// The row of an object that was just created: no checkpoint, no older ones, no journal, stamp
    /// 0.
    pub fn fresh(created: Moment) -> Row
        ensures { result ≡ fresh_row created }
    {
        Row {
            created,
            checkpoint: None,
            checkpoint_moment: Moment::new(0),
            head: None,
            journal_bytes: 0,
            head_bytes: 0,
            sides: Sides::new(),
            stamp: 0,
        }
    }

    /// The row's newest checkpoint, if it has one, becomes one of the older ones, for another that
    /// will be named in its place. Where that makes one too many, the first goes and is answered;
    /// so what went and what is kept are all, in order.
    pub fn set_aside(&mut self) -> Option<Side>
        ensures row { self.new ≡ record self.old { sides = sides_after self.old } }
        ensures gone { result ≡ side_gone self.old.sides self.old.checkpoint }
        ensures all { option_to_list result ++ self.new.sides ≡ sides_named self.old }
    {
        let place = self.checkpoint?;
        self.sides.push(Side {
            moment: self.checkpoint_moment,
            place,
        })
    }
}

/// What is kept of an object.
#[derive(Drop)]
pub struct Kept<V: Drop> {
    /// Where its versions stand.
    pub row: Row,
    /// What is beside the row.
    pub value: V,
}

/// A map from objects to their rows, with a value beside each.
#[derive(Drop)]
pub struct ObjectMap<V: Drop> {
    alloc: Global,
    // Each in a box of its own, so that the gaps in the tree's nodes are small.
    objects: BTreeMap<u64, Box<Kept<V>>>,
}

impl<V: Drop> Model for ObjectMap<V> {
    ghost use Rattle.object_map.specs.Objects.{MapOf, parts_of, unboxed};

    ghost Value = { MapOf V };

    ghost view = { λ m. parts_of (unboxed m.objects.entries) };
}

// What is kept at a key that has nothing.
fn put<V: Drop>(
    alloc: Global,
    map: &mut BTreeMap<u64, Box<Kept<V>>>,
    key: u64,
    kept: Kept<V>,
) -> Result<(), Refusal>
    requires fresh { value_of (unboxed map.old.entries) key ≡ None }
    ensures put { OnOk result (PutsAt (unboxed map.old.entries) key kept (unboxed map.new.entries)) }
    ensures behind { AreBelow (unboxed map.old.entries) key
        → OnOk result (unboxed map.new.entries ≡ unboxed map.old.entries ++ (key, kept) ∷ []) }
    ensures refusal { IfErr result (λ e. e ≡ NoMemory) }
    ensures unchanged { OnErr result (map.new.entries ≡ map.old.entries) }
{
    let place = Box::new(alloc, kept)?;
    map.insert(key, place)?;
    Ok(())
}

// A row in place of an old one: its stamp is one above the old row's.
fn next_of(old: &Row, row: &Row) -> Row
    requires { old.now.stamp + 1 < 2 ^ 64 }
    ensures { result ≡ record row.now { stamp = old.now.stamp + 1 } }
{
    Row {
        stamp: old.stamp + 1,
        ..*row
    }
}

// Another row, whose stamp is one above the old one's, and another value in their place.
fn put_anew<V: Drop>(place: &mut Box<Kept<V>>, row: &Row, value: V)
    requires { place.old.value.row.stamp + 1 < 2 ^ 64 }
    ensures { place.new.value
        ≡ record { row = record row.now { stamp = place.old.value.row.stamp + 1 }; value = value } }
{
    let kept = &mut **place;
    kept.row = next_of(&kept.row, row);
    kept.value = value;
}

// Another row, whose stamp is one above the old one's; the value stays.
fn put_row<V: Drop>(place: &mut Box<Kept<V>>, row: &Row)
    requires { place.old.value.row.stamp + 1 < 2 ^ 64 }
    ensures { place.new.value
        ≡ record place.old.value { row = record row.now { stamp = place.old.value.row.stamp + 1 } } }
{
    let kept = &mut **place;
    kept.row = next_of(&kept.row, row);
}

// At a key another row, whose stamp is one above the old one's, and another value.
fn replace<V: Drop>(map: &mut BTreeMap<u64, Box<Kept<V>>>, key: u64, row: &Row, value: V)
    requires there { IfSome (value_of (unboxed map.old.entries) key)
        (λ old. old.row.stamp + 1 < 2 ^ 64) }
    requires some { IsSome (value_of (unboxed map.old.entries) key) }
    ensures changed { IfSome (value_of (unboxed map.old.entries) key) (λ old.
        PutsAt (unboxed map.old.entries) key
        (record { row = record row.now { stamp = old.row.stamp + 1 }; value = value })
        (unboxed map.new.entries)) }
{
    if let Some(kept) = map.get_mut(&key) {
        put_anew(kept, row, value);
    }
}

// At a key another row, whose stamp is one above the old one's; the value stays.
fn replace_row<V: Drop>(map: &mut BTreeMap<u64, Box<Kept<V>>>, key: u64, row: &Row)
    requires there { IfSome (value_of (unboxed map.old.entries) key)
        (λ old. old.row.stamp + 1 < 2 ^ 64) }
    requires some { IsSome (value_of (unboxed map.old.entries) key) }
    ensures changed { IfSome (value_of (unboxed map.old.entries) key) (λ old.
        PutsAt (unboxed map.old.entries) key
        (record old { row = record row.now { stamp = old.row.stamp + 1 } })
        (unboxed map.new.entries)) }
{
    if let Some(place) = map.get_mut(&key) {
        put_row(place, row);
    }
}

// The value at a key goes, if there is one.
fn take_out<V: Drop>(map: &mut BTreeMap<u64, V>, key: u64)
    ensures { (q : ℕ)
        → value_of map.new.entries q ≡ without_value (value_of map.old.entries) key q }
{
    let _ = map.remove(&key);
}

// The least key above this one.
fn next_key<V: Drop>(map: &BTreeMap<u64, V>, key: u64) -> Option<u64>
    ensures some { IfSome result (λ next. IsNextAbove map.now.entries key next) }
    ensures none { IfNone result ((q : ℕ) → key < q → value_of map.now.entries q ≡ None) }
{
    let above = (Bound::Excluded(key), Bound::Unbounded);
    let (next, _) = map.range(above).next()?;
    Some(*next)
}

impl<V: Drop> ObjectMap<V> {
    /// A map without objects.
    pub fn new(alloc: Global) -> Self
        ensures rows { result.rows ≡ [] }
        ensures values { result.values ≡ [] }
    {
        ObjectMap {
            alloc,
            objects: BTreeMap::new(alloc),
        }
    }

    /// The row of an object and the value beside it.
    pub fn get(&self, object: ObjectId) -> Option<&Kept<V>>
        ensures { IsKeptOf self.now object (option_copied result) }
    {
        let kept = self.objects.get(&object.number())?;
        Some(&**kept)
    }

    /// This row, with its own stamp, for an object that has none, and a value beside it. NoMemory,
    /// and nothing has changed, where the map couldn't grow.
    pub fn insert(&mut self, object: ObjectId, row: &Row, value: V) -> Result<(), Refusal>
        requires fresh { row_of self.old.rows object ≡ None }
        ensures added { OnOk result (Puts self.old object row.now value self.new) }
        ensures behind { AreBelow self.old.rows object
            → OnOk result (PutsBehind self.old object row.now value self.new) }
        ensures refusal { IfErr result (λ e. e ≡ NoMemory) }
        ensures unchanged { OnErr result (self.new ≡ self.old) }
    {
        let kept = Kept { row: *row, value };
        put(self.alloc, &mut self.objects, object.number(), kept)
    }

    /// A row for an object that has none, without journal and checkpoint and with stamp 0, and a
    /// value beside it. NoMemory, and nothing has changed, where the map couldn't grow.
    pub fn add(&mut self, object: ObjectId, created: Moment, value: V) -> Result<(), Refusal>
        requires fresh { row_of self.old.rows object ≡ None }
        ensures added { OnOk result (Puts self.old object (fresh_row created) value self.new) }
        ensures refusal { IfErr result (λ e. e ≡ NoMemory) }
        ensures unchanged { OnErr result (self.new ≡ self.old) }
    {
        let row = Row::fresh(created);
        self.insert(object, &row, value)
    }

    /// An object's row becomes this one, but for the stamp, which is one above the old row's; and
    /// the value beside it this.
    pub fn change(&mut self, object: ObjectId, row: &Row, value: V)
        requires there { IfSome (row_of self.old.rows object) (λ old. old.stamp + 1 < 2 ^ 64) }
        requires some { IsSome (row_of self.old.rows object) }
        ensures changed { IfSome (row_of self.old.rows object) (λ old. Puts self.old object (record row.now { stamp = old.stamp + 1 }) value self.new) }
    {
        replace(&mut self.objects, object.number(), row, value);
    }

    /// An object's row becomes this one, but for the stamp, which is one above the old row's; and
    /// the value beside it is lent, to be changed in its place. None, and nothing has changed,
    /// where the object has no row.
    pub fn change_in_place(&mut self, object: ObjectId, row: &Row) -> Option<&mut V>
        requires there { IfSome (row_of self.old.rows object) (λ old. old.stamp + 1 < 2 ^ 64) }
        ensures* changed { sem 𝓛 (LendsChanged V.row self.entry object row.now result) }
        ensures value { option_copied_mut result ≡ value_of self.old.values object }
        ensures none { IfNone result (row_of self.old.rows object ≡ None) }
    {
        let found = self.objects.get_mut(&object.number())?;
        let kept = &mut **found;
        kept.row = next_of(&kept.row, row);
        Some(&mut kept.value)
    }

    /// An object's row becomes this one, but for the stamp, which is one above the old row's; the
    /// value beside it stays.
    pub fn change_row(&mut self, object: ObjectId, row: &Row)
        requires there { IfSome (row_of self.old.rows object) (λ old. old.stamp + 1 < 2 ^ 64) }
        requires some { IsSome (row_of self.old.rows object) }
        ensures changed { IfSome (row_of self.old.rows object) (λ old. PutsRow self.old object (record row.now { stamp = old.stamp + 1 }) self.new) }
    {
        replace_row(&mut self.objects, object.number(), row);
    }

    /// An object's row and value go, if it has any.
    pub fn remove(&mut self, object: ObjectId)
        ensures { Removes self.old object self.new }
    {
        take_out(&mut self.objects, object.number());
    }

    /// The least object above this one that has a row.
    pub fn next_above(&self, object: ObjectId) -> Option<ObjectId>
        ensures some { IfSome result (λ next. IsNextAbove self.now.rows object next) }
        ensures none { IfNone result ((q : ℕ) → object < q → row_of self.now.rows q ≡ None) }
    {
        let next = next_key(&self.objects, object.number())?;
        Some(ObjectId::new(next))
    }

    /// How many objects have a row.
    pub fn len(&self) -> usize
        ensures { result ≡ length self.now.rows }
    {
        self.objects.len()
    }
}

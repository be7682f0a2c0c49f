ghost use Rattle.std.specs.Iterator.{YieldsFirst, item_count};
ghost use Rattle.std.specs.Prelude.{◌≡◌, ℕ, ◌+◌, ◌*◌, ◌<◌, ◌≤◌, [], ◌∷◌, List, MatchOption, length};
ghost use Rattle.std.specs.Prelude.{drop, slice_get, Option, Some, IfSome};
ghost use Rattle.std.specs.Int.{w64};
ghost use Rattle.s4_types.specs.Pointer.{Place};
ghost use Rattle.codec.specs.Fields.{SpellsSlot, number};
ghost use Rattle.image_parts.specs.Rows.{row_in, rows_in};

use crate::numbers::long_at;
use codec::decode_ptr;
use s4_types::{Moment, ObjectId, Ptr};
use std::marker::Model;

/// Bytes of a row.
pub(crate) const ROW_BYTES: usize = 40;

/// A row of an image: an object, and where its checkpoint and its chain begin. The eight bytes of
/// each pointer are as a number: 0 is a hole, and not every other number encodes a pointer.
#[derive(Clone, Copy)]
pub struct RowPart {
    pub object: ObjectId,
    pub created: Moment,
    /// The bytes of the pointer to the checkpoint.
    pub checkpoint: u64,
    pub checkpoint_moment: Moment,
    /// The bytes of the pointer to the newest journal block.
    pub head: u64,
}

/// The pointer, or the hole, that a number's bytes encode. None where they encode neither.
#[tactic(auto, unfolding(codec::specs::Fields::number))]
fn slot_of(bytes: u64) -> Option<Option<Ptr>>
    ensures found { IfSome result (λ ptr. SpellsSlot (number w64 bytes) ptr) }
    ensures only { (ptr : Option Place) → SpellsSlot (number w64 bytes) ptr → result ≡ Some ptr }
{
    decode_ptr(&bytes.to_be_bytes())
}

impl RowPart {
    /// The pointer to the checkpoint, or none where it is a hole. None where the bytes encode
    /// neither.
    pub fn checkpoint_slot(&self) -> Option<Option<Ptr>>
        ensures found { IfSome result (λ ptr. SpellsSlot (number w64 self.now.checkpoint) ptr) }
        ensures only { (ptr : Option Place)
            → SpellsSlot (number w64 self.now.checkpoint) ptr → result ≡ Some ptr }
    {
        slot_of(self.checkpoint)
    }

    /// The pointer to the newest journal block, or none where it is a hole. None where the bytes
    /// encode neither.
    pub fn head_slot(&self) -> Option<Option<Ptr>>
        ensures found { IfSome result (λ ptr. SpellsSlot (number w64 self.now.head) ptr) }
        ensures only { (ptr : Option Place)
            → SpellsSlot (number w64 self.now.head) ptr → result ≡ Some ptr }
    {
        slot_of(self.head)
    }
}

/// The row that the bytes begin with.
#[tactic(auto, unfolding(crate::specs::Rows::row_in))]
fn first_row(bytes: &[u8]) -> RowPart
    requires { 40 ≤ length bytes.now }
    ensures { result ≡ row_in bytes.now }
{
    RowPart {
        object: ObjectId::new(long_at(bytes, 0)),
        created: Moment::new(long_at(bytes, 8)),
        checkpoint: long_at(bytes, 16),
        checkpoint_moment: Moment::new(long_at(bytes, 24)),
        head: long_at(bytes, 32),
    }
}

/// Rows that are given one by one, in their order.
#[derive(Drop)]
pub struct Rows<'a> {
    count: u32,
    bytes: &'a [u8],
}

impl<'a> Model for Rows<'a> {
    ghost use Rattle.std.specs.Prelude.{List, ◌*◌, ◌≤◌, length};
    ghost use Rattle.image_parts.specs.Rows.{rows_in};
    ghost use Rattle.image_parts.specs.declared.rows.RowPart.{RowPart as Saved};

    ghost Value = { List Saved };

    ghost view = { λ r. rows_in r.count r.bytes.now };

    ghost invariant = { λ r. 40 * r.count ≤ length r.bytes.now };
}

impl<'a> Rows<'a> {
    /// The first rows of these bytes.
    pub(crate) fn new(count: u32, bytes: &'a [u8]) -> Self
        requires { 40 * count ≤ length bytes.now }
        ensures { result ≡ rows_in count bytes.entry.now }
    {
        Rows { count, bytes }
    }

    /// How many rows were not given.
    pub fn len(&self) -> u32
        ensures { result ≡ length self.now }
    {
        self.count
    }

    /// The row of an index among those that were not given. None after the last.
    pub fn get(&self, index: u32) -> Option<RowPart>
        ensures { result ≡ slice_get self.now index }
    {
        if index >= self.count {
            return None;
        }
        let (_, rest) = self.bytes.split_at(ROW_BYTES * index as usize);
        Some(first_row(rest))
    }
}

impl<'a> Iterator for Rows<'a> {
    type Item = RowPart;

    ghost next_gives = { YieldsFirst (λ r. r) };

    ghost remaining = { item_count (λ r. r) };

    fn next(&mut self) -> Option<RowPart> {
        if self.count == 0 {
            return None;
        }
        let row = first_row(self.bytes);
        let (_, rest) = self.bytes.split_at(ROW_BYTES);
        self.count -= 1;
        self.bytes = rest;
        Some(row)
    }
}

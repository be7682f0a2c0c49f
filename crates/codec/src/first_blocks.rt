ghost use Rattle.std.specs.Prelude.{◌≡◌, ◌≤◌, ◌++◌, length, Some, IfSome};
ghost use Rattle.codec.specs.Fields.{Reads, all_of, padded_at};
ghost use Rattle.codec.specs.FirstBlock.{behind_moments, behind_size, first_at, SpellsFirst};
ghost use Rattle.codec.specs.declared.first_blocks.FirstBlock.{FirstBlock as FirstFields};

use crate::attributes::Attribute;
use crate::fields::{
    read_byte, read_bytes, read_flag, read_long, read_mark, read_word, read_zeros,
};
use crate::pointers::{all_slots, put_slots, read_slots};
use crate::writing::{Writing, bit_of, finished, put, put_byte, put_long, put_word, put_zeros};
use s4_types::limits::{ATTRIBUTE_BYTES, BLOCK_BYTES, CHECKPOINT_PARTS, CHECKPOINT_POINTERS};
use s4_types::{Moment, ObjectId, Ptr};

/// The first block of a checkpoint: all of the inode but the pointers that it has no room for, and
/// where the blocks with these are.
#[derive(Clone, Copy)]
pub struct FirstBlock {
    pub object: ObjectId,
    pub moment: Moment,
    pub alive: bool,
    /// In bytes.
    pub size: u32,
    pub created: Moment,
    pub changed: Moment,
    pub attribute: Attribute,
    /// The first ones of the inode.
    pub pointers: [Option<Ptr>; CHECKPOINT_POINTERS],
    /// To the pointer blocks of the parts from 1 on.
    pub parts: [Option<Ptr>; CHECKPOINT_PARTS],
}

/// An attribute of `length` bytes in `ATTRIBUTE_BYTES`.
#[tactic(auto, unfolding(crate::specs::Fields::padded_at))]
fn read_padded(length: u8, bytes: &[u8]) -> Option<(Attribute, &[u8])>
    ensures { Reads (λ x. (x.0, x.1.now)) result (padded_at length bytes.now) }
{
    let length = length as usize;
    let (text, rest) = read_bytes(length, bytes)?;
    let rest = read_zeros(ATTRIBUTE_BYTES.saturating_sub(length), rest)?;
    let attribute = Attribute::new(text)?;
    Some((attribute, rest))
}

/// The numbers of a first block.
#[derive(Clone, Copy)]
struct Numbers {
    alive: bool,
    length: u8,
    size: u32,
    object: u64,
    moment: u64,
    created: u64,
    changed: u64,
}

/// What comes after the moments of a first block.
fn read_behind_moments(numbers: Numbers, bytes: &[u8]) -> Option<(FirstBlock, &[u8])>
    ensures { Reads (λ x. (x.0, x.1.now)) result
        (behind_moments numbers.alive numbers.length numbers.size numbers.object numbers.moment
        numbers.created numbers.changed bytes.now) }
{
    let Some((attribute, rest)) = read_padded(numbers.length, bytes) else {
        return None;
    };
    let Some((pointers, rest)) = read_slots(rest) else {
        return None;
    };
    let Some((parts, rest)) = read_slots(rest) else {
        return None;
    };
    let pointers = all_slots(pointers);
    let parts = all_slots(parts);
    let first = FirstBlock {
        object: ObjectId::new(numbers.object),
        moment: Moment::new(numbers.moment),
        alive: numbers.alive,
        size: numbers.size,
        created: Moment::new(numbers.created),
        changed: Moment::new(numbers.changed),
        attribute,
        pointers,
        parts,
    };
    Some((first, rest))
}

/// What comes after the size of a first block.
fn read_behind_size(alive: bool, length: u8, size: u32, bytes: &[u8]) -> Option<(FirstBlock, &[u8])>
    ensures { Reads (λ x. (x.0, x.1.now)) result (behind_size alive length size bytes.now) }
{
    let (object, rest) = read_long(bytes)?;
    let (moment, rest) = read_long(rest)?;
    let (created, rest) = read_long(rest)?;
    let (changed, rest) = read_long(rest)?;
    let numbers = Numbers {
        alive,
        length,
        size,
        object,
        moment,
        created,
        changed,
    };
    read_behind_moments(numbers, rest)
}

#[tactic(auto, unfolding(crate::specs::FirstBlock::first_at))]
fn read_first(bytes: &[u8]) -> Option<(FirstBlock, &[u8])>
    ensures { Reads (λ x. (x.0, x.1.now)) result (first_at bytes.now) }
{
    let rest = read_mark(2, bytes)?;
    let (alive, rest) = read_flag(rest)?;
    let (length, rest) = read_byte(rest)?;
    let rest = read_mark(0, rest)?;
    let (size, rest) = read_word(rest)?;
    read_behind_size(alive, length, size, rest)
}

fn first_in(bytes: &[u8]) -> Option<FirstBlock>
    ensures { Reads (λ x. x) result (all_of first_at bytes.now) }
{
    let Some((first, rest)) = read_first(bytes) else {
        return None;
    };
    match rest {
        [] => Some(first),
        [_, ..] => None,
    }
}

/// The first block of a checkpoint that the block encodes. None where it encodes none.
pub fn decode_first_block(block: &[u8; BLOCK_BYTES]) -> Option<FirstBlock>
    ensures exact { Reads (λ first. first) result (all_of first_at block.now) }
    ensures found { IfSome result (λ first. SpellsFirst block.now first) }
    ensures only { (first : FirstFields) → SpellsFirst block.now first → result ≡ Some first }
{
    first_in(block)
}

/// The one encoding of the first block of a checkpoint.
#[tactic(auto, unfolding(crate::specs::FirstBlock::first_spelling))]
pub fn encode_first_block(first: &FirstBlock) -> [u8; BLOCK_BYTES]
    ensures { SpellsFirst result first.now }
{
    let attribute = first.attribute.as_slice();
    let mut out = Writing::new();
    put_byte(&mut out, 2);
    put_byte(&mut out, bit_of(first.alive));
    put_byte(&mut out, attribute.len() as u8);
    put_byte(&mut out, 0);
    put_word(&mut out, first.size);
    put_long(&mut out, first.object.number());
    put_long(&mut out, first.moment.number());
    put_long(&mut out, first.created.number());
    put_long(&mut out, first.changed.number());
    put(&mut out, attribute);
    put_zeros(&mut out, ATTRIBUTE_BYTES - attribute.len());
    put_slots(&mut out, &first.pointers);
    put_slots(&mut out, &first.parts);
    finished(out)
}

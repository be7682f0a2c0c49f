ghost use Rattle.std.specs.Prelude.{◌≡◌, Some, IfSome};
ghost use Rattle.codec.specs.Fields.{Reads, all_of};
ghost use Rattle.codec.specs.PointerBlock.{behind_part, pointers_at, SpellsPointers};
ghost use Rattle.codec.specs.declared.pointer_blocks.PointerBlock.{PointerBlock as PointerFields};

use crate::fields::{read_byte, read_long, read_mark, read_zeros};
use crate::pointers::{all_slots, put_slots, read_slots};
use crate::writing::{Writing, finished, put_byte, put_long, put_zeros};
use s4_types::limits::{BLOCK_BYTES, CHECKPOINT_POINTERS, POINTER_BYTES};
use s4_types::{Moment, ObjectId, Ptr};

/// Bytes of a pointer block between its part and its object, which are zeros.
pub(crate) const GAP_BYTES: usize = 6;

/// Bytes of a pointer block in front of its pointers: kind, part, the gap, object and moment.
const HEAD_BYTES: usize = 2 + GAP_BYTES + 16;

/// Bytes of a pointer block after its pointers, which are zeros.
pub(crate) const END_BYTES: usize = BLOCK_BYTES - HEAD_BYTES - CHECKPOINT_POINTERS * POINTER_BYTES;

/// A part of a checkpoint: pointers of the inode that its first block has no room for.
#[derive(Clone, Copy)]
pub struct PointerBlock {
    /// From 1 on: the pointers of part `n` begin at index `CHECKPOINT_POINTERS * n`.
    pub part: u8,
    pub object: ObjectId,
    /// The checkpoint's.
    pub moment: Moment,
    pub pointers: [Option<Ptr>; CHECKPOINT_POINTERS],
}

/// What comes after the part of a pointer block.
fn read_behind_part(part: u8, bytes: &[u8]) -> Option<(PointerBlock, &[u8])>
    ensures { Reads (λ x. (x.0, x.1.now)) result (behind_part part bytes.now) }
{
    let rest = read_zeros(GAP_BYTES, bytes)?;
    let (object, rest) = read_long(rest)?;
    let (moment, rest) = read_long(rest)?;
    let Some((pointers, rest)) = read_slots(rest) else {
        return None;
    };
    let rest = read_zeros(END_BYTES, rest)?;
    let pointers = all_slots(pointers);
    let block = PointerBlock {
        part,
        object: ObjectId::new(object),
        moment: Moment::new(moment),
        pointers,
    };
    Some((block, rest))
}

#[tactic(auto, unfolding(crate::specs::PointerBlock::pointers_at))]
fn read_pointers(bytes: &[u8]) -> Option<(PointerBlock, &[u8])>
    ensures { Reads (λ x. (x.0, x.1.now)) result (pointers_at bytes.now) }
{
    let rest = read_mark(4, bytes)?;
    let (part, rest) = read_byte(rest)?;
    read_behind_part(part, rest)
}

fn pointers_in(bytes: &[u8]) -> Option<PointerBlock>
    ensures { Reads (λ x. x) result (all_of pointers_at bytes.now) }
{
    let Some((block, rest)) = read_pointers(bytes) else {
        return None;
    };
    match rest {
        [] => Some(block),
        [_, ..] => None,
    }
}

/// The pointer block that the block encodes. None where it encodes none.
pub fn decode_pointer_block(block: &[u8; BLOCK_BYTES]) -> Option<PointerBlock>
    ensures exact { Reads (λ pointers. pointers) result (all_of pointers_at block.now) }
    ensures found { IfSome result (λ pointers. SpellsPointers block.now pointers) }
    ensures only { (pointers : PointerFields)
        → SpellsPointers block.now pointers → result ≡ Some pointers }
{
    pointers_in(block)
}

/// The one encoding of a pointer block.
#[tactic(auto, unfolding(crate::specs::PointerBlock::pointers_spelling))]
pub fn encode_pointer_block(block: &PointerBlock) -> [u8; BLOCK_BYTES]
    ensures { SpellsPointers result block.now }
{
    let mut out = Writing::new();
    put_byte(&mut out, 4);
    put_byte(&mut out, block.part);
    put_zeros(&mut out, GAP_BYTES);
    put_long(&mut out, block.object.number());
    put_long(&mut out, block.moment.number());
    put_slots(&mut out, &block.pointers);
    put_zeros(&mut out, END_BYTES);
    finished(out)
}

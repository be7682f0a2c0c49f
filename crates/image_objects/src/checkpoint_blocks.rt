//! An object's checkpoint, read from the used blocks that it is in.
ghost use Rattle.std.specs.Prelude.{◌≡◌, ◌<◌, IfSome, None, slice_index_or};
ghost use Rattle.s4_types.specs.declared.limits.TheConstants.{CHECKPOINT_PARTS};
ghost use Rattle.codec.specs.Checkpoint.{CheckpointNumbers};
ghost use Rattle.codec.specs.Fields.{Reads};
ghost use Rattle.codec.specs.FirstBlock.{FirstNumbers};
ghost use Rattle.codec.specs.Parts.{ArePart};
ghost use Rattle.checkpoint.specs.Held.{of_checkpoints, checkpoint_held, first_in, part_in};

use crate::used_blocks::{UsedBlocks, bytes_at};
use block_log::BlockKind;
use codec::part_laws::blocks_have_their_parts;
use codec::{Checkpoint, FirstBlock, PartPointers, decode_first_block};
use s4_types::limits::CHECKPOINT_POINTERS;
use s4_types::{ObjectId, Ptr};

/// The first block of the object's checkpoint at a place. None where the image has no such used
/// block there, or where it encodes none.
pub(crate) fn read_first<U: UsedBlocks>(
    used: &U,
    object: ObjectId,
    place: Ptr,
) -> Option<FirstBlock>
    ensures exact { Reads (λ first. first) result
        (first_in (of_checkpoints object (U.used used.now)) place) }
    ensures numbers { IfSome result FirstNumbers }
{
    blocks_have_their_parts();
    let bytes = bytes_at(used, BlockKind::Checkpoint, object, place)?;
    decode_first_block(&bytes)
}

/// The pointers of a part of a checkpoint, by where the first block says that they are: holes where
/// it names no block. None where the image has no such used block there, or where it encodes none
/// of this part.
fn read_part<U: UsedBlocks>(
    used: &U,
    object: ObjectId,
    first: &FirstBlock,
    part: u8,
    place: Option<Ptr>,
) -> Option<PartPointers>
    ensures exact { Reads (λ pointers. pointers) result
        (part_in (of_checkpoints object (U.used used.now)) first.now part place) }
    ensures numbers { IfSome result ArePart }
{
    blocks_have_their_parts();
    let Some(place) = place else {
        return Some([None; CHECKPOINT_POINTERS]);
    };
    let bytes = bytes_at(used, BlockKind::Pointers, object, place)?;
    first.pointers_in(part, &bytes)
}

/// Where the block of a part is, of parts that are counted from 0 on.
fn place_of(first: &FirstBlock, part: usize) -> Option<Ptr>
    requires { part < CHECKPOINT_PARTS }
    ensures { result ≡ slice_index_or first.now.parts part None }
{
    first.parts[part]
}

/// The object's checkpoint at a place. None where the image has no such used block there, or lacks
/// one that the first block names, and where they encode none.
#[tactic(auto, unfolding(checkpoint::specs::Held::checkpoint_in))]
pub fn read_checkpoint<U: UsedBlocks>(used: &U, object: ObjectId, place: Ptr) -> Option<Checkpoint>
    ensures exact { result ≡ checkpoint_held (U.used used.now) object place }
    ensures numbers { IfSome result CheckpointNumbers }
{
    blocks_have_their_parts();
    let first = read_first(used, object, place)?;
    let one = read_part(used, object, &first, 1, place_of(&first, 0))?;
    let two = read_part(used, object, &first, 2, place_of(&first, 1))?;
    let three = read_part(used, object, &first, 3, place_of(&first, 2))?;
    first.joined(&one, &two, &three)
}

ghost use Rattle.std.specs.Prelude.{◌≡◌, ◌≤◌, ◌&&◌, nat_le, Some, IfSome};
ghost use Rattle.codec.specs.Fields.{Reads, kept, all_of};
ghost use Rattle.codec.specs.Checkpoint.{CheckpointFields, holes};
ghost use Rattle.codec.specs.FirstBlock.{first_at};
ghost use Rattle.codec.specs.Parts.{are_holes, joined};
ghost use Rattle.codec.specs.SmallCheckpoint.{SpellsSmallCheckpoint, small_checkpoint_in};

use crate::checkpoints::Checkpoint;
use crate::first_blocks::decode_first_block;
use crate::parts::{PartPointers, are_holes};
use crate::versions::FIRST_OBJECT_BYTES;
use s4_types::limits::{BLOCK_BYTES, CHECKPOINT_POINTERS};

/// As many holes as a part of a checkpoint has pointers.
#[tactic(auto, unfolding(crate::specs::Checkpoint::holes))]
fn no_pointers() -> PartPointers
    ensures { result ≡ holes 48 }
{
    [None; CHECKPOINT_POINTERS]
}

#[tactic(auto, unfolding(crate::specs::SmallCheckpoint::small_checkpoint_in))]
fn checkpoint_in(block: &[u8; BLOCK_BYTES]) -> Option<Checkpoint>
    ensures { Reads (λ c. c) result (small_checkpoint_in block.now) }
{
    let first = decode_first_block(block)?;
    let is_small = first.size <= FIRST_OBJECT_BYTES as u32 && are_holes(&first.parts);
    if !is_small {
        return None;
    }
    let none = no_pointers();
    first.joined(&none, &none, &none)
}

/// The checkpoint that a block of an image of the first version encodes. None where it encodes none.
pub fn decode_small_checkpoint(block: &[u8; BLOCK_BYTES]) -> Option<Checkpoint>
    ensures found { IfSome result (λ c. SpellsSmallCheckpoint block.now c) }
    ensures only { (c : CheckpointFields) → SpellsSmallCheckpoint block.now c → result ≡ Some c }
    ensures exact { Reads (λ c. c) result (small_checkpoint_in block.now) }
{
    checkpoint_in(block)
}

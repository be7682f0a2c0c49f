//! The used blocks of an image.
ghost use Rattle.std.specs.Prelude.{◌≡◌, ℕ, Option};
ghost use Rattle.s4_types.specs.Pointer.{Place};
ghost use Rattle.block_log.specs.Log.{Stored, same_kind, of_kind};

use block_log::{Block, BlockKind};
use s4_types::{ObjectId, Ptr};
use std::marker::Model;

/// A used block: what it is for, whose it is, and its bytes. Contracts see it as stored.
#[derive(Clone, Copy)]
pub struct UsedBlock {
    pub kind: BlockKind,
    pub object: ObjectId,
    pub bytes: Block,
}

impl Model for UsedBlock {
    ghost use Rattle.block_log.specs.Log.{Stored};

    ghost Value = { Stored };

    ghost view = { λ b. record { kind = b.kind; object = b.object; bytes = b.bytes } };

    ghost inverse = { λ s. record { kind = s.kind; object = s.object; bytes = s.bytes } };
}

/// The blocks of an image that are used.
pub trait UsedBlocks {
    // What each pointer names: nothing where no frame has a used block there at the pointer's
    // generation.
    ghost used: { Self → Place → Option Stored };

    /// The used block at a place. None where the pointer names none. No memory is taken.
    fn block(&self, place: Ptr) -> Option<UsedBlock>
        ensures { result ≡ used self.now place };
}

fn is_same_kind(one: BlockKind, other: BlockKind) -> bool
    ensures { result ≡ same_kind one other }
{
    match one {
        BlockKind::Journal => matches!(other, BlockKind::Journal),
        BlockKind::Checkpoint => matches!(other, BlockKind::Checkpoint),
        BlockKind::Data => matches!(other, BlockKind::Data),
        BlockKind::Pointers => matches!(other, BlockKind::Pointers),
    }
}

/// The bytes of the used block at a place. None where it isn't of this kind and object.
pub fn bytes_at<U: UsedBlocks>(
    used: &U,
    kind: BlockKind,
    object: ObjectId,
    place: Ptr,
) -> Option<Block>
    ensures { result ≡ of_kind kind object (U.used used.now) place }
{
    let block = used.block(place)?;
    if !is_same_kind(kind, block.kind) || block.object.number() != object.number() {
        return None;
    }
    Some(block.bytes)
}

//! Copies of data blocks, appended to new places.
ghost use Rattle.std.specs.Prelude.{◌≡◌, ℕ, ◌+◌, ◌<◌, ◌≤◌, [], ◌∷◌, length, List};
ghost use Rattle.std.specs.List.{Contains};
ghost use Rattle.s4_types.specs.Pointer.{Place};
ghost use Rattle.block_log.specs.Log.{Log};
ghost use Rattle.version_store.specs.Relocating.{AreCopies, frame_of_copies};
ghost use Rattle.version_store.specs.private.Relocating.{Appending};

use block_log::{Block, BlockKind, Blocks};
use chain_rewriting::Renaming;
use chain_rewriting::renaming_laws::moves_are_put_in_one_by_one;
use s4_types::{ObjectId, Ptr};

/// A copy of a block: where the block is held, and its bytes.
#[derive(Clone, Copy)]
pub struct CopiedBlock {
    pub place: Ptr,
    pub bytes: Block,
}

/// A renaming of the frame of these copies, which are of one. No block of it moves yet.
fn frame_of(copies: &[CopiedBlock]) -> Renaming
    ensures { result ≡ frame_of_copies copies.now }
{
    match copies {
        [] => Renaming::new(0, 0),
        [first, ..] => Renaming::new(first.place.frame(), first.place.generation()),
    }
}

/// Appends a copy of a data block of an object where a place is ahead, and puts its new place into
/// the renaming.
fn append_copy<B: Blocks>(
    table: &mut B,
    object: ObjectId,
    renaming: &mut Renaming,
    copy: &CopiedBlock,
)
    requires object { 1 ≤ object }
    requires room { 0 < length (B.log table.old).ahead }
    ensures appending { (copies rest : List _) (count : ℕ) (before : Log) → Contains copies copy.now
        → Appending object copies before (B.log table.old) renaming.old (copy.now ∷ rest) count
        → Appending object copies before (B.log table.new) renaming.new rest (count + 1) }
{
    moves_are_put_in_one_by_one();
    let Ok(place) = table.append(BlockKind::Data, object, &copy.bytes) else {
        unreachable!()
    };
    renaming.insert(copy.place.block(), place);
}

/// Appends copies of data blocks of an object in their order where there is room, and answers where
/// each stands now.
pub(crate) fn append_copies<B: Blocks>(
    table: &mut B,
    object: ObjectId,
    copies: &[CopiedBlock],
) -> Renaming
    requires object { 1 ≤ object }
    requires copies { AreCopies (B.log table.old).held object copies.now }
    requires room { length copies.now ≤ length (B.log table.old).ahead }
    ensures appending { Appending object copies.now (B.log table.old) (B.log table.new) result []
        (length copies.now) }
{
    moves_are_put_in_one_by_one();
    let mut renaming = frame_of(copies);
    for copy in copies {
        append_copy(table, object, &mut renaming, copy);
    }
    renaming
}

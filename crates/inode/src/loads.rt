ghost use Rattle.std.specs.Prelude.{◌≡◌, ℕ, ◌<◌, IsSome, Some, length};
ghost use Rattle.s4_types.specs.declared.limits.TheConstants.{OBJECT_BLOCKS};
ghost use Rattle.s4_types.specs.Pointer.{Place};
ghost use Rattle.codec.specs.Fields.{zeros};
ghost use Rattle.inode.specs.Contents.{contents_of, byte_in, byte_of, listed};
ghost use Rattle.inode.specs.Changed.{block_of};
ghost use Rattle.inode.specs.Tidiness.{PointersLead};

use block_log::{Block, Blocks};
use codec::Inode;
use s4_types::Ptr;
use s4_types::limits::BLOCK_BYTES;

/// A block of zeros, as a hole has them.
#[tactic(auto, unfolding(codec::specs::Fields::zeros))]
pub fn zero_block() -> Block
    ensures { result ≡ zeros 512 }
{
    [0; BLOCK_BYTES]
}

/// The bytes of the block that a slot refers to; zeros for a hole.
#[tactic(auto, using(crate::proofs::Bytes::bytes_of_slot, crate::proofs::Bytes::bytes_of_hole))]
fn slot_bytes<B: Blocks>(table: &mut B, slot: Option<Ptr>) -> Block
    requires { (p : Place) → slot ≡ Some p → IsSome ((B.log table.old).held p) }
    ensures bytes { result ≡ listed (byte_in (contents_of (B.log table.old).held) slot) 0 512 }
    ensures same { B.log table.new ≡ B.log table.old }
{
    match slot {
        None => zero_block(),
        Some(place) => table.get(place),
    }
}

/// The bytes of an inode's block of an index, below `OBJECT_BLOCKS`: zeros where there is none.
#[tactic(auto, using(crate::proofs::Bytes::bytes_of_block))]
pub(crate) fn load<B: Blocks>(table: &mut B, inode: &Inode, index: usize) -> Block
    requires index { index < OBJECT_BLOCKS }
    requires count { length inode.now.pointers ≡ OBJECT_BLOCKS }
    requires lead { PointersLead (B.log table.old).held inode.now }
    ensures bytes { result
        ≡ block_of (byte_of (contents_of (B.log table.old).held) inode.now) index }
    ensures same { B.log table.new ≡ B.log table.old }
{
    slot_bytes(table, inode.pointers[index])
}

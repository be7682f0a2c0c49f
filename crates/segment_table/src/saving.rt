//! The blocks of a frame as they are saved.
ghost use Rattle.std.specs.Prelude.{◌≡◌, ℕ, ◌+◌, ◌<◌, ◌≤◌, [], ◌∷◌, length, drop, slice_index_or};
ghost use Rattle.std.specs.List.{AllByRecursion};
ghost use Rattle.codec.specs.Summary.{UnusedAreBlank, SpellsSummary};
ghost use Rattle.segment_word.specs.Frames.{code_of};
ghost use Rattle.segment_word.specs.Layout.{frame_at, block_bytes};
ghost use Rattle.segment_table.specs.Sealing.{IsOwned, blocks_from, summary_of};

use crate::slots::Slots;
use block_log::Block;
use codec::{Summary, encode_summary};
use s4_types::limits::{BLOCK_BYTES, FRAME_BLOCKS, PAYLOAD_BLOCKS};
use segment_word::DriveSeat;

// The payload blocks that sealing a frame would leave, of which this many are used: those as they
// are, and zeros.
fn sealed_payload(seat: &mut DriveSeat, frame: usize, used: usize) -> [Block; PAYLOAD_BLOCKS]
    requires inside { frame < length seat.old.frames }
    requires used { used ≤ 15 }
    ensures used { (b : ℕ) → b < used
        → slice_index_or result b []
        ≡ block_bytes (frame_at seat.old.frames frame).contents (b + 1) }
    ensures unused { UnusedAreBlank used result }
    ensures same { seat.new ≡ seat.old }
{
    let mut blocks = [[0; BLOCK_BYTES]; PAYLOAD_BLOCKS];
    for i in 0..used {
        seat.load_into(frame, i + 1, &mut blocks[i]);
    }
    blocks
}

// These blocks: a summary, and the payload after it.
fn write_blocks(
    blocks: &mut [Block; FRAME_BLOCKS],
    summary: &Block,
    payload: &[Block; PAYLOAD_BLOCKS],
)
    ensures { blocks.new ≡ summary.now ∷ payload.now }
{
    blocks[0] = *summary;
    blocks[1..].copy_from_slice(payload);
}

/// The blocks that sealing a frame would leave, of which these are used.
pub fn save_sealed(
    seat: &mut DriveSeat,
    frame: u16,
    slots: &Slots,
    blocks: &mut [Block; FRAME_BLOCKS],
)
    requires inside { frame < length seat.old.frames }
    requires phase { 0 < code_of (frame_at seat.old.frames frame).phase }
    requires used { (1 ≤ length slots.now) × (length slots.now ≤ 15) }
    requires owned { AllByRecursion IsOwned slots.now }
    ensures spelled { SpellsSummary (drop 1 blocks.new) (slice_index_or blocks.new 0 [])
        (summary_of frame (frame_at seat.old.frames frame) slots.now) }
    ensures kept { (b : ℕ) → 1 ≤ b → b ≤ length slots.now
        → slice_index_or blocks.new b [] ≡ block_bytes (frame_at seat.old.frames frame).contents b }
    ensures same { seat.new ≡ seat.old }
{
    let number = frame as usize;
    let payload = sealed_payload(seat, number, slots.len());
    let generation = seat.generation(number);
    let summary = Summary::new(frame, generation, slots.roles()).unwrap();
    write_blocks(blocks, &encode_summary(&summary, &payload), &payload);
}

/// The blocks of a frame as they are.
pub fn save_all(seat: &mut DriveSeat, frame: usize, blocks: &mut [Block; FRAME_BLOCKS])
    requires { frame < length seat.old.frames }
    ensures blocks { blocks.new ≡ blocks_from (frame_at seat.old.frames frame).contents 0 16 }
    ensures same { seat.new ≡ seat.old }
{
    for i in 0..FRAME_BLOCKS {
        seat.load_into(frame, i, &mut blocks[i]);
    }
}

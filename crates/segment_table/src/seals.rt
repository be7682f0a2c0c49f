//! Sealing a frame.
ghost use Rattle.std.specs.Prelude.{◌≡◌, ◌+◌, ◌<◌, ◌≤◌, length};
ghost use Rattle.std.specs.List.{AllByRecursion};
ghost use Rattle.segment_word.specs.Frames.Phase.{Open};
ghost use Rattle.segment_word.specs.Layout.{frame_at};
ghost use Rattle.segment_table.specs.Sealing.{IsOwned, payload_of};
ghost use Rattle.segment_table.specs.Changes.{IsSealed, IsCleared};

use crate::slots::Slots;
use block_log::Block;
use codec::{Summary, encode_summary};
use s4_types::limits::{BLOCK_BYTES, FRAME_BLOCKS, PAYLOAD_BLOCKS};
use segment_word::DriveSeat;

// Zeros in the payload blocks after the first `used`.
fn clear_unused(seat: &mut DriveSeat, frame: usize, used: usize)
    requires inside { frame < length seat.old.frames }
    requires open { (frame_at seat.old.frames frame).phase ≡ Open }
    requires used { used ≤ 15 }
    ensures { IsCleared frame (used + 1) 16 seat.old seat.new }
{
    for block in used + 1..FRAME_BLOCKS {
        seat.store(frame, block, &[0; BLOCK_BYTES]);
    }
}

// These blocks become the payload blocks of a frame.
fn read_payload(seat: &mut DriveSeat, frame: usize, payload: &mut [Block; PAYLOAD_BLOCKS])
    requires { frame < length seat.old.frames }
    ensures payload { payload.new ≡ payload_of (frame_at seat.old.frames frame).contents }
    ensures same { seat.new ≡ seat.old }
{
    for i in 0..PAYLOAD_BLOCKS {
        seat.load_into(frame, i + 1, &mut payload[i]);
    }
}

/// Seals an open frame, of which these blocks are used. The others are zeros then, and block 0 is
/// the summary.
///
/// `payload` is room for the payload blocks: a local of that size would be cleared first.
pub fn seal(seat: &mut DriveSeat, frame: u16, slots: &Slots, payload: &mut [Block; PAYLOAD_BLOCKS])
    requires inside { frame < length seat.old.frames }
    requires open { (frame_at seat.old.frames frame).phase ≡ Open }
    requires used { (1 ≤ length slots.now) × (length slots.now ≤ 15) }
    requires owned { AllByRecursion IsOwned slots.now }
    ensures { IsSealed frame slots.now seat.old seat.new }
{
    let number = frame as usize;
    clear_unused(seat, number, slots.len());
    let generation = seat.generation(number);
    let summary = Summary::new(frame, generation, slots.roles()).unwrap();
    read_payload(seat, number, payload);
    seat.store(number, 0, &encode_summary(&summary, payload));
    seat.seal(number);
}

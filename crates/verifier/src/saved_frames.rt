//! The frames of a drive, or of a table alone, as an image has them.
ghost use Rattle.std.specs.Prelude.{◌≡◌, ℕ, ◌<◌, length, IfOk, IfErr};
ghost use Rattle.s4_types.specs.declared.refusals.Refusal.TheVariants.{NoMemory};
ghost use Rattle.verifier.specs.SavedFrame.{AddsFrame};
ghost use Rattle.verifier.specs.Saved.{AddsFrames};

use block_log::Block;
use image_parts::push_frame;
use s4_types::Refusal;
use s4_types::limits::{BLOCK_BYTES, FRAME_BLOCKS};
use segment_table::OverFrames;

/// States of a frame, in the two low bits of its word: 0 is free.
const STATES: u64 = 4;

/// Adds one of the frames: its word, and its blocks, which are none where it is free. The blocks
/// are written over. NoMemory alone, after which some of them may have been added.
fn push_saved<F: OverFrames>(
    frames: &mut F,
    frame: u16,
    blocks: &mut [Block; FRAME_BLOCKS],
    out: &mut Vec<u8>,
) -> Result<(), Refusal>
    requires { frame < length (F.table frames.old).seat.frames }
    ensures frame { IfOk result
        (λ _. AddsFrame (F.table frames.old) frame out.old.items out.new.items) }
    ensures refusal { IfErr result (λ e. e ≡ NoMemory) }
    ensures same { frames.new ≡ frames.old }
{
    frames.frame_rules();
    let word = frames.saved_word(frame);
    if word % STATES == 0 {
        return push_frame(out, word, &[]);
    }
    frames.save_blocks(frame, blocks);
    push_frame(out, word, blocks)
}

/// How many of the frames are saved with their blocks: those that aren't free.
pub(crate) fn frames_with_blocks<F: OverFrames>(frames: &mut F) -> u16
    ensures { frames.new ≡ frames.old }
{
    let mut count = 0;
    for frame in 0..frames.frame_count() {
        if frames.saved_word(frame) % STATES != 0 {
            count += 1;
        }
    }
    count
}

/// Adds the frames, as an image has them. NoMemory alone, after which some of them may have been
/// added.
pub fn push_frames<F: OverFrames>(frames: &mut F, out: &mut Vec<u8>) -> Result<(), Refusal>
    ensures frames { IfOk result
        (λ _. AddsFrames (F.table frames.old) out.old.items out.new.items) }
    ensures refusal { IfErr result (λ e. e ≡ NoMemory) }
    ensures same { frames.new ≡ frames.old }
{
    frames.frame_rules();
    let mut blocks = [[0; BLOCK_BYTES]; FRAME_BLOCKS];
    for frame in 0..frames.frame_count() {
        push_saved(frames, frame, &mut blocks, out)?;
    }
    Ok(())
}

//! Frame after frame is emptied and freed.
ghost use Rattle.std.specs.Prelude.{◌≡◌, ◌⊎◌, ℕ, ◌≤◌, false, MatchBool, IfOk, IfErr};
ghost use Rattle.s4_types.specs.declared.refusals.Refusal.TheVariants.{NoMemory, Busy};
ghost use Rattle.drive_compaction.specs.Choosing.{CanBeFreed, NoneCanBeFreed};
ghost use Rattle.drive_compaction.specs.Emptying.{KeepsAll, Frees, Sweeps, FindsReader};
ghost use Rattle.drive_compaction.specs.private.Sweeping.{IsNext};

use crate::choices::can_be_freed;
use crate::counts::Counts;
use crate::emptying::{Emptied, empty_frame};
use drive::{Drive, Session};
use history_cleaner::empty_frames;
use s4_types::Refusal;
use s4_types::limits::PAYLOAD_BLOCKS;
use segment_table::OverFrames;
use segment_word::Naming;
use std::alloc::Global;

/// What the freeing of frames came to.
#[derive(Clone, Copy)]
pub(crate) struct Swept {
    /// How many frames were emptied.
    pub(crate) frames: u64,
    /// How many moves were made, also out of a frame that couldn't be emptied.
    pub(crate) moves: u64,
    /// Whether it ended since a move found too little room.
    pub(crate) ran_out: bool,
}

/// A frame is emptied, and then each frame that holds nothing is freed, also where the emptying
/// stopped.
///
/// InUse where a frame that is being emptied has a reader.
fn free_frame<J: Naming>(
    alloc: Global,
    drive: &mut Drive<J>,
    session: &mut Session<J>,
    counts: &Counts,
    frame: u16,
) -> Result<Emptied, Refusal>
    requires { CanBeFreed counts.now.counted.values drive.old frame }
    ensures frees { IfOk result (λ done. Frees drive.old frame done.moves done.stopped drive.new) }
    ensures few { IfOk result (λ done. done.moves ≤ 15) }
    ensures refusal { IfErr result (FindsReader drive.old drive.new) }
    ensures keeps { KeepsAll drive.old drive.new }
{
    let _ = counts;
    let Some(generation) = drive.generation(frame) else {
        unreachable!()
    };
    let done = empty_frame(alloc, drive, session, frame, generation);
    empty_frames(drive)?;
    Ok(done)
}

/// Whether a frame has this number of held blocks, and can be freed at a gain.
fn is_next<J: Naming>(drive: &mut Drive<J>, counts: &Counts, held: usize, frame: u16) -> bool
    ensures next { MatchBool result (IsNext counts.now.counted.values held drive.old frame)
        (IsNext counts.now.counted.values held drive.old frame → ⊥) }
    ensures same { drive.new ≡ drive.old }
{
    if drive.held_count(frame) as usize != held {
        return false;
    }
    can_be_freed(drive, counts, frame)
}

/// Of the frames with this number of held blocks each is emptied and freed that can be at a gain,
/// the lowest first. It ends where a move finds too little room.
///
/// NoMemory where the memory for a move is refused, Busy where no pin is to be had, InUse where a
/// frame that is being emptied has a reader. What was moved stays moved.
fn sweep_alike<J: Naming>(
    alloc: Global,
    drive: &mut Drive<J>,
    session: &mut Session<J>,
    counts: &Counts,
    held: usize,
) -> Result<Swept, Refusal>
    ensures sweeps { IfOk result (λ swept. Sweeps counts.now.counted.values drive.old swept.frames
        swept.moves swept.ran_out drive.new) }
    ensures none { IfOk result (λ swept. swept.frames ≡ 0 → swept.ran_out ≡ false → (f : ℕ) →
        IsNext counts.now.counted.values held drive.old f → ⊥) }
    ensures few { IfOk result (λ swept. swept.frames ≤ 65535) }
    ensures few_moves { IfOk result (λ swept. swept.moves ≤ 1000000) }
    ensures refusal { IfErr result (λ e. (e ≡ NoMemory) ⊎
        ((e ≡ Busy) ⊎ FindsReader drive.old drive.new e)) }
    ensures keeps { KeepsAll drive.old drive.new }
{
    let (mut frames, mut moves) = (0, 0);
    for frame in 0..drive.frame_count() {
        if !is_next(drive, counts, held, frame) {
            continue;
        }
        let done = free_frame(alloc, drive, session, counts, frame)?;
        moves += done.moves as u64;
        match done.stopped {
            None => frames += 1,
            Some(Refusal::NoRoom) => {
                return Ok(Swept {
                    frames,
                    moves,
                    ran_out: true,
                });
            }
            Some(refusal) => return Err(refusal),
        }
    }
    Ok(Swept {
        frames,
        moves,
        ran_out: false,
    })
}

/// Each frame is emptied and freed that can be at a gain, those with the fewest held blocks first.
/// It ends where a move finds too little room. Where no frame was freed, none can be.
///
/// NoMemory where the memory for a move is refused, Busy where no pin is to be had, InUse where a
/// frame that is being emptied has a reader. What was moved stays moved.
pub(crate) fn sweep<J: Naming>(
    alloc: Global,
    drive: &mut Drive<J>,
    session: &mut Session<J>,
    counts: &Counts,
) -> Result<Swept, Refusal>
    ensures sweeps { IfOk result (λ swept. Sweeps counts.now.counted.values drive.old swept.frames
        swept.moves swept.ran_out drive.new) }
    ensures none { IfOk result (λ swept. swept.frames ≡ 0 → swept.ran_out ≡ false → NoneCanBeFreed
        counts.now.counted.values drive.new) }
    ensures few { IfOk result (λ swept. swept.frames ≤ 1000000) }
    ensures few_moves { IfOk result (λ swept. swept.moves ≤ 100000000) }
    ensures refusal { IfErr result (λ e. (e ≡ NoMemory) ⊎
        ((e ≡ Busy) ⊎ FindsReader drive.old drive.new e)) }
    ensures keeps { KeepsAll drive.old drive.new }
{
    let (mut frames, mut moves) = (0, 0);
    for index in 0..PAYLOAD_BLOCKS {
        let swept = sweep_alike(alloc, drive, session, counts, index + 1)?;
        frames += swept.frames;
        moves += swept.moves;
        if swept.ran_out {
            return Ok(Swept {
                frames,
                moves,
                ran_out: true,
            });
        }
    }
    Ok(Swept {
        frames,
        moves,
        ran_out: false,
    })
}

//! The words of a drive's frames before any seat knows them.
ghost use Rattle.std.specs.Prelude.{◌≡◌, ◌≢◌, ℕ, ◌+◌, ◌*◌, ◌^◌, ◌<◌, ◌≤◌, length, replicate};
ghost use Rattle.std.specs.Prelude.{slice_index, slice_set, IfOk, IfErr};
ghost use Rattle.s4_types.specs.Sizes.{IsFrameCount};
ghost use Rattle.s4_types.specs.declared.refusals.Refusal.TheVariants.{NoMemory};
ghost use Rattle.segment_word.specs.Frames.{code_of};
ghost use Rattle.segment_word.specs.FrameStates.{phase_in};
ghost use Rattle.segment_word.specs.Layout.{phase_of, frame_at, block_bytes, with_block};
ghost use Rattle.segment_word.specs.Handles.{fresh_frame};

use crate::blocks::{bytes_of, words_of};
use crate::layout::{
    BLOCK_WORDS, EMPTIED, FIRST_STATE, FRAME_WORDS, FREE, GENERATION_SHIFT, ONE_READER, OPEN,
    SEALED,
};
use s4_types::Refusal;
use std::alloc::{AllocError, Global};
use std::marker::Model;

/// What a frame is for: as the two low bits of its state word tell it.
#[derive(Clone, Copy, PartialEq, Eq)]
pub enum FrameState {
    /// It may be opened, at its generation.
    Free,
    /// Blocks are stored in it.
    Open,
    /// It is full, and may be read.
    Sealed,
    /// It is being emptied: its blocks stay until nobody reads it.
    Draining,
}

impl FrameState {
    // The two low bits of a state word.
    fn code(self) -> u64
        ensures { result ≡ code_of (phase_in self) }
    {
        match self {
            FrameState::Free => FREE,
            FrameState::Open => OPEN,
            FrameState::Sealed => SEALED,
            FrameState::Draining => EMPTIED,
        }
    }

    // The state that the two low bits of a state word tell.
    fn of_code(code: u64) -> Self
        ensures { phase_in result ≡ phase_of code }
    {
        match code {
            FREE => FrameState::Free,
            OPEN => FrameState::Open,
            SEALED => FrameState::Sealed,
            _ => FrameState::Draining,
        }
    }
}

/// The words of a drive's frames before any seat knows them: a table of frames is made of them.
/// Contracts see the frames.
#[derive(Drop)]
pub struct FrameWords {
    pub(crate) words: Vec<u64>,
}

impl Model for FrameWords {
    ghost use Rattle.std.specs.Prelude.{List};
    ghost use Rattle.segment_word.specs.Frames.{Frame};
    ghost use Rattle.segment_word.specs.Layout.{frames_of};
    ghost use Rattle.segment_word.specs.private.UnreadWords.{AreFrameWords};

    ghost Value = { List Frame };

    ghost view = { λ w. frames_of w.words.items };

    ghost invariant = { λ w. AreFrameWords w.words.items };
}

// The words of free frames at generation 1.
fn blank_words(alloc: Global, count: usize) -> Result<Vec<u64>, AllocError>
    requires { count ≤ 1024 }
    ensures count { IfOk result (λ words. length words.items ≡ 1025 * count) }
    ensures state { IfOk result
        (λ words. (f : ℕ) → f < count → slice_index words.items (1025 * f) ≡ 2 ^ 32) }
    ensures zeros { IfOk result
        (λ words. (f j : ℕ) → j < 1024 → slice_index words.items (1025 * f + 1 + j) ≡ 0) }
{
    let mut words = vec![in alloc; 0u64; FRAME_WORDS * count]?;
    for i in 0..count {
        words[FRAME_WORDS * i] = FIRST_STATE;
    }
    Ok(words)
}

impl FrameWords {
    /// Frames that are all free at generation 1 and full of zeros. NoMemory alone.
    pub fn new(alloc: Global, count: usize) -> Result<Self, Refusal>
        requires { IsFrameCount count }
        ensures frames { IfOk result (λ w. w ≡ replicate count fresh_frame) }
        ensures refusal { IfErr result (λ e. e ≡ NoMemory) }
    {
        let words = blank_words(alloc, count)?;
        Ok(FrameWords { words })
    }

    /// How many frames there are.
    pub fn len(&self) -> usize
        ensures count { result ≡ length self.now }
        ensures limits { IsFrameCount result }
    {
        self.words.len() / FRAME_WORDS
    }

    /// What a frame is for.
    pub fn state(&self, frame: usize) -> FrameState
        requires { frame < length self.now }
        ensures { phase_in result ≡ (frame_at self.now frame).phase }
    {
        FrameState::of_code(self.words[FRAME_WORDS * frame] % ONE_READER)
    }

    /// The generation of a frame.
    pub fn generation(&self, frame: usize) -> u32
        requires { frame < length self.now }
        ensures { result ≡ (frame_at self.now frame).generation }
    {
        (self.words[FRAME_WORDS * frame] >> GENERATION_SHIFT) as u32
    }

    /// A frame gets its state and its generation; its blocks stay.
    pub fn set_state(&mut self, frame: usize, state: FrameState, generation: u32)
        requires inside { frame < length self.old }
        requires started { 1 ≤ generation }
        requires goes_on { 0 < code_of (phase_in state) → generation + 1 < 2 ^ 32 }
        ensures { self.new ≡ slice_set self.old frame (record (frame_at self.old frame) { phase = phase_in state; generation = generation }) }
    {
        let word = state.code() + (u64::from(generation) << GENERATION_SHIFT);
        self.words[FRAME_WORDS * frame] = word;
    }

    /// 512 bytes become block `block`, from 0 to 15, of a frame.
    pub fn store(&mut self, frame: usize, block: usize, bytes: &[u8; 512])
        requires inside { (frame < length self.old) × (block < 16) }
        ensures changed { self.new
            ≡ slice_set self.old frame (with_block (frame_at self.old frame) block bytes.now) }
        ensures stored { block_bytes (frame_at self.new frame).contents block ≡ bytes.now }
        ensures others { (b : ℕ) → b < 16 → b ≢ block
            → block_bytes (frame_at self.new frame).contents b
            ≡ block_bytes (frame_at self.old frame).contents b }
    {
        let values = words_of(bytes);
        let words = self.words.as_mut_slice();
        let first = FRAME_WORDS * frame + 1 + BLOCK_WORDS * block;
        words[first..first + BLOCK_WORDS].copy_from_slice(&values);
    }

    /// The 512 bytes of block `block`, from 0 to 15, of a frame.
    pub fn load(&self, frame: usize, block: usize) -> [u8; 512]
        requires { (frame < length self.now) × (block < 16) }
        ensures bytes { result ≡ block_bytes (frame_at self.now frame).contents block }
    {
        let words = self.words.as_slice();
        let first = FRAME_WORDS * frame + 1 + BLOCK_WORDS * block;
        let mut found = [0; 64];
        found.copy_from_slice(&words[first..first + BLOCK_WORDS]);
        bytes_of(&found)
    }
}

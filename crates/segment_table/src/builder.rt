//! The frames of a saved drive, before a table is made of them.
ghost use Rattle.std.specs.Prelude.{◌≡◌, ◌≢◌, ℕ, ◌+◌, ◌^◌, ◌<◌, ◌≤◌, ◌⊎◌, ◌&&◌, ◌==◌};
ghost use Rattle.std.specs.Prelude.{if◌then◌else◌, [], length, map, reverse, replicate, drop};
ghost use Rattle.std.specs.Prelude.{slice_set, slice_index_or, vec_capacity, Some, None, IsSome};
ghost use Rattle.std.specs.Prelude.{IfOk, IfErr};
ghost use Rattle.s4_types.specs.Sizes.{IsFrameCount};
ghost use Rattle.s4_types.specs.Pointer.{Place};
ghost use Rattle.s4_types.specs.declared.refusals.Refusal.TheVariants.{NoMemory, Busy};
ghost use Rattle.block_log.specs.Log.{Stored, same_place, is_data, NamesAreOfData};
ghost use Rattle.codec.specs.Summary.{SpellsSummary};
ghost use Rattle.segment_word.specs.Frames.{is_open};
ghost use Rattle.segment_word.specs.Frames.Phase.{Free, Open};
ghost use Rattle.segment_word.specs.FrameStates.{phase_in};
ghost use Rattle.segment_word.specs.Layout.{frame_at, block_bytes, with_block};
ghost use Rattle.segment_word.specs.Handles.{fresh_frame};
ghost use Rattle.segment_word.specs.AcceptHandles.{no_table};
ghost use Rattle.segment_table.specs.Slots.{capped, unheld};
ghost use Rattle.segment_table.specs.Table.{slots_at, held_at, named_at, role_of};
ghost use Rattle.segment_table.specs.Used.{is_named, used_at, HasWholeBlocks};
ghost use Rattle.segment_table.specs.Room.{is_filling, can_open, numbers, log_of};
ghost use Rattle.segment_table.specs.Sealing.{IsPartFilled};
ghost use Rattle.segment_table.specs.Rules.{HasFramesInOrder};
ghost use Rattle.segment_table.specs.private.Storing.{AreStored};

use crate::segments::Segments;
use crate::slots::{Slots, no_slots};
use block_log::Block;
use codec::laws::a_summary_has_one_encoding;
use codec::{BlockRole, Summary};
use s4_types::limits::{BLOCK_BYTES, FRAME_BLOCKS, PAYLOAD_BLOCKS};
use s4_types::{Ptr, Refusal};
use segment_word::{FrameState, FrameWords, Frames};
use std::alloc::Global;
use std::marker::Model;

/// A used block: what it is for, and its bytes.
#[derive(Drop)]
pub struct UsedBlock {
    role: BlockRole,
    bytes: Block,
}

impl Model for UsedBlock {
    ghost use Rattle.block_log.specs.Log.{Stored};

    ghost Value = { Stored };

    ghost view = { λ u. record { kind = u.role.kind; object = u.role.object; bytes = u.bytes } };
}

impl UsedBlock {
    /// What the block is for, and whose it is.
    pub fn role(&self) -> BlockRole
        ensures { result ≡ role_of self.now }
    {
        self.role
    }

    pub fn bytes(&self) -> &Block
        ensures { result.now ≡ self.now.bytes }
    {
        &self.bytes
    }
}

/// The frames of a saved drive with what their blocks are for, before a table is made of them.
/// Contracts see it as a table that has no name.
pub struct TableBuilder {
    words: FrameWords,
    slots: Vec<Slots>,
    // the number of the open frame
    current: Option<u16>,
}

// Written by hand, so that an owner lets it go by one call.
impl Drop for TableBuilder {
    fn drop(self) {
        let TableBuilder {
            words: _,
            slots: _,
            current: _,
        } = self;
    }
}

impl Model for TableBuilder {
    ghost use Rattle.segment_table.specs.Table.{Table};
    ghost use Rattle.segment_table.specs.Building.{unnamed, IsSoundToBuild};

    ghost Value = { Table };

    ghost view = { λ p. unnamed p.words p.slots.items };

    ghost invariant = { λ p. IsSoundToBuild (unnamed p.words p.slots.items) p.current };
}

// Stores a block of a frame, which has 512 bytes.
fn store_one(words: &mut FrameWords, frame: usize, number: usize, block: &Block)
    requires { (frame < length words.old) × (number < 16) }
    ensures changed { words.new
        ≡ slice_set words.old frame (with_block (frame_at words.old frame) number block.now) }
    ensures stored { block_bytes (frame_at words.new frame).contents number ≡ block.now }
    ensures others { (b : ℕ) → b < 16 → b ≢ number
        → block_bytes (frame_at words.new frame).contents b
        ≡ block_bytes (frame_at words.old frame).contents b }
    ensures whole { length block.now ≡ 512 }
{
    words.store(frame, number, block);
}

// Stores all blocks of a frame.
fn store_all(words: &mut FrameWords, frame: usize, blocks: &[Block; FRAME_BLOCKS])
    requires { frame < length words.old }
    ensures { AreStored frame 16 blocks.now words.old words.new }
{
    for i in 0..FRAME_BLOCKS {
        store_one(words, frame, i, &blocks[i]);
    }
}

// The number of the open frame after a frame got a state.
fn open_after(current: Option<u16>, frame: u16, state: FrameState) -> Option<u16>
    ensures { result ≡ (if is_open (phase_in state) then Some frame else current) }
{
    match state {
        FrameState::Open => Some(frame),
        FrameState::Free | FrameState::Sealed | FrameState::Draining => current,
    }
}

impl TableBuilder {
    /// The frames of a drive, all free at generation 1. NoMemory alone.
    pub fn new(alloc: Global, frames: usize) -> Result<Self, Refusal>
        requires { IsFrameCount frames }
        ensures frames { IfOk result (λ p. p.seat.frames ≡ replicate frames fresh_frame) }
        ensures slots { IfOk result (λ p. p.slots ≡ replicate frames []) }
        ensures nothing { IfOk result (λ p. (q : Place) → held_at p q ≡ None) }
        ensures refusal { IfErr result (λ e. e ≡ NoMemory) }
    {
        let words = FrameWords::new(alloc, frames)?;
        let slots = no_slots(alloc, frames as u16)?;
        Ok(TableBuilder {
            words,
            slots,
            current: None,
        })
    }

    /// Shows what holds: the frames are in order, under no name yet; each used block has 512 bytes;
    /// and the held data blocks have names, and nothing else has.
    pub fn rules(&self)
        ensures frames { HasFramesInOrder no_table self.now }
        ensures used_whole { HasWholeBlocks self.now }
        ensures names { NamesAreOfData (log_of self.now) }
    {
        let _ = &self.current;
    }

    /// How many frames there are.
    pub fn frame_count(&self) -> u16
        ensures { result ≡ length self.now.seat.frames }
    {
        self.slots.len() as u16
    }

    /// A free frame gets its generation. One at 2^32 - 1 is retired.
    pub fn set_free(&mut self, frame: u16, generation: u32)
        requires inside { frame < length self.old.seat.frames }
        requires free { (frame_at self.old.seat.frames frame).phase ≡ Free }
        requires started { 1 ≤ generation }
        ensures frames { self.new.seat.frames ≡ slice_set self.old.seat.frames frame (record (frame_at self.old.seat.frames frame) { generation = generation }) }
        ensures slots { self.new.slots ≡ self.old.slots }
        ensures held { (q : Place) → held_at self.new q ≡ held_at self.old q }
    {
        self.words
            .set_state(frame as usize, FrameState::Free, generation);
    }

    /// A free frame gets a state in which it is used, the generation that its summary tells, and
    /// its 16 blocks, of which the first is the summary. None of its used blocks is held yet.
    pub fn set_used(
        &mut self,
        frame: u16,
        state: FrameState,
        summary: &Summary,
        blocks: &[Block; FRAME_BLOCKS],
    )
        requires inside { frame < length self.old.seat.frames }
        requires free { (frame_at self.old.seat.frames frame).phase ≡ Free }
        requires state { phase_in state ≢ Free }
        requires number { summary.now.frame ≡ frame }
        requires spelled { SpellsSummary (drop 1 blocks.now) (slice_index_or blocks.now 0 [])
            summary.now }
        requires room { phase_in state ≡ Open → length summary.now.roles ≤ 14 }
        requires one_open { phase_in state ≡ Open → numbers is_filling 0 self.old.seat.frames ≡ [] }
        ensures alone { self.new.seat.frames
            ≡ slice_set self.old.seat.frames frame (frame_at self.new.seat.frames frame) }
        ensures state { (frame_at self.new.seat.frames frame).phase ≡ phase_in state }
        ensures generation { (frame_at self.new.seat.frames frame).generation
            ≡ summary.now.generation }
        ensures blocks { (b : ℕ) → b < 16
            → block_bytes (frame_at self.new.seat.frames frame).contents b
            ≡ slice_index_or blocks.now b [] }
        ensures slots { self.new.slots ≡ slice_set self.old.slots frame (unheld summary.now.roles) }
        ensures held { (q : Place) → held_at self.new q ≡ held_at self.old q }
    {
        a_summary_has_one_encoding();
        let number = frame as usize;
        store_all(&mut self.words, number, blocks);
        self.words.set_state(number, state, summary.generation());
        self.slots[number] = Slots::unheld(summary.roles());
        self.current = open_after(self.current, frame, state);
    }

    // Whether a pointer may name blocks of its frame: the frame is open or sealed, at the pointer's
    // generation.
    fn names(&self, place: Ptr) -> bool
        requires { place.frame < length self.now.seat.frames }
        ensures { result
            ≡ (is_named (frame_at self.now.seat.frames place.frame)
            && (frame_at self.now.seat.frames place.frame).generation == place.generation) }
    {
        let number = place.frame() as usize;
        match self.words.state(number) {
            FrameState::Open | FrameState::Sealed => {
                self.words.generation(number) == place.generation()
            }
            FrameState::Free | FrameState::Draining => false,
        }
    }

    /// The used block that a pointer names, held or not. None where it names none: the frame isn't
    /// there, isn't open or sealed, or is at another generation, or the block isn't used.
    pub fn used(&self, place: Ptr) -> Option<UsedBlock>
        ensures { result ≡ used_at self.now place }
    {
        let number = place.frame() as usize;
        if number >= self.slots.len() || !self.names(place) {
            return None;
        }
        let block = place.block() as usize;
        let role = self.slots[number].used(block)?;
        let bytes = self.words.load(number, block);
        Some(UsedBlock { role, bytes })
    }

    /// A used block is held from now on; one of data is named by one place more, up to 2^32 - 1.
    pub fn hold(&mut self, place: Ptr)
        requires { IsSome (used_at self.old place) }
        ensures held { (q : Place)
            → held_at self.new q
            ≡ (if same_place place q then used_at self.old place else held_at self.old q) }
        ensures named { (q : Place)
            → named_at self.new q
            ≡ (if same_place place q
            then
            (if is_data (used_at self.old place)
            then capped (1 + named_at self.old place) else 0)
            else named_at self.old q) }
        ensures used { (q : Place) → used_at self.new q ≡ used_at self.old q }
        ensures frames { self.new.seat.frames ≡ self.old.seat.frames }
        ensures roles { (f : ℕ)
            → map (λ slot. slot.role) (slots_at self.new.slots f)
            ≡ map (λ slot. slot.role) (slots_at self.old.slots f) }
    {
        self.slots[place.frame() as usize].hold(place.block() as usize);
    }

    // Whether a frame is free and not retired.
    fn can_open(&self, frame: u16) -> bool
        requires { frame < length self.now.seat.frames }
        ensures { result ≡ can_open (frame_at self.now.seat.frames frame) }
    {
        let number = frame as usize;
        match self.words.state(number) {
            FrameState::Free => self.words.generation(number) < u32::MAX,
            FrameState::Open | FrameState::Sealed | FrameState::Draining => false,
        }
    }

    // The numbers of the frames that can be opened, the lowest last, with room for all.
    fn vacant(&self, alloc: Global) -> Result<Vec<u16>, Refusal>
        ensures numbers { IfOk result
            (λ free. free.items ≡ reverse (numbers can_open 0 self.now.seat.frames)) }
        ensures room { IfOk result (λ free. length self.now.seat.frames ≤ vec_capacity free) }
        ensures refusal { IfErr result (λ e. e ≡ NoMemory) }
    {
        let count = self.frame_count();
        let mut free = Vec::with_capacity(alloc, count as usize)?;
        for i in 0..count {
            let number = count - 1 - i;
            if self.can_open(number) {
                free.push(number)?;
            }
        }
        Ok(free)
    }

    /// The frames of these parts, shared, and what their blocks are for.
    ///
    /// NoMemory where memory was refused, Busy where the count of those that share it was full.
    pub(crate) fn shared(self, alloc: Global) -> Result<(Frames, Segments), Refusal>
        ensures frames { IfOk result (λ r. r.1.seat.frames ≡ self.seat.frames) }
        ensures slots { IfOk result (λ r. r.1.slots ≡ self.slots) }
        ensures table { IfOk result (λ r. r.0 ≡ r.1.seat.table) }
        ensures part_filled { IfOk result (λ r. IsPartFilled r.1) }
        ensures refusal { IfErr result (λ e. (e ≡ NoMemory) ⊎ (e ≡ Busy)) }
    {
        let free = self.vacant(alloc)?;
        let payload = Box::new(alloc, [[0; BLOCK_BYTES]; PAYLOAD_BLOCKS])?;
        let TableBuilder {
            words,
            slots,
            current,
        } = self;
        let (frames, seat) = Frames::from_words(alloc, words)?;
        let segments = Segments::of_parts(seat, slots, free, current, payload);
        Ok((frames, segments))
    }
}

//! The drive's seat.
ghost use Rattle.std.specs.Prelude.{◌≡◌, ◌≢◌, ℕ, ◌+◌, ◌-◌, ◌*◌, ◌^◌, ◌<◌, ◌≤◌, ◌++◌, length, take};
ghost use Rattle.std.specs.Prelude.{drop, OnOk, OnErr, IfErr};
ghost use Rattle.s4_types.specs.declared.refusals.Refusal.TheVariants.{InUse, NoMemory};
ghost use Rattle.segment_word.specs.Frames.{Frame, code_of, is_sealed, is_draining};
ghost use Rattle.segment_word.specs.Frames.Phase.{Free, Open, Sealed, Draining};
ghost use Rattle.segment_word.specs.Layout.{word_of, frame_at, block_bytes, with_block};
ghost use Rattle.segment_word.specs.FrameRule.{AllRemembered};
ghost use Rattle.segment_word.specs.Steps.{raised, IsStateOf};
ghost use Rattle.segment_word.specs.Handles.{with_changed, with_released, HasMissed};

use crate::blocks::{load_block, load_bytes, load_into, store_block};
use crate::board::Board;
use crate::layout::{EMPTIED, FRAME_WORDS, GENERATION_SHIFT, ONE_READER, SEALED};
use crate::lending::recall;
use crate::memories::Memory;
use crate::steps::{Place, free, look, raise};
use s4_types::Refusal;
use std::alloc::Global;
use std::marker::Model;
use std::sync::Arc;

/// The drive's seat at the table, which knows every frame. There is one, and only it changes
/// frames.
#[derive(Drop)]
pub struct DriveSeat {
    pub(crate) board: Arc<Board, Global>,
    pub(crate) seat: Place,
}

impl Model for DriveSeat {
    ghost use Rattle.std.specs.Prelude.{◌≡◌};
    ghost use Rattle.std.specs.Arc.{arc_value};
    ghost use Rattle.segment_word.specs.Handles.{Drive, IsDriveSeat};

    ghost Value = { Drive };

    ghost view = { λ d. record { table = d.seat.table_id; frames = d.seat.me.0.frames; releases = d.seat.me.0.releases } };

    ghost invariant = { λ d. (d.seat.table_id ≡ (arc_value d.board).table.shared.table_id) × IsDriveSeat d.seat };
}

/// A frame of the drive, by its number. It borrows the drive's seat.
pub struct FrameToken<'a> {
    pub(crate) drive: &'a mut DriveSeat,
    pub(crate) number: usize,
}

impl DriveSeat {
    /// A free frame is opened, at its generation. The last generation, 2^32 - 1, is never opened.
    pub fn open(&mut self, frame: usize)
        requires inside { frame < length self.old.frames }
        requires free { (frame_at self.old.frames frame).phase ≡ Free }
        requires goes_on { (frame_at self.old.frames frame).generation + 1 < 2 ^ 32 }
        ensures { self.new ≡ with_changed self.old frame (record (frame_at self.old.frames frame) { phase = Open }) }
    {
        raise(&self.board.table.shared, &mut self.seat, frame);
    }

    /// An open frame is sealed.
    pub fn seal(&mut self, frame: usize)
        requires inside { frame < length self.old.frames }
        requires open { (frame_at self.old.frames frame).phase ≡ Open }
        ensures { self.new ≡ with_changed self.old frame (record (frame_at self.old.frames frame) { phase = Sealed }) }
    {
        raise(&self.board.table.shared, &mut self.seat, frame);
    }

    /// A sealed frame is being emptied from now on. Its readers, its generation and its contents
    /// stay.
    pub fn mark(&mut self, frame: usize)
        requires inside { frame < length self.old.frames }
        requires sealed { (frame_at self.old.frames frame).phase ≡ Sealed }
        ensures { self.new ≡ with_changed self.old frame (record (frame_at self.old.frames frame) { phase = Draining }) }
    {
        let words = &self.board.table.shared;
        raise(words, &mut self.seat, frame);
    }

    /// A frame that is being emptied and has no reader is free at its next generation. The last
    /// one, 2^32 - 1, retires it.
    ///
    /// InUse where the frame isn't being emptied, and nothing has changed then; or where its word
    /// counted a reader at the one exchange that was tried: no frame has changed then, and the try
    /// is noted with the word that it found.
    pub fn release(&mut self, frame: usize) -> Result<(), Refusal>
        requires { frame < length self.old.frames }
        ensures freed { OnOk result
            (((frame_at self.old.frames frame).phase ≡ Draining)
            × (self.new ≡ with_released self.old frame)) }
        ensures goes_on { OnOk result ((frame_at self.old.frames frame).generation + 1 < 2 ^ 32) }
        ensures missed { OnErr result
            ((frame_at self.old.frames frame).phase ≡ Draining
            → HasMissed frame self.old self.new) }
        ensures idle { OnErr result
            ((frame_at self.old.frames frame).phase ≢ Draining → self.new ≡ self.old) }
        ensures refused { OnErr result
            ((self.new.table ≡ self.old.table) × (self.new.frames ≡ self.old.frames)) }
        ensures refusal { IfErr result (λ e. e ≡ InUse) }
    {
        let seen = self.state(frame);
        if seen % ONE_READER != EMPTIED {
            return Err(Refusal::InUse);
        }
        let unread = seen - seen % (1 << GENERATION_SHIFT) + EMPTIED;
        let words = &self.board.table.shared;
        if free(words, &mut self.seat, frame, unread) == unread {
            Ok(())
        } else {
            Err(Refusal::InUse)
        }
    }

    /// 512 bytes become block `block`, from 0 to 15, of an open frame.
    pub fn store(&mut self, frame: usize, block: usize, bytes: &[u8; 512])
        requires inside { (frame < length self.old.frames) × (block < 16) }
        requires open { (frame_at self.old.frames frame).phase ≡ Open }
        ensures changed { self.new
            ≡ with_changed self.old frame
            (with_block (frame_at self.old.frames frame) block bytes.now) }
        ensures stored { block_bytes (frame_at self.new.frames frame).contents block ≡ bytes.now }
        ensures others { (b : ℕ) → b < 16 → b ≢ block
            → block_bytes (frame_at self.new.frames frame).contents b
            ≡ block_bytes (frame_at self.old.frames frame).contents b }
    {
        let words = &self.board.table.shared;
        store_block(words, &mut self.seat, frame, block, bytes);
    }

    /// The 512 bytes of block `block`, from 0 to 15, of any frame.
    pub fn load(&mut self, frame: usize, block: usize) -> [u8; 512]
        requires { (frame < length self.old.frames) × (block < 16) }
        ensures bytes { result ≡ block_bytes (frame_at self.old.frames frame).contents block }
        ensures same { self.new ≡ self.old }
    {
        load_block(&self.board.table.shared, &mut self.seat, frame, block)
    }

    /// The 512 bytes of block `block`, from 0 to 15, of any frame become these.
    pub fn load_into(&mut self, frame: usize, block: usize, bytes: &mut [u8; 512])
        requires { (frame < length self.old.frames) × (block < 16) }
        ensures bytes { bytes.new ≡ block_bytes (frame_at self.old.frames frame).contents block }
        ensures same { self.new ≡ self.old }
    {
        let words = &self.board.table.shared;
        load_into(words, &mut self.seat, frame, block, bytes);
    }

    /// Adds the bytes `from..to` of the 512 of block `block`, from 0 to 15, of any frame, as
    /// [`crate::Pin::append_bytes`] does.
    ///
    /// NoMemory alone, where `into` has no room and more is refused; it may have some of the bytes
    /// then. Where it has room, nothing is asked for.
    pub fn append_bytes(
        &mut self,
        frame: usize,
        block: usize,
        from: usize,
        to: usize,
        into: &mut Vec<u8>,
    ) -> Result<(), Refusal>
        requires inside { (frame < length self.old.frames) × (block < 16) }
        requires range { (from ≤ to) × (to ≤ 512) }
        ensures bytes { OnOk result
            (into.new.items
            ≡ into.old.items
            ++ take (to - from)
            (drop from (block_bytes (frame_at self.old.frames frame).contents block))) }
        ensures added { OnOk result (length into.new.items ≡ length into.old.items + (to - from)) }
        ensures refusal { IfErr result (λ e. e ≡ NoMemory) }
        ensures same { self.new ≡ self.old }
    {
        load_bytes(
            &self.board.table.shared,
            &mut self.seat,
            frame,
            block,
            from,
            to,
            into,
        )
    }

    /// The state word of a frame.
    pub fn state(&mut self, frame: usize) -> u64
        requires { frame < length self.old.frames }
        ensures word { IsStateOf (frame_at self.old.frames frame) result }
        ensures same { self.new ≡ self.old }
    {
        let words = &self.board.table.shared;
        look(words, &mut self.seat, FRAME_WORDS * frame)
    }

    /// The state word of a frame as it is saved: it counts no reader.
    pub fn saved_state(&mut self, frame: usize) -> u64
        requires { frame < length self.old.frames }
        ensures word { result ≡ word_of (frame_at self.old.frames frame) 0 }
        ensures same { self.new ≡ self.old }
    {
        let state = self.state(frame);
        state - state % (1 << GENERATION_SHIFT) + state % ONE_READER
    }

    /// The generation of a frame. Only a free frame can have the last one, 2^32 - 1.
    pub fn generation(&mut self, frame: usize) -> u32
        requires { frame < length self.old.frames }
        ensures generation { result ≡ (frame_at self.old.frames frame).generation }
        ensures least { 1 ≤ result }
        ensures most { 0 < code_of (frame_at self.old.frames frame).phase → result + 1 < 2 ^ 32 }
        ensures same { self.new ≡ self.old }
    {
        (self.state(frame) >> GENERATION_SHIFT) as u32
    }

    /// Whether a frame is sealed.
    pub fn is_sealed(&mut self, frame: usize) -> bool
        requires { frame < length self.old.frames }
        ensures sealed { result ≡ is_sealed (frame_at self.old.frames frame).phase }
        ensures same { self.new ≡ self.old }
    {
        self.state(frame) % ONE_READER == SEALED
    }

    /// Whether a frame is being emptied.
    pub fn is_draining(&mut self, frame: usize) -> bool
        requires { frame < length self.old.frames }
        ensures draining { result ≡ is_draining (frame_at self.old.frames frame).phase }
        ensures same { self.new ≡ self.old }
    {
        self.state(frame) % ONE_READER == EMPTIED
    }

    /// Shows what is true of what is remembered: each of the frames has come to the generation that
    /// it had, and while it is at that one, it is sealed or being emptied with the contents that it
    /// had.
    pub fn recall(&mut self, memory: &mut Memory)
        requires { memory.old.table ≡ self.old.table }
        ensures remembered { AllRemembered self.old.frames memory.old.remembered }
        ensures same { (self.new ≡ self.old) × (memory.new ≡ memory.old) }
    {
        let words = &self.board.table.shared;
        recall(words, &mut self.seat, &mut memory.seat);
    }

    /// Names a frame, so that it can be pinned.
    pub fn frame(&mut self, number: usize) -> FrameToken<'_>
        ensures drive { result.drive.ghost_name ≡ self.entry.ghost_name }
        ensures same { result.drive.now ≡ self.old }
        ensures number { result.number ≡ number }
    {
        FrameToken {
            drive: self,
            number,
        }
    }
}

//! Pins: frames that stay as they are while somebody counts on them.
ghost use Rattle.std.specs.Prelude.{◌≡◌, ◌≢◌, ℕ, ◌+◌, ◌-◌, ◌*◌, ◌<◌, ◌≤◌, ◌⊎◌, ◌↔◌, [], ◌∷◌, ◌++◌};
ghost use Rattle.std.specs.Prelude.{length, take, drop, MatchBool, IsTrue, OnOk, OnErr, IfErr};
ghost use Rattle.std.specs.Prelude.{IsOk, vec_len};
ghost use Rattle.s4_types.specs.declared.refusals.Refusal.TheVariants.{NoMemory, Busy};
ghost use Rattle.std.specs.Arc.{arc_value};
ghost use Rattle.segment_word.specs.Frames.{Pinned, nothing_known};
ghost use Rattle.segment_word.specs.Frames.Phase.{Sealed};
ghost use Rattle.segment_word.specs.Layout.{frame_at, block_bytes};
ghost use Rattle.segment_word.specs.Counting.{pins_in};
ghost use Rattle.segment_word.specs.FrameRule.{AllAgree};
ghost use Rattle.segment_word.specs.Steps.{older};
ghost use Rattle.segment_word.specs.Handles.{IsAmong, pin_of};

use crate::blocks::{append_bytes, read_block};
use crate::board::Board;
use crate::drive::{DriveSeat, FrameToken};
use crate::layout::{EMPTY, RESTING};
use crate::lending::{confirm, pin};
use crate::memories::Memory;
use crate::steps::{Place, lose, remember};
use s4_types::Refusal;
use std::alloc::Global;
use std::marker::Model;
use std::sync::Arc;

/// A seat at the table, with the frames that it counts on. While it lives, each of them keeps its
/// generation and its contents, whatever other threads do. Dropping it unpins them all and gives
/// the seat back.
pub struct Pin {
    board: Arc<Board, Global>,
    seat: Place,
    // the numbers of the frames, the newest last
    numbers: Vec<usize>,
    // where the seat rests when it isn't used
    perch: usize,
}

impl Model for Pin {
    ghost use Rattle.std.specs.Prelude.{vec_len};
    ghost use Rattle.std.specs.Arc.{arc_value};
    ghost use Rattle.segment_word.specs.Handles.{Held};
    ghost use Rattle.segment_word.specs.private.Pins.{IsSoundPin};

    ghost Value = { Held };

    ghost view = { λ p. record { table = p.seat.table_id; pins = p.seat.me.0.pins; perch = p.perch } };

    ghost invariant = { λ p. IsSoundPin (arc_value p.board).table.shared.table_id p.seat p.numbers.items p.perch (vec_len (arc_value p.board).perches) };
}

impl Pin {
    pub(crate) fn new(board: Arc<Board, Global>, seat: Place, perch: usize, alloc: Global) -> Pin
        requires table { seat.table_id ≡ (arc_value board).table.shared.table_id }
        requires seat { seat.me ≡ (nothing_known, []) }
        requires perch { perch < vec_len (arc_value board).perches }
        ensures { result ≡ record { table = seat.table_id; pins = []; perch = perch } }
    {
        Pin {
            board,
            seat,
            numbers: Vec::new(alloc),
            perch,
        }
    }

    /// Whether it counts on the frame.
    pub fn counts_on(&self, frame: usize) -> bool
        ensures { IsTrue result ↔ (0 < pins_in frame self.now.pins) }
    {
        self.numbers.contains(&frame)
    }

    /// Counts on a sealed frame of the same table from now on. A frame that it counts on already is
    /// left so.
    ///
    /// NoMemory where there was none for the frame's number. Busy where the frame has
    /// `MOST_READERS`, or where other threads changed its word between load and exchange
    /// `PIN_TRIES` times. After either, nothing has changed.
    pub fn add(&mut self, frame: FrameToken<'_>) -> Result<(), Refusal>
        requires table { frame.drive.now.table ≡ self.old.table }
        requires inside { frame.number < length frame.drive.now.frames }
        requires sealed { (frame_at frame.drive.now.frames frame.number).phase ≡ Sealed }
        ensures counted { 0 < pins_in frame.entry.number self.old.pins
            → IsOk result × (self.new ≡ self.old) }
        ensures pinned { pins_in frame.entry.number self.old.pins ≡ 0 → OnOk result (self.new ≡ record self.old { pins = pin_of frame.entry.drive.now.frames frame.entry.number ∷ self.old.pins }) }
        ensures refused { OnErr result (self.new ≡ self.old) }
        ensures refusal { IfErr result (λ e. (e ≡ NoMemory) ⊎ (e ≡ Busy)) }
        ensures drive { frame.exit.0.now ≡ frame.entry.drive.now }
    {
        let FrameToken { drive, number } = frame;
        if self.counts_on(number) {
            return Ok(());
        }
        self.numbers.reserve(1)?;
        let words = &self.board.table.shared;
        if !pin(words, &mut drive.seat, &mut self.seat, number) {
            return Err(Refusal::Busy);
        }
        self.numbers.push_reserved(number);
        Ok(())
    }

    /// Shows that each frame that it counts on has the pin's generation and contents, as the
    /// drive's seat knows them.
    pub fn confirm(&mut self, drive: &mut DriveSeat)
        requires { drive.old.table ≡ self.old.table }
        ensures agree { AllAgree drive.old.frames self.old.pins }
        ensures same { (self.new ≡ self.old) × (drive.new ≡ drive.old) }
    {
        let words = &self.board.table.shared;
        confirm(words, &mut drive.seat, &mut self.seat);
    }

    /// What it counts on, as a memory that outlives it. Takes no memory of the machine, and no
    /// seat.
    pub fn remember(&mut self) -> Memory
        ensures memory { result ≡ record { table = self.old.table; remembered = self.old.pins } }
        ensures same { self.new ≡ self.old }
    {
        let seat = remember(&self.board.table.shared, &mut self.seat);
        Memory { seat }
    }

    /// The 512 bytes of block `block`, from 0 to 15, of a frame that it counts on, as they were
    /// when the frame was pinned.
    pub fn read_block(&mut self, frame: usize, block: usize) -> [u8; 512]
        requires counted { 0 < pins_in frame self.old.pins }
        requires inside { block < 16 }
        ensures bytes { (p : Pinned) → IsAmong p self.old.pins → p.number ≡ frame
            → result ≡ block_bytes p.contents block }
        ensures same { self.new ≡ self.old }
    {
        read_block(&self.board.table.shared, &mut self.seat, frame, block)
    }

    /// Adds the bytes `from..to` of the 512 of block `block`, from 0 to 15, of a frame that it
    /// counts on, as they were when the frame was pinned. A whole block is added at once; of a part
    /// eight words at a time where this many are whole, and else one.
    ///
    /// NoMemory alone, where `into` has no room and more is refused; it may have some of the bytes
    /// then. Where it has room, nothing is asked for.
    pub fn append_bytes(
        &mut self,
        frame: usize,
        block: usize,
        from: usize,
        to: usize,
        into: &mut Vec<u8>,
    ) -> Result<(), Refusal>
        requires counted { 0 < pins_in frame self.old.pins }
        requires inside { block < 16 }
        requires range { (from ≤ to) × (to ≤ 512) }
        ensures bytes { OnOk result
            ((p : Pinned) → IsAmong p self.old.pins → p.number ≡ frame
            → into.new.items
            ≡ into.old.items
            ++ take (to - from) (drop from (block_bytes p.contents block))) }
        ensures added { OnOk result (length into.new.items ≡ length into.old.items + (to - from)) }
        ensures refusal { IfErr result (λ e. e ≡ NoMemory) }
        ensures same { self.new ≡ self.old }
    {
        append_bytes(
            &self.board.table.shared,
            &mut self.seat,
            frame,
            block,
            from,
            to,
            into,
        )
    }

    // Unpins the newest frame, and says whether there was one.
    fn unpin(&mut self) -> bool
        ensures pins { MatchBool result
            ((length self.old.pins ≡ length self.new.pins + 1)
            × (self.new.pins ≡ older self.old.pins)) (self.new.pins ≡ []) }
        ensures same { (self.new.table ≡ self.old.table) × (self.new.perch ≡ self.old.perch) }
    {
        let Some(frame) = self.numbers.pop() else {
            return false;
        };
        lose(&self.board.table.shared, &mut self.seat, frame);
        true
    }
}

impl Drop for Pin {
    fn drop(mut self) {
        while self.unpin() {}
        let Self {
            board,
            seat,
            numbers,
            perch,
        } = self;
        drop(numbers);
        let _ = board.perches[perch].give(seat, EMPTY, RESTING);
    }
}

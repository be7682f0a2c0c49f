//! The segment table: blocks that pointers refer to, the sealing of frames, and pins that count on
//! them.
ghost use Rattle.std.specs.Prelude.{◌≡◌, ◌≢◌, ℕ, ◌+◌, ◌-◌, ◌^◌, ◌<◌, ◌≤◌, ◌⊎◌, true, [], ◌∷◌, ◌++◌};
ghost use Rattle.std.specs.Prelude.{length, map, take, drop, replicate, Some, None, IsSome, IfSome};
ghost use Rattle.std.specs.Prelude.{IfOk, IfErr, OnOk, OnErr, IsOk, MatchBool};
ghost use Rattle.s4_types.specs.Sizes.{IsFrameCount};
ghost use Rattle.s4_types.specs.declared.limits.TheConstants.{BLOCK_BYTES};
ghost use Rattle.s4_types.specs.declared.refusals.Refusal.TheVariants.{NoMemory, Busy, NoSpace};
ghost use Rattle.s4_types.specs.declared.refusals.Refusal.TheVariants.{InUse};
ghost use Rattle.block_log.specs.Log.{appended, dropped, held_more, is_data, NamesAreOfData};
ghost use Rattle.block_log.proofs.Places.{one_place, puts, takes};
ghost use Rattle.block_log.proofs.Taking.{append_takes, drop_takes, none_taken, adds_up};
ghost use Rattle.segment_word.specs.Frames.{Pinned, is_draining};
ghost use Rattle.segment_word.specs.Frames.Phase.{Open, Sealed};
ghost use Rattle.segment_word.specs.Layout.{frame_at, block_bytes};
ghost use Rattle.segment_word.specs.Counting.{pins_in};
ghost use Rattle.segment_word.specs.FrameRule.{AllAgree};
ghost use Rattle.segment_word.specs.Handles.{fresh_frame, IsAmong, pin_of};
ghost use Rattle.segment_table.specs.Table.{Table, slots_at, held_at};
ghost use Rattle.segment_table.specs.Room.{is_filling, log_of, new_places};
ghost use Rattle.segment_table.specs.Sealing.{IsPartFilled};
ghost use Rattle.segment_table.specs.Changes.{IsAppended, SealsFrame, MarksFrame, ReleasesFrame};

use crate::builder::TableBuilder;
use crate::over_frames::OverFrames;
use crate::saving;
use crate::segments::Segments;
use block_log::{Block, BlockKind, Blocks};
use codec::BlockRole;
use s4_types::limits::{FRAME_BLOCKS, PAYLOAD_BLOCKS};
use s4_types::{ObjectId, Ptr, Refusal};
use segment_word::{Frames, Memory, Pin};
use std::alloc::Global;
use std::marker::Model;

/// Blocks that pointers refer to, in the frames of a drive.
pub struct SegmentTable {
    frames: Frames,
    segments: Segments,
    alloc: Global,
}

// Written by hand, so that an owner lets it go by one call.
impl Drop for SegmentTable {
    fn drop(self) {
        let SegmentTable {
            frames: _,
            segments: _,
            alloc: _,
        } = self;
    }
}

impl Model for SegmentTable {
    ghost use Rattle.std.specs.Prelude.{◌≡◌};
    ghost use Rattle.segment_table.specs.Table.{Table};
    ghost use Rattle.segment_table.specs.Sealing.{IsPartFilled};

    ghost Value = { Table };

    ghost view = { λ t. t.segments };

    ghost invariant = { λ t. (t.frames ≡ t.segments.seat.table) × IsPartFilled t.segments };
}

impl SegmentTable {
    /// The table of a new drive of `FEWEST_FRAMES` to `MOST_FRAMES` frames: nothing is held.
    ///
    /// NoMemory where memory was refused, Busy where the count of those that share it was full. No
    /// other call but `count_on` and `held_in` takes memory.
    pub fn new(alloc: Global, frames: usize) -> Result<Self, Refusal>
        requires { IsFrameCount frames }
        ensures frames { IfOk result (λ t. t.seat.frames ≡ replicate frames fresh_frame) }
        ensures unused { IfOk result (λ t. t.slots ≡ replicate frames []) }
        ensures log { IfOk result (λ t. log_of t ≡ record { held = λ p. None; ahead = new_places frames; spent = 0; named = λ p. 0 }) }
        ensures refusal { IfErr result (λ e. (e ≡ NoMemory) ⊎ (e ≡ Busy)) }
    {
        let builder = TableBuilder::new(alloc, frames)?;
        Self::from_parts(alloc, builder)
    }

    /// The table of a drive that was saved.
    ///
    /// NoMemory where memory was refused, Busy where the count of those that share it was full.
    pub fn from_parts(alloc: Global, builder: TableBuilder) -> Result<Self, Refusal>
        ensures frames { IfOk result (λ t. t.seat.frames ≡ builder.seat.frames) }
        ensures slots { IfOk result (λ t. t.slots ≡ builder.slots) }
        ensures log { IfOk result (λ t. log_of t ≡ log_of builder) }
        ensures refusal { IfErr result (λ e. (e ≡ NoMemory) ⊎ (e ≡ Busy)) }
    {
        let (frames, segments) = builder.shared(alloc)?;
        Ok(SegmentTable {
            frames,
            segments,
            alloc,
        })
    }

    /// Seals the open frame: zeros are stored in its unused blocks, and its summary in block 0.
    /// Without effect where none is open.
    pub fn seal_open(&mut self)
        ensures { SealsFrame self.old self.new }
    {
        if let Some(frame) = self.segments.open_frame() {
            self.segments.seal(frame);
        }
    }

    // Whether a frame is the open one.
    fn is_filling(&self, frame: u16) -> bool
        requires { frame < length self.now.seat.frames }
        ensures { MatchBool result ((frame_at self.now.seat.frames frame).phase ≡ Open)
            ((frame_at self.now.seat.frames frame).phase ≢ Open) }
    {
        match self.segments.current {
            Some(open) => open == frame,
            None => false,
        }
    }

    /// A sealed frame of which no block is held is being emptied from now on. Its readers and its
    /// pins stay.
    ///
    /// InUse exactly where the frame isn't sealed or isn't there, or where one of its blocks is
    /// held. Nothing has changed then.
    pub fn mark(&mut self, frame: u16) -> Result<(), Refusal>
        ensures { MarksFrame frame self.old result self.new }
    {
        self.segments.mark(frame)
    }

    /// A frame that is being emptied and has no reader is free at its next generation: its 15
    /// payload blocks are ahead again, in their order. One that reaches the last generation, 2^32 -
    /// 1, is retired instead. No fewer places than before were ever taken: the frame's life counts
    /// as whole.
    ///
    /// InUse where the frame isn't being emptied or isn't there, and nothing has changed then; or
    /// where its word counted a reader at the one exchange that was tried, which is noted, and no
    /// frame or block has changed.
    pub fn release(&mut self, frame: u16) -> Result<(), Refusal>
        ensures { ReleasesFrame frame self.old result self.new }
    {
        self.segments.release(frame)
    }

    /// Whether a held block lies in the open frame; else its frame is sealed.
    pub fn is_open(&self, place: Ptr) -> bool
        requires { IsSome (held_at self.now place) }
        ensures { MatchBool result ((frame_at self.now.seat.frames place.frame).phase ≡ Open)
            ((frame_at self.now.seat.frames place.frame).phase ≡ Sealed) }
    {
        match self.segments.current {
            Some(frame) => frame == place.frame(),
            None => false,
        }
    }

    /// A pin without frames, which `count_on` gives some. Busy where all seats are in use, or the
    /// count of those that share the memory is full.
    pub fn new_pin(&self) -> Result<Pin, Refusal>
        ensures pin { IfOk result (λ p. (p.table ≡ self.now.seat.table) × (p.pins ≡ [])) }
        ensures busy { IfErr result (λ e. e ≡ Busy) }
    {
        self.frames.seat()
    }

    /// The pin counts on the sealed frame of a held block from now on, so that `read_block` and
    /// `append_bytes` of the pin give the block's bytes for as long as the pin lives. A frame that
    /// it counts on already is left so.
    ///
    /// NoMemory where there was none for the frame's number. Busy where the frame has
    /// `MOST_READERS`, or where other threads changed its word between load and exchange
    /// `PIN_TRIES` times. After either, nothing has changed.
    pub fn count_on(&mut self, pin: &mut Pin, place: Ptr) -> Result<(), Refusal>
        requires table { pin.old.table ≡ self.old.seat.table }
        requires held { IsSome (held_at self.old place) }
        requires sealed { (frame_at self.old.seat.frames place.frame).phase ≡ Sealed }
        ensures again { 0 < pins_in place.frame pin.old.pins → IsOk result × (pin.new ≡ pin.old) }
        ensures pinned { pins_in place.frame pin.old.pins ≡ 0 → OnOk result (pin.new ≡ record pin.old { pins = pin_of self.old.seat.frames place.frame ∷ pin.old.pins }) }
        ensures counted { OnOk result (0 < pins_in place.frame pin.new.pins) }
        ensures bytes { OnOk result
            ((p : Pinned) → IsAmong p pin.new.pins → p.number ≡ place.frame
            → IfSome (held_at self.old place)
            (λ block. block_bytes p.contents place.block ≡ block.bytes)) }
        ensures others { (p : Pinned) → IsAmong p pin.old.pins → IsAmong p pin.new.pins }
        ensures table { pin.new.table ≡ pin.old.table }
        ensures refused { OnErr result (pin.new ≡ pin.old) }
        ensures refusal { IfErr result (λ e. (e ≡ NoMemory) ⊎ (e ≡ Busy)) }
        ensures same { self.new ≡ self.old }
    {
        let number = place.frame() as usize;
        pin.add(self.segments.seat.frame(number))?;
        pin.confirm(&mut self.segments.seat);
        Ok(())
    }

    /// Shows that each frame that a pin of this table counts on has the pin's generation and
    /// contents.
    pub fn confirm(&mut self, pin: &mut Pin)
        requires { pin.old.table ≡ self.old.seat.table }
        ensures agree { AllAgree self.old.seat.frames pin.old.pins }
        ensures same { (self.new ≡ self.old) × (pin.new ≡ pin.old) }
    {
        pin.confirm(&mut self.segments.seat);
    }
}

impl OverFrames for SegmentTable {
    ghost name = { λ t. t.seat.table };

    ghost table = { λ t. t };

    fn frame_count(&self) -> u16 {
        self.segments.slots.len() as u16
    }

    fn is_draining(&mut self, frame: u16) -> bool {
        let number = frame as usize;
        number < self.segments.slots.len() && self.segments.seat.is_draining(number)
    }

    fn generation(&mut self, frame: u16) -> Option<u32> {
        let number = frame as usize;
        if number < self.segments.slots.len() {
            return Some(self.segments.seat.generation(number));
        }
        None
    }

    fn name_count(&self, frame: u16, block: u8) -> u32 {
        self.segments.name_count(frame, block)
    }

    fn held_count(&self, frame: u16) -> u8 {
        self.segments.held_count(frame)
    }

    fn state_word(&mut self, frame: u16) -> u64 {
        self.segments.seat.state(frame as usize)
    }

    fn saved_word(&mut self, frame: u16) -> u64 {
        self.segments.seat.saved_state(frame as usize)
    }

    fn save_blocks(&mut self, frame: u16, blocks: &mut [Block; FRAME_BLOCKS]) {
        let number = frame as usize;
        if self.is_filling(frame) {
            let slots = &self.segments.slots[number];
            saving::save_sealed(&mut self.segments.seat, frame, slots, blocks);
        } else {
            saving::save_all(&mut self.segments.seat, number, blocks);
        }
    }

    fn frame_rules(&self) {
        let _ = &self.segments.current;
    }

    fn held_in(&mut self, object: ObjectId, frame: u16) -> Result<Vec<Ptr>, Refusal> {
        self.segments.held_in(self.alloc, object, frame)
    }

    fn listings(&self) {
        self.frame_rules();
    }

    fn role(&mut self, place: Ptr) -> Option<BlockRole> {
        if !self.segments.is_current(place) {
            return None;
        }
        self.segments.current_role(place)
    }

    fn block(&mut self, place: Ptr) -> Block {
        self.segments.get(place)
    }

    fn pin(&mut self, place: Ptr) -> Result<Pin, Refusal> {
        let mut pin = self.new_pin()?;
        self.count_on(&mut pin, place)?;
        Ok(pin)
    }

    fn recall(&mut self, memory: &mut Memory) {
        self.segments.seat.recall(memory);
    }
}

impl Blocks for SegmentTable {
    ghost log = { log_of };

    ghost one_place_has_one_name = { one_place };

    ghost an_append_puts_one_block = { puts };

    ghost a_drop_takes_one_block = { takes };

    ghost an_append_takes_one_place = { append_takes };

    ghost a_drop_takes_no_place = { drop_takes };

    ghost no_change_takes_no_place = { none_taken };

    ghost places_taken_add_up = { adds_up };

    fn append(&mut self, kind: BlockKind, object: ObjectId, block: &Block) -> Result<Ptr, Refusal>
        requires { 1 ≤ object }
        ensures appended { IfOk result (λ p. appended (log_of self.old) (record { kind = kind; object = object; bytes = block.now }) ≡ Some (p, log_of self.new)) }
        ensures fresh { IfOk result (λ p. (log_of self.old).held p ≡ None) }
        ensures full { IfErr result
            (λ e. (e ≡ NoSpace)
            × ((length (log_of self.old).ahead ≡ 0) × (log_of self.new ≡ log_of self.old))) }
        ensures exact { IfOk result (λ p. IsAppended p (record { kind = kind; object = object }) block.now self.old self.new) }
        ensures unchanged { OnErr result (self.new ≡ self.old) }
    {
        let Some(frame) = self.segments.ready_frame() else {
            return Err(Refusal::NoSpace);
        };
        let place = self.segments.put(frame, BlockRole { kind, object }, block);
        self.segments.seal_full(frame);
        Ok(place)
    }

    fn get(&mut self, place: Ptr) -> Block
        requires { IsSome ((log_of self.old).held place) }
        ensures bytes { IfSome ((log_of self.old).held place) (λ block. result ≡ block.bytes) }
        ensures same { log_of self.new ≡ log_of self.old }
        ensures unchanged { self.new ≡ self.old }
    {
        self.segments.get(place)
    }

    fn get_bytes(
        &mut self,
        place: Ptr,
        from: usize,
        to: usize,
        into: &mut Vec<u8>,
    ) -> Result<(), Refusal>
        requires held { IsSome ((log_of self.old).held place) }
        requires range { (from ≤ to) × (to ≤ BLOCK_BYTES) }
        ensures bytes { OnOk result
            (IfSome ((log_of self.old).held place)
            (λ block. into.new.items
            ≡ into.old.items ++ take (to - from) (drop from block.bytes))) }
        ensures added { OnOk result (length into.new.items ≡ length into.old.items + (to - from)) }
        ensures refusal { IfErr result (λ e. e ≡ NoMemory) }
        ensures same { log_of self.new ≡ log_of self.old }
        ensures unchanged { self.new ≡ self.old }
    {
        self.segments.get_bytes(place, from, to, into)
    }

    fn hold(&mut self, place: Ptr)
        requires of_data { is_data ((log_of self.old).held place) ≡ true }
        requires room { (log_of self.old).named place + 1 < 2 ^ 32 }
        ensures log { log_of self.new ≡ held_more (log_of self.old) place }
        ensures seat { self.new.seat ≡ self.old.seat }
        ensures used { (f : ℕ)
            → length (slots_at self.new.slots f) ≡ length (slots_at self.old.slots f) }
        ensures roles { (f : ℕ)
            → map (λ slot. slot.role) (slots_at self.new.slots f)
            ≡ map (λ slot. slot.role) (slots_at self.old.slots f) }
    {
        self.segments.hold(place);
    }

    fn names(&self)
        ensures { NamesAreOfData (log_of self.now) }
    {
        self.segments.names();
    }

    fn drop_block(&mut self, place: Ptr)
        ensures log { log_of self.new ≡ dropped (log_of self.old) place }
        ensures seat { self.new.seat ≡ self.old.seat }
        ensures used { (f : ℕ)
            → length (slots_at self.new.slots f) ≡ length (slots_at self.old.slots f) }
        ensures roles { (f : ℕ)
            → map (λ slot. slot.role) (slots_at self.new.slots f)
            ≡ map (λ slot. slot.role) (slots_at self.old.slots f) }
    {
        self.segments.drop_block(place);
    }

    fn blocks_left(&self) -> usize
        ensures count { result ≡ length (log_of self.now).ahead }
        ensures most { result ≤ 15360 }
    {
        let whole = PAYLOAD_BLOCKS * self.segments.free.len();
        match self.segments.current {
            Some(frame) => whole + (PAYLOAD_BLOCKS - self.segments.slots[frame as usize].len()),
            None => whole,
        }
    }
}

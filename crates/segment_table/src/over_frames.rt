//! What is asked of frames, whatever lies over them.
ghost use Rattle.std.specs.Prelude.{◌≡◌, ℕ, ◌<◌, ◌≤◌, ◌⊎◌, [], ◌∷◌, length, drop, slice_index_or};
ghost use Rattle.std.specs.Prelude.{option_map, IsSome, IfSome, IfNone, IfOk, IfErr};
ghost use Rattle.atomic_table.specs.Seated.{TableId};
ghost use Rattle.s4_types.specs.declared.refusals.Refusal.TheVariants.{NoMemory, Busy};
ghost use Rattle.codec.specs.Summary.{SpellsSummary};
ghost use Rattle.segment_word.specs.Frames.{Sealed, code_of, is_draining};
ghost use Rattle.segment_word.specs.Layout.{word_of, frame_at, block_bytes};
ghost use Rattle.segment_word.specs.FrameRule.{AllRemembered};
ghost use Rattle.segment_word.specs.Steps.{IsStateOf};
ghost use Rattle.segment_word.specs.Handles.{pin_of};
ghost use Rattle.segment_table.specs.Table.{Table, slots_at, held_at, role_of};
ghost use Rattle.segment_table.specs.Room.{pointers_in};
ghost use Rattle.segment_table.specs.Counts.{name_count, held_count};
ghost use Rattle.segment_table.specs.Sealing.{summary_of};
ghost use Rattle.segment_table.specs.Rules.{HasFramesInOrder};
ghost use Rattle.segment_table.specs.Laws.{ListsAllHeld};

use block_log::Block;
use codec::BlockRole;
use s4_types::limits::FRAME_BLOCKS;
use s4_types::{ObjectId, Ptr, Refusal};
use segment_word::{Memory, Pin};

/// A segment table, or what has one below it: what can be asked of its frames. No call of these
/// changes anything.
pub trait OverFrames {
    // Which table of words its frames have.
    ghost name: { Self → TableId };

    // The segment table.
    ghost table: { Self → Table };

    /// Shows what holds between calls: the frames are those of the table that `name` says,
    /// `FEWEST_FRAMES` to `MOST_FRAMES`; the used blocks of each fit what it is for, and at most
    /// one is open, with 1 to 14 used blocks; each held block has 512 bytes and is used.
    fn frame_rules(&self)
        ensures { HasFramesInOrder (name self.now) (table self.now) };

    /// How many frames there are.
    fn frame_count(&self) -> u16
        ensures { result ≡ length (table self.now).seat.frames };

    /// Whether a frame is being emptied; one that isn't there is not.
    fn is_draining(&mut self, frame: u16) -> bool
        ensures draining { result
            ≡ is_draining (frame_at (table self.old).seat.frames frame).phase }
        ensures same { self.new ≡ self.old };

    /// The generation of a frame, and none where it isn't there.
    fn generation(&mut self, frame: u16) -> Option<u32>
        ensures inside { IfSome result (λ g. frame < length (table self.old).seat.frames) }
        ensures generation { IfSome result
            (λ g. g ≡ (frame_at (table self.old).seat.frames frame).generation) }
        ensures outside { IfNone result (length (table self.old).seat.frames ≤ frame) }
        ensures same { self.new ≡ self.old };

    /// How many places name a block of a frame, at the generation that the frame has: of a held
    /// data block as many as gave it a name, of another held block 1. 0 where the block isn't held,
    /// and where there is no such frame or payload block.
    ///
    /// It is a count that the table keeps: no block is read.
    fn name_count(&self, frame: u16, block: u8) -> u32
        ensures { result ≡ name_count (table self.now) frame block };

    /// How many payload blocks of a frame are held, 0 to 15: 0 where there is no such frame.
    ///
    /// It is a count that the table keeps: no block is read.
    fn held_count(&self, frame: u16) -> u8
        ensures { result ≡ held_count (table self.now) frame };

    /// The state word of a frame, as this one load finds it: its phase, its generation and the
    /// readers that are counted then. How many those are isn't known here, since pins come and go
    /// in other threads; a frame that is free or open has none.
    fn state_word(&mut self, frame: u16) -> u64
        requires { frame < length (table self.old).seat.frames }
        ensures word { IsStateOf (frame_at (table self.old).seat.frames frame) result }
        ensures same { self.new ≡ self.old };

    /// The state word of a frame as it is saved: it counts no reader.
    fn saved_word(&mut self, frame: u16) -> u64
        requires { frame < length (table self.old).seat.frames }
        ensures word { result ≡ word_of (frame_at (table self.old).seat.frames frame) 0 }
        ensures same { self.new ≡ self.old };

    /// The 16 blocks of a frame that isn't free, as they are saved. Those of the open frame are
    /// what sealing it now would leave: its summary first, and zeros in its unused blocks.
    fn save_blocks(&mut self, frame: u16, blocks: &mut [Block; FRAME_BLOCKS])
        requires inside { frame < length (table self.old).seat.frames }
        requires used { 0 < code_of (frame_at (table self.old).seat.frames frame).phase }
        ensures spelled { SpellsSummary (drop 1 blocks.new) (slice_index_or blocks.new 0 [])
            (summary_of frame (frame_at (table self.old).seat.frames frame)
            (slots_at (table self.old).slots frame)) }
        ensures kept { (b : ℕ) → 1 ≤ b
            → b ≤ length (slots_at (table self.old).slots frame)
            → slice_index_or blocks.new b []
            ≡ block_bytes (frame_at (table self.old).seat.frames frame).contents b }
        ensures whole { 2 ≤ code_of (frame_at (table self.old).seat.frames frame).phase → (b : ℕ)
            → b < 16
            → slice_index_or blocks.new b []
            ≡ block_bytes (frame_at (table self.old).seat.frames frame).contents b }
        ensures same { self.new ≡ self.old };

    /// The pointers to the held blocks of an object in a frame, by ascending block, and none where
    /// the frame isn't sealed or isn't there.
    ///
    /// NoMemory alone, where there was none for them; it is asked for once.
    fn held_in(&mut self, object: ObjectId, frame: u16) -> Result<Vec<Ptr>, Refusal>
        ensures pointers { IfOk result
            (λ pointers. pointers.items ≡ pointers_in (table self.old) object frame) }
        ensures refusal { IfErr result (λ e. e ≡ NoMemory) }
        ensures same { self.new ≡ self.old };

    /// Shows that `held_in` lists each held block of an object in a sealed frame.
    fn listings(&self)
        ensures { ListsAllHeld (table self.now) };

    /// What the block is for that a pointer refers to. None where the pointer isn't held.
    fn role(&mut self, place: Ptr) -> Option<BlockRole>
        ensures role { result ≡ option_map role_of (held_at (table self.old) place) }
        ensures same { self.new ≡ self.old };

    /// The bytes of a held block.
    fn block(&mut self, place: Ptr) -> Block
        requires { IsSome (held_at (table self.old) place) }
        ensures bytes { IfSome (held_at (table self.old) place) (λ block. result ≡ block.bytes) }
        ensures same { self.new ≡ self.old };

    /// A new pin that counts on the sealed frame of a held block, and on no other: while it lives,
    /// the frame keeps its generation and its contents, whatever other threads do.
    ///
    /// NoMemory where there was none for the frame's number. Busy where all seats of pins are in
    /// use, the count of those that share the frames is full, the frame has `MOST_READERS`, or
    /// other threads changed its word between load and exchange `PIN_TRIES` times.
    fn pin(&mut self, place: Ptr) -> Result<Pin, Refusal>
        requires held { IsSome (held_at (table self.old) place) }
        requires sealed { (frame_at (table self.old).seat.frames place.frame).phase ≡ Sealed }
        ensures table { IfOk result (λ pin. pin.table ≡ name self.old) }
        ensures pinned { IfOk result
            (λ pin. pin.pins ≡ pin_of (table self.old).seat.frames place.frame ∷ []) }
        ensures refusal { IfErr result (λ e. (e ≡ NoMemory) ⊎ (e ≡ Busy)) }
        ensures same { self.new ≡ self.old };

    /// Shows what is true of what a memory of these frames has: each of its frames has come to the
    /// generation that it had, and while it is at that one, it is sealed or being emptied with the
    /// contents that it had.
    fn recall(&mut self, memory: &mut Memory)
        requires { memory.old.table ≡ name self.old }
        ensures remembered { AllRemembered (table self.old).seat.frames memory.old.remembered }
        ensures same { (self.new ≡ self.old) × (memory.new ≡ memory.old) };
}

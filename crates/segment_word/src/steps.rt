//! The single steps on the words of the table, each by one seat.
ghost use Rattle.std.specs.Prelude.{◌≡◌, ◌+◌, ◌*◌, ◌/◌, ◌%◌, ◌^◌, ◌<◌, ◌≤◌, ◌≢◌, [], ◌∷◌, length};
ghost use Rattle.std.specs.Prelude.{MatchBool};
ghost use mathlib.Core.Option.{none};
ghost use Rattle.atomic_table.specs.Table.{step};
ghost use Rattle.segment_word.specs.Frames.{Pinned};
ghost use Rattle.segment_word.specs.Frames.Phase.{Open, Draining};
ghost use Rattle.segment_word.specs.Layout.{frame_at, word_of};
ghost use Rattle.segment_word.specs.Steps.{Looks, ReadsBlockWord, IsStateOf, raised, released};
ghost use Rattle.segment_word.specs.Steps.{with_word, with_frame, with_try, with_pins, older};
ghost use Rattle.segment_word.specs.Steps.{IsSameSeat, CanRise, GainsPin, joined_view};
ghost use Rattle.segment_word.specs.Steps.{without_pins, pins_of, memory_of};

use crate::layout::{EMPTIED, FRAME_WORDS, GENERATION_SHIFT, ONE_READER};
use crate::plays::{Free, Gain, Hand, Look, Lose, Raise, Read, Receive, Remember, Store};
use crate::rule::{Known, OneRule};
use atomic_table::{Seat, Shared};
use std::snapshot::Snapshot;

pub type Words = Shared<(), Known, Snapshot<Vec<u64>>, OneRule>;

pub type Place = Seat<(), Known>;

/// The frame goes on to its next phase: free to open, open to sealed, sealed to being emptied.
pub fn raise(words: &Words, seat: &mut Place, frame: usize)
    requires table { seat.old.table_id ≡ words.now.table_id }
    requires drive { seat.old.id ≡ 0 }
    requires inside { frame < length seat.old.me.0.frames }
    requires sized { (words.now.table_id.words ≡ 1025 * length seat.old.me.0.frames)
        × (length seat.old.me.0.frames ≤ 1024) }
    requires rises { CanRise (frame_at seat.old.me.0.frames frame) }
    ensures seat { IsSameSeat seat.old seat.new }
    ensures view { seat.new.me.0
        ≡ with_frame seat.old.me.0 frame (raised (frame_at seat.old.me.0.frames frame)) }
{
    words.fetch_add::<Raise>(seat, FRAME_WORDS * frame, 1);
}

/// A frame that is being emptied is free at its next generation, where its state word is still
/// `unread`, which counts no reader. Answers the word that it found.
pub fn free(words: &Words, seat: &mut Place, frame: usize, unread: u64) -> u64
    requires table { seat.old.table_id ≡ words.now.table_id }
    requires drive { seat.old.id ≡ 0 }
    requires inside { frame < length seat.old.me.0.frames }
    requires sized { (words.now.table_id.words ≡ 1025 * length seat.old.me.0.frames)
        × (length seat.old.me.0.frames ≤ 1024) }
    requires draining { (frame_at seat.old.me.0.frames frame).phase ≡ Draining }
    requires goes_on { (frame_at seat.old.me.0.frames frame).generation + 1 < 2 ^ 32 }
    requires unread { unread ≡ word_of (frame_at seat.old.me.0.frames frame) 0 }
    ensures seat { IsSameSeat seat.old seat.new }
    ensures found { IsStateOf (frame_at seat.old.me.0.frames frame) result }
    ensures hit { result ≡ unread
        → seat.new.me.0
        ≡ with_try
        (with_frame seat.old.me.0 frame (released (frame_at seat.old.me.0.frames frame)))
        frame result }
    ensures miss { result ≢ unread → seat.new.me.0 ≡ with_try seat.old.me.0 frame result }
{
    let next = unread - EMPTIED + (1 << GENERATION_SHIFT);
    words.compare_exchange::<Free>(seat, FRAME_WORDS * frame, unread, next)
}

/// Word `index` of the blocks of an open frame becomes `value`.
pub fn store(words: &Words, seat: &mut Place, frame: usize, index: usize, value: u64)
    requires table { seat.old.table_id ≡ words.now.table_id }
    requires drive { seat.old.id ≡ 0 }
    requires inside { (frame < length seat.old.me.0.frames) × (index < 1024) }
    requires sized { (words.now.table_id.words ≡ 1025 * length seat.old.me.0.frames)
        × (length seat.old.me.0.frames ≤ 1024) }
    requires phase { (frame_at seat.old.me.0.frames frame).phase ≡ Open }
    ensures seat { IsSameSeat seat.old seat.new }
    ensures view { seat.new.me.0
        ≡ with_frame seat.old.me.0 frame
        (with_word (frame_at seat.old.me.0.frames frame) index value) }
    ensures whole { length (frame_at seat.old.me.0.frames frame).contents ≡ 1024 }
{
    words.store::<Store>(seat, FRAME_WORDS * frame + 1 + index, value);
}

/// A word, as the drive's seat finds it.
pub fn look(words: &Words, seat: &mut Place, word: usize) -> u64
    requires table { seat.old.table_id ≡ words.now.table_id }
    requires drive { seat.old.id ≡ 0 }
    requires inside { word < words.now.table_id.words }
    ensures seat { IsSameSeat seat.old seat.new }
    ensures view { Looks (step words.now.table_id.slots word 0 0 none) seat.old.me result
        seat.new.me }
{
    words.load::<Look>(seat, word)
}

/// A word, as the seat of a pin finds it.
pub fn read(words: &Words, seat: &mut Place, word: usize) -> u64
    requires table { seat.old.table_id ≡ words.now.table_id }
    requires inside { word < words.now.table_id.words }
    ensures seat { IsSameSeat seat.old seat.new }
    ensures view { ReadsBlockWord (step words.now.table_id.slots word 0 0 none) seat.old.me result
        seat.new.me }
{
    words.load::<Read>(seat, word)
}

/// One reader more, where the state word is still the one that was seen, and says whether it was.
pub fn gain(words: &Words, seat: &mut Place, frame: usize, seen: u64) -> bool
    requires table { seat.old.table_id ≡ words.now.table_id }
    requires inside { (1025 * frame < words.now.table_id.words)
        × (words.now.table_id.words ≤ 1049600) }
    requires seen { (seen % 4 ≡ 2) × (seen % 2 ^ 32 / 4 < 1048576) }
    ensures seat { IsSameSeat seat.old seat.new }
    ensures view { MatchBool result (GainsPin frame seat.old.me.0 seat.new.me.0)
        (seat.new.me.0 ≡ seat.old.me.0) }
{
    let found = words.compare_exchange::<Gain>(seat, FRAME_WORDS * frame, seen, seen + ONE_READER);
    found == seen
}

/// One reader less, for the seat's newest pin, which is one of this frame.
pub fn lose(words: &Words, seat: &mut Place, frame: usize)
    requires table { seat.old.table_id ≡ words.now.table_id }
    requires inside { (1025 * frame < words.now.table_id.words)
        × (words.now.table_id.words ≤ 1049600) }
    requires newest { (p : Pinned) × (p.number ≡ frame)
        × (seat.old.me.0.pins ≡ p ∷ older seat.old.me.0.pins) }
    ensures seat { IsSameSeat seat.old seat.new }
    ensures view { seat.new.me.0 ≡ with_pins seat.old.me.0 (older seat.old.me.0.pins) }
{
    words.fetch_sub::<Lose>(seat, FRAME_WORDS * frame, ONE_READER);
}

/// The pins of a seat go to a new one.
pub fn hand(words: &Words, seat: &mut Place) -> Place
    requires table { seat.old.table_id ≡ words.now.table_id }
    requires words { 0 < words.now.table_id.words }
    ensures seat { IsSameSeat seat.old seat.new }
    ensures view { seat.new.me.0 ≡ without_pins seat.old.me.0 }
    ensures other { (result.table_id ≡ seat.old.table_id)
        × (result.me ≡ (pins_of seat.old.me.0, [])) }
{
    words.split_seat::<Hand>(seat)
}

/// A new seat remembers what this one remembers and counts on.
pub fn remember(words: &Words, seat: &mut Place) -> Place
    requires table { seat.old.table_id ≡ words.now.table_id }
    requires words { 0 < words.now.table_id.words }
    ensures seat { IsSameSeat seat.old seat.new }
    ensures view { seat.new.me.0 ≡ seat.old.me.0 }
    ensures other { (result.table_id ≡ seat.old.table_id)
        × (result.me ≡ (memory_of seat.old.me.0, [])) }
{
    words.split_seat::<Remember>(seat)
}

/// The pins of another seat, which is spent, come to this one, and so does what it remembers.
pub fn receive(words: &Words, seat: &mut Place, other: Place)
    requires table { (seat.old.table_id ≡ words.now.table_id)
        × (other.table_id ≡ words.now.table_id) }
    requires words { 0 < words.now.table_id.words }
    requires other { (other.me.0.frames ≡ []) × (other.me.1 ≡ []) }
    ensures seat { IsSameSeat seat.old seat.new }
    ensures view { seat.new.me.0 ≡ joined_view seat.old.me.0 other.me.0 }
{
    words.join_seat::<Receive>(seat, other);
}

//! Steps of two seats: the drive's, and that of a pin or of a memory.
ghost use Rattle.std.specs.Prelude.{◌≡◌, ◌∷◌, ◌<◌, length, MatchBool};
ghost use Rattle.segment_word.specs.Frames.Phase.{Sealed};
ghost use Rattle.segment_word.specs.Layout.{frame_at};
ghost use Rattle.segment_word.specs.FrameRule.{AllAgree, AllRemembered};
ghost use Rattle.segment_word.specs.Steps.{IsSameSeat, with_pins};
ghost use Rattle.segment_word.specs.Handles.{IsDriveSeat, IsPinSeat, pin_of};

use crate::layout::FRAME_WORDS;
use crate::steps::{Place, Words, gain, hand, look, receive, remember};
use s4_types::limits::{MOST_READERS, PIN_TRIES};

/// The pins go to the drive's seat and back. In between, one load tells that they say what the
/// drive knows.
pub fn confirm(words: &Words, drive: &mut Place, seat: &mut Place)
    requires table { (drive.old.table_id ≡ words.now.table_id)
        × (seat.old.table_id ≡ words.now.table_id) }
    requires drive { IsDriveSeat drive.old }
    requires seat { IsPinSeat seat.old }
    ensures drive { IsSameSeat drive.old drive.new × (drive.new.me ≡ drive.old.me) }
    ensures seat { IsSameSeat seat.old seat.new × (seat.new.me ≡ seat.old.me) }
    ensures agree { AllAgree drive.old.me.0.frames seat.old.me.0.pins }
{
    let lent = hand(words, seat);
    receive(words, drive, lent);
    look(words, drive, 0);
    let back = hand(words, drive);
    receive(words, seat, back);
}

/// What a memory remembers comes to the drive's seat too, and one load tells that it is true. It
/// stays there, unseen.
pub fn recall(words: &Words, seat: &mut Place, memory: &mut Place)
    requires table { (seat.old.table_id ≡ words.now.table_id)
        × (memory.old.table_id ≡ words.now.table_id) }
    requires drive { IsDriveSeat seat.old }
    ensures drive { IsSameSeat seat.old seat.new × IsDriveSeat seat.new }
    ensures known { (seat.new.me.0.frames ≡ seat.old.me.0.frames)
        × (seat.new.me.0.releases ≡ seat.old.me.0.releases) }
    ensures memory { IsSameSeat memory.old memory.new × (memory.new.me.0 ≡ memory.old.me.0) }
    ensures remembered { AllRemembered seat.old.me.0.frames memory.old.me.0.remembered }
{
    let told = remember(words, memory);
    receive(words, seat, told);
    look(words, seat, 0);
}

/// One reader more for a sealed frame, and says whether there is. Each try exchanges the word that
/// it has just loaded.
pub fn pin(words: &Words, drive: &mut Place, seat: &mut Place, frame: usize) -> bool
    requires table { (drive.old.table_id ≡ words.now.table_id)
        × (seat.old.table_id ≡ words.now.table_id) }
    requires drive { IsDriveSeat drive.old }
    requires seat { IsPinSeat seat.old }
    requires inside { frame < length drive.old.me.0.frames }
    requires sealed { (frame_at drive.old.me.0.frames frame).phase ≡ Sealed }
    ensures drive { IsSameSeat drive.old drive.new × (drive.new.me ≡ drive.old.me) }
    ensures seat { IsSameSeat seat.old seat.new }
    ensures view { MatchBool result
        (seat.new.me.0
        ≡ with_pins seat.old.me.0 (pin_of drive.old.me.0.frames frame ∷ seat.old.me.0.pins))
        (seat.new.me.0 ≡ seat.old.me.0) }
{
    for _ in 0..PIN_TRIES {
        let seen = look(words, drive, FRAME_WORDS * frame);
        if seen % (1 << 32) / 4 >= MOST_READERS {
            return false;
        }
        if gain(words, seat, frame, seen) {
            confirm(words, drive, seat);
            return true;
        }
    }
    false
}

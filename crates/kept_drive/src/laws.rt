//! Laws of what is kept: each function but the first does nothing, and its contract is the law.
ghost use Rattle.std.specs.Prelude.{◌≡◌, ◌<◌, ◌≤◌, ◌-◌, ◌^◌, ℕ, length, List, min};
ghost use mathlib.Core.List.{IsPrefix};
ghost use mathlib.Core.Option.{some};
ghost use lib.ListN.{get_elem?};
ghost use Rattle.s4_types.specs.History.{Base, History, Seen, accepted};
ghost use Rattle.s4_types.specs.declared.changes.Accepted.{Accepted};
ghost use Rattle.s4_model.specs.Numbers.{clock_of};
ghost use Rattle.s4_model.specs.Sound.{IsSound};
ghost use Rattle.s4_model.specs.State.{grown, state_of};
ghost use Rattle.drive.specs.Fields.{history_of};
ghost use Rattle.image_parts.specs.Image.{image_bytes, image_in};
ghost use Rattle.verifier.specs.Grammar.{SpellsDrive};
ghost use Rattle.verifier.specs.Opened.{TellsBase};
ghost use Rattle.verifier.specs.Seen.{parts_seen};
ghost use Rattle.kept_drive.specs.Collecting.{HasSeenMore};
ghost use Rattle.kept_drive.specs.Images.{GoesOnFrom, IsClosedOf, IsFlushedOf, IsImageOf};
ghost use Rattle.kept_drive.specs.Images.{Keeps, KeepsFrom, last_clock};

use drive::{Drive, Session};
use segment_word::Naming;
use verifier::seen_laws::an_image_sees_a_moment;

/// What two sessions of one drive have seen are beginnings of one list: of what was accepted. Both
/// have met the drive afterwards.
pub fn sessions_have_seen_one_list<J: Naming>(
    drive: &mut Drive<J>,
    one: &mut Session<J>,
    other: &mut Session<J>,
)
    ensures one { IsPrefix one.old.told.seen (accepted (history_of drive.old)) }
    ensures other { IsPrefix other.old.told.seen (accepted (history_of drive.old)) }
    ensures met_one { HasSeenMore one.old one.new }
    ensures met_other { HasSeenMore other.old other.new }
    ensures same { drive.new ≡ drive.old }
{
    drive.meet(one);
    drive.meet(other);
}

/// So a change that one of them has seen is among those that are kept by another, at the same
/// place, where as many are kept.
pub fn what_was_seen_is_kept()
    ensures { (all seen kept : List Accepted) (place : ℕ) (change : Accepted)
        → IsPrefix seen all → IsPrefix kept all → place < length kept
        → get_elem? seen place ≡ some change → get_elem? kept place ≡ some change }
{}

/// A step of a session that has come to such a history is kept where a receipt covers it: where a
/// flush has kept as many changes as were accepted in that, by a count that stops at its last
/// number, at a clock that isn't below its own.
pub fn what_is_covered_is_kept()
    ensures { (answered flushed : History) (base : Base) (all kept : List Accepted)
        (number last reach : ℕ) (bytes : List ℕ)
        → IsSound (state_of answered) → clock_of answered < 2 ^ 64
        → number ≡ min (length (accepted answered)) (2 ^ 64 - 1)
        → number ≤ length kept → clock_of answered ≤ reach
        → IsPrefix (accepted answered) all → IsPrefix kept all
        → IsFlushedOf flushed base kept last reach bytes
        → KeepsFrom base (accepted answered) (clock_of answered) bytes }
{}

/// What a flush keeps has all changes that its session has seen, at its reach, which isn't below
/// the one before.
pub fn what_is_flushed_is_kept()
    ensures kept { (history : History) (base : Base) (seen : List Accepted) (last reach : ℕ)
        (bytes : List ℕ)
        → IsFlushedOf history base seen last reach bytes → Keeps base seen reach bytes }
    ensures later { (history : History) (base : Base) (seen : List Accepted) (last reach : ℕ)
        (bytes : List ℕ)
        → IsFlushedOf history base seen last reach bytes → last ≤ reach }
{}

/// What a flush keeps has all that an earlier one kept, whose changes its session has seen too, and
/// whose reach isn't above its own.
pub fn what_is_kept_lasts()
    ensures { (history : History) (base : Base) (kept seen : List Accepted) (clock last reach : ℕ)
        (bytes : List ℕ)
        → IsPrefix kept seen → clock ≤ last → IsFlushedOf history base seen last reach bytes
        → KeepsFrom base kept clock bytes }
{}

/// What is kept at the end of a service has all changes that its session has seen, at the drive's
/// own clock where the drive has seen anything.
pub fn what_is_closed_is_kept()
    ensures kept { (history : History) (base : Base) (seen : List Accepted) (start : ℕ)
        (bytes : List ℕ)
        → IsClosedOf history base seen start bytes
        → Keeps base seen (last_clock start (clock_of history)) bytes }
    ensures own { (start clock : ℕ) → 0 < clock → last_clock start clock ≡ clock }
{}

/// So a step of a session that has come to such a history is kept then, where the drive's history
/// goes on from it.
pub fn what_was_answered_lasts()
    ensures { (answered closed : History) (base : Base) (seen : List Accepted) (start : ℕ)
        (bytes : List ℕ)
        → IsPrefix (accepted answered) seen → clock_of answered ≤ clock_of closed
        → IsClosedOf closed base seen start bytes
        → KeepsFrom base (accepted answered) (clock_of answered) bytes }
{}

/// What is kept is an image, so that `recover` refuses it only where memory is short; and a drive
/// that is opened from it goes on where the kept history ended.
pub fn what_is_kept_is_recovered()
    ensures whole { (base : Base) (changes : List Accepted) (clock : ℕ) (bytes : List ℕ)
        → Keeps base changes clock bytes → SpellsDrive bytes (image_in bytes) }
    ensures goes_on { (base : Base) (changes : List Accepted) (clock : ℕ) (bytes : List ℕ)
        (begun : Base) → Keeps base changes clock bytes → TellsBase bytes begun
        → GoesOnFrom base changes clock begun }
{}

/// An image sees a moment by its clock, floor, spans and audit rows alone: with these it is the
/// image of the history that has seen the moment, and no drive has to be opened.
pub fn an_image_alone_sees_a_moment()
    ensures { (ended : History) (bytes : List ℕ) (moment : ℕ) → moment < 2 ^ 64
        → IsSound (state_of ended) → IsImageOf ended bytes
        → IsImageOf (grown ended (Seen moment))
        (image_bytes (parts_seen (image_in bytes) moment)) }
{
    an_image_sees_a_moment();
}

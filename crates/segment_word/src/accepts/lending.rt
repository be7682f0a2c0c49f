//! Steps of two seats: a session's and the drive's, or two sessions'.
ghost use Rattle.std.specs.Prelude.{◌≡◌, ◌+◌, ◌^◌, ◌<◌, []};
ghost use mathlib.Core.List.{IsPrefix};
ghost use Rattle.s4_types.specs.History.{accepted};
ghost use Rattle.segment_word.specs.AcceptViews.{Driving, Lent, Attending, ledger_of, told_of};
ghost use Rattle.segment_word.specs.AcceptViews.{with_moment, with_change, count_of, caught_up};
ghost use Rattle.segment_word.specs.AcceptViews.{credited};
ghost use Rattle.segment_word.specs.AcceptRule.{FitsLedger, ShareNone};
ghost use Rattle.segment_word.specs.AcceptSteps.{IsSameAcceptSeat};

use crate::accepts::naming::{Passing, Taking};
use crate::accepts::steps::{Place, Word, absorb, hand, learn, note, receive, shed, take};
use s4_types::Moment;

// What the session was told comes to the drive's seat too.
fn lend(word: &Word, drive: &mut Place, session: &mut Place)
    requires table { (drive.old.table_id ≡ word.now.table_id)
        × (session.old.table_id ≡ word.now.table_id) × (word.now.table_id.words ≡ 1) }
    requires drive { drive.old.me ≡ (Driving (ledger_of drive.old.me.0), []) }
    requires session { session.old.me ≡ (Attending (told_of session.old.me.0), []) }
    ensures drive { IsSameAcceptSeat drive.old drive.new
        × (drive.new.me ≡ (Lent (ledger_of drive.old.me.0) (told_of session.old.me.0), [])) }
    ensures session { IsSameAcceptSeat session.old session.new × (session.new.me ≡ session.old.me) }
{
    let copy = hand(word, session);
    receive(word, drive, copy);
}

// What the drive's seat has of the session goes to the session, and the drive's seat is without it.
fn tell(word: &Word, drive: &mut Place, session: &mut Place)
    requires table { (drive.old.table_id ≡ word.now.table_id)
        × (session.old.table_id ≡ word.now.table_id) × (word.now.table_id.words ≡ 1) }
    requires drive { drive.old.me ≡ (Lent (ledger_of drive.old.me.0) (told_of drive.old.me.0), []) }
    requires session { session.old.me ≡ (Attending (told_of session.old.me.0), []) }
    requires its_own { (told_of drive.old.me.0).seat ≡ (told_of session.old.me.0).seat }
    ensures drive { IsSameAcceptSeat drive.old drive.new
        × (drive.new.me ≡ (Driving (ledger_of drive.old.me.0), [])) }
    ensures session { IsSameAcceptSeat session.old session.new
        × (session.new.me ≡ (Attending (told_of drive.old.me.0), [])) }
{
    let told = hand(word, drive);
    receive(word, session, told);
}

/// The session sees all accepted changes.
pub fn meet(word: &Word, drive: &mut Place, session: &mut Place)
    requires table { (drive.old.table_id ≡ word.now.table_id)
        × (session.old.table_id ≡ word.now.table_id) × (word.now.table_id.words ≡ 1) }
    requires drive { (drive.old.id ≡ 0)
        × (drive.old.me ≡ (Driving (ledger_of drive.old.me.0), [])) }
    requires session { session.old.me ≡ (Attending (told_of session.old.me.0), []) }
    ensures drive { IsSameAcceptSeat drive.old drive.new × (drive.new.me ≡ drive.old.me) }
    ensures session { IsSameAcceptSeat session.old session.new
        × (session.new.me
        ≡ (Attending (caught_up (ledger_of drive.old.me.0) (told_of session.old.me.0)), [])) }
    ensures grows { IsPrefix (told_of session.old.me.0).seen
        (accepted (ledger_of drive.old.me.0).history) }
    ensures fits { FitsLedger (ledger_of drive.old.me.0) (told_of session.old.me.0)
        × FitsLedger (ledger_of drive.old.me.0)
        (caught_up (ledger_of drive.old.me.0) (told_of session.old.me.0)) }
{
    lend(word, drive, session);
    learn(word, drive);
    tell(word, drive, session);
}

/// The change is accepted for the session, which sees all accepted changes. Gives the number of the
/// change.
pub fn accept<C: Taking>(word: &Word, drive: &mut Place, session: &mut Place) -> u64
    requires table { (drive.old.table_id ≡ word.now.table_id)
        × (session.old.table_id ≡ word.now.table_id) × (word.now.table_id.words ≡ 1) }
    requires drive { (drive.old.id ≡ 0)
        × (drive.old.me ≡ (Driving (ledger_of drive.old.me.0), [])) }
    requires session { session.old.me ≡ (Attending (told_of session.old.me.0), []) }
    requires room { count_of (ledger_of drive.old.me.0) + 1 < 2 ^ 64 }
    ensures drive { IsSameAcceptSeat drive.old drive.new
        × (drive.new.me ≡ (Driving (ledger_of drive.new.me.0), [])) }
    ensures ledger { ledger_of drive.new.me.0
        ≡ with_change (ledger_of drive.old.me.0) (told_of session.old.me.0).seat C.moment C.change }
    ensures session { IsSameAcceptSeat session.old session.new
        × (session.new.me
        ≡ (Attending (credited (ledger_of drive.new.me.0) (told_of session.old.me.0)), [])) }
    ensures grows { IsPrefix (told_of session.old.me.0).seen
        (accepted (ledger_of drive.new.me.0).history) }
    ensures fits { FitsLedger (ledger_of drive.old.me.0) (told_of session.old.me.0)
        × FitsLedger (ledger_of drive.new.me.0)
        (credited (ledger_of drive.new.me.0) (told_of session.old.me.0)) }
    ensures number { result ≡ count_of (ledger_of drive.new.me.0) }
{
    lend(word, drive, session);
    let before = take::<C>(word, drive);
    tell(word, drive, session);
    before + 1
}

/// A moment is seen.
pub fn see<T: Passing>(word: &Word, drive: &mut Place, moment: Moment)
    requires named { T.now ≡ moment }
    requires table { (drive.old.table_id ≡ word.now.table_id) × (word.now.table_id.words ≡ 1) }
    requires drive { (drive.old.id ≡ 0)
        × (drive.old.me ≡ (Driving (ledger_of drive.old.me.0), [])) }
    ensures drive { IsSameAcceptSeat drive.old drive.new }
    ensures view { drive.new.me ≡ (Driving (with_moment (ledger_of drive.old.me.0) moment), []) }
{
    note::<T>(word, drive);
}

/// One session's seat ends beside another one's, which is as it was. No number is both sessions'
/// own: the one takes the other in, as only another seat can be, and a look at the word then tells
/// it.
pub fn end_beside(word: &Word, stays: &mut Place, ends: Place)
    requires table { (stays.old.table_id ≡ word.now.table_id)
        × (ends.table_id ≡ word.now.table_id) × (word.now.table_id.words ≡ 1) }
    requires stays { stays.old.me ≡ (Attending (told_of stays.old.me.0), []) }
    requires ends { ends.me ≡ (Attending (told_of ends.me.0), []) }
    ensures stays { IsSameAcceptSeat stays.old stays.new × (stays.new.me ≡ stays.old.me) }
    ensures none { ShareNone (told_of stays.old.me.0) (told_of ends.me.0) }
{
    absorb(word, stays, ends);
    shed(word, stays);
}

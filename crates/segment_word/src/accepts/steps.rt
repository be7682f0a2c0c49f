//! The single steps on the accept word, each by one seat.
ghost use Rattle.std.specs.Prelude.{◌≡◌, ◌+◌, ◌^◌, ◌<◌, []};
ghost use mathlib.Core.Option.{none};
ghost use Rattle.atomic_table.specs.Table.{step};
ghost use Rattle.segment_word.specs.AcceptViews.{Driving, Lent, Attending, Beside, Carried, Told};
ghost use Rattle.segment_word.specs.AcceptViews.{begun, blank_base, ledger_of, told_of, guest_of};
ghost use Rattle.segment_word.specs.AcceptViews.{with_moment, count_of, new_session};
ghost use Rattle.segment_word.specs.AcceptSteps.{TakesChange, Learns, CountsChanges};
ghost use Rattle.segment_word.specs.AcceptSteps.{IsSameAcceptSeat, IsFor, unlent, joined_accepts};
ghost use Rattle.segment_word.specs.AcceptRule.{ShareNone};

use crate::accepts::naming::{Naming, Passing, Taking};
use crate::accepts::plays::{Absorb, Begin, Come, Count, Hand, Learn, Note, Receive, Shed, Take};
use crate::accepts::rule::{Known, OneHistory};
use atomic_table::{Seat, Shared};

pub type Word = Shared<(), Known, (), OneHistory>;

pub type Place = Seat<(), Known>;

/// The history begins with its base.
pub fn begin<J: Naming>(word: &Word, seat: &mut Place)
    requires table { (seat.old.table_id ≡ word.now.table_id) × (word.now.table_id.words ≡ 1) }
    requires drive { (seat.old.id ≡ 0) × (seat.old.me ≡ (Driving (begun blank_base), [])) }
    ensures seat { IsSameAcceptSeat seat.old seat.new }
    ensures view { seat.new.me ≡ (Driving (begun J.base), []) }
{
    word.load::<Begin<J>>(seat, 0);
}

/// A new session comes.
pub fn come(word: &Word) -> Place
    requires { word.now.table_id.words ≡ 1 }
    ensures seat { result.table_id ≡ word.now.table_id }
    ensures view { result.me ≡ (Attending (new_session (told_of result.me.0).seat), []) }
{
    let (_, seat) = word.load_new_seat::<Come>(0);
    seat
}

/// The change is accepted for the session that is lent. Gives the number of changes accepted
/// before.
pub fn take<C: Taking>(word: &Word, seat: &mut Place) -> u64
    requires table { (seat.old.table_id ≡ word.now.table_id) × (word.now.table_id.words ≡ 1) }
    requires drive { (seat.old.id ≡ 0)
        × (seat.old.me ≡ (Lent (ledger_of seat.old.me.0) (told_of seat.old.me.0), [])) }
    requires room { count_of (ledger_of seat.old.me.0) + 1 < 2 ^ 64 }
    ensures seat { IsSameAcceptSeat seat.old seat.new }
    ensures view { TakesChange C.moment C.change (step word.now.table_id.slots 0 1 0 none)
        seat.old.me result seat.new.me }
{
    word.fetch_add::<Take<C>>(seat, 0, 1)
}

/// The session that is lent sees all accepted changes. Gives their number.
pub fn learn(word: &Word, seat: &mut Place) -> u64
    requires table { (seat.old.table_id ≡ word.now.table_id) × (word.now.table_id.words ≡ 1) }
    requires drive { (seat.old.id ≡ 0)
        × (seat.old.me ≡ (Lent (ledger_of seat.old.me.0) (told_of seat.old.me.0), [])) }
    ensures seat { IsSameAcceptSeat seat.old seat.new }
    ensures view { Learns (step word.now.table_id.slots 0 0 0 none) seat.old.me result seat.new.me }
{
    word.load::<Learn>(seat, 0)
}

/// A moment is seen.
pub fn note<T: Passing>(word: &Word, seat: &mut Place)
    requires table { (seat.old.table_id ≡ word.now.table_id) × (word.now.table_id.words ≡ 1) }
    requires drive { (seat.old.id ≡ 0) × (seat.old.me ≡ (Driving (ledger_of seat.old.me.0), [])) }
    ensures seat { IsSameAcceptSeat seat.old seat.new }
    ensures view { seat.new.me ≡ (Driving (with_moment (ledger_of seat.old.me.0) T.now), []) }
{
    word.load::<Note<T>>(seat, 0);
}

/// The number of accepted changes.
pub fn count(word: &Word, seat: &mut Place) -> u64
    requires table { (seat.old.table_id ≡ word.now.table_id) × (word.now.table_id.words ≡ 1) }
    requires drive { seat.old.id ≡ 0 }
    ensures seat { IsSameAcceptSeat seat.old seat.new }
    ensures view { CountsChanges (step word.now.table_id.slots 0 0 0 none) seat.old.me result
        seat.new.me }
{
    word.load::<Count>(seat, 0)
}

/// What a session was told goes to a new seat.
pub fn hand(word: &Word, seat: &mut Place) -> Place
    requires table { (seat.old.table_id ≡ word.now.table_id) × (word.now.table_id.words ≡ 1) }
    ensures seat { IsSameAcceptSeat seat.old seat.new }
    ensures view { seat.new.me ≡ (unlent seat.old.me.0, seat.old.me.1) }
    ensures other { (result.table_id ≡ seat.old.table_id)
        × (result.me ≡ (Carried (told_of seat.old.me.0), [])) }
{
    word.split_seat::<Hand>(seat)
}

/// What a session was told comes from another seat, which is spent.
pub fn receive(word: &Word, seat: &mut Place, other: Place)
    requires table { (seat.old.table_id ≡ word.now.table_id)
        × (other.table_id ≡ word.now.table_id) × (word.now.table_id.words ≡ 1) }
    requires other { other.me ≡ (Carried (told_of other.me.0), []) }
    requires for_it { IsFor (told_of other.me.0) seat.old.me.0 }
    ensures seat { IsSameAcceptSeat seat.old seat.new }
    ensures view { seat.new.me ≡ (joined_accepts seat.old.me.0 other.me.0, seat.old.me.1) }
{
    word.join_seat::<Receive>(seat, other);
}

/// A session's seat takes in another session's, which is spent.
pub fn absorb(word: &Word, seat: &mut Place, other: Place)
    requires table { (seat.old.table_id ≡ word.now.table_id)
        × (other.table_id ≡ word.now.table_id) × (word.now.table_id.words ≡ 1) }
    requires session { seat.old.me ≡ (Attending (told_of seat.old.me.0), []) }
    requires other { other.me ≡ (Attending (told_of other.me.0), []) }
    ensures seat { IsSameAcceptSeat seat.old seat.new }
    ensures view { seat.new.me ≡ (Beside (told_of seat.old.me.0) (told_of other.me.0), []) }
{
    word.join_seat::<Absorb>(seat, other);
}

/// A session's seat that took in another's is as it was before that. The two sessions share no
/// number.
pub fn shed(word: &Word, seat: &mut Place)
    requires table { (seat.old.table_id ≡ word.now.table_id) × (word.now.table_id.words ≡ 1) }
    requires both { seat.old.me ≡ (Beside (told_of seat.old.me.0) (guest_of seat.old.me.0), []) }
    ensures seat { IsSameAcceptSeat seat.old seat.new }
    ensures view { seat.new.me ≡ (Attending (told_of seat.old.me.0), []) }
    ensures none { ShareNone (told_of seat.old.me.0) (guest_of seat.old.me.0) }
{
    word.load::<Shed>(seat, 0);
}

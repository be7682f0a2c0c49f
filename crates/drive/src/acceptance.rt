//! Accepting a change in a drive's history.
ghost use Rattle.std.specs.Prelude.{◌≡◌, ◌+◌, ◌^◌, ◌<◌};
ghost use Rattle.s4_types.specs.declared.changes.Change.{Change as TheChange};
ghost use Rattle.segment_word.specs.AcceptViews.{count_of, with_change, credited};
ghost use Rattle.segment_word.specs.AcceptRule.{FitsLedger};

use s4_types::{Change, Moment};
use segment_word::Naming;
use segment_word::accepts::{HistorySeat, SessionSeat, Taking};
use std::marker::Brand;

/// The change that `C` names is accepted.
fn accept_named<J: Naming, C: Taking>(
    history: &mut HistorySeat<J>,
    session: &mut SessionSeat<J>,
    moment: Moment,
    change: &Change,
)
    requires named { (C.moment ≡ moment) × (C.change ≡ change.now) }
    requires room { count_of history.old + 1 < 2 ^ 64 }
    ensures history { history.new ≡ with_change history.old session.old.seat moment change.now }
    ensures session { session.new ≡ credited history.new session.old }
    ensures before { FitsLedger history.old session.old }
    ensures after { FitsLedger history.new session.new }
{
    let _ = moment;
    let _ = change;
    history.accept::<C>(session);
}

/// A change is accepted for a session, at a moment: the history has it from now on, and the session
/// has seen all accepted changes, this one as its own.
pub(crate) fn accept<J: Naming>(
    history: &mut HistorySeat<J>,
    session: &mut SessionSeat<J>,
    moment: Moment,
    change: &Change,
)
    requires { count_of history.old + 1 < 2 ^ 64 }
    ensures history { history.new ≡ with_change history.old session.old.seat moment change.now }
    ensures session { session.new ≡ credited history.new session.old }
    ensures before { FitsLedger history.old session.old }
    ensures after { FitsLedger history.new session.new }
{
    accept_named::<J, Brand>(history, session, moment, change);
}

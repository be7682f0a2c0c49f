//! The drive's seat, which knows the history.
ghost use Rattle.std.specs.Prelude.{◌≡◌, ◌+◌, ◌^◌, ◌<◌, length};
ghost use mathlib.Core.List.{IsPrefix};
ghost use Rattle.s4_types.specs.History.{accepted};
ghost use Rattle.segment_word.specs.AcceptViews.{count_of, with_change, with_moment, credited};
ghost use Rattle.segment_word.specs.AcceptViews.{caught_up};
ghost use Rattle.segment_word.specs.AcceptRule.{FitsLedger, ShareNone, AreNumbered};

use crate::accepts::board::AcceptBoard;
use crate::accepts::lending::{accept, end_beside, meet, see};
use crate::accepts::naming::{Naming, Taking};
use crate::accepts::sessions::SessionSeat;
use crate::accepts::steps::{Place, count};
use s4_types::Moment;
use std::alloc::Global;
use std::marker::{Brand, Model, PhantomData};
use std::sync::Arc;

/// The drive's seat at the accept word. Contracts see its ledger: the history, and for which seat
/// each change in it was accepted. There is one, and only it makes the history grow.
#[derive(Drop)]
pub struct HistorySeat<J: Naming> {
    pub(crate) board: Arc<AcceptBoard, Global>,
    pub(crate) seat: Place,
    pub(crate) of: PhantomData<J>,
}

impl<J: Naming> Model for HistorySeat<J> {
    ghost use Rattle.std.specs.Prelude.{◌≡◌};
    ghost use Rattle.std.specs.Arc.{arc_value};
    ghost use Rattle.segment_word.specs.AcceptViews.{Ledger, ledger_of};
    ghost use Rattle.segment_word.specs.AcceptHandles.{IsHistorySeat};

    ghost Value = { Ledger };

    ghost view = { λ d. ledger_of d.seat.me.0 };

    ghost invariant = { λ d. ((arc_value d.board).table.shared.table_id ≡ J.accepts) × IsHistorySeat J.accepts J.base d.seat };
}

impl<J: Naming> HistorySeat<J> {
    /// How many changes were accepted. They are numbered from 1.
    pub fn count(&mut self) -> u64
        ensures number { result ≡ count_of self.old }
        ensures same { self.new ≡ self.old }
        ensures base { self.new.history.base ≡ J.base }
        ensures numbered { AreNumbered 0 (accepted self.old.history) }
        ensures owned { length self.old.owners ≡ count_of self.old }
    {
        count(&self.board.table.shared, &mut self.seat)
    }

    /// A moment is seen. No change is accepted by that.
    pub fn see(&mut self, moment: Moment)
        ensures { self.new ≡ with_moment self.old moment }
    {
        see::<Brand>(&self.board.table.shared, &mut self.seat, moment);
    }

    /// The session has seen all accepted changes afterwards.
    pub fn meet(&mut self, session: &mut SessionSeat<J>)
        ensures same { self.new ≡ self.old }
        ensures session { session.new ≡ caught_up self.old session.old }
        ensures grows { IsPrefix session.old.seen session.new.seen }
        ensures before { FitsLedger self.old session.old }
        ensures after { FitsLedger self.new session.new }
    {
        let word = &self.board.table.shared;
        meet(word, &mut self.seat, &mut session.seat);
    }

    /// The change that `C` names is accepted for the session, at its moment: the history grows by
    /// just that. The session has seen all accepted changes afterwards, this one as its own. Gives
    /// the number of the change, counted from 1.
    pub fn accept<C: Taking>(&mut self, session: &mut SessionSeat<J>) -> u64
        requires room { count_of self.old + 1 < 2 ^ 64 }
        ensures history { self.new ≡ with_change self.old session.old.seat C.moment C.change }
        ensures session { session.new ≡ credited self.new session.old }
        ensures grows { IsPrefix session.old.seen session.new.seen }
        ensures before { FitsLedger self.old session.old }
        ensures after { FitsLedger self.new session.new }
        ensures number { result ≡ count_of self.new }
    {
        let word = &self.board.table.shared;
        accept::<C>(word, &mut self.seat, &mut session.seat)
    }

    /// Ends a session, and gives its seat back. No number is its own and also that of the session
    /// that stays, which is as before.
    pub fn end_beside(&self, stays: &mut SessionSeat<J>, ends: SessionSeat<J>)
        ensures none { ShareNone stays.old ends }
        ensures same { stays.new ≡ stays.old }
    {
        let SessionSeat {
            seat,
            permit,
            of: _,
        } = ends;
        end_beside(&self.board.table.shared, &mut stays.seat, seat);
        drop(permit);
    }
}

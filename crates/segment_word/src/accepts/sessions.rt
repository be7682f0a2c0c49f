//! Seats for sessions.
ghost use Rattle.std.specs.Prelude.{◌≡◌, [], IfOk, IfErr};
ghost use Rattle.std.specs.Arc.{arc_value};
ghost use Rattle.s4_types.specs.declared.refusals.Refusal.TheVariants.{Busy};

use crate::accepts::board::AcceptBoard;
use crate::accepts::naming::Naming;
use crate::accepts::steps::{Place, come};
use s4_types::Refusal;
use std::alloc::Global;
use std::marker::{Model, PhantomData};
use std::sync::Arc;
use std::sync::atomic::Ordering::SeqCst;

/// One of the seats. Dropping it gives the seat back.
pub struct Permit {
    board: Arc<AcceptBoard, Global>,
}

impl Drop for Permit {
    fn drop(self) {
        let Self { board } = self;
        board.free.fetch_add(1, SeqCst);
    }
}

/// The seats at the accept word of one drive, from which sessions have theirs.
#[derive(Drop)]
pub struct Sessions<J: Naming> {
    pub(crate) board: Arc<AcceptBoard, Global>,
    pub(crate) of: PhantomData<J>,
    ghost of_drive: { (arc_value board).table.shared.table_id ≡ J.accepts },
}

/// A session's seat at the accept word: what the session was told. Contracts see it as that.
/// Dropping it gives the seat back.
#[derive(Drop)]
pub struct SessionSeat<J: Naming> {
    pub(crate) seat: Place,
    pub(crate) permit: Permit,
    pub(crate) of: PhantomData<J>,
}

impl<J: Naming> Model for SessionSeat<J> {
    ghost use Rattle.segment_word.specs.AcceptViews.{Told, told_of};
    ghost use Rattle.segment_word.specs.AcceptHandles.{IsSessionSeat};

    ghost Value = { Told };

    ghost view = { λ s. told_of s.seat.me.0 };

    ghost invariant = { λ s. IsSessionSeat J.accepts s.seat };
}

impl<J: Naming> Sessions<J> {
    /// A seat for a session that has seen nothing yet. `SEATS` can be had at a time, and one that
    /// was dropped again.
    ///
    /// Busy where all are in use, or where the count of those that share the memory is full.
    pub fn seat(&self) -> Result<SessionSeat<J>, Refusal>
        ensures session { IfOk result (λ s. (s.seen ≡ []) × (s.mine ≡ [])) }
        ensures busy { IfErr result (λ e. e ≡ Busy) }
    {
        let Ok(board) = Arc::try_clone(&self.board) else {
            return Err(Refusal::Busy);
        };
        let taken = board
            .free
            .fetch_update(SeqCst, SeqCst, |free| free.checked_sub(1));
        if taken.is_err() {
            return Err(Refusal::Busy);
        }
        let permit = Permit { board };
        let seat = come(&permit.board.table.shared);
        Ok(SessionSeat {
            seat,
            permit,
            of: PhantomData,
        })
    }
}

//! Those who take steps beside each other.
ghost use Rattle.std.specs.Prelude.{◌≡◌, None};
ghost use Rattle.interleaving.specs.Moving.{Still};

use crate::moves::Moves;
use drive::Session;
use segment_word::Naming;
use std::marker::Model;
use time_read::ReadPlan;

/// What an actor has of a move.
#[derive(Drop)]
pub(crate) enum Carried<P: Drop, Q: Drop> {
    Nothing,
    /// A plan.
    Plan(P),
    /// A move that was copied.
    Moved(Q),
}

/// An actor: a session, with at most one plan of a read and at most one move, which is planned or
/// copied. Contracts see all three. Dropping it gives its session's seat back and ends its pins.
pub struct Actor<J: Naming, M: Moves<J>> {
    pub(crate) session: Session<J>,
    pub(crate) plan: Option<ReadPlan>,
    pub(crate) carried: Carried<M::Plan, M::Moved>,
}

// Written by hand, so that an owner lets it go by one call.
impl<J: Naming, M: Moves<J>> Drop for Actor<J, M> {
    fn drop(self) {
        let Actor {
            session: _,
            plan: _,
            carried: _,
        } = self;
    }
}

impl<J: Naming, M: Moves<J>> Model for Actor<J, M> {
    ghost use Rattle.interleaving.specs.Actors.{ActorFields};
    ghost use Rattle.interleaving.specs.Carrying.{moving_of};

    ghost Value = { ActorFields };

    ghost view = { λ a. record { session = a.session; plan = a.plan; moving = moving_of M.planned M.copied a.carried } };
}

impl<J: Naming, M: Moves<J>> Actor<J, M> {
    /// An actor with this session, and with no plan and no move.
    pub fn new(session: Session<J>) -> Self
        ensures { result ≡ record { session = session; plan = None; moving = Still } }
    {
        Actor {
            session,
            plan: None,
            carried: Carried::Nothing,
        }
    }

    /// Its session. What it has of plans and moves ends.
    pub fn into_session(self) -> Session<J>
        ensures { result ≡ self.session }
    {
        let Actor {
            session,
            plan: _,
            carried: _,
        } = self;
        session
    }
}

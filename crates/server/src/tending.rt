//! What cleaner and copier do to a drive under its lock.
ghost use Rattle.std.specs.Prelude.{◌≡◌, true};
ghost use Rattle.server.specs.Upkeep.{SharedTurn, SharedVisit, SharedSweep};
ghost use Rattle.server.specs.Moving.{SharedPlan, SharedCommit};
ghost use Rattle.server.specs.Gathering.{SharedGather};

use crate::accounts::Running;
use crate::agenda::{History, history_left};
use crate::shared::SharedDrive;
use drive::Session;
use history_cleaner::{Rounds, Turn, clean_audit, sweep, visit};
use s4_types::{ObjectId, Refusal};
use segment_copier::{
    Candidate, MovePlan, Moved, candidate, commit, free_frames, gather, plan_move,
};
use serving::Clock;
use std::alloc::Global;

impl<J: Running, C: Clock> SharedDrive<J, C> {
    /// One turn of a round of the cleaner over all objects.
    pub(crate) fn turn(&mut self, alloc: Global, rounds: &mut Rounds) -> Turn
        requires { J.has_upkeep ≡ true }
        ensures { SharedTurn J.base rounds.old.passed result rounds.new.passed }
    {
        self.drive.rules();
        rounds.turn(alloc, &mut self.drive)
    }

    /// The turn of one object, whichever it is.
    pub(crate) fn visit(&mut self, alloc: Global, object: ObjectId) -> Result<(), Refusal>
        requires { J.has_upkeep ≡ true }
        ensures { SharedVisit J.base object }
    {
        self.drive.rules();
        visit(alloc, &mut self.drive, object)
    }

    /// Frames are emptied, and the audit's rows below the floor are dropped.
    pub(crate) fn sweep(&mut self)
        requires { J.has_upkeep ≡ true }
        ensures { SharedSweep J.base }
    {
        self.drive.rules();
        sweep(&mut self.drive);
        clean_audit(&mut self.drive);
    }

    /// The history that an object has left which was cleaned, if it has any.
    pub(crate) fn history_left(&mut self, object: ObjectId) -> Option<History>
        requires { J.has_upkeep ≡ true }
    {
        history_left(&mut self.drive, object)
    }

    /// How many frames are free.
    pub(crate) fn free_frames(&mut self) -> u16 {
        free_frames(&mut self.drive)
    }

    /// What the copier is to move next, and a plan of that, where there is something to be moved.
    /// Its session has met the drive before.
    pub(crate) fn plan(
        &mut self,
        alloc: Global,
        session: &mut Session<J>,
    ) -> Result<Option<(Candidate, MovePlan<J>)>, Refusal>
        ensures { SharedPlan J.base session.old result session.new }
    {
        self.drive.rules();
        self.drive.meet(session);
        let Some(next) = candidate(&mut self.drive)? else {
            return Ok(None);
        };
        let plan = plan_move(alloc, &mut self.drive, session, next.frame, next.object)?;
        Ok(Some((next, plan)))
    }

    /// Puts a copied move in place. The copier's session has met the drive before.
    pub(crate) fn put(
        &mut self,
        alloc: Global,
        session: &mut Session<J>,
        moved: Moved<J>,
    ) -> Result<(), Refusal>
        requires { J.has_upkeep ≡ true }
        ensures { SharedCommit J.base session.old moved.what result session.new }
    {
        self.drive.rules();
        self.drive.meet(session);
        commit(alloc, &mut self.drive, moved)
    }

    /// One step of gathering.
    pub(crate) fn gather(
        &mut self,
        alloc: Global,
        session: &mut Session<J>,
    ) -> Result<Option<Candidate>, Refusal>
        requires { J.has_upkeep ≡ true }
        ensures { SharedGather J.base result }
    {
        self.drive.rules();
        gather(alloc, &mut self.drive, session)
    }
}

//! The segment copier beside sessions: it has the lock while a move is planned and while it is put
//! in place, and copies without it.
ghost use Rattle.std.specs.Prelude.{◌≡◌, ◌+◌, ◌^◌, ◌<◌, MatchResult, cond, true};
ghost use Rattle.s4_types.specs.declared.refusals.Refusal.TheVariants.{Busy};
ghost use Rattle.server.specs.Moving.{SharedMove, IsMoving, is_planned, is_moved};

use crate::accounts::Running;
use crate::gate::{Gate, UpkeepStep};
use crate::locked::{enter, plan_next, put_in_place};
use crate::pace::Pace;
use crate::shared::SharedDrive;
use drive::Session;
use s4_types::{Refusal, Role};
use segment_copier::Candidate;
use serving::Clock;
use std::alloc::Global;
use std::sync::{Mutex, Wait};

/// What a step of the copier came to.
#[derive(Clone, Copy)]
pub enum MoveStep {
    /// No object was to leave a frame.
    Idle,
    /// What was to be moved was not found, or its move not planned, for this reason.
    Unplanned(Refusal),
    /// A move was planned and not put in place, for this reason.
    Unmoved(Candidate, Refusal),
    /// A move was put in place.
    Moved(Candidate),
}

/// How many moves the copier made.
#[derive(Clone, Copy, PartialEq, Eq)]
pub struct Moves {
    /// How many were planned.
    pub planned: u64,
    /// How many of these were put in place.
    pub moved: u64,
}

impl Moves {
    /// One step more was taken.
    fn count(&mut self, step: &MoveStep)
        requires { (self.old.planned + 1 < 2 ^ 64) × (self.old.moved + 1 < 2 ^ 64) }
        ensures planned { self.new.planned ≡ self.old.planned + cond (is_planned step.now) 1 0 }
        ensures moved { self.new.moved ≡ self.old.moved + cond (is_moved step.now) 1 0 }
    {
        match step {
            MoveStep::Idle | MoveStep::Unplanned(_) => {}
            MoveStep::Unmoved(..) => self.planned += 1,
            MoveStep::Moved(_) => {
                self.planned += 1;
                self.moved += 1;
            }
        }
    }
}

/// The move that is to be made next: planned under the lock, copied without it, which the plan's
/// pin allows, and put in place under the lock. A refusal ends the step.
fn move_next<J: Running, C: Clock>(
    rt: &impl Wait,
    alloc: Global,
    drive: &Mutex<SharedDrive<J, C>>,
    pace: &Pace,
    session: &mut Session<J>,
) -> MoveStep
    requires { J.has_upkeep ≡ true }
    ensures { SharedMove J.base session.old result session.new }
{
    let (next, plan) = match plan_next(rt, alloc, drive, pace, session) {
        Ok(Some(found)) => found,
        Ok(None) => return MoveStep::Idle,
        Err(refusal) => return MoveStep::Unplanned(refusal),
    };
    let moved = match plan.copy(alloc) {
        Ok(moved) => moved,
        Err(refusal) => return MoveStep::Unmoved(next, refusal),
    };
    match put_in_place(rt, alloc, drive, pace, session, moved) {
        Ok(()) => MoveStep::Moved(next),
        Err(refusal) => MoveStep::Unmoved(next, refusal),
    }
}

/// Moves what is to be moved, one step and then others while room is short, until all sessions have
/// ended. The step that is under way then is taken to its end. Busy where the drive has no seat for
/// the copier's session: nothing is moved then.
#[tactic(auto, using(crate::proofs::Stepping::moved_first, crate::proofs::Stepping::moved_more, crate::proofs::Stepping::moved_ends))]
fn take_steps<J: Running, C: Clock, R: Wait, G: Gate>(
    rt: &R,
    alloc: Global,
    drive: &Mutex<SharedDrive<J, C>>,
    pace: &Pace,
    gate: &G,
) -> Result<Moves, Refusal>
    requires { J.has_upkeep ≡ true }
    ensures { MatchResult result (IsMoving J.base) (λ e. e ≡ Busy) }
{
    let mut session = enter(rt, drive, Some(pace), Role::Client)?;
    let mut moves = Moves {
        planned: 0,
        moved: 0,
    };
    for _turn in rt.forever() {
        gate.upkeep(UpkeepStep::StepBegins);
        let seen = pace.begin_step(rt);
        let step = move_next(rt, alloc, drive, pace, &mut session);
        moves.count(&step);
        let has_moved = matches!(step, MoveStep::Moved(_));
        gate.upkeep(UpkeepStep::CopierRests);
        if pace.await_step(rt, seen, has_moved) {
            return Ok(moves);
        }
    }
    unreachable!()
}

/// The copier beside sessions, on a thread of its own: it moves what is to be moved, while room is
/// short, until all sessions have ended. Busy where the drive has no seat for its session.
pub fn keep_moving<J: Running, C: Clock, R: Wait, G: Gate>(
    rt: &R,
    alloc: Global,
    drive: &Mutex<SharedDrive<J, C>>,
    pace: &Pace,
    gate: &G,
) -> Result<Moves, Refusal>
    requires { J.has_upkeep ≡ true }
    ensures { MatchResult result (IsMoving J.base) (λ e. e ≡ Busy) }
{
    let moves = take_steps(rt, alloc, drive, pace, gate);
    gate.upkeep(UpkeepStep::CopierEnds);
    pace.end_moves(rt);
    gate.upkeep(UpkeepStep::CopierReturns);
    moves
}

//! What happens between the steps of sessions and of upkeep.

/// A step that cleaner, copier or the sessions are about to take.
#[derive(Clone, Copy, Debug, PartialEq, Eq)]
pub enum UpkeepStep {
    /// The cleaner begins a round.
    RoundBegins,
    /// The cleaner takes the first turn of a round that has begun.
    FirstTurn,
    /// The cleaner ends a round, all of whose turns were taken.
    RoundEnds,
    /// The cleaner rests until another round is needed.
    CleanerRests,
    /// The copier looks what there is to be moved.
    StepBegins,
    /// The copier rests until it may find something again.
    CopierRests,
    /// The copier ends.
    CopierEnds,
    /// The copier has ended.
    CopierReturns,
    /// All sessions have ended, which isn't known yet.
    SessionsEnd,
    /// All sessions have ended, which is known.
    SessionsReturn,
}

/// What is called while sessions are served, never with a lock held. Sessions and the calls of each
/// are counted from 1.
pub trait Gate {
    /// A session's read was planned and is not fetched yet, or its plan was refused.
    fn between(&self, session: usize, call: u64);

    /// The reply to a session's call is made.
    fn answered(&self, session: usize, call: u64);

    /// A step beside the sessions is about to be taken. It is taken once this returns.
    fn upkeep(&self, step: UpkeepStep);
}

/// A gate at which nobody waits.
#[derive(Clone, Copy)]
pub struct Open;

impl Gate for Open {
    fn between(&self, _session: usize, _call: u64) {}

    fn answered(&self, _session: usize, _call: u64) {}

    fn upkeep(&self, _step: UpkeepStep) {}
}

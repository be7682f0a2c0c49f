//! What a step is answered.
ghost use Rattle.std.specs.Prelude.{◌≡◌};
ghost use Rattle.interleaving.specs.Acting.{answer_to};

use s4_types::{Bytes, Refusal, Reply};

/// The answer to a step.
#[derive(Drop)]
pub enum Answer {
    /// To a request: its reply.
    Reply(Reply),
    /// To a fetch: the bytes that its plan named.
    Bytes(Bytes),
    /// To all else, where it was done.
    Done,
    /// The step was refused.
    Refused(Refusal),
    /// There is no such actor, or it has no plan of the kind that the step names. Nothing has
    /// changed.
    Idle,
}

/// The answer to a call that came to this.
pub(crate) fn answer_to(done: Result<(), Refusal>) -> Answer
    ensures { result ≡ answer_to done }
{
    match done {
        Ok(()) => Answer::Done,
        Err(refusal) => Answer::Refused(refusal),
    }
}

//! What keeps all that was accepted, and what shows that.
ghost use Rattle.std.specs.Prelude.{◌≡◌, ℕ};

use crate::over::Over;

/// What shows how much is kept. A value of it is made where that is so, and nowhere else.
pub trait Receipt {
    // How many accepted changes are kept.
    ghost number: { Self → ℕ };

    // The clock of what is kept.
    ghost reach: { Self → ℕ };

    fn number(&self) -> u64
        ensures { result ≡ number self.now };

    fn reach(&self) -> u64
        ensures { result ≡ reach self.now };

    /// The same once more.
    fn again(&self) -> Self
        ensures { result ≡ self.now };
}

/// Why a flush gave no receipt.
#[derive(Clone, Copy)]
pub enum FlushError {
    /// Memory or space was short. What was kept still is, and another flush may be tried.
    Short,
    /// What was written may be lost, and nothing more may be asked of where it was written to.
    Failed,
}

/// What keeps all that was accepted until it is called.
pub trait Flush<T> {
    fn flush(&mut self) -> Result<T, FlushError>;

    /// Memory or space is short, and a flush is tried again each second from now on: so often more
    /// where the service is to stop, else without end.
    fn announce_shortage(&mut self, left: Option<u64>);
}

/// What keeps all that was accepted a last time, where no receipt `T` is given any more.
pub trait LastFlush<T, U> {
    fn flush_last(&mut self, over: &Over<T>) -> Result<U, FlushError>;

    /// As that of `Flush`.
    fn announce_shortage(&mut self, left: Option<u64>);
}

/// Nothing is kept any more, since a flush has failed or the service has ended.
#[derive(Clone, Copy)]
pub struct NotKept;

/// A step of a session that waits, which is about to be taken.
#[derive(Clone, Copy, PartialEq, Eq)]
pub enum CommitStep {
    /// It asks whether it may go on.
    Asks,
    /// It is the one that flushes, and waits a moment for others.
    Gathers,
    /// It flushes for all that wait.
    Flushes,
    /// Its flush has ended well, which nobody knows yet.
    Keeps,
    /// Its flush lacked memory or space, which nobody knows yet.
    PutsOff,
    /// Its flush has failed, which nobody knows yet.
    Fails,
    /// It goes on.
    GoesOn,
}

/// What is called before each step, never with a lock held. The step is taken once this returns.
pub trait Steps {
    fn before(&self, step: CommitStep);
}

/// Steps at which nobody waits.
#[derive(Clone, Copy)]
pub struct Open;

impl Steps for Open {
    fn before(&self, _step: CommitStep) {}
}

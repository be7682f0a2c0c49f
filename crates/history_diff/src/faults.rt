//! Why differences weren't told.
ghost use Rattle.std.specs.Prelude.{◌≡◌};
ghost use Rattle.history_diff.specs.declared.faults.Stop.TheVariants.{NoMemory, Refused};

use s4_types::{Moment, Refusal};
use std::alloc::AllocError;

/// Why an output ended early. What was written by then is a beginning of it.
#[derive(Clone, Copy)]
pub enum Stop {
    /// Memory was refused.
    NoMemory,
    /// The drive refused a session or a read: for lack of a seat, or of memory.
    Refused(Refusal),
    /// The writer failed.
    WriteFailed,
}

impl From<AllocError> for Stop {
    ghost from_gives = { λ _ stop. stop ≡ NoMemory };

    fn from(_error: AllocError) -> Stop {
        Stop::NoMemory
    }
}

impl From<Refusal> for Stop {
    ghost from_gives = { λ refusal stop. stop ≡ Refused refusal };

    fn from(refusal: Refusal) -> Stop {
        Stop::Refused(refusal)
    }
}

/// Why differences weren't told, or not all of them.
#[derive(Clone, Copy)]
pub enum DiffFault {
    /// The moment can't be read: of the object that was asked for, or of any. Nothing was written.
    Unreadable(Moment),
    /// The output ended early.
    Stopped(Stop),
}

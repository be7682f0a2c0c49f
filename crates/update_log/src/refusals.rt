//! Why something wasn't done.
ghost use Rattle.std.specs.Prelude.{◌≡◌};
ghost use Rattle.update_log.specs.declared.refusals.Refusal.TheVariants.{NoMemory};
ghost use Rattle.update_log.specs.declared.refusals.NotPut.TheVariants.{
  Failed,
  NoMemory as NoMemoryToPut,
};

use std::alloc::{AllocError, AllocFailed};
use std::io;

/// Why bytes aren't taken as a log of an image.
#[derive(Clone, Copy, Debug)]
pub enum Refusal {
    /// Memory was refused.
    NoMemory,
    /// They are no log: a byte was changed, or they are cut short.
    Damaged,
    /// They are a log of another image.
    OtherImage,
}

impl From<AllocError> for Refusal {
    ghost from_gives = { λ _ e. e ≡ NoMemory };

    fn from(_error: AllocError) -> Refusal {
        Refusal::NoMemory
    }
}

impl<T: Drop> From<AllocFailed<T>> for Refusal {
    ghost from_gives = { λ _ e. e ≡ NoMemory };

    fn from(_error: AllocFailed<T>) -> Refusal {
        Refusal::NoMemory
    }
}

/// Why a record wasn't put.
#[derive(Clone, Copy, Debug)]
pub enum NotPut {
    /// Memory was refused.
    NoMemory,
    /// The log is as long as one may be.
    Full,
    /// Zeros can't be written ahead. A log that was there is as it was, but for bytes after it.
    NoRoom(io::Error),
    /// The disk may leave any bytes where a write is torn, so that a torn record couldn't be told
    /// from a whole one.
    MayTear,
    /// A call of the disk failed. The log has to be recovered before it goes on.
    Failed(io::Error),
}

impl From<io::Error> for NotPut {
    ghost from_gives = { λ e r. r ≡ Failed e };

    fn from(error: io::Error) -> NotPut {
        NotPut::Failed(error)
    }
}

impl From<AllocError> for NotPut {
    ghost from_gives = { λ _ e. e ≡ NoMemoryToPut };

    fn from(_error: AllocError) -> NotPut {
        NotPut::NoMemory
    }
}

impl<T: Drop> From<AllocFailed<T>> for NotPut {
    ghost from_gives = { λ _ e. e ≡ NoMemoryToPut };

    fn from(_error: AllocFailed<T>) -> NotPut {
        NotPut::NoMemory
    }
}

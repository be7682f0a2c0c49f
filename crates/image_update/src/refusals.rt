//! Why something wasn't done.
ghost use Rattle.std.specs.Prelude.{◌≡◌};
ghost use Rattle.image_update.specs.declared.refusals.NoDifference.TheVariants.{
  NoMemory as NoMemoryToCompare,
};
ghost use Rattle.image_update.specs.declared.refusals.NotPatched.TheVariants.{
  NoMemory as NoMemoryToPatch,
};
ghost use Rattle.image_update.specs.declared.refusals.Unread.TheVariants.{
  NoMemory as NoMemoryToRead,
};

use std::alloc::{AllocError, AllocFailed};

/// Why there is no difference.
#[derive(Clone, Copy, Debug)]
pub enum NoDifference {
    /// Memory was refused.
    NoMemory,
    /// Its encoding would be longer than one may be.
    TooLarge,
}

/// Why bytes aren't read as a difference.
#[derive(Clone, Copy, Debug)]
pub enum Unread {
    /// Memory was refused.
    NoMemory,
    /// They are more than an encoding may have.
    TooLarge,
    /// They end before the steps do.
    Cut,
    /// After the steps are fewer or more bytes than these put.
    Uneven,
}

/// Why a front wasn't patched.
#[derive(Clone, Copy, Debug)]
pub enum NotPatched {
    /// Memory was refused.
    NoMemory,
    /// The difference isn't of this front: it has more bytes, or fewer.
    OtherFront,
}

impl From<AllocError> for NoDifference {
    ghost from_gives = { λ _ e. e ≡ NoMemoryToCompare };

    fn from(_error: AllocError) -> NoDifference {
        NoDifference::NoMemory
    }
}

impl<T: Drop> From<AllocFailed<T>> for NoDifference {
    ghost from_gives = { λ _ e. e ≡ NoMemoryToCompare };

    fn from(_error: AllocFailed<T>) -> NoDifference {
        NoDifference::NoMemory
    }
}

impl<T: Drop> From<AllocFailed<T>> for Unread {
    ghost from_gives = { λ _ e. e ≡ NoMemoryToRead };

    fn from(_error: AllocFailed<T>) -> Unread {
        Unread::NoMemory
    }
}

impl From<AllocError> for Unread {
    ghost from_gives = { λ _ e. e ≡ NoMemoryToRead };

    fn from(_error: AllocError) -> Unread {
        Unread::NoMemory
    }
}

impl From<AllocError> for NotPatched {
    ghost from_gives = { λ _ e. e ≡ NoMemoryToPatch };

    fn from(_error: AllocError) -> NotPatched {
        NotPatched::NoMemory
    }
}

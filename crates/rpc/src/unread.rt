ghost use Rattle.std.specs.Prelude.{◌≡◌};
ghost use Rattle.rpc.specs.declared.unread.Unread.TheVariants.{Memory};

use std::alloc::{AllocError, AllocFailed};

/// Why a body could not be read.
#[derive(Drop)]
pub enum Unread {
    /// A growth of memory was refused.
    Memory,
    /// The bytes encode nothing.
    Misspelled,
}

impl From<AllocError> for Unread {
    ghost from_gives = { λ _ e. e ≡ Memory };

    fn from(_error: AllocError) -> Unread {
        Unread::Memory
    }
}

impl<T: Drop> From<AllocFailed<T>> for Unread {
    ghost from_gives = { λ _ e. e ≡ Memory };

    fn from(_error: AllocFailed<T>) -> Unread {
        Unread::Memory
    }
}

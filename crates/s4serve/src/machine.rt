//! The machine whose time a service begins by.
ghost use Rattle.std.specs.Prelude.{ℕ, IfSome};

use service_time::system_time;
use std::time::Clock;

/// A machine whose time can be read.
pub trait Machine: Clock {
    // What its time was when somebody read it, in microseconds since 1970. Nothing else says that a
    // number is its time.
    ghost has_read: { Self → ℕ → Type 0 };

    /// Its time. None where it can't be read, is before 1970, or isn't held by 64 bits.
    fn read_time(&self) -> Option<u64>
        ensures { IfSome result (has_read self.now) };
}

impl Machine for HostRuntime {
    ghost use Rattle.std.specs.Prelude.{⊤};

    // No clause of the standard library says what the time is.
    ghost has_read = { λ _ _. ⊤ };

    fn read_time(&self) -> Option<u64> {
        system_time(self)
    }
}

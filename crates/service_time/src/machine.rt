//! The clocks of the machine.
ghost use Rattle.std.specs.Prelude.{◌≡◌, ◌≤◌, ◌^◌, ◌/◌, IfNone, IfSome};
ghost use Rattle.std.specs.Duration.{as_nanos};

use crate::clock::Readings;
use std::time;
use std::time::Duration;

/// The monotonic clock of the machine.
#[derive(Clone, Copy)]
pub struct Monotonic<T> {
    machine: T,
}

impl<T> Monotonic<T> {
    pub fn new(machine: T) -> Self
        ensures { result.machine ≡ machine }
    {
        Monotonic { machine }
    }
}

impl<T: time::Clock> Readings for Monotonic<T> {
    // What it reads is known of no machine.
    ghost reads = { λ old reading new. new ≡ old };

    fn read(&mut self) -> Option<u64> {
        match self.machine.monotonic() {
            Ok(time) => micros_of(time),
            Err(_) => None,
        }
    }
}

/// The system's time, in microseconds since 1970. None where it can't be read, is before 1970, or
/// isn't held by 64 bits.
pub fn system_time(machine: &impl time::Clock) -> Option<u64> {
    match machine.since_1970() {
        Ok(time) => micros_of(time),
        Err(_) => None,
    }
}

// The microseconds of a time, where 64 bits hold them.
fn micros_of(time: Duration) -> Option<u64>
    ensures micros { IfSome result (λ micros. micros ≡ as_nanos time / 1000) }
    ensures none { IfNone result (2 ^ 64 ≤ as_nanos time / 1000) }
{
    u64::try_from(time.as_micros()).ok()
}

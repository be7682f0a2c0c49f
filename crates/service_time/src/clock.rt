//! Moments that are drawn by what the monotonic clock reads.
ghost use Rattle.std.specs.Prelude.{◌≡◌, ℕ, List, Option, None, Some, IfNone, IfSome};
ghost use Rattle.serving.specs.Drawing.{Drawn};
ghost use Rattle.service_time.specs.Drawing.{Ascends, Draws};

use s4_types::Moment;
use serving::Clock;

/// A monotonic clock, as it is read.
pub trait Readings {
    // From the first state the clock may be read so, in microseconds since a time of its own, and is
    // in the second state then. None where it can't be read.
    ghost reads: { Self → Option ℕ → Self → Type 0 };

    /// What the clock reads.
    fn read(&mut self) -> Option<u64>
        ensures { reads self.old result self.new };
}

/// A clock that began at a moment, and has gone on by what a monotonic clock has counted since.
/// Where that goes back or can't be read, this one stays. It stops at the last moment, 2^64 - 1.
#[derive(Drop)]
pub struct ServiceClock<R: Readings> {
    readings: R,
    /// The moment at which it began.
    began: u64,
    /// What was read then.
    first: u64,
    /// The last moment that was drawn, or that at which it began.
    last: u64,
}

impl<R: Readings + Drop> ServiceClock<R> {
    /// A clock that begins now, at `start`. None where the monotonic clock can't be read.
    pub fn new(start: Moment, readings: R) -> Option<Self>
        ensures began { IfSome result (λ c. c.began ≡ start) }
        ensures last { IfSome result (λ c. c.last ≡ start) }
        ensures first { IfSome result (λ c. R.reads readings (Some c.first) c.readings) }
        ensures later { IfSome result (λ c. (moments : List ℕ) (later : ServiceClock R)
            → Drawn (Draws R.reads) c moments later → Ascends start moments) }
        ensures none { IfNone result ((left : R) × R.reads readings None left) }
    {
        let mut readings = readings;
        let first = readings.read()?;
        Some(ServiceClock {
            readings,
            began: start.number(),
            first,
            last: start.number(),
        })
    }
}

impl<R: Readings> Clock for ServiceClock<R> {
    ghost use Rattle.service_time.specs.Drawing.{Draws};

    ghost draws = { Draws R.reads };

    fn draw(&mut self) -> Moment {
        if let Some(reading) = self.readings.read() {
            let counted = reading.saturating_sub(self.first);
            self.last = self.last.max(self.began.saturating_add(counted));
        }
        Moment::new(self.last)
    }
}

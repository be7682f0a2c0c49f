ghost use Rattle.std.specs.Prelude.{◌≡◌, ℕ, ◌+◌, ◌<◌, List, length, slice_index};
ghost use Rattle.serving.specs.Drawing.{Drawn, Ticks, moment_of_tick};

use s4_types::Moment;

/// What gives each request its moment.
pub trait Clock {
    // A draw from the first state gives the moment and leads to the second.
    ghost draws: { Self → ℕ → Self → Type 0 };

    /// The moment of the next request.
    fn draw(&mut self) -> Moment
        ensures { draws self.old result self.new };
}

/// A clock that moves by one tick for each moment drawn, and stops at the last moment, 2^64 - 1.
#[derive(Clone, Copy)]
pub struct Ticking {
    present: u64,
    tick: u64,
}

impl Ticking {
    /// A clock that is at `start`: the k-th moment drawn, counted from 1, is `start + k * tick`.
    pub fn new(start: Moment, tick: u64) -> Self
        ensures present { result.present ≡ start }
        ensures tick { result.tick ≡ tick }
        ensures later { (moments : List ℕ) (later : Ticking) → Drawn Ticks result moments later
            → (k : ℕ) → k < length moments
            → slice_index moments k ≡ moment_of_tick start tick (k + 1) }
    {
        Ticking {
            present: start.number(),
            tick,
        }
    }
}

impl Clock for Ticking {
    ghost use Rattle.serving.specs.Drawing.{Ticks};

    ghost draws = { Ticks };

    fn draw(&mut self) -> Moment {
        self.present = self.present.saturating_add(self.tick);
        Moment::new(self.present)
    }
}

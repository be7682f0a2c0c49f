//! The moment at which the clock of a service begins, over the clock of its image.
ghost use Rattle.std.specs.Prelude.{◌≡◌, ◌↔◌, ◌-◌, ℕ, max, min, Ok, Err, IfOk};
ghost use Rattle.service_time.specs.Starts.{Counts, IsTooFar, Suffices, most_aged};
ghost use Rattle.service_time.specs.declared.starts.StartFault.TheVariants.{Counted, TooFar};

use moment_words::FIRST_DATED;
use thiserror::Error;

/// No service begins before: a drive whose clock is lower counts its requests.
pub const FIRST_START: u64 = FIRST_DATED;

/// Microseconds of a day.
pub const DAY: u64 = 86_400_000_000;

/// Microseconds of a week. So much of its past may age at a start, where a window is long.
pub const WEEK: u64 = 7 * DAY;

/// Microseconds of a minute. So much may age, however short a window is.
pub const MINUTE: u64 = 60_000_000;

/// Why no service begins over an image.
#[derive(Clone, Copy, Debug, PartialEq, Eq, Error)]
pub enum StartFault {
    /// The image's moments are counts: its whole past would age at once.
    #[error("its moments are numbers, and no times")]
    Counted,
    /// The system's time is too far above the image's clock. With a leap of this number of days it
    /// isn't.
    #[error("its last moment is so long ago that too much of its past would age; --leap {0}d accepts that")]
    TooFar(u64),
}

/// How much of the past of a drive with this window may age at once, in microseconds, where nobody
/// has said that more may: half of the window, but a minute at least and a week at most.
pub fn most_leap(window: u64) -> u64
    ensures { result ≡ most_aged window }
{
    (window / 2).max(MINUTE).min(WEEK)
}

/// How long a service waits before it begins over an image whose clock is there, in microseconds:
/// until the system's time isn't below that clock any more, but not longer than `most`.
pub fn wait_before(image: u64, system: u64, most: u64) -> u64
    ensures { result ≡ min (image - system) most }
{
    image.saturating_sub(system).min(most)
}

/// The moment at which a service begins over an image with this clock and this window: the greater
/// of the clock and the system's time, and `FIRST_START` at least.
///
/// A clock of 0 is that of a new drive, and is never refused. Another one is refused where it
/// counts requests, and where the system's time is above it by more than `most_leap` of the window
/// and by more than the leap: whoever sets the system's clock could else age all of its past.
pub fn start_of(image: u64, window: u64, system: u64, leap: u64) -> Result<u64, StartFault>
    ensures ok { IfOk result (λ start. start ≡ max (max image system) FIRST_START) }
    ensures counted { (result ≡ Err Counted) ↔ Counts image }
    ensures far { ((days : ℕ) × (result ≡ Err (TooFar days))) ↔ IsTooFar image window system leap }
    // The leap that it names will do for a day.
    ensures leap { (days : ℕ) → result ≡ Err (TooFar days) → Suffices image system days }
{
    if image == 0 {
        return Ok(system.max(FIRST_START));
    }
    if image < FIRST_START {
        return Err(StartFault::Counted);
    }
    let passed = system.saturating_sub(image);
    if passed > leap.max(most_leap(window)) {
        return Err(StartFault::TooFar(passed / DAY + 2));
    }
    Ok(image.max(system))
}

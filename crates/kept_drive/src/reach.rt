//! How far ahead of its clock a drive is kept.
ghost use Rattle.std.specs.Prelude.{◌≡◌};
ghost use Rattle.kept_drive.specs.Reach.{reach_after as the_reach_after};

/// How far ahead of its clock a drive is kept at most, and so how far a crash may leave it ahead:
/// ten seconds, where moments are microseconds.
pub const MOST_AHEAD: u64 = 10_000_000;

/// Which part of a window a drive is kept ahead of its clock at most.
const PART_OF_WINDOW: u64 = 16;

/// The clock of what is kept next, by that of what was kept before, and the drive's clock and
/// window.
///
/// It is ahead of the drive's clock, so that reads at later moments need no flush of their own. It
/// doesn't fall where a smaller window was set: what was read up to the last one stays as it was.
pub fn reach_after(last: u64, clock: u64, window: u64) -> u64
    ensures { result ≡ the_reach_after last clock window }
{
    let ahead = (window / PART_OF_WINDOW).min(MOST_AHEAD);
    last.max(clock.saturating_add(ahead))
}

//! How calls that fail are counted.
ghost use Rattle.std.specs.Prelude.{◌≡◌, MatchBool};
ghost use Rattle.sqlite_disk.specs.Disk.{CountsFault, MoreFaults};
ghost use Rattle.sqlite_disk.specs.Refusal.{finds_no_room};

use sqlite_disk::is_no_room;
use std::io;

/// Counts a call that failed, and among them one that found no room. Each count stops at the top of
/// its type.
pub(crate) fn count<T>(faults: &mut u64, refused: &mut u64, outcome: io::Result<T>) -> io::Result<T>
    ensures same { result ≡ outcome }
    ensures faults { CountsFault outcome faults.old faults.new }
    ensures refused { MatchBool (finds_no_room outcome) (MoreFaults refused.old refused.new)
        (refused.new ≡ refused.old) }
{
    match outcome {
        Ok(answer) => Ok(answer),
        Err(error) => {
            *faults = faults.saturating_add(1);
            if is_no_room(&error) {
                *refused = refused.saturating_add(1);
            }
            Err(error)
        }
    }
}

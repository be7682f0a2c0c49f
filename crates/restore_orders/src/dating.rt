//! At which moment the changes of a restore are asked for, and what they have to leave.
ghost use Rattle.std.specs.Prelude.{◌≡◌, true, false, IfErr, IfOk, OnOk};
ghost use Rattle.drive.specs.Fields.{state_in, store_of};
ghost use Rattle.service_time.specs.Starts.{IsTooFar};
ghost use Rattle.history_restore.specs.Presence.{HasNone, HasObject};
ghost use Rattle.s4_images.specs.declared.faults.Failure.TheVariants.{LeavesNothing};
ghost use Rattle.restore_orders.specs.Dating.{TellsLeap, asked_at};

use drive::Drive;
use history_restore::has_object;
use moment_words::FIRST_DATED;
use s4_images::Failure;
use s4_types::Moment;
use segment_word::Naming;
use service_time::{StartFault, start_of};

/// The moments of a restore.
#[derive(Clone, Copy)]
pub struct Moments {
    /// The moment that is restored.
    pub at: Moment,
    /// The moment at which changes are asked for.
    pub asked: Moment,
}

/// The moment at which changes of a drive are asked for, where the machine's time is `time`, in
/// microseconds since 1970, or 0 where it isn't known: that time where the drive's moments are
/// times, else 0. So the first change has the greater of that and of the first moment after the
/// clock.
///
/// An error exactly where a service is refused over an image of this clock and window, with this
/// leap, since too much of its past would age.
pub fn asked_at<J: Naming>(drive: &Drive<J>, time: u64, leap: u64) -> Result<Moment, Failure>
    ensures at { IfOk result (λ at. at ≡ asked_at (state_in drive.now) time) }
    ensures near { OnOk result
        (IsTooFar (state_in drive.now).clock (state_in drive.now).window time leap → ⊥) }
    ensures far { IfErr result (TellsLeap (state_in drive.now) time leap) }
{
    let clock = drive.clock().number();
    if clock < FIRST_DATED {
        return Ok(Moment::new(0));
    }
    match start_of(clock, drive.window(), time, leap) {
        Err(StartFault::TooFar(days)) => Err(Failure::AgesTooMuch { days }),
        _ => Ok(Moment::new(time)),
    }
}

/// An error exactly where no object is there, some were, and it isn't asked for that none is left.
pub fn check_left<J: Naming>(
    drive: &mut Drive<J>,
    had: bool,
    to_nothing: bool,
) -> Result<(), Failure>
    ensures left { OnOk result
        (had ≡ true → to_nothing ≡ false → HasObject (state_in drive.old)) }
    ensures none { IfErr result
        (λ failure. (failure ≡ LeavesNothing)
        × (had ≡ true) × (to_nothing ≡ false) × HasNone (state_in drive.old)) }
    ensures state { state_in drive.new ≡ state_in drive.old }
    ensures store { store_of drive.new ≡ store_of drive.old }
{
    if !had || to_nothing {
        return Ok(());
    }
    if has_object(drive) {
        return Ok(());
    }
    Err(Failure::LeavesNothing)
}

//! The window that keeps a moment in reach until it is restored.
ghost use Rattle.std.specs.Prelude.{◌≡◌, ◌+◌, min, IfOk, IfErr, OnOk, OnErr};
ghost use Rattle.s4_types.specs.declared.requests.Request.TheVariants.{Control};
ghost use Rattle.s4_types.specs.declared.requests.AdminRequest.TheVariants.{SetWindow};
ghost use Rattle.s4_model.specs.Refusals.{first_refusal, last_number};
ghost use Rattle.drive.specs.Fields.{state_in, store_of};
ghost use Rattle.history_restore.specs.Asking.{IsGiven, clock_by};
ghost use Rattle.history_restore.specs.Keeping.{LeavesPast};
ghost use Rattle.history_restore.specs.Widening.{Widens, IsWidened, window_for};

use crate::laws::what_requests_come_to;
use drive::{Drive, Session};
use s4_types::{AdminRequest, Moment, Refusal, Reply, Request};
use segment_word::Naming;

/// Where a clock is after this many changes that are asked for at the moment `now` of another one;
/// the last moment where it would be past that.
#[tactic(auto, using(crate::proofs::Moving::clock_by_some))]
fn clock_by(clock: u64, now: u64, changes: u64) -> u64
    ensures { result ≡ min last_number (clock_by clock now changes) }
{
    if changes == 0 {
        return clock;
    }
    let first = clock.saturating_add(1).max(now);
    first.saturating_add(changes - 1)
}

/// The least window that reaches back to a moment from where this many changes may bring the clock.
fn window_for<J: Naming>(drive: &Drive<J>, at: Moment, changes: u64, now: Moment) -> u64
    ensures { result ≡ window_for (state_in drive.now) now at changes }
{
    let reached = clock_by(drive.clock().number(), now.number(), changes);
    reached.saturating_sub(at.number())
}

/// Sets the window, by a request of an administrator's session.
fn set_window<J: Naming>(
    drive: &mut Drive<J>,
    session: &mut Session<J>,
    window: u64,
    now: Moment,
) -> Result<(), Refusal>
    ensures widened { OnOk result (IsWidened (state_in drive.old) now window (state_in drive.new)) }
    ensures refused { IfErr result
        (IsGiven
        (first_refusal (state_in drive.old) session.old.role (Control (SetWindow window)))) }
    ensures store { store_of drive.new ≡ store_of drive.old }
    ensures past { OnErr result (LeavesPast (state_in drive.old) (state_in drive.new)) }
{
    what_requests_come_to();
    drive.rules();
    let request = Request::Control(AdminRequest::SetWindow { window });
    if let Reply::Refused(refusal) = drive.request(session, request, now) {
        return Err(refusal);
    }
    Ok(())
}

/// Keeps a moment in reach until this many changes are made by requests at the moment `now` of the
/// server's clock: where it might expire by them the window is set to the least, in moments, that
/// serves, and given. That is a change of its own, which is reckoned in.
///
/// Refused as a SetWindow is, NotAdmin where the session isn't an administrator's among that; then
/// the window is as it was.
#[tactic(auto, using(crate::proofs::Moving::window_saturated))]
pub fn widen_window<J: Naming>(
    drive: &mut Drive<J>,
    session: &mut Session<J>,
    at: Moment,
    changes: u64,
    now: Moment,
) -> Result<Option<u64>, Refusal>
    ensures widened { IfOk result
        (λ widened. Widens (state_in drive.old) now at changes widened (state_in drive.new)) }
    ensures refused { IfErr result
        (IsGiven
        (first_refusal (state_in drive.old) session.old.role
        (Control (SetWindow (window_for (state_in drive.old) now at (changes + 1)))))) }
    ensures store { store_of drive.new ≡ store_of drive.old }
    ensures past { OnErr result (LeavesPast (state_in drive.old) (state_in drive.new)) }
{
    if window_for(drive, at, changes, now) <= drive.window() {
        return Ok(None);
    }
    let window = window_for(drive, at, changes.saturating_add(1), now);
    set_window(drive, session, window, now)?;
    Ok(Some(window))
}

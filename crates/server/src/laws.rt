//! Laws of sessions that share a drive: each function does nothing, and its contract is the law.
ghost use Rattle.server.specs.Laws.{AWindowIsRefusedByRoleClockOrMemory, ARunAddsItsChangesAlone};
ghost use Rattle.server.specs.Laws.{ARunsClockGoesByItsRequests, ATickGivesEachMoment};

use s4_model::laws::histories_go_on_record_by_record;

/// A session that shares its drive is refused a window only as a client, where the clock is at its
/// end, or where there is no memory for its row of the audit.
#[tactic(auto, using(crate::proofs::Windows::window_refused))]
pub fn a_window_is_refused_by_role_clock_or_memory()
    ensures { AWindowIsRefusedByRoleClockOrMemory }
{}

/// The drive that a run leaves has the accepted changes that it began with, those that are on the
/// run's books, and no others. Where the moments are those of a clock that ticks, its clock goes by a
/// tick for each request on the books, and by a moment for each of these changes.
pub fn a_run_is_what_was_asked()
    ensures changes { ARunAddsItsChangesAlone }
    ensures clock { ARunsClockGoesByItsRequests }
{
    histories_go_on_record_by_record();
}

/// Where the moments are those of a clock that ticks, each request has the one that its place among
/// all requests gives.
#[tactic(auto, using(crate::proofs::Ticks::answer_ticks))]
pub fn a_tick_gives_each_moment()
    ensures { ATickGivesEachMoment }
{}

//! What plans come to, for the layers above: the function does nothing, and its contract is the
//! law.
ghost use Rattle.history_restore.specs.Plans.{APlanTurnsBack};
ghost use Rattle.history_restore.specs.Whole.{ASecondRestoreDoesNothing};
ghost use Rattle.history_restore.specs.Widening.{AWidenedWindowKeepsItsMoment};
ghost use Rattle.std.specs.Prelude.{◌≡◌, ℕ};
ghost use Rattle.s4_types.specs.History.{History, Seen, Took};
ghost use Rattle.s4_types.specs.declared.changes.Accepted.{Accepted};
ghost use Rattle.s4_model.specs.State.{state_of, grown, seen, took};
ghost use Rattle.s4_model.specs.Laws.{AChangeActsAtItsMoment, AFlushOfAnObjectHidesItsSpan};

use s4_model::laws::{
    a_change_acts_at_its_moment, a_flush_hides_exactly_its_span, histories_go_on_record_by_record,
};

/// A plan turns an object back: after its changes it has the bytes and the attribute that it had,
/// or isn't there where it wasn't.
pub fn a_plan_turns_back()
    ensures { APlanTurnsBack }
{}

/// A window that was widened keeps its moment in reach until the changes are made that it was
/// widened for.
#[tactic(auto, using(crate::proofs::Windows::keeps_moment))]
pub fn a_widened_window_keeps_its_moment()
    ensures { AWidenedWindowKeepsItsMoment }
{}

/// Once objects were restored and nothing was changed since, there is nothing to do to restore them
/// again under the numbers that they have.
#[tactic(auto, using(crate::proofs::Again::does_nothing))]
pub fn a_second_restore_does_nothing()
    ensures { ASecondRestoreDoesNothing }
{}

// What the model says of accepted requests, for the functions that ask a drive.
pub(crate) fn what_requests_come_to()
    ensures by_moments { (h : History) (now : ℕ)
        → state_of (grown h (Seen now)) ≡ seen (state_of h) now }
    ensures by_changes { (h : History) (a : Accepted)
        → state_of (grown h (Took a)) ≡ took (state_of h) a }
    ensures acts { AChangeActsAtItsMoment }
    ensures of_one { AFlushOfAnObjectHidesItsSpan }
{
    histories_go_on_record_by_record();
    a_change_acts_at_its_moment();
    a_flush_hides_exactly_its_span();
}

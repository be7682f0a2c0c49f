ghost use Rattle.std.specs.Prelude.{◌≡◌, ℕ};
ghost use Rattle.s4_types.specs.History.{History, Seen, Took};
ghost use Rattle.s4_types.specs.declared.changes.Accepted.{Accepted};
ghost use Rattle.s4_model.specs.Promise.{ClientsKeepThePast};
ghost use Rattle.s4_model.specs.State.{state_of, grown, seen, took};
ghost use Rattle.s4_model.specs.Laws.{ANewDriveIsSound, EveryStepKeepsSoundness};
ghost use Rattle.s4_model.specs.Laws.{ExchangesKeepSoundness, NobodyWithAClientsRightsCanErase};
ghost use Rattle.s4_model.specs.Laws.{AChangeActsAtItsMoment, TheClockNeverFalls};
ghost use Rattle.s4_model.specs.Laws.{TheFloorNeverFalls, NoWindowLowersTheFloor};
ghost use Rattle.s4_model.specs.Laws.{AnAcceptedMomentIsLater, AcceptedMomentsAscend};
ghost use Rattle.s4_model.specs.Laws.{ThePresentClockIsVisible, AFlushHidesItsSpan};
ghost use Rattle.s4_model.specs.Laws.{AFlushOfAnObjectHidesItsSpan, ACreateIsGivenTheNextNumber};
ghost use Rattle.s4_model.specs.Laws.{ObjectNumbersAscend, ADeadObjectStaysAbsent};
ghost use Rattle.s4_model.specs.Laws.{EachRequestHasAStep, StepsAgreeButForWant};
ghost use Rattle.s4_model.specs.Laws.{AMomentIsToldOfAChangeAlone, TheAbsentStayAbsent};
ghost use Rattle.s4_model.specs.Laws.{RunsAreMaximal, ListsHaveMaximalRuns, ListsHideAlike};
ghost use Rattle.s4_model.specs.Laws.{NoListIsLeftOut, ClientsLeaveThePast};
ghost use Rattle.s4_model.specs.Laws.{ClientsMoveTheFloorByTheWindow};
ghost use Rattle.s4_model.specs.Laws.{AnAcceptedChangeKeepsTheLimits, ANewDriveKeepsTheRunLimits};
ghost use Rattle.s4_model.specs.Laws.{EveryStepKeepsTheRunLimits, ExchangesKeepTheRunLimits};
ghost use Rattle.s4_model.specs.Laws.{AMomentCutsTheAudit, AChangeAddsItsRow};
ghost use Rattle.s4_model.specs.Laws.{KeptAuditsGoOn};

/// Histories go on record by record, and stay sound.
///
/// A moment seen moves the state's clock and floor alone, an accepted change adds itself to the
/// changes and moves the four numbers. A new drive's history is sound, and every step leaves it so:
/// the floor isn't above the clock, moments ascend, spans end before the clock. Rows that are kept
/// of the audit go on with each record, and answer as the audit does.
pub fn histories_go_on_record_by_record()
    ensures by_moments { (h : History) (now : ℕ)
        → state_of (grown h (Seen now)) ≡ seen (state_of h) now }
    ensures by_changes { (h : History) (a : Accepted)
        → state_of (grown h (Took a)) ≡ took (state_of h) a }
    ensures new { ANewDriveIsSound }
    ensures steps { EveryStepKeepsSoundness }
    ensures exchanges { ExchangesKeepSoundness }
    ensures audit { KeptAuditsGoOn }
{
    the_audit_goes_on_row_by_row();
}

/// Whatever clients ask: each version that could be read before, and whose moment is still at or
/// above the floor, can still be read and is the same.
pub fn nobody_with_a_clients_rights_can_erase()
    ensures visible { NobodyWithAClientsRightsCanErase }
    ensures past { ClientsLeaveThePast }
    ensures floor { ClientsMoveTheFloorByTheWindow }
{}

/// So nothing is lost of the past by what clients ask, but by age.
pub fn clients_keep_the_past()
    ensures { ClientsKeepThePast }
{
    nobody_with_a_clients_rights_can_erase();
}

/// An accepted change leaves the versions of earlier moments, acts on its object's present version,
/// and leaves those of other objects.
pub fn a_change_acts_at_its_moment()
    ensures told { AMomentIsToldOfAChangeAlone }
    ensures acts { AChangeActsAtItsMoment }
    ensures limits { AnAcceptedChangeKeepsTheLimits }
{}

/// The clock and the floor never fall, whatever window is set; accepted moments ascend strictly;
/// the present clock can be read.
pub fn clock_and_floor_never_fall()
    ensures clock { TheClockNeverFalls }
    ensures floor { TheFloorNeverFalls }
    ensures windows { NoWindowLowersTheFloor }
    ensures later { AnAcceptedMomentIsLater }
    ensures ascend { AcceptedMomentsAscend }
    ensures present { ThePresentClockIsVisible }
{}

/// An accepted Flush hides its span, of all objects or of its own, and leaves every version as it
/// was.
pub fn a_flush_hides_exactly_its_span()
    ensures of_all { AFlushHidesItsSpan }
    ensures of_one { AFlushOfAnObjectHidesItsSpan }
{}

/// Object numbers are given in ascending order and never again, and what was deleted stays absent.
pub fn object_numbers_are_given_once()
    ensures given { ACreateIsGivenTheNextNumber }
    ensures ascend { ObjectNumbersAscend }
    ensures absent { TheAbsentStayAbsent }
    ensures dead { ADeadObjectStaysAbsent }
{}

/// Each request has a step, and two steps of one request agree but for the refusals that a drive
/// may choose.
pub fn a_step_is_total_and_single_valued()
    ensures total { EachRequestHasAStep }
    ensures single { StepsAgreeButForWant }
{}

/// The runs of hidden moments are the maximal ones: ascending and apart, each hidden moment in
/// exactly one. From the floor on the lists of runs hide what the spans hide.
pub fn runs_are_the_maximal_ones()
    ensures maximal { RunsAreMaximal }
    ensures lists { ListsHaveMaximalRuns }
    ensures alike { ListsHideAlike }
    ensures all { NoListIsLeftOut }
{}

/// A new drive has no runs of hidden moments, and no step leaves more of them than a list, or all
/// lists together, may have: what is accepted adds none too many, and what falls below the floor
/// only takes some away.
pub fn runs_keep_their_limits()
    ensures new { ANewDriveKeepsTheRunLimits }
    ensures steps { EveryStepKeepsTheRunLimits }
    ensures exchanges { ExchangesKeepTheRunLimits }
{}

/// The audit goes on with each record: it loses the rows below the floor, and gains that of an
/// accepted change. So do rows that are kept of it, and they answer as it does.
pub fn the_audit_goes_on_row_by_row()
    ensures moments { AMomentCutsTheAudit }
    ensures changes { AChangeAddsItsRow }
    ensures kept { KeptAuditsGoOn }
{}

//! Laws of opened drives, for the layers above: each function does nothing, and its contract is the
//! law.
ghost use Rattle.drive.specs.Opened.{ARowTellsItsVersions, ARowsVersionsAscend};
ghost use Rattle.drive.specs.Opened.{ABaseTellsTheStoresVersions, ABaseListsEachObjectOnce};
ghost use Rattle.drive.specs.Opened.{ABaseListsRowsInOrder, AnOpenedDriveBeginsAsItsParts};
ghost use Rattle.std.specs.Prelude.{◌≡◌};
ghost use Rattle.s4_types.specs.History.{History, Took};
ghost use Rattle.s4_types.specs.declared.changes.Accepted.{Accepted};
ghost use Rattle.s4_model.specs.State.{state_of, grown, took};
ghost use Rattle.s4_model.specs.Laws.{EveryStepKeepsSoundness, KeptAuditsGoOn};
ghost use Rattle.inode.specs.Laws.{TheSizeCountsTheBytes};
ghost use Rattle.version_store.specs.Laws.{ThePresentStays};

use inode::laws::bytes_are_the_blocks_joined;
use s4_model::laws::histories_go_on_record_by_record;
use undo_redo::laws::groups_part_at_a_moment;
use version_store::laws::the_present_stays;

/// What an opened drive begins with is what its objects represent: at each moment the versions that
/// the base has of an object tell the one that its row and its blocks do. The base lists each
/// object once, and the moments from which its versions are current ascend strictly. Where the rows
/// are by ascending objects, it lists them in that order. So the state of a drive that has just
/// been opened has the versions of its objects, and the clock, window, floor and hidden moments of
/// its window.
#[tactic(auto, using(crate::proofs::Dating::row_told, crate::proofs::Dating::row_dated))]
pub fn a_base_is_what_its_objects_stand_for()
    ensures row { ARowTellsItsVersions }
    ensures dates { ARowsVersionsAscend }
    ensures versions { ABaseTellsTheStoresVersions }
    ensures listed { ABaseListsEachObjectOnce }
    ensures in_order { ABaseListsRowsInOrder }
    ensures state { AnOpenedDriveBeginsAsItsParts }
{
    groups_part_at_a_moment();
    the_present_stays();
}

// What the crates below say of the present and of histories, for the functions that change an
// object.
pub(crate) fn what_changes_of_objects_rest_on()
    ensures present { ThePresentStays }
    ensures count { TheSizeCountsTheBytes }
    ensures by_changes { (h : History) (a : Accepted)
        → state_of (grown h (Took a)) ≡ took (state_of h) a }
    ensures steps { EveryStepKeepsSoundness }
    ensures audit { KeptAuditsGoOn }
{
    the_present_stays();
    bytes_are_the_blocks_joined();
    histories_go_on_record_by_record();
}

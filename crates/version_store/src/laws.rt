//! Laws of stores, for the layers above: each function does nothing, and its contract is the law.

ghost use Rattle.version_store.specs.Laws.{ObjectsStay, InodesStay, VersionsStay, ThePresentStays};
ghost use Rattle.version_store.specs.Laws.{AnInodeAtAllMomentsOrNone, ChangesBeginWithThePresent};
ghost use Rattle.version_store.specs.Laws.{ChangesBeginWithThePresentVersion, TheAliveAreThere};
ghost use Rattle.version_store.specs.Laws.{HeldIsWhatRowsName, EachHeldBlockIsNamed};
ghost use Rattle.version_store.specs.Laws.{CheckpointsOfRowsAreHeld};
ghost use Rattle.version_store.specs.Laws.{InodesPointToWhatRowsName, RowsHaveFewPointers};
ghost use Rattle.version_store.specs.Laws.{PlacesHaveFewNames};
ghost use Rattle.version_store.specs.Replacing.{AJournalCanBeCut, ACutJournalShowsTheSame};
ghost use Rattle.version_store.specs.Stamps.{EachStepTells};
ghost use Rattle.version_store.specs.Tallies.{CountsAreOfRows};
ghost use Rattle.version_store.specs.private.Below.{ChangesStand, RowStays, RowInodeStays};
ghost use Rattle.version_store.specs.private.Below.{LastIsCurrent};
ghost use Rattle.version_store.specs.private.Below.{OrderlyStays, RunsEnd, HolesTellBlocks};
ghost use Rattle.inode.specs.Laws.{HeldPointersLead};
ghost use Rattle.chain_rewriting.specs.Places.{WhatIsToldIsListed, ATestTellsApart};
ghost use Rattle.chain_rewriting.specs.Places.{ARenamedChainTellsInOrder};
ghost use Rattle.chain_rewriting.specs.RenamingLaws.{RenamingCommutesWithRedoOfAll};
ghost use Rattle.chain_rewriting.specs.RenamingLaws.{RenamingCommutesWithUndoOfAll};
ghost use Rattle.chain_rewriting.specs.RenamingLaws.{ARenamedRunIsARun, ABlankInodeStays};
ghost use Rattle.chain_rewriting.specs.RenamingLaws.{ARenamedChainShowsRenamedInodes};
ghost use Rattle.chain_rewriting.specs.RenamingLaws.{APointerIsRenamed};
ghost use Rattle.chain_rewriting.specs.RenamingLaws.{RenamedEntriesTakeAsManyBytes};
ghost use Rattle.chain_rewriting.specs.RenamingLaws.{ARenamedChainTakesAsManyBytes};
ghost use Rattle.chain_rewriting.specs.RenamingLaws.{ARenamedCheckpointKeepsTheRules};
ghost use Rattle.chain_rewriting.specs.RenamingLaws.{RenamedEntriesStayInGroups};
ghost use Rattle.chain_rewriting.specs.RenamingLaws.{RenamedEntriesStayInOrder};
ghost use Rattle.chain_rewriting.specs.RenamingLaws.{RenamedEntriesUpToAMoment};
ghost use Rattle.chain_rewriting.specs.RenamingLaws.{RenamedEntriesHaveOldMoments};
ghost use Rattle.chain_rewriting.specs.RenamingLaws.{TheMomentsOfRenamedEntriesAreOld};
ghost use Rattle.chain_rewriting.specs.RenamingLaws.{ARenamedInodeMeansTheSame};

use block_log::laws::{one_place_has_one_name, places_taken_add_up};
use chain_rewriting::renaming_laws::{
    a_renamed_chain_takes_as_many_bytes, a_renamed_chain_tells_of_renamed_places,
    a_renamed_checkpoint_keeps_the_rules, a_renamed_inode_means_the_same, a_renamed_run_is_a_run,
    a_test_tells_a_renaming_apart, renamed_entries_keep_their_moments,
    renamed_entries_stay_in_order, renaming_commutes_with_undo_and_redo, what_a_chain_tells,
};
use checkpoint::laws::a_checkpoint_is_in_its_blocks;
use inode::laws::{held_pointers_lead, only_its_blocks_matter};
use journal_chain::packing::laws::{bytes_add_up, chains_are_short};
use row_changes::laws::{
    a_fresh_row_stands, a_row_is_by_later_moments, a_row_keeps_the_making, the_last_inode_stays,
};
use time_read::laws::{a_row_is_its_own_blocks, an_orderly_row_stays, the_last_inode_is_current};
use undo_redo::laws::{
    a_blank_inode_has_holes_alone, entries_determine_a_run, groups_part_at_a_moment,
    the_entries_between_two_inodes,
};

/// What an object is at each moment rests on its own blocks alone: where its journal and its
/// checkpoints are the same, and each of its data blocks is still held, it is an object with the
/// same inodes and the same versions.
pub fn versions_rest_on_their_objects_blocks()
    ensures object { ObjectsStay }
    ensures inode { InodesStay }
    ensures version { VersionsStay }
{
    a_row_is_its_own_blocks();
    a_row_is_by_later_moments();
    only_its_blocks_matter();
}

/// From the last change on each object has one inode and one version.
pub fn the_present_stays()
    ensures { ThePresentStays }
{
    the_last_inode_stays();
}

/// An object that has no inode at one moment has none at any.
#[tactic(auto, using(crate::proofs::Beside::none_at))]
pub fn an_object_has_an_inode_at_all_moments_or_at_none()
    ensures { AnInodeAtAllMomentsOrNone }
{}

/// A change of an object begins with its present inode, and with the blank one where the object has
/// no row.
pub fn changes_begin_with_the_present()
    ensures { ChangesBeginWithThePresent }
{
    a_fresh_row_stands();
}

/// The inode that a change of an object begins with represents the object's present version, so the
/// object is there exactly where that inode is alive.
pub fn changes_begin_with_the_present_version()
    ensures version { ChangesBeginWithThePresentVersion }
    ensures there { TheAliveAreThere }
{
    a_fresh_row_stands();
}

/// What is held is exactly what rows name: an object's journal blocks are those of its chain, its
/// blocks of checkpoints are those of the ones that its row names, and its data blocks are those
/// that a pointer of its newest checkpoint, or either side of a triple of that chain, leads to.
/// Nothing else is held, and no object without a row has a block.
pub fn what_is_held_is_what_rows_name()
    ensures exact { HeldIsWhatRowsName }
    ensures block { EachHeldBlockIsNamed }
    ensures checkpoints { CheckpointsOfRowsAreHeld }
{
    one_place_has_one_name();
    a_checkpoint_is_in_its_blocks();
}

/// Each data block that an inode of an object points to, at whatever moment, is one that the
/// object's row names. A row may name more: a block that is in no inode but between two entries of
/// one moment.
pub fn inodes_point_to_what_rows_name()
    ensures { InodesPointToWhatRowsName }
{}

/// No row has more than `ROW_POINTERS` pointers that name data, and no data block more names, and
/// what is not data has none: so a count of names fits 32 bits, and one more does.
pub fn places_have_few_names()
    ensures places { PlacesHaveFewNames }
    ensures rows { RowsHaveFewPointers }
{}

/// What a table counts for a place is how often the rows of all objects name it: a block of a
/// journal or of a checkpoint once, a data block once for each pointer of a checkpoint and each
/// side of a triple that refers to it. What is held nowhere is named by no row.
pub fn counts_are_of_rows()
    ensures { CountsAreOfRows }
{
    one_place_has_one_name();
    a_checkpoint_is_in_its_blocks();
}

/// A step of a store lowers no stamp, and where it leaves an object's stamp, it leaves all of the
/// object's blocks. So while a row has its stamp, its object holds what it held.
pub fn a_step_that_leaves_a_stamp_leaves_the_blocks()
    ensures { EachStepTells }
{}

// What both laws of a cut journal are shown by.
fn a_journal_is_cut()
    ensures can { AJournalCanBeCut }
    ensures shows { ACutJournalShowsTheSame }
{
    entries_determine_a_run();
    groups_part_at_a_moment();
    a_row_keeps_the_making();
}

/// An object's journal can be replaced by its own later entries, where there are some, with the
/// present inode as it is.
pub fn a_journal_can_be_cut()
    ensures { AJournalCanBeCut }
{
    a_journal_is_cut();
}

/// From a moment on an object's inodes are those that its later entries lead to, ending with the
/// present one: also where there are none, and the present inode is current since.
pub fn a_cut_journal_shows_the_same()
    ensures { ACutJournalShowsTheSame }
{
    a_journal_is_cut();
}

// That the present stays, and what the crates below say of an object's inodes, for the functions
// that read by one of them.
pub(crate) fn what_reads_rest_on()
    ensures present { ThePresentStays }
    ensures last { LastIsCurrent }
    ensures lead { HeldPointersLead }
{
    the_present_stays();
    the_last_inode_is_current();
    held_pointers_lead();
}

// What the crates below say of rows, inodes and entries, for the functions that change an object or
// write its checkpoint.
pub(crate) fn what_changes_rest_on()
    ensures { ChangesStand }
{
    a_row_is_its_own_blocks();
    a_row_is_by_later_moments();
    a_row_keeps_the_making();
    an_orderly_row_stays();
    the_last_inode_stays();
    only_its_blocks_matter();
    held_pointers_lead();
    one_place_has_one_name();
    places_taken_add_up();
    a_fresh_row_stands();
    a_blank_inode_has_holes_alone();
    the_entries_between_two_inodes();
    entries_determine_a_run();
    groups_part_at_a_moment();
    bytes_add_up();
    chains_are_short();
    a_checkpoint_is_in_its_blocks();
}

// What the crates below say of rows and of renamed entries, for the functions that move an object's
// blocks.
pub(crate) fn what_relocations_rest_on()
    ensures row { RowStays }
    ensures inode { RowInodeStays }
    ensures orderly { OrderlyStays }
    ensures end { RunsEnd }
    ensures holes { HolesTellBlocks }
    ensures listed { WhatIsToldIsListed }
    ensures test { ATestTellsApart }
    ensures places { ARenamedChainTellsInOrder }
    ensures redo_all { RenamingCommutesWithRedoOfAll }
    ensures undo_all { RenamingCommutesWithUndoOfAll }
    ensures run { ARenamedRunIsARun }
    ensures shown { ARenamedChainShowsRenamedInodes }
    ensures pointers { APointerIsRenamed }
    ensures blank { ABlankInodeStays }
    ensures each { RenamedEntriesTakeAsManyBytes }
    ensures all { ARenamedChainTakesAsManyBytes }
    ensures rules { ARenamedCheckpointKeepsTheRules }
    ensures groups { RenamedEntriesStayInGroups }
    ensures order { RenamedEntriesStayInOrder }
    ensures by { RenamedEntriesUpToAMoment }
    ensures within { RenamedEntriesHaveOldMoments }
    ensures old { TheMomentsOfRenamedEntriesAreOld }
    ensures means { ARenamedInodeMeansTheSame }
{
    a_row_is_its_own_blocks();
    an_orderly_row_stays();
    entries_determine_a_run();
    a_checkpoint_is_in_its_blocks();
    what_a_chain_tells();
    a_test_tells_a_renaming_apart();
    a_renamed_chain_tells_of_renamed_places();
    renaming_commutes_with_undo_and_redo();
    a_renamed_run_is_a_run();
    a_renamed_chain_takes_as_many_bytes();
    a_renamed_checkpoint_keeps_the_rules();
    renamed_entries_stay_in_order();
    renamed_entries_keep_their_moments();
    a_renamed_inode_means_the_same();
}

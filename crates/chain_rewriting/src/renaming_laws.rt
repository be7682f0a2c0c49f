//! Laws of renamed chains, for the layers above: each function does nothing, and its contract is
//! the law.
ghost use Rattle.chain_rewriting.specs.RenamingLaws.{RenamingCommutesWithRedo};
ghost use Rattle.chain_rewriting.specs.RenamingLaws.{RenamingCommutesWithUndo};
ghost use Rattle.chain_rewriting.specs.RenamingLaws.{RenamingCommutesWithRedoOfAll};
ghost use Rattle.chain_rewriting.specs.RenamingLaws.{RenamingCommutesWithUndoOfAll};
ghost use Rattle.chain_rewriting.specs.RenamingLaws.{ARenamedChainShowsRenamedInodes};
ghost use Rattle.chain_rewriting.specs.RenamingLaws.{ARenamedLinkIsALink, ARenamedRunIsARun};
ghost use Rattle.chain_rewriting.specs.RenamingLaws.{ABlankInodeStays, APointerIsRenamed};
ghost use Rattle.chain_rewriting.specs.RenamingLaws.{RenamedEntriesKeepTheRules};
ghost use Rattle.chain_rewriting.specs.RenamingLaws.{ARenamedChainIsAChain};
ghost use Rattle.chain_rewriting.specs.RenamingLaws.{RenamedEntriesKeepTheirMoments};
ghost use Rattle.chain_rewriting.specs.RenamingLaws.{RenamedEntriesHaveOldMoments};
ghost use Rattle.chain_rewriting.specs.RenamingLaws.{TheMomentsOfRenamedEntriesAreOld};
ghost use Rattle.chain_rewriting.specs.RenamingLaws.{RenamedEntriesTakeAsManyBytes};
ghost use Rattle.chain_rewriting.specs.RenamingLaws.{ARenamedChainTakesAsManyBytes};
ghost use Rattle.chain_rewriting.specs.RenamingLaws.{ARenamedInodeMeansTheSame};
ghost use Rattle.chain_rewriting.specs.RenamingLaws.{ARenamedChainShowsTheSame};
ghost use Rattle.chain_rewriting.specs.RenamingLaws.{RenamedEntriesStayInGroups};
ghost use Rattle.chain_rewriting.specs.RenamingLaws.{RenamedEntriesStayInOrder};
ghost use Rattle.chain_rewriting.specs.RenamingLaws.{RenamedEntriesUpToAMoment};
ghost use Rattle.chain_rewriting.specs.RenamingLaws.{ARenamedCheckpointKeepsTheRules};
ghost use Rattle.chain_rewriting.specs.Places.{WhatIsToldIsListed, WhatIsToldPassesToo};
ghost use Rattle.chain_rewriting.specs.Places.{AChainIsToldFromEitherEnd};
ghost use Rattle.chain_rewriting.specs.Places.{AChainPointsToWhatItTells, RenamingIsOneToOne};
ghost use Rattle.chain_rewriting.specs.Places.{ARenamedChainTellsInOrder};
ghost use Rattle.chain_rewriting.specs.Places.{ARenamedChainTellsOfRenamedPlaces};
ghost use Rattle.chain_rewriting.specs.Places.{EachPlaceIsPointedToRenamed};
ghost use Rattle.chain_rewriting.specs.Places.{ARenamedChainIsOutOfTheFrame, NothingMovesYet};
ghost use Rattle.chain_rewriting.specs.Places.{NoPlacesAreDistinct, NoPlacesAnswerAlike};
ghost use Rattle.chain_rewriting.specs.Places.{OneMoreMoves, PlacesStayDistinct};
ghost use Rattle.chain_rewriting.specs.Places.{NewPlacesAnswerAlike, ATestTellsApart};
ghost use Rattle.chain_rewriting.specs.Places.{ApartFromEitherEnd};

use crate::mapping_laws::a_mapped_chain_shows_the_same;

/// Renaming commutes with undo and redo, of one entry and of a list.
pub fn renaming_commutes_with_undo_and_redo()
    ensures redo { RenamingCommutesWithRedo }
    ensures undo { RenamingCommutesWithUndo }
    ensures redo_all { RenamingCommutesWithRedoOfAll }
    ensures undo_all { RenamingCommutesWithUndoOfAll }
{}

/// Renamed entries lead from the renamed first inode of a run to its renamed last one, and show at
/// each moment the renamed inode, whose pointers are the renamed ones. A blank inode stays as it
/// is.
pub fn a_renamed_run_is_a_run()
    ensures link { ARenamedLinkIsALink }
    ensures run { ARenamedRunIsARun }
    ensures shown { ARenamedChainShowsRenamedInodes }
    ensures pointers { APointerIsRenamed }
    ensures blank { ABlankInodeStays }
{}

/// Renaming is one to one on places that aren't new, where the new ones are distinct; so renamed
/// entries keep the rules of entries.
pub fn renaming_is_one_to_one()
    ensures places { RenamingIsOneToOne }
    ensures rules { RenamedEntriesKeepTheRules }
{}

/// A chain that a renaming is apart from is a chain when it is renamed.
pub fn a_renamed_chain_is_a_chain()
    ensures { ARenamedChainIsAChain }
{}

/// Renamed entries have the moments of the old ones.
pub fn renamed_entries_keep_their_moments()
    ensures moments { RenamedEntriesKeepTheirMoments }
    ensures within { RenamedEntriesHaveOldMoments }
    ensures old { TheMomentsOfRenamedEntriesAreOld }
{}

/// Renamed entries have as many bytes as the old ones, each and all together.
pub fn a_renamed_chain_takes_as_many_bytes()
    ensures each { RenamedEntriesTakeAsManyBytes }
    ensures all { ARenamedChainTakesAsManyBytes }
{}

/// Renamed entries are in groups and in order where the entries were, and those up to a moment are
/// those up to it, renamed. None of this asks where the new places are.
pub fn renamed_entries_stay_in_order()
    ensures groups { RenamedEntriesStayInGroups }
    ensures order { RenamedEntriesStayInOrder }
    ensures by { RenamedEntriesUpToAMoment }
{}

/// A checkpoint whose pointers are renamed keeps the rules of checkpoints exactly where it kept
/// them.
pub fn a_renamed_checkpoint_keeps_the_rules()
    ensures { ARenamedCheckpointKeepsTheRules }
{}

/// A renamed inode means over the copied blocks what the inode meant, and is tidy where it was.
pub fn a_renamed_inode_means_the_same()
    ensures { ARenamedInodeMeansTheSame }
{
    a_mapped_chain_shows_the_same();
}

/// At each moment a renamed chain shows over the copied blocks what the old one showed.
pub fn a_renamed_chain_shows_the_same()
    ensures { ARenamedChainShowsTheSame }
{
    a_mapped_chain_shows_the_same();
}

/// What a chain tells is told by the list of its pointers, and from either end. At each moment the
/// chain points to places alone of which it tells.
pub fn what_a_chain_tells()
    ensures listed { WhatIsToldIsListed }
    ensures too { WhatIsToldPassesToo }
    ensures ends { AChainIsToldFromEitherEnd }
    ensures points { AChainPointsToWhatItTells }
{}

/// What a renamed chain tells of is what the old one told of, renamed: in the same order, and at
/// each moment.
pub fn a_renamed_chain_tells_of_renamed_places()
    ensures order { ARenamedChainTellsInOrder }
    ensures told { ARenamedChainTellsOfRenamedPlaces }
    ensures pointed { EachPlaceIsPointedToRenamed }
{}

/// A renamed chain tells of no place in the frame, where each of its places there moves, and none
/// moves to a place there.
pub fn a_renamed_chain_is_out_of_the_frame()
    ensures { ARenamedChainIsOutOfTheFrame }
{}

/// A new renaming moves nothing, and each move that is put in adds itself alone. So the new places
/// stay distinct, and a test answers of all what it answers of each.
#[tactic(auto, using(crate::proofs::RenamedGrowing::one_more))]
pub fn moves_are_put_in_one_by_one()
    ensures none { NothingMovesYet }
    ensures none_distinct { NoPlacesAreDistinct }
    ensures none_alike { NoPlacesAnswerAlike }
    ensures more { OneMoreMoves }
    ensures distinct { PlacesStayDistinct }
    ensures alike { NewPlacesAnswerAlike }
{}

/// A renaming whose new places are distinct is apart from a chain where a test tells them from the
/// places of the chain; and then from the chain told from its other end.
pub fn a_test_tells_a_renaming_apart()
    ensures test { ATestTellsApart }
    ensures ends { ApartFromEitherEnd }
{}

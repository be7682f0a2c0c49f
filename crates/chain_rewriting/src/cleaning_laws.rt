//! Laws of kept chains, for the layers above: each function does nothing, and its contract is the
//! law.
ghost use Rattle.chain_rewriting.specs.CleaningLaws.{AKeptChainIsARun, AKeptChainHasOldMoments};
ghost use Rattle.chain_rewriting.specs.CleaningLaws.{AKeptChainShowsTheSame};
ghost use Rattle.chain_rewriting.specs.CleaningLaws.{NoKeptChainShowsNothing};
ghost use Rattle.chain_rewriting.specs.CleaningLaws.{AKeptChainIsSeenAlive};
ghost use Rattle.chain_rewriting.specs.CleaningLaws.{AKeptChainShowsOldInodes};
ghost use Rattle.chain_rewriting.specs.CleaningLaws.{AKeptChainHasSeenInodesAlone};
ghost use Rattle.chain_rewriting.specs.CleaningLaws.{TheMomentsOfAKeptChainAreOld};
ghost use Rattle.chain_rewriting.specs.CleaningLaws.{AKeptChainIsGrouped, AKeptChainIsInOrder};
ghost use Rattle.chain_rewriting.specs.CleaningLaws.{AKeptChainPointsToOldPlaces};
ghost use Rattle.chain_rewriting.specs.CleaningLaws.{AKeptChainTellsOfSeenPlacesAlone};
ghost use Rattle.chain_rewriting.specs.CleaningLaws.{AKeptChainShowsALiveInode};
ghost use Rattle.chain_rewriting.specs.CleaningLaws.{AnUnchangedChainIsTheKeptOne};
ghost use Rattle.chain_rewriting.specs.CleaningLaws.{AKeptChainIsAChain};
ghost use Rattle.chain_rewriting.specs.CleaningLaws.{CleaningAgainChangesNothing};
ghost use Rattle.chain_rewriting.specs.CleaningLaws.{AKeptChainTakesNoMoreBytes, ACreationIsAChain};
ghost use Rattle.chain_rewriting.specs.CleaningLaws.{AChainGoesOn, AChainIsOneLater};
ghost use Rattle.chain_rewriting.specs.private.Resting.{Facts};

use codec::journal_laws::entry_bytes_add_up;
use undo_redo::laws::{
    a_blank_inode_has_holes_alone, a_link_is_an_entry_redone_or_undone, entries_determine_a_run,
    groups_part_at_a_moment, the_entries_between_two_inodes,
};

/// The laws of the layer below that the laws of kept chains rest on.
fn what_kept_chains_rest_on()
    ensures { Facts }
{
    a_link_is_an_entry_redone_or_undone();
    entries_determine_a_run();
    groups_part_at_a_moment();
    the_entries_between_two_inodes();
}

/// The entries of a kept chain lead from its first inode to its last.
pub fn a_kept_chain_is_a_run()
    ensures { AKeptChainIsARun }
{
    a_link_is_an_entry_redone_or_undone();
    entries_determine_a_run();
    the_entries_between_two_inodes();
}

/// The moments of a kept chain's entries are moments of the old ones.
pub fn a_kept_chain_has_old_moments()
    ensures { AKeptChainHasOldMoments }
{
    the_entries_between_two_inodes();
}

/// At each visible moment a kept chain shows the same as the old one; where there is none, the old
/// one shows a dead inode.
pub fn a_kept_chain_shows_the_same()
    ensures same { AKeptChainShowsTheSame }
    ensures none { NoKeptChainShowsNothing }
{
    what_kept_chains_rest_on();
}

/// There is a kept chain only where the old one shows a live inode at some visible moment.
pub fn a_kept_chain_is_seen_alive()
    ensures { AKeptChainIsSeenAlive }
{
    what_kept_chains_rest_on();
}

/// At each moment, visible or not, a kept chain shows an inode that the old one shows at some
/// moment; or that one with its flag off.
pub fn a_kept_chain_shows_old_inodes()
    ensures { AKeptChainShowsOldInodes }
{
    what_kept_chains_rest_on();
}

/// Each entry of a kept chain is of the moment of an old one.
pub fn the_moments_of_a_kept_chain_are_old()
    ensures { TheMomentsOfAKeptChainAreOld }
{
    a_kept_chain_has_old_moments();
}

/// The entries of a kept chain are in groups.
pub fn a_kept_chain_is_grouped()
    ensures { AKeptChainIsGrouped }
{
    a_link_is_an_entry_redone_or_undone();
    groups_part_at_a_moment();
    the_entries_between_two_inodes();
}

/// A kept chain is in order, up to the latest moment of the old one.
pub fn a_kept_chain_is_in_order()
    ensures { AKeptChainIsInOrder }
{
    a_link_is_an_entry_redone_or_undone();
    entries_determine_a_run();
    the_entries_between_two_inodes();
    a_kept_chain_has_old_moments();
}

/// At each moment a kept chain is as at some visible moment up to the clock.
pub fn a_kept_chain_has_seen_inodes_alone()
    ensures { AKeptChainHasSeenInodesAlone }
{
    the_entries_between_two_inodes();
    groups_part_at_a_moment();
}

/// A kept chain is a chain, and so can be cleaned again.
pub fn a_kept_chain_is_a_chain()
    ensures { AKeptChainIsAChain }
{
    entries_determine_a_run();
    a_link_is_an_entry_redone_or_undone();
    the_entries_between_two_inodes();
    a_kept_chain_is_a_run();
    a_kept_chain_is_grouped();
    a_kept_chain_is_in_order();
}

/// A kept chain that is cleaned again, with the same to be seen, is the same chain.
pub fn cleaning_again_changes_nothing()
    ensures { CleaningAgainChangesNothing }
{
    a_link_is_an_entry_redone_or_undone();
    entries_determine_a_run();
    groups_part_at_a_moment();
    the_entries_between_two_inodes();
}

/// The entries of a kept chain take no more bytes than the old ones.
pub fn a_kept_chain_takes_no_more_bytes()
    ensures { AKeptChainTakesNoMoreBytes }
{
    a_link_is_an_entry_redone_or_undone();
    the_entries_between_two_inodes();
    entry_bytes_add_up();
}

/// Each place to which a kept chain points, by an inode or by an entry, is one to which the inode
/// of the old chain points at some moment.
pub fn a_kept_chain_points_to_old_places()
    ensures { AKeptChainPointsToOldPlaces }
{
    what_kept_chains_rest_on();
    the_entries_between_two_inodes();
}

/// Each place to which a kept chain points, by an inode or by an entry, is one to which a live
/// inode points that it shows at some visible moment; and there is such an inode.
pub fn a_kept_chain_tells_of_seen_places_alone()
    ensures places { AKeptChainTellsOfSeenPlacesAlone }
    ensures live { AKeptChainShowsALiveInode }
{
    what_kept_chains_rest_on();
    a_blank_inode_has_holes_alone();
    a_kept_chain_is_a_run();
    a_kept_chain_is_a_chain();
    a_kept_chain_shows_the_same();
    a_kept_chain_is_seen_alive();
    a_kept_chain_has_seen_inodes_alone();
    a_kept_chain_points_to_old_places();
    cleaning_again_changes_nothing();
}

/// Where the entries of a kept chain are the old ones, so are its first inode and its last.
pub fn an_unchanged_chain_is_the_kept_one()
    ensures { AnUnchangedChainIsTheKeptOne }
{
    entries_determine_a_run();
    a_kept_chain_is_a_run();
    a_kept_chain_has_seen_inodes_alone();
}

/// The entries that make an object are a chain.
pub fn a_creation_is_a_chain()
    ensures { ACreationIsAChain }
{
    a_link_is_an_entry_redone_or_undone();
    entries_determine_a_run();
    the_entries_between_two_inodes();
}

/// A chain whose last inode is live goes on by the entries that lead to a next inode at a later
/// moment.
pub fn a_chain_goes_on()
    ensures { AChainGoesOn }
{
    a_link_is_an_entry_redone_or_undone();
    entries_determine_a_run();
    groups_part_at_a_moment();
    the_entries_between_two_inodes();
}

/// A chain up to a latest moment is one up to each later moment.
pub fn a_chain_is_one_later()
    ensures { AChainIsOneLater }
{}

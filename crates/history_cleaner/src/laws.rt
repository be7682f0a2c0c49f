//! Laws of the chains of stored objects, and of what is left of them once nobody can see a part:
//! each function does nothing, and its contract is the law.
ghost use Rattle.history_cleaner.specs.Laws.{AStoredChainIsAChain, WhatIsLeftCanStand};
ghost use Rattle.history_cleaner.specs.Laws.{AnEmptyJournalStaysEmpty, WhatIsLeftShowsTheSame};
ghost use Rattle.history_cleaner.specs.Laws.{NothingIsLeftOfTheAbsent, WhatIsLeftIsSeen};
ghost use Rattle.history_cleaner.specs.Laws.{WhatIsLeftIsSeenThroughout};
ghost use Rattle.history_cleaner.specs.Reaching.{HeldIsWhatIsReached, WhatIsLeftTellsOfSeenPlaces};
ghost use Rattle.history_cleaner.specs.Reaching.{WhatIsLeftPointsToSeenPlaces};
ghost use Rattle.history_cleaner.specs.Reaching.{WhatIsLeftBeginsTheSame};
ghost use Rattle.history_cleaner.specs.private.Chains.{ChainLaws};
ghost use Rattle.history_cleaner.specs.private.Putting.{PuttingLaws};

use chain_rewriting::cleaning_laws::{
    a_chain_is_one_later, a_kept_chain_has_old_moments, a_kept_chain_has_seen_inodes_alone,
    a_kept_chain_is_a_run, a_kept_chain_is_grouped, a_kept_chain_is_in_order,
    a_kept_chain_is_seen_alive, a_kept_chain_points_to_old_places, a_kept_chain_shows_old_inodes,
    a_kept_chain_shows_the_same, a_kept_chain_takes_no_more_bytes,
    a_kept_chain_tells_of_seen_places_alone, an_unchanged_chain_is_the_kept_one,
    the_moments_of_a_kept_chain_are_old,
};
use row_changes::laws::a_row_keeps_the_making;
use s4_model::laws::clock_and_floor_never_fall;
use undo_redo::laws::{entries_determine_a_run, groups_part_at_a_moment};
use version_store::laws::{inodes_point_to_what_rows_name, what_is_held_is_what_rows_name};

// What the laws below rest on.
fn chains_are_runs()
    ensures { ChainLaws }
{
    entries_determine_a_run();
    a_chain_is_one_later();
    a_kept_chain_is_a_run();
}

/// The chain of a stored object is one that can be cleaned.
pub fn a_stored_chain_is_a_chain()
    ensures { AStoredChainIsAChain }
{
    chains_are_runs();
}

/// What is left of an object's chain can be in the place of its journal.
pub fn what_is_left_can_stand()
    ensures stands { WhatIsLeftCanStand }
    ensures empty { AnEmptyJournalStaysEmpty }
{
    chains_are_runs();
    groups_part_at_a_moment();
    a_kept_chain_is_grouped();
    a_kept_chain_has_old_moments();
    the_moments_of_a_kept_chain_are_old();
    a_kept_chain_is_in_order();
    a_kept_chain_shows_old_inodes();
    a_kept_chain_points_to_old_places();
    inodes_point_to_what_rows_name();
    a_row_keeps_the_making();
    a_kept_chain_takes_no_more_bytes();
}

/// What is left of an object's chain represents the same version at each moment that can be seen,
/// and from the clock on; where nothing is left the object is absent then, and else it is there at
/// some moment that can be seen, and at each moment is as at such a one.
pub fn what_is_left_shows_the_same()
    ensures same { WhatIsLeftShowsTheSame }
    ensures none { NothingIsLeftOfTheAbsent }
    ensures seen { WhatIsLeftIsSeen }
    ensures throughout { WhatIsLeftIsSeenThroughout }
{
    chains_are_runs();
    a_kept_chain_has_old_moments();
    a_kept_chain_shows_the_same();
    a_kept_chain_is_seen_alive();
    a_kept_chain_has_seen_inodes_alone();
}

/// What is left of an object's chain tells of places alone to which a live inode points that it
/// shows at some moment that can be seen; and where it has the entries that stand, it is the chain
/// that stands.
pub fn what_is_left_tells_of_seen_places()
    ensures tells { WhatIsLeftTellsOfSeenPlaces }
    ensures points { WhatIsLeftPointsToSeenPlaces }
    ensures same { WhatIsLeftBeginsTheSame }
{
    chains_are_runs();
    a_kept_chain_tells_of_seen_places_alone();
    an_unchanged_chain_is_the_kept_one();
}

/// Of an object without a row, or with a chain that tells of seen places alone, exactly those data
/// blocks are held to which a live inode points that is current at some moment that can be read.
pub fn held_is_what_is_reached()
    ensures { HeldIsWhatIsReached }
{
    what_is_held_is_what_rows_name();
    inodes_point_to_what_rows_name();
}

// All that the putting of what is left rests on.
pub(crate) fn what_is_left_can_be_put()
    ensures { PuttingLaws }
{
    what_is_left_can_stand();
    what_is_left_shows_the_same();
    what_is_left_tells_of_seen_places();
    held_is_what_is_reached();
    what_is_held_is_what_rows_name();
    inodes_point_to_what_rows_name();
    clock_and_floor_never_fall();
}

//! Laws of chains whose places are mapped to others, for the layers above: each function does
//! nothing, and its contract is the law. The map is any function from places to places. Where it
//! has to be one to one, it is asked on places alone that pass a test, as those of an object's
//! blocks do.
ghost use Rattle.std.specs.Prelude.{Bool};
ghost use Rattle.s4_types.specs.Pointer.{Place};
ghost use Rattle.chain_rewriting.specs.Apart.{Passes};
ghost use Rattle.chain_rewriting.specs.MappingLaws.{MappingCommutesWithRedo};
ghost use Rattle.chain_rewriting.specs.MappingLaws.{MappingCommutesWithUndo};
ghost use Rattle.chain_rewriting.specs.MappingLaws.{MappingCommutesWithRedoOfAll};
ghost use Rattle.chain_rewriting.specs.MappingLaws.{MappingCommutesWithUndoOfAll};
ghost use Rattle.chain_rewriting.specs.MappingLaws.{AMappedChainShowsMappedInodes};
ghost use Rattle.chain_rewriting.specs.MappingLaws.{AMappedLinkIsALink, AMappedRunIsARun};
ghost use Rattle.chain_rewriting.specs.MappingLaws.{ABlankInodeIsMappedToItself, APointerIsMapped};
ghost use Rattle.chain_rewriting.specs.MappingLaws.{AMappedChainBeginsMapped};
ghost use Rattle.chain_rewriting.specs.MappingLaws.{MappedEntriesKeepTheRules};
ghost use Rattle.chain_rewriting.specs.MappingLaws.{AMappedChainIsAChain};
ghost use Rattle.chain_rewriting.specs.MappingLaws.{MappedEntriesStayInGroups};
ghost use Rattle.chain_rewriting.specs.MappingLaws.{MappedEntriesStayInOrder};
ghost use Rattle.chain_rewriting.specs.MappingLaws.{MappedEntriesUpToAMoment};
ghost use Rattle.chain_rewriting.specs.MappingLaws.{AMappedCheckpointKeepsTheRules};
ghost use Rattle.chain_rewriting.specs.MappingLaws.{MappedEntriesKeepTheirMoments};
ghost use Rattle.chain_rewriting.specs.MappingLaws.{MappedEntriesHaveOldMoments};
ghost use Rattle.chain_rewriting.specs.MappingLaws.{TheMomentsOfMappedEntriesAreOld};
ghost use Rattle.chain_rewriting.specs.MappingLaws.{MappedEntriesTakeAsManyBytes};
ghost use Rattle.chain_rewriting.specs.MappingLaws.{AMappedChainTakesAsManyBytes};
ghost use Rattle.chain_rewriting.specs.MappingLaws.{AMappedChainTellsInOrder};
ghost use Rattle.chain_rewriting.specs.MappingLaws.{AMappedChainTellsOfMappedPlaces};
ghost use Rattle.chain_rewriting.specs.MappingLaws.{EachPlaceIsPointedToMapped};
ghost use Rattle.chain_rewriting.specs.MappingLaws.{AMappedInodeMeansTheSame};
ghost use Rattle.chain_rewriting.specs.MappingLaws.{AMappedChainShowsTheSame};

use inode::laws::{only_its_blocks_matter, ranges_join_and_part};

/// Mapping commutes with undo and redo, of one entry and of a list.
pub fn mapping_commutes_with_undo_and_redo()
    ensures redo { (f : Place → Place) → MappingCommutesWithRedo f }
    ensures undo { (f : Place → Place) → MappingCommutesWithUndo f }
    ensures redo_all { (f : Place → Place) → MappingCommutesWithRedoOfAll f }
    ensures undo_all { (f : Place → Place) → MappingCommutesWithUndoOfAll f }
{}

/// Mapped entries lead from the mapped first inode of a run to its mapped last one, and show at
/// each moment the mapped inode, whose pointers are the mapped ones. A blank inode stays as it is.
/// So the first inode is mapped, whether a mapped checkpoint tells it or it is blank.
pub fn a_mapped_run_is_a_run()
    ensures link { (f : Place → Place) → AMappedLinkIsALink f }
    ensures run { (f : Place → Place) → AMappedRunIsARun f }
    ensures shown { (f : Place → Place) → AMappedChainShowsMappedInodes f }
    ensures pointers { (f : Place → Place) → APointerIsMapped f }
    ensures blank { (f : Place → Place) → ABlankInodeIsMappedToItself f }
    ensures first { (f : Place → Place) → AMappedChainBeginsMapped f }
{}

/// A chain stays a chain where the map is one to one on its places, and its entries keep their
/// rules.
pub fn a_mapped_chain_is_a_chain()
    ensures rules { (test : Place → Bool) (f : Place → Place)
        → MappedEntriesKeepTheRules (Passes test) f }
    ensures chain { (test : Place → Bool) (f : Place → Place)
        → AMappedChainIsAChain (Passes test) f }
{}

/// Mapped entries have the moments of the old ones. They are in groups and in order where the
/// entries were, and those up to a moment are those up to it, mapped. None of this asks where to.
pub fn mapped_entries_stay_in_order()
    ensures moments { (f : Place → Place) → MappedEntriesKeepTheirMoments f }
    ensures within { (f : Place → Place) → MappedEntriesHaveOldMoments f }
    ensures old { (f : Place → Place) → TheMomentsOfMappedEntriesAreOld f }
    ensures groups { (f : Place → Place) → MappedEntriesStayInGroups f }
    ensures order { (f : Place → Place) → MappedEntriesStayInOrder f }
    ensures by { (f : Place → Place) → MappedEntriesUpToAMoment f }
{}

/// Mapped entries have as many bytes as the old ones, each and all together; and a checkpoint whose
/// pointers are mapped keeps the rules of checkpoints exactly where it kept them.
pub fn a_mapped_chain_takes_as_many_bytes()
    ensures each { (f : Place → Place) → MappedEntriesTakeAsManyBytes f }
    ensures all { (f : Place → Place) → AMappedChainTakesAsManyBytes f }
    ensures checkpoint { (f : Place → Place) → AMappedCheckpointKeepsTheRules f }
{}

/// What a mapped chain tells of is what the old one told of, mapped: in the same order, and at each
/// moment.
pub fn a_mapped_chain_tells_of_mapped_places()
    ensures order { (f : Place → Place) → AMappedChainTellsInOrder f }
    ensures told { (was is : Place → Bool) (f : Place → Place)
        → AMappedChainTellsOfMappedPlaces (Passes was) (Passes is) f }
    ensures pointed { (f : Place → Place) → EachPlaceIsPointedToMapped f }
{}

/// Over bytes that are as the old ones, each at its new place, a mapped inode means what the inode
/// meant, and is tidy where it was; so a mapped chain shows at each moment what the old one showed.
pub fn a_mapped_chain_shows_the_same()
    ensures inode { (test : Place → Bool) (f : Place → Place)
        → AMappedInodeMeansTheSame (Passes test) f }
    ensures chain { (test : Place → Bool) (f : Place → Place)
        → AMappedChainShowsTheSame (Passes test) f }
{
    only_its_blocks_matter();
    ranges_join_and_part();
}

ghost use Rattle.inode.specs.Laws.{TheSizeCountsTheBytes, TheByteAtEachPlace, BlocksJoinedAndCut};
ghost use Rattle.inode.specs.Laws.{OnlyItsBlocksMatter, HeldPointersLead, TouchedBlocksHaveAByte};
ghost use Rattle.inode.specs.Laws.{RangesJoin, ARangeHasParts, AListIsARange, EqualRanges};
ghost use Rattle.inode.specs.Laws.{BytesFromAnOffset};

/// An inode's bytes are as many as its size tells. They are its blocks joined by index, holes as
/// zeros, cut to the size; where it is tidy, the byte at each place is that of its bytes, or 0 past
/// their end.
pub fn bytes_are_the_blocks_joined()
    ensures count { TheSizeCountsTheBytes }
    ensures joined { BlocksJoinedAndCut }
    ensures at { TheByteAtEachPlace }
{}

/// What an inode means, and that it is tidy, rests on the blocks alone that its pointers refer to.
pub fn only_its_blocks_matter()
    ensures { OnlyItsBlocksMatter }
{}

/// Where each pointer refers to a data block of the object, each leads to a block.
pub fn held_pointers_lead()
    ensures { HeldPointersLead }
{}

/// The blocks that a write touches are those that have a byte of it.
pub fn touched_blocks_have_a_byte()
    ensures { TouchedBlocksHaveAByte }
{}

/// Ranges of bytes, told by their places: two in a row are one, a part of one is one, and a list is
/// the range that has its length and its elements. The bytes of an inode from an offset on are a
/// range of those that its blocks say.
#[tactic(auto, using(crate::proofs::Ranges::ranges_join, crate::proofs::Ranges::parts, crate::proofs::Ranges::list_is, crate::proofs::Ranges::equal_ranges, crate::proofs::Ranges::from_an_offset))]
pub fn ranges_join_and_part()
    ensures join { RangesJoin }
    ensures part { ARangeHasParts }
    ensures list { AListIsARange }
    ensures equal { EqualRanges }
    ensures offset { BytesFromAnOffset }
{}

//! What holds of all ranges and of all differences, for the layers above: each function does
//! nothing, and its contract is the law.
ghost use Rattle.history_diff.specs.Ranges.{RangesAreOnly};
ghost use Rattle.history_diff.specs.Diffing.{DifferencesAreOnly};

/// The ranges in which two lists of bytes differ are the only ones.
pub fn ranges_are_the_only_ones()
    ensures { RangesAreOnly }
{}

/// The differences of a drive between two moments are the only ones, so what is written of them is,
/// and whether there are any.
pub fn differences_are_the_only_ones()
    ensures { DifferencesAreOnly }
{}

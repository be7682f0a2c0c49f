//! What a version that ages is, for the layers above: the function does nothing, and its contract
//! is the law.
ghost use Rattle.history_aging.specs.Ends.{WhatAgesIsLost};

/// A version that is counted could be read, and where it ended by a floor it can't be read from
/// that floor on.
pub fn what_ages_is_lost()
    ensures { WhatAgesIsLost }
{}

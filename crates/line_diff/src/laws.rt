//! What holds of all hunks, for the layers above: the function does nothing, and its contract is
//! the law.
ghost use Rattle.line_diff.specs.Patching.{HunksGiveNew};

/// The hunks that `unified` gives fit the old text, and where they are applied to it they give the
/// new one.
pub fn hunks_give_the_new_text()
    ensures { HunksGiveNew }
{}

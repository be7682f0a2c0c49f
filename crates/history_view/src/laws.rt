//! What changes tell of objects, for the layers above: the function does nothing, and its contract
//! is the laws.
ghost use Rattle.history_view.specs.Changes.{AllElseStays, SizesAreTold};

/// A change tells all blocks that differ: the pointers of all other blocks are equal before and
/// after it. And it tells both sizes.
#[tactic(auto, using(crate::proofs::Outside::all_else_stays, crate::proofs::Outside::sizes_are_told))]
pub fn a_change_is_all_that_differs()
    ensures blocks { AllElseStays }
    ensures sizes { SizesAreTold }
{}

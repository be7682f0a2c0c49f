//! Laws of moves: each function does nothing, and its contract is the law.
ghost use Rattle.segment_copier.specs.Laws.{WhatWasPlannedIsStillThere, EmptyingTakesTheMove};

use journal_chain::packing::laws::packing_keeps_the_rule;
use segment_table::laws::what_is_listed_is_held;

/// Where an object's blocks are as they were when a move was planned, and the memory of its pin is
/// true, the frame is sealed still, and [`commit`](crate::commit) finds in it just the data blocks
/// that were copied. So where each step since left the row's stamp, the move isn't out of date.
pub fn what_was_planned_is_still_there()
    ensures { WhatWasPlannedIsStillThere }
{
    what_is_listed_is_held();
}

/// What [`gather`](crate::gather) counts for a frame is no less than the blocks that the move of
/// any object out of it takes. So it moves none for which as many blocks as a frame has must be
/// written.
pub fn emptying_takes_the_move()
    ensures { EmptyingTakesTheMove }
{
    packing_keeps_the_rule();
}

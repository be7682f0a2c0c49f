//! Laws of what a table holds in its frames: each function does nothing, and its contract is the
//! law.
ghost use Rattle.segment_table.specs.Laws.{WhatIsListedIsHeld, PlacesAheadAreInNoSealedFrame};

/// What `held_in` lists is held in the frame that it was asked for, and that frame is sealed.
pub fn what_is_listed_is_held()
    ensures { WhatIsListedIsHeld }
{}

/// The places that the next appends take lie in the open frame or in free ones.
pub fn places_ahead_are_in_no_sealed_frame()
    ensures { PlacesAheadAreInNoSealedFrame }
{}

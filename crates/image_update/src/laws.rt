//! Laws of differences, for the layers above: each function does nothing, and its contract is the
//! law.
ghost use Rattle.std.specs.Prelude.{◌≡◌, ℕ, List, length, None, Some};
ghost use Rattle.image_update.specs.Bounds.{PutsNoUnitAgain, PutsUnitsApart, PutsWhatDiffers};
ghost use Rattle.image_update.specs.Changes.{Changes, patched};
ghost use Rattle.image_update.specs.Encoding.{IsDifference, changes_in, encoded, encoded_length};
ghost use Rattle.image_update.specs.Encoding.{fault_of};
ghost use Rattle.image_update.specs.Layout.{difference_of};

/// What changed from one front to the next makes the next one of it, whatever bytes they are.
#[tactic(auto, using(crate::proofs::Cuts::difference_gives))]
pub fn a_difference_gives_the_new_front()
    ensures { (old new : List ℕ) → patched (difference_of old new) old ≡ Some new }
{}

/// No two differences share an encoding.
#[tactic(auto, using(crate::proofs::Spelled::one_encoding))]
pub fn one_difference_an_encoding()
    ensures { (one other : Changes) → IsDifference one → IsDifference other
        → encoded one ≡ encoded other → one ≡ other }
{}

/// What is encoded is read again.
#[tactic(auto, using(crate::proofs::Spelled::no_fault, crate::proofs::Spelled::changes_again))]
pub fn an_encoding_is_read_again()
    ensures none { (changes : Changes) → IsDifference changes → fault_of (encoded changes) ≡ None }
    ensures same { (changes : Changes) → IsDifference changes
        → changes_in (encoded changes) ≡ changes }
{}

/// How many bytes an encoding has.
#[tactic(auto, using(crate::proofs::Spelled::encoded_bytes))]
pub fn an_encoding_has_so_many_bytes()
    ensures { (changes : Changes) → length (encoded changes) ≡ encoded_length changes }
{}

/// Only what differs is put: an encoding has the new parts of the pairs that differ, and at most a
/// step for each, and one more.
#[tactic(auto, using(crate::proofs::Short::puts_what_differs))]
pub fn only_what_differs_is_put()
    ensures { PutsWhatDiffers }
{}

/// Of words and blocks of frames, and of the header's, those that differ from those in their places
/// are put and no others, where there are as many.
#[tactic(auto, using(crate::proofs::Short::puts_units_apart))]
pub fn units_in_their_places_are_not_put()
    ensures { PutsUnitsApart }
{}

/// Of rows, spans and audit rows, where they ascend, none is put that both fronts have.
#[tactic(auto, using(crate::proofs::Fresh::puts_no_unit_again))]
pub fn units_that_both_have_are_not_put()
    ensures { PutsNoUnitAgain }
{}

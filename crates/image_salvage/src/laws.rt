//! Laws of salvage, for the layers above: each function does nothing, and its contract is the law.
ghost use Rattle.image_salvage.specs.Laws.{AnUndamagedImageIsSalvagedWhole, WhatIsWholeIsAll};

use codec::laws::{a_summary_has_one_encoding, one_pointer_a_spelling};
use image_objects::laws::inodes_used_point_to_what_rows_lead_to;
use inode::laws::only_its_blocks_matter;
use undo_redo::laws::entries_determine_a_run;
use verifier::laws::{what_has_a_fault_spells_nothing, what_has_no_fault_is_an_image};

/// Of an image that isn't damaged no object is lost, and each represents the version that it has at
/// the clock in a drive that is opened from it.
pub fn an_undamaged_image_is_salvaged_whole()
    ensures { AnUndamagedImageIsSalvagedWhole }
{
    a_summary_has_one_encoding();
    one_pointer_a_spelling();
    entries_determine_a_run();
    inodes_used_point_to_what_rows_lead_to();
    only_its_blocks_matter();
    what_has_a_fault_spells_nothing();
    what_has_no_fault_is_an_image();
}

/// Where nothing of what was salvaged is lost, the bytes are an image, and each object that is live
/// in a drive that is opened from it has a file with exactly the bytes of its version at the clock.
pub fn what_is_whole_is_all()
    ensures { WhatIsWholeIsAll }
{
    an_undamaged_image_is_salvaged_whole();
}

//! Laws of drives that are opened from images, for the layers above: each function does nothing,
//! and its contract is the law.
ghost use Rattle.std.specs.Prelude.{◌≡◌, ℕ, List};
ghost use Rattle.s4_types.specs.History.{Base};
ghost use Rattle.s4_model.specs.Promise.{beginning, GoesOn};
ghost use Rattle.segment_table.specs.Room.{log_of};
ghost use Rattle.segment_table.specs.Used.{HoldsUsedBlocks};
ghost use Rattle.version_store.specs.Store.{fields_of, IsStore};
ghost use Rattle.drive.specs.Fields.{DriveFields, history_of, state_in, store_of};
ghost use Rattle.drive.specs.Keeping.{DecodesWhereVisible};
ghost use Rattle.drive.specs.Opened.{OpenedFields, base_of};
ghost use Rattle.image_parts.specs.Image.{Image as ImageParts};
ghost use Rattle.verifier.specs.Grammar.{SpellsDrive};
ghost use Rattle.verifier.specs.Images.{ImageFields, CanBeOpened, IsImageOf};
ghost use Rattle.verifier.specs.Saved.{SpellsSaved};
ghost use Rattle.verifier.specs.Opened.{IsOpenedOf, IsToldBy, IsNamedOf, TellsBase};

use crate::laws::{one_image_a_drive, what_has_no_fault_is_an_image};
use codec::laws::{a_summary_has_one_encoding, one_pointer_a_spelling};
use drive::laws::a_base_is_what_its_objects_stand_for;
use image_objects::laws::rows_that_stand_make_a_store;
use image_objects::saving_laws::a_saved_row_tells_the_same;
use inode::laws::only_its_blocks_matter;

/// What a drive begins with that is opened from an image is what the parts of the image tell: their
/// numbers and spans, and at each moment of each object the version that their rows and used blocks
/// do.
pub fn an_opened_drive_begins_as_its_image_tells()
    ensures { (bytes : List ℕ) (parts : ImageParts) (image : ImageFields) (opened : OpenedFields) → SpellsDrive bytes parts → IsImageOf parts image → CanBeOpened image → IsOpenedOf image opened
        → IsToldBy parts (base_of (fields_of log_of opened.store) opened.timeline opened.next opened.audit) }
{
    a_base_is_what_its_objects_stand_for();
    rows_that_stand_make_a_store();
    a_summary_has_one_encoding();
    one_pointer_a_spelling();
}

/// The bytes that a drive was opened from are an image of the drive.
pub fn an_image_spells_the_drive_opened_from_it()
    ensures { (bytes : List ℕ) (parts : ImageParts) (image : ImageFields) (opened : OpenedFields) (d : DriveFields) → SpellsDrive bytes parts → IsImageOf parts image → IsOpenedOf image opened → IsNamedOf opened d
        → SpellsSaved d bytes }
{}

/// What was verified, opened and saved again is the same list of bytes: a drive that has begun with
/// what an image tells, and that nothing has happened to, is saved as just the bytes that it was
/// opened from.
pub fn what_is_opened_is_saved_as_it_was()
    ensures { (bytes saved : List ℕ) (parts : ImageParts) (image : ImageFields) (opened : OpenedFields) (d : DriveFields) → SpellsDrive bytes parts → IsImageOf parts image → IsOpenedOf image opened → IsNamedOf opened d
        → SpellsSaved d saved → saved ≡ bytes }
{
    one_image_a_drive();
    an_image_spells_the_drive_opened_from_it();
}

/// What a drive begins with that is opened from a saved image goes on where the saved drive ended:
/// with its clock, window, floor and next number, its hidden moments from the floor on, and each
/// version that can be read.
pub fn what_is_saved_goes_on()
    ensures { (d : DriveFields) (bytes : List ℕ) (base : Base) → IsStore (store_of d) → HoldsUsedBlocks d.store.table → DecodesWhereVisible (store_of d) (state_in d) → SpellsSaved d bytes → TellsBase bytes base
        → GoesOn (history_of d) (beginning base) }
{
    what_has_no_fault_is_an_image();
    a_summary_has_one_encoding();
    one_pointer_a_spelling();
    a_saved_row_tells_the_same();
    only_its_blocks_matter();
}

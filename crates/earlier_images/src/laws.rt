//! Laws of images of an earlier version, for the layers above: each function does nothing, and its
//! contract is the law.
ghost use Rattle.std.specs.Prelude.{◌≡◌, ◌↔◌, ℕ, List, Option, Some, None};
ghost use Rattle.s4_types.specs.Pointer.{Place};
ghost use Rattle.s4_types.specs.declared.refusals.Cause.{Cause as Found};
ghost use Rattle.image_parts.specs.Header.{AreBytes};
ghost use Rattle.image_parts.specs.Frames.{FrameFields};
ghost use Rattle.image_parts.specs.Image.{Image as Parts, image_in};
ghost use Rattle.codec.specs.declared.versions.ImageVersion.{ImageVersion as Version};
ghost use Rattle.segment_table.specs.Table.{Table};
ghost use Rattle.segment_table.specs.Used.{used_at};
ghost use Rattle.verifier.specs.Tables.{IsTableOf};
ghost use Rattle.earlier_images.specs.declared.frames.EarlierFrame.{EarlierFrame as Frame};
ghost use Rattle.earlier_images.specs.Used.{AreFramesOf, used_in};
ghost use Rattle.earlier_images.specs.Images.{EarlierFields, IsEarlierOf};
ghost use Rattle.earlier_images.specs.Grammar.{SpellsEarlier, FirstEarlierFault};

use codec::laws::{a_summary_has_one_encoding, one_pointer_a_spelling};
use image_parts::laws::images_with_a_mark;

/// Frames are read in one way, and so is what pointers name in them.
pub fn an_image_has_its_frames_once()
    ensures { (parts : List FrameFields) (frames others : List Frame) → AreFramesOf parts frames
        → AreFramesOf parts others → frames ≡ others }
{
    a_summary_has_one_encoding();
}

/// A pointer names in the frames of an image what it names in a table of these frames.
pub fn a_table_names_the_same()
    ensures { (parts : List FrameFields) (frames : List Frame) (t : Table) (p : Place)
        → AreFramesOf parts frames → IsTableOf parts t → used_in frames p ≡ used_at t p }
{
    a_summary_has_one_encoding();
}

/// What is read of the parts of an image is one image.
pub fn one_image_is_read()
    ensures { (version : Version) (parts : Parts) (image other : EarlierFields)
        → IsEarlierOf version parts image → IsEarlierOf version parts other → image ≡ other }
{
    one_pointer_a_spelling();
    an_image_has_its_frames_once();
}

/// Bytes in which a fault is found encode no image of an earlier version.
pub fn what_has_a_fault_spells_nothing()
    ensures { (bytes : List ℕ) (cause : Found) (image : Parts)
        → FirstEarlierFault bytes (Some cause) → SpellsEarlier bytes image → ⊥ }
{
    images_with_a_mark();
}

/// Bytes in which no fault is found are those that encode an image of an earlier version: the one
/// that is read from them.
pub fn what_has_no_fault_is_an_image()
    ensures image { (bytes : List ℕ) → AreBytes bytes
        → FirstEarlierFault bytes None ↔ SpellsEarlier bytes (image_in bytes) }
    ensures read { (bytes : List ℕ) (image : Parts) → SpellsEarlier bytes image
        → image_in bytes ≡ image }
{
    images_with_a_mark();
}

/// The tests come to one cause, or to none.
pub fn one_first_fault()
    ensures { (bytes : List ℕ) (found other : Option Found) → FirstEarlierFault bytes found
        → FirstEarlierFault bytes other → found ≡ other }
{}

//! Laws of the images of drives, for the layers above: each function does nothing, and its contract
//! is the law.
ghost use Rattle.std.specs.Prelude.{◌≡◌, ◌↔◌, ℕ, List, [], ◌∷◌, ◌++◌, length, Option, Some, None};
ghost use Rattle.std.specs.List.{Contains};
ghost use Rattle.s4_types.specs.declared.refusals.Cause.{Cause as Found};
ghost use Rattle.s4_types.specs.declared.spans.Span.{Span as Hidden};
ghost use Rattle.image_parts.specs.Header.{AreBytes};
ghost use Rattle.image_parts.specs.Image.{Image as ImageParts, image_in};
ghost use Rattle.image_parts.specs.declared.rows.RowPart.{RowPart};
ghost use Rattle.image_objects.specs.declared.rows.ImageRow.{ImageRow};
ghost use Rattle.window.specs.Runs.{Ascend, AllBeginFrom};
ghost use Rattle.window.specs.Timeline.{CoverAlike};
ghost use Rattle.drive.specs.Fields.{DriveFields};
ghost use Rattle.verifier.specs.Grammar.{SpellsDrive, FirstFault};
ghost use Rattle.verifier.specs.Images.{ImageFields, IsImageOf};
ghost use Rattle.verifier.specs.Opened.{IsReadOf};
ghost use Rattle.verifier.specs.Saved.{SpellsSaved};
ghost use Rattle.verifier.specs.Rows.{SpellsRow, SpellRows};

use image_parts::laws::{an_image_is_read, what_no_test_refuses_is_an_image};

/// Bytes in which a fault is found encode no image of a drive.
pub fn what_has_a_fault_spells_nothing()
    ensures { (bytes : List ℕ) (cause : Found) (image : ImageParts)
        → FirstFault bytes (Some cause) → SpellsDrive bytes image → ⊥ }
{
    an_image_is_read();
}

/// Bytes in which no fault is found are those that encode the image of a drive: the one that is
/// read from them.
pub fn what_has_no_fault_is_an_image()
    ensures image { (bytes : List ℕ) → AreBytes bytes
        → FirstFault bytes None ↔ SpellsDrive bytes (image_in bytes) }
    ensures read { (bytes : List ℕ) (image : ImageParts) → SpellsDrive bytes image
        → image_in bytes ≡ image }
{
    an_image_is_read();
    what_no_test_refuses_is_an_image();
}

/// Bytes that encode the image of a drive are read as one: there is what `verify` gives of them.
/// Whatever is read of an image has as many objects as it has rows.
pub fn an_encoded_drive_is_read()
    ensures read { (bytes : List ℕ) (parts : ImageParts) → SpellsDrive bytes parts
        → (image : ImageFields) × IsReadOf bytes image }
    ensures objects { (parts : ImageParts) (image : ImageFields) → IsImageOf parts image
        → length image.objects ≡ length parts.rows }
{}

/// The tests come to one cause, or to none.
pub fn one_first_fault()
    ensures { (bytes : List ℕ) (found other : Option Found) → FirstFault bytes found
        → FirstFault bytes other → found ≡ other }
{}

/// Rows are read one after the other.
///
/// `next`: what one part more encodes comes after what the parts before it do. `only`: where those
/// encode nothing else, and that one neither, the parts together don't. `listed`: a part among
/// others encodes one of the rows.
pub fn rows_are_read_in_order()
    ensures next { (parts : List RowPart) (rows : List ImageRow) (part : RowPart) (row : ImageRow)
        → SpellRows parts rows → SpellsRow part row
        → SpellRows (parts ++ part ∷ []) (rows ++ row ∷ []) }
    ensures only { (parts : List RowPart) (part : RowPart) (rows : List ImageRow) (row : ImageRow)
        → ((others : List ImageRow) → SpellRows parts others → others ≡ rows)
        → ((other : ImageRow) → SpellsRow part other → other ≡ row)
        → (others : List ImageRow) → SpellRows (parts ++ part ∷ []) others
        → others ≡ rows ++ row ∷ [] }
    ensures listed { (done : List RowPart) (part : RowPart) (rest : List RowPart)
        (rows : List ImageRow) → SpellRows (done ++ part ∷ rest) rows
        → (row : ImageRow) × SpellsRow part row × Contains rows row }
{}

/// Spans in order, from a floor on, are told by what they hide: two such lists that cover the same
/// moments of the same lists are equal.
pub fn spans_that_cover_alike_are_equal()
    ensures { (floor : ℕ) (spans others : List Hidden) → Ascend spans → Ascend others
        → AllBeginFrom floor spans → AllBeginFrom floor others
        → CoverAlike floor spans others → spans ≡ others }
{}

/// A drive is saved as one list of bytes: two lists that both encode an image of it are equal.
pub fn one_image_a_drive()
    ensures { (d : DriveFields) (bytes other : List ℕ) → SpellsSaved d bytes → SpellsSaved d other
        → bytes ≡ other }
{}

//! The rows of an image with their pointers read.
ghost use Rattle.std.specs.Prelude.{◌≡◌, IfSome};
ghost use Rattle.image_objects.specs.declared.rows.ImageRow.{ImageRow as RowFields};
ghost use Rattle.verifier.specs.Rows.{SpellsRow};

use image_objects::ImageRow;
use image_parts::RowPart;

/// A row of an image, with the pointers that its bytes encode. None where they encode neither a
/// pointer nor a hole.
pub fn row_of(part: &RowPart) -> Option<ImageRow>
    ensures found { IfSome result (λ row. SpellsRow part.now row) }
    ensures only { (row : RowFields) → SpellsRow part.now row → result ≡ Some row }
{
    let checkpoint = part.checkpoint_slot()?;
    let head = part.head_slot()?;
    Some(ImageRow {
        object: part.object,
        created: part.created,
        checkpoint,
        checkpoint_moment: part.checkpoint_moment,
        head,
    })
}

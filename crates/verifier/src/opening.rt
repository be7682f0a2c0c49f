//! A drive that is opened from an image.
ghost use Rattle.std.specs.Prelude.{◌≡◌, ℕ, List, ◌⊎◌, IfOk, IfErr};
ghost use Rattle.s4_types.specs.declared.refusals.Refusal.TheVariants.{NoMemory, Busy};
ghost use Rattle.segment_table.specs.Room.{log_of};
ghost use Rattle.version_store.specs.Store.{fields_of};
ghost use Rattle.drive.specs.Opened.{base_of};
ghost use Rattle.image_parts.specs.Image.{Image as ImageParts};
ghost use Rattle.verifier.specs.Grammar.{SpellsDrive};
ghost use Rattle.verifier.specs.Images.{IsImageOf};
ghost use Rattle.verifier.specs.Opened.{IsOpenedOf, IsReadOf, IsToldBy, TellsBase, begins_with};

use crate::images::Image;
use crate::opening_laws::an_opened_drive_begins_as_its_image_tells;
use drive::OpenedDrive;
use s4_types::Refusal;
use std::alloc::Global;

/// A drive whose frames, rows, spans, numbers and audit rows are the image's, and whose last change
/// was at the image's clock. What its history begins with is what the parts of the image tell,
/// where bytes encode these. It has no name yet. What the image has is let go.
///
/// NoMemory where memory was refused, Busy where a count of those that share a part of the drive
/// was full.
pub fn open(alloc: Global, image: Image) -> Result<OpenedDrive, Refusal>
    ensures opened { IfOk result (λ d. IsOpenedOf image d) }
    ensures base { IfOk result (λ d. (bytes : List ℕ) (parts : ImageParts) → SpellsDrive bytes parts → IsImageOf parts image
        → IsToldBy parts (base_of (fields_of log_of d.store) d.timeline d.next d.audit)) }
    // It begins with what the bytes tell that the image was read of.
    ensures promise { IfOk result
        (λ d. (bytes : List ℕ) → IsReadOf bytes image → TellsBase bytes (begins_with d)) }
    ensures refusal { IfErr result (λ e. (e ≡ NoMemory) ⊎ (e ≡ Busy)) }
{
    an_opened_drive_begins_as_its_image_tells();
    image.into_drive(alloc)
}

//! An image that is read and written again.
ghost use Rattle.std.specs.Prelude.{◌≡◌, ◌⊎◌, List, ℕ, Some, IfOk, IfErr};
ghost use Rattle.s4_types.specs.declared.refusals.Cause.{Cause as Found};
ghost use Rattle.s4_types.specs.declared.refusals.Refusal.TheVariants.{NoMemory, Busy, Damaged};
ghost use Rattle.segment_table.specs.Room.{log_of};
ghost use Rattle.version_store.specs.Store.{fields_of};
ghost use Rattle.drive.specs.Opened.{base_of};
ghost use Rattle.image_parts.specs.Image.{Image as ImageParts, image_in};
ghost use Rattle.verifier.specs.Grammar.{SpellsDrive, FirstFault};
ghost use Rattle.verifier.specs.Images.{ImageFields, IsImageOf};
ghost use Rattle.verifier.specs.Opened.{IsOpenedOf};

use crate::opening::open;
use crate::opening_laws::what_is_opened_is_saved_as_it_was;
use crate::saving::save;
use crate::verifying::verify;
use drive::OpenedDrive;
use s4_types::Refusal;
use segment_word::Naming;
use std::alloc::Global;
use std::marker::Brand;
use std::thread::Threads;

/// The image of a drive that is opened from an image: the same bytes.
///
/// Damaged with the cause of the first test that fails, where the bytes encode no image; NoMemory
/// where memory was refused, Busy where a count of those that share a part of the drive was full.
pub fn round_trip<R: Threads>(rt: &R, alloc: Global, bytes: &[u8]) -> Result<Vec<u8>, Refusal>
    ensures same { IfOk result (λ saved. saved.items ≡ bytes.now) }
    ensures whole { IfOk result (λ saved. SpellsDrive bytes.now (image_in bytes.now)) }
    ensures refusal { IfErr result
        (λ e. (e ≡ NoMemory) ⊎ (e ≡ Busy)
        ⊎ ((cause : Found) × (e ≡ Damaged cause) × FirstFault bytes.now (Some cause))) }
{
    let image = verify(rt, alloc, bytes)?;
    let opened = open(alloc, image)?;
    let saved = save_named::<Brand>(alloc, opened)?;
    Ok(saved)
}

// The image of a drive that was just opened.
fn save_named<J: Naming>(alloc: Global, opened: OpenedDrive) -> Result<Vec<u8>, Refusal>
    requires accepts { opened.accepts ≡ J.accepts }
    requires frames { opened.store.table.seat.table ≡ J.frames }
    requires base { base_of (fields_of log_of opened.store) opened.timeline opened.next opened.audit ≡ J.base }
    ensures same { IfOk result (λ saved. (bytes : List ℕ) (parts : ImageParts) (image : ImageFields) → SpellsDrive bytes parts → IsImageOf parts image → IsOpenedOf image opened
        → saved.items ≡ bytes) }
    ensures refusal { IfErr result (λ e. e ≡ NoMemory) }
{
    what_is_opened_is_saved_as_it_was();
    let mut drive = opened.named::<J>();
    save(alloc, &mut drive)
}

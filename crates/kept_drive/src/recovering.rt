//! The drive that a kept image holds.
ghost use Rattle.std.specs.Prelude.{◌≡◌, ◌⊎◌, Some, IfErr, IfOk};
ghost use Rattle.s4_types.specs.History.{History};
ghost use Rattle.s4_types.specs.declared.refusals.Cause.{Cause as Found};
ghost use Rattle.s4_types.specs.declared.refusals.Refusal.TheVariants.{Busy, Damaged, NoMemory};
ghost use Rattle.s4_model.specs.Promise.{GoesOn, beginning};
ghost use Rattle.image_parts.specs.Image.{image_in};
ghost use Rattle.verifier.specs.Grammar.{FirstFault, SpellsDrive};
ghost use Rattle.verifier.specs.Opened.{TellsBase, begins_with};
ghost use Rattle.kept_drive.specs.Images.{IsImageOf};

use drive::OpenedDrive;
use s4_types::Refusal;
use std::alloc::Global;
use std::thread::Threads;
use verifier::{open, verify};

/// The drive whose image these bytes are. Where they are kept of a history, it goes on where that
/// ended, and is refused only where memory is short.
///
/// Damaged with the cause of the first test that fails, where the bytes encode no image; NoMemory
/// where memory was refused, Busy where a count of those that share a part of the drive was full.
pub fn recover<R: Threads>(rt: &R, alloc: Global, bytes: &[u8]) -> Result<OpenedDrive, Refusal>
    ensures tells { IfOk result (λ d. TellsBase bytes.now (begins_with d)) }
    ensures goes_on { IfOk result
        (λ d. (ended : History) → IsImageOf ended bytes.now
        → GoesOn ended (beginning (begins_with d))) }
    ensures refusal { IfErr result
        (λ e. (e ≡ NoMemory) ⊎ (e ≡ Busy)
        ⊎ ((cause : Found) × (e ≡ Damaged cause) × FirstFault bytes.now (Some cause))) }
    // What is an image is refused only where memory is short, and so is what is kept.
    ensures never { SpellsDrive bytes.now (image_in bytes.now)
        → IfErr result (λ e. (e ≡ NoMemory) ⊎ (e ≡ Busy)) }
{
    let image = match verify(rt, alloc, bytes) {
        Ok(image) => image,
        Err(refusal) => return Err(refusal),
    };
    open(alloc, image)
}

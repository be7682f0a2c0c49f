//! Images of earlier versions, made into images of the present one.
ghost use Rattle.std.specs.Prelude.{◌≡◌, ◌⊎◌, ℕ, List, Some, IfOk, IfErr};
ghost use Rattle.s4_types.specs.declared.refusals.Cause.{Cause as Found};
ghost use Rattle.s4_types.specs.declared.refusals.Refusal.TheVariants.{NoMemory, Damaged};
ghost use Rattle.s4_types.specs.declared.refusals.Refusal.TheVariants.{NoRoom};
ghost use Rattle.verifier.specs.Opened.{IsReadOf};
ghost use Rattle.earlier_images.specs.Grammar.{FirstEarlierFault};
ghost use Rattle.migration.specs.Migrated.{IsTooMuch, LaysOut, Migrates};

use crate::copy_laws::what_was_written_is_migrated;
use crate::writing::lay_out;
use earlier_images::read_earlier;
use s4_types::Refusal;
use s4_types::limits::MOST_FRAMES;
use std::alloc::Global;
use std::thread::Threads;
use verifier::laws::what_has_a_fault_spells_nothing;
use verifier::{Image, verify};

/// The bytes of the image of the present version that an image of an earlier one becomes. It says
/// what that one says, at all moments. Its blocks are written in a fixed order from the first frame
/// on: of each object, by ascending number, the data that it still has, by its old places, then its
/// checkpoint, and then its journal, the oldest block first.
///
/// Damaged with the cause of the first of that version's tests that fails, where the bytes encode
/// no image of it; NoRoom where the new image would have more than `MOST_FRAMES` frames, and only
/// there; NoMemory where memory was refused.
pub fn migrated(alloc: Global, bytes: &[u8]) -> Result<Vec<u8>, Refusal>
    ensures migrates { IfOk result (λ new. Migrates bytes.now new.items) }
    ensures layout { IfOk result (λ new. LaysOut bytes.now new.items) }
    ensures fits { IfOk result (λ new. IsTooMuch bytes.now → ⊥) }
    ensures refusal { IfErr result
        (λ e. (e ≡ NoMemory)
        ⊎ (((e ≡ NoRoom) × IsTooMuch bytes.now)
        ⊎ ((cause : Found) × (e ≡ Damaged cause) × FirstEarlierFault bytes.now (Some cause)))) }
{
    what_was_written_is_migrated();
    let old = read_earlier(alloc, bytes)?;
    let audit = Vec::new(alloc);
    let frames = old.frames().len();
    lay_out(alloc, &old, audit.as_slice(), frames, MOST_FRAMES)
}

/// The image of the present version that an image of an earlier one becomes, read back from the
/// bytes that `migrated` writes. It refuses what that refuses, with the same causes.
pub fn migrate<R: Threads>(rt: &R, alloc: Global, bytes: &[u8]) -> Result<Image, Refusal>
    ensures migrates { IfOk result (λ image. (new : List ℕ) × Migrates bytes.now new × LaysOut bytes.now new × IsReadOf new image) }
    ensures refusal { IfErr result
        (λ e. (e ≡ NoMemory)
        ⊎ (((e ≡ NoRoom) × IsTooMuch bytes.now)
        ⊎ ((cause : Found) × (e ≡ Damaged cause) × FirstEarlierFault bytes.now (Some cause)))) }
{
    what_has_a_fault_spells_nothing();
    let new = migrated(alloc, bytes)?;
    verify(rt, alloc, new.as_slice())
}

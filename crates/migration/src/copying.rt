//! Copies of images of the present version.
ghost use Rattle.std.specs.Prelude.{◌≡◌, ◌⊎◌, ◌≤◌, ℕ, List, Some, IfOk, IfErr, length, min};
ghost use Rattle.std.specs.Prelude.{◌<◌, unwrap_or};
ghost use Rattle.s4_types.specs.declared.limits.TheConstants.{MOST_FRAMES};
ghost use Rattle.s4_types.specs.declared.refusals.Cause.{Cause as Found};
ghost use Rattle.s4_types.specs.declared.refusals.Refusal.TheVariants.{NoMemory, Damaged};
ghost use Rattle.s4_types.specs.declared.refusals.Refusal.TheVariants.{NoRoom};
ghost use Rattle.verifier.specs.Grammar.{FirstFault};
ghost use Rattle.migration.specs.Copies.{Copies, IsTooMuchToCopy, frames_allowed, rows_left, stays};

use crate::copy_laws::what_was_laid_out_is_a_copy;
use crate::writing::lay_out;
use earlier_images::read_present;
use image_objects::ImageRow;
use image_parts::{AuditPart, ImageParts, split_parts};
use s4_types::limits::MOST_FRAMES;
use s4_types::{Moment, ObjectId, Refusal};
use std::alloc::Global;
use std::collections::BTreeSet;
use std::thread::Threads;
use verifier::laws::what_has_a_fault_spells_nothing;
use verifier::verify;

/// What a copy of an image is to have.
#[derive(Clone, Copy)]
pub struct CopyAsked<'a> {
    /// How many frames it has. As many as the image, or more where they are needed, where that
    /// isn't said.
    pub frames: Option<u16>,
    /// Objects that are left out, by their numbers.
    pub objects: &'a BTreeSet<ObjectId>,
    /// Objects that were made at this moment or later are left out, too.
    pub since: Option<Moment>,
}

impl CopyAsked<'_> {
    /// Whether an object that was made at this moment is in the copy.
    pub fn stays(&self, object: ObjectId, created: Moment) -> bool
        ensures { result ≡ stays self.now object created }
    {
        if self.objects.contains(&object) {
            return false;
        }
        match self.since {
            None => true,
            Some(since) => created < since,
        }
    }
}

/// The rows of the objects that are in the copy. NoMemory alone.
fn left_of(
    alloc: Global,
    asked: &CopyAsked<'_>,
    rows: &[ImageRow],
) -> Result<Vec<ImageRow>, Refusal>
    ensures left { IfOk result (λ left. left.items ≡ rows_left asked.now rows.now) }
    ensures refusal { IfErr result (λ e. e ≡ NoMemory) }
{
    let mut left = Vec::new(alloc);
    for row in rows {
        if !asked.stays(row.object, row.created) {
            continue;
        }
        left.push(*row)?;
    }
    Ok(left)
}

/// The audit rows of an image. NoMemory alone.
fn audit_of(alloc: Global, parts: &ImageParts<'_>) -> Result<Vec<AuditPart>, Refusal>
    ensures audit { IfOk result (λ audit. audit.items ≡ parts.now.audit) }
    ensures refusal { IfErr result (λ e. e ≡ NoMemory) }
{
    let mut audit = Vec::new(alloc);
    for row in parts.audit() {
        audit.push(row)?;
    }
    Ok(audit)
}

/// How many frames are asked for: as many as the image has, where that isn't said. NoRoom where they
/// are more than a drive may have.
fn frames_asked(asked: &CopyAsked<'_>, old: usize) -> Result<usize, Refusal>
    requires { old ≤ MOST_FRAMES }
    ensures frames { IfOk result
        (λ n. (n ≡ unwrap_or asked.now.frames old) × (n ≤ MOST_FRAMES)) }
    ensures refusal { IfErr result
        (λ e. (e ≡ NoRoom) × (MOST_FRAMES < unwrap_or asked.now.frames old)) }
{
    match asked.frames {
        None => Ok(old),
        Some(frames) if frames as usize > MOST_FRAMES => Err(Refusal::NoRoom),
        Some(frames) => Ok(frames as usize),
    }
}

/// How many frames the copy may have.
fn frames_allowed(asked: &CopyAsked<'_>) -> usize
    ensures { result ≡ frames_allowed asked.now }
{
    match asked.frames {
        None => MOST_FRAMES,
        Some(frames) => MOST_FRAMES.min(frames as usize),
    }
}

/// The bytes of a copy of an image of the present version, without some of its objects. It says of
/// the others what the image says, at all moments, and has its numbers, spans and audit rows.
///
/// Its blocks are written as those of `migrated` are: of each object, by ascending number, the data
/// that it still has, by its old places, then its checkpoint, and then its journal, the oldest block
/// first. So it has as many frames as were asked for; or else as the image has, or as are needed.
///
/// Damaged with the cause of the first test of `verify` that fails, where the bytes encode no image;
/// NoRoom where the copy would need more frames than were asked for, or than `MOST_FRAMES`, and only
/// there; NoMemory where memory was refused.
pub fn copied<R: Threads>(
    rt: &R,
    alloc: Global,
    bytes: &[u8],
    asked: &CopyAsked<'_>,
) -> Result<Vec<u8>, Refusal>
    ensures copies { IfOk result (λ new. Copies asked.now bytes.now new.items) }
    ensures fits { IfOk result (λ new. IsTooMuchToCopy asked.now bytes.now → ⊥) }
    ensures refusal { IfErr result
        (λ e. (e ≡ NoMemory)
        ⊎ (((e ≡ NoRoom) × IsTooMuchToCopy asked.now bytes.now)
        ⊎ ((cause : Found) × (e ≡ Damaged cause) × FirstFault bytes.now (Some cause)))) }
{
    what_has_a_fault_spells_nothing();
    what_was_laid_out_is_a_copy();
    drop(verify(rt, alloc, bytes)?);
    let Ok(parts) = split_parts(bytes) else {
        unreachable!()
    };
    let image = read_present(alloc, &parts)?;
    let frames = frames_asked(asked, image.frames().len())?;
    let left = left_of(alloc, asked, image.rows())?;
    let audit = audit_of(alloc, &parts)?;
    let image = image.with_rows(left);
    lay_out(
        alloc,
        &image,
        audit.as_slice(),
        frames,
        frames_allowed(asked),
    )
}

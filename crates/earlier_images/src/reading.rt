//! Bytes that are the image of a drive of an earlier version, or not.
ghost use Rattle.std.specs.Prelude.{◌≡◌, ◌⊎◌, Some, None, IfSome, IfNone, IfOk, IfErr};
ghost use Rattle.s4_types.specs.declared.refusals.Cause.{Cause as Found};
ghost use Rattle.s4_types.specs.declared.refusals.Refusal.TheVariants.{NoMemory, Damaged};
ghost use Rattle.image_parts.specs.declared.marks.ImageMark.TheVariants.{Earlier};
ghost use Rattle.image_parts.specs.Marks.{earlier_in};
ghost use Rattle.image_parts.specs.Header.{KeepsHeaderRulesBy};
ghost use Rattle.image_parts.specs.Image.{header_of, image_in};
ghost use Rattle.image_objects.specs.Versions.{RowsStandBy};
ghost use Rattle.verifier.specs.Rows.{SpellRows};
ghost use Rattle.earlier_images.specs.Used.{AreFramesOf, used_in};
ghost use Rattle.earlier_images.specs.Rows.{EarlierChainsStand};
ghost use Rattle.earlier_images.specs.Images.{IsEarlierOf};
ghost use Rattle.earlier_images.specs.Grammar.{SpellsEarlier, FirstEarlierFault};
ghost use Rattle.earlier_images.specs.private.Rest.{FirstEarlierRest};

use crate::frames::{EarlierFrames, read_frames};
use crate::images::EarlierImage;
use crate::laws::an_image_has_its_frames_once;
use crate::rows::read_rows;
use codec::ImageVersion;
use image_objects::ImageRow;
use image_parts::laws::images_with_a_mark;
use image_parts::{
    ImageMark, ImageParts, earlier_version, has_digest, rows_keep_rules, spans_keep_rules,
    split_parts_by,
};
use s4_types::{Cause, Refusal};
use std::alloc::Global;
use verifier::spans_of;

/// Bytes of the mark that a header begins with.
const MARK_BYTES: usize = 8;

/// The rows of an image over its frames. None where its chains don't keep the rules. NoMemory
/// alone.
fn read_chains(
    alloc: Global,
    version: ImageVersion,
    frames: &EarlierFrames<'_>,
    parts: &ImageParts<'_>,
) -> Result<Option<Vec<ImageRow>>, Refusal>
    requires { AreFramesOf parts.now.frames frames.now }
    ensures spelled { IfOk result
        (λ found. IfSome found (λ rows. SpellRows parts.now.rows rows.items)) }
    ensures stand { IfOk result
        (λ found. IfSome found
        (λ rows. RowsStandBy version (used_in frames.now) rows.items parts.now.clock)) }
    ensures chains { IfOk result (λ found. IfSome found (λ rows. EarlierChainsStand version parts.now)) }
    ensures none { IfOk result (λ found. IfNone found (EarlierChainsStand version parts.now → ⊥)) }
    ensures refusal { IfErr result (λ e. e ≡ NoMemory) }
{
    an_image_has_its_frames_once();
    let Some(rows) = read_rows(alloc, version, frames, parts, parts.header().clock)? else {
        return Ok(None);
    };
    Ok(Some(rows))
}

/// The image of parts whose header keeps its rules: their frames, spans, rows and chains are
/// tested, in this order.
///
/// Damaged with the cause of the first of these tests that fails; NoMemory where memory was
/// refused.
fn read_rest<'a>(
    alloc: Global,
    version: ImageVersion,
    parts: &ImageParts<'a>,
) -> Result<EarlierImage<'a>, Refusal>
    requires { KeepsHeaderRulesBy (Earlier version) (header_of parts.now) }
    ensures whole { IfOk result (λ image. FirstEarlierRest version parts.now None) }
    ensures read { IfOk result (λ image. IsEarlierOf version parts.now image) }
    ensures damaged { IfErr result
        (λ e. (e ≡ NoMemory)
        ⊎ ((cause : Found) × (e ≡ Damaged cause) × FirstEarlierRest version parts.now (Some cause))) }
{
    let Some(frames) = read_frames(alloc, version, parts)? else {
        return Err(Refusal::Damaged(Cause::Frame));
    };
    if !spans_keep_rules(parts) {
        return Err(Refusal::Damaged(Cause::Span));
    }
    if !rows_keep_rules(parts) {
        return Err(Refusal::Damaged(Cause::Row));
    }
    let Some(rows) = read_chains(alloc, version, &frames, parts)? else {
        return Err(Refusal::Damaged(Cause::Chain));
    };
    let spans = spans_of(alloc, parts)?;
    Ok(EarlierImage {
        version,
        header: parts.header(),
        frames,
        rows,
        spans,
    })
}

/// The image of a drive that the bytes encode as the earlier version does whose mark they begin
/// with; as the second does, where they begin with neither mark. All of its tests look at the whole
/// image before the next one does.
///
/// Damaged with the cause of the first test that fails, where the bytes encode no such image;
/// NoMemory where memory was refused.
pub fn read_earlier(alloc: Global, bytes: &[u8]) -> Result<EarlierImage<'_>, Refusal>
    ensures whole { IfOk result (λ image. SpellsEarlier bytes.now (image_in bytes.now)) }
    ensures read { IfOk result (λ image. IsEarlierOf (earlier_in bytes.now) (image_in bytes.now) image) }
    ensures damaged { IfErr result
        (λ e. (e ≡ NoMemory)
        ⊎ ((cause : Found) × (e ≡ Damaged cause) × FirstEarlierFault bytes.now (Some cause))) }
{
    images_with_a_mark();
    if bytes.len() < MARK_BYTES {
        return Err(Refusal::Damaged(Cause::Length));
    }
    let version = earlier_version(bytes);
    let parts = match split_parts_by(ImageMark::Earlier(version), bytes) {
        Ok(parts) => parts,
        Err(cause) => return Err(Refusal::Damaged(cause)),
    };
    if !has_digest(bytes) {
        return Err(Refusal::Damaged(Cause::Digest));
    }
    read_rest(alloc, version, &parts)
}

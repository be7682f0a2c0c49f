ghost use Rattle.std.specs.Prelude.{◌≡◌, ◌^◌, ◌<◌, ◌≤◌, ◌++◌, List, ℕ, min, Some, None, IfOk, IfErr};
ghost use Rattle.std.specs.Prelude.{IfSome, IfNone, length};
ghost use Rattle.s4_types.specs.declared.refusals.Cause.TheVariants.{Header as HeaderCause, Length};
ghost use Rattle.image_parts.specs.Header.{header_in, KeepsHeaderRules, KeepsHeaderRulesBy};
ghost use Rattle.image_parts.specs.Image.{header_of, image_in, longest_of};
ghost use Rattle.image_parts.specs.Causes.{FirstSplitCause, FirstSplitCauseBy};

use crate::digests::DIGEST_BYTES;
use crate::headers::{HEADER_BYTES, read_header};
use crate::image_writing::image_length;
use crate::marks::ImageMark;
use crate::parts::ImageParts;
use s4_types::Cause;

/// The parts that the bytes are split into by their header and the words of the frames. Otherwise
/// the cause of the first of three tests that fails: there are as many bytes as a header and a
/// digest have, a header is in front, and the parts fill the bytes exactly.
///
/// No part was looked at yet, nor the digest. It takes no memory, and looks at no more than the
/// header and a word of each frame.
pub fn split_parts(bytes: &[u8]) -> Result<ImageParts<'_>, Cause>
    ensures damaged { IfErr result (λ cause. FirstSplitCause bytes.now (Some cause)) }
    ensures whole { IfOk result (λ parts. FirstSplitCause bytes.now None) }
    ensures read { IfOk result (λ parts. parts ≡ image_in bytes.now) }
    ensures header { IfOk result (λ parts. header_of parts ≡ header_in bytes.now) }
    ensures rules { IfOk result (λ parts. KeepsHeaderRules (header_of parts)) }
    ensures long { IfOk result (λ parts. 32 ≤ length bytes.now) }
{
    split_parts_by(ImageMark::Third, bytes)
}

/// The same of an image with a mark.
pub fn split_parts_by(mark: ImageMark, bytes: &[u8]) -> Result<ImageParts<'_>, Cause>
    ensures damaged { IfErr result (λ cause. FirstSplitCauseBy mark bytes.now (Some cause)) }
    ensures whole { IfOk result (λ parts. FirstSplitCauseBy mark bytes.now None) }
    ensures read { IfOk result (λ parts. parts ≡ image_in bytes.now) }
    ensures header { IfOk result (λ parts. header_of parts ≡ header_in bytes.now) }
    ensures rules { IfOk result (λ parts. KeepsHeaderRulesBy mark (header_of parts)) }
    ensures long { IfOk result (λ parts. 32 ≤ length bytes.now) }
{
    if bytes.len() < HEADER_BYTES + DIGEST_BYTES {
        return Err(Cause::Length);
    }
    let Some(header) = read_header(mark, bytes) else {
        return Err(Cause::Header);
    };
    let Some(parts) = ImageParts::of(header, bytes) else {
        return Err(Cause::Length);
    };
    Ok(parts)
}

/// How many bytes the longest image has that begins with these: the one of their header in which no
/// frame is free. Bytes that begin so and are more aren't filled by their parts. Where it is
/// `LONGEST_IMAGE` the true number may be greater. None where no header is in front.
///
/// So what begins with these bytes can be refused before all of it was read, for the cause that
/// `split_parts` would find.
pub fn longest_with(front: &[u8]) -> Option<usize>
    requires long { 544 ≤ length front.now }
    ensures longest { IfSome result
        (λ longest. longest ≡ min (2 ^ 62) (longest_of (header_in front.now))) }
    ensures longer { IfSome result
        (λ longest. longest < 2 ^ 62 → (rest : List ℕ)
        → longest < length (front.now ++ rest)
        → FirstSplitCause (front.now ++ rest) (Some Length)) }
    ensures none { IfNone result
        ((rest : List ℕ) → FirstSplitCause (front.now ++ rest) (Some HeaderCause)) }
{
    longest_with_by(ImageMark::Third, front)
}

/// The same of an image with a mark.
pub fn longest_with_by(mark: ImageMark, front: &[u8]) -> Option<usize>
    requires long { 544 ≤ length front.now }
    ensures longest { IfSome result
        (λ longest. longest ≡ min (2 ^ 62) (longest_of (header_in front.now))) }
    ensures longer { IfSome result
        (λ longest. longest < 2 ^ 62 → (rest : List ℕ)
        → longest < length (front.now ++ rest)
        → FirstSplitCauseBy mark (front.now ++ rest) (Some Length)) }
    ensures none { IfNone result
        ((rest : List ℕ) → FirstSplitCauseBy mark (front.now ++ rest) (Some HeaderCause)) }
{
    let Some(header) = read_header(mark, front) else {
        return None;
    };
    Some(image_length(
        header.frames,
        header.frames,
        header.rows,
        header.spans,
        header.audit,
    ))
}

//! Images of the present version, read as those of earlier ones are: straight from their bytes.
ghost use Rattle.std.specs.Prelude.{◌≡◌, IfOk, IfErr};
ghost use Rattle.s4_types.specs.declared.refusals.Refusal.TheVariants.{NoMemory};
ghost use Rattle.codec.specs.declared.versions.ImageVersion.TheVariants.{Second};
ghost use Rattle.image_parts.specs.Image.{KeepsRules};
ghost use Rattle.verifier.specs.Rows.{ChainsStand};
ghost use Rattle.earlier_images.specs.Images.{IsEarlierOf};

use crate::frames::read_frames;
use crate::images::EarlierImage;
use crate::laws::a_table_names_the_same;
use crate::rows::read_rows;
use codec::ImageVersion;
use image_parts::ImageParts;
use s4_types::Refusal;
use std::alloc::Global;
use verifier::spans_of;

/// What an image of the present version has whose parts these are, in the form in which an earlier
/// one is read: its records are those of the second version. The rows of its audit stay in its
/// parts. NoMemory alone.
pub fn read_present<'a>(alloc: Global, parts: &ImageParts<'a>) -> Result<EarlierImage<'a>, Refusal>
    requires rules { KeepsRules parts.now }
    requires chains { ChainsStand parts.now }
    ensures read { IfOk result (λ image. IsEarlierOf Second parts.now image) }
    ensures refusal { IfErr result (λ e. e ≡ NoMemory) }
{
    a_table_names_the_same();
    let version = ImageVersion::Second;
    let Some(frames) = read_frames(alloc, version, parts)? else {
        unreachable!()
    };
    let Some(rows) = read_rows(alloc, version, &frames, parts, parts.header().clock)? else {
        unreachable!()
    };
    let spans = spans_of(alloc, parts)?;
    Ok(EarlierImage {
        version,
        header: parts.header(),
        frames,
        rows,
        spans,
    })
}

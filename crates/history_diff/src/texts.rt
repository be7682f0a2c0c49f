//! The lines that differ, where both versions are text.
ghost use Rattle.std.specs.Prelude.{◌≡◌, IfOk, option_map, string_bytes};
ghost use Rattle.history_diff.specs.Texts.{AreHunksOf, version_line, with_versions, IsTextOf};
ghost use Rattle.history_diff.specs.Texts.{IsAskedText, detail_of, text_shown};

use crate::diffing::Comparison;
use line_diff::unified;
use moment_words::{MomentStyle, moment_text};
use s4_types::{Moment, ObjectId};
use std::alloc::{AllocError, Global};

/// How much is told of the bytes that differ.
#[derive(Clone, Copy)]
pub enum Detail {
    /// Where they are.
    Ranges,
    /// What they are, before and after, in hex.
    Bytes,
    /// The lines that differ, where both versions are UTF-8 text.
    Lines,
}

/// What is shown of the bytes that differ.
#[derive(Drop)]
pub enum Shown {
    Ranges,
    Bytes,
    /// The unified difference, if both versions are text.
    Lines(Option<String>),
}

// The line that names a version.
fn version_line(
    alloc: Global,
    sign: &str,
    object: ObjectId,
    moment: Moment,
    style: MomentStyle,
) -> Result<String, AllocError>
    ensures { IfOk result (λ line. string_bytes line ≡ version_line sign.now object moment style) }
{
    let object = object.number();
    let moment = moment_text(alloc, moment.number(), style)?;
    format!(in alloc; "{sign} object-{object} @ {moment}\n")
}

// The hunks after the lines that name the two versions; nothing where there are none.
fn with_versions(
    alloc: Global,
    object: ObjectId,
    comparison: &Comparison,
    hunks: String,
) -> Result<String, AllocError>
    ensures { IfOk result
        (λ text. string_bytes text ≡ with_versions object comparison.now (string_bytes hunks)) }
{
    if hunks.is_empty() {
        return Ok(hunks);
    }
    let style = comparison.style;
    let mut text = version_line(alloc, "---", object, comparison.before, style)?;
    let other = version_line(alloc, "+++", object, comparison.after, style)?;
    text.push_str(other.as_str())?;
    text.push_str(hunks.as_str())?;
    Ok(text)
}

// The unified difference of two versions of an object at two moments, if both are text.
fn unified_text(
    alloc: Global,
    object: ObjectId,
    comparison: &Comparison,
    old: &[u8],
    new: &[u8],
) -> Result<Option<String>, AllocError>
    ensures { IfOk result
        (λ text. IsTextOf object comparison.now old.now new.now (option_map string_bytes text)) }
{
    let Some(hunks) = hunks_between(alloc, old, new)? else {
        return Ok(None);
    };
    let text = with_versions(alloc, object, comparison, hunks)?;
    Ok(Some(text))
}

/// The hunks of the unified difference of two lists of bytes. None where one of them isn't UTF-8
/// text. They are empty where the two are the same.
pub fn hunks_between(alloc: Global, old: &[u8], new: &[u8]) -> Result<Option<String>, AllocError>
    ensures { IfOk result (λ hunks. AreHunksOf old.now new.now (option_map string_bytes hunks)) }
{
    let Ok(old) = std::str::from_utf8(old) else {
        return Ok(None);
    };
    let Ok(new) = std::str::from_utf8(new) else {
        return Ok(None);
    };
    let hunks = unified(alloc, old, new)?;
    Ok(Some(hunks))
}

/// What is to be shown of two versions of an object at two moments.
pub(crate) fn shown_of(
    alloc: Global,
    object: ObjectId,
    comparison: &Comparison,
    old: &[u8],
    new: &[u8],
) -> Result<Shown, AllocError>
    ensures detail { IfOk result (λ shown. detail_of shown ≡ comparison.now.detail) }
    ensures text { IfOk result
        (λ shown. IsAskedText comparison.now.detail object comparison.now old.now new.now
        (text_shown shown)) }
{
    match comparison.detail {
        Detail::Ranges => Ok(Shown::Ranges),
        Detail::Bytes => Ok(Shown::Bytes),
        Detail::Lines => {
            let text = unified_text(alloc, object, comparison, old, new)?;
            Ok(Shown::Lines(text))
        }
    }
}

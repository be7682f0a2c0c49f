//! Texts of a page that are made part by part.
ghost use Rattle.std.specs.Prelude.{◌≡◌, ◌++◌, ℕ, List, [], ◌∷◌, IfOk, decimal, string_bytes};
ghost use Rattle.moment_words.specs.declared.printing.MomentStyle.{MomentStyle as Style};
ghost use Rattle.moment_words.specs.Texts as texts;
ghost use Rattle.history_report.specs.Page.{Part, Constant, Escaped, page_text};

use crate::escaping::data_text;
use moment_words::{MomentStyle, moment_text};
use s4_types::Moment;
use std::alloc::{AllocError, Global};

/// No parts.
pub(crate) fn no_parts(alloc: Global) -> Result<String, AllocError>
    ensures { IfOk result (λ text. string_bytes text ≡ page_text []) }
{
    Ok(String::new(alloc))
}

/// The parts that are being made, and a fixed text after them. The first refusal of memory stays.
pub(crate) fn with_text(made: Result<String, AllocError>, fixed: &str) -> Result<String, AllocError>
    ensures { (parts : List Part) (letters : List ℕ)
        → IfOk made (λ text. string_bytes text ≡ page_text parts) → fixed.now ≡ letters
        → IfOk result (λ text. string_bytes text ≡ page_text (parts ++ Constant letters ∷ [])) }
{
    let mut text = made?;
    text.push_str(fixed)?;
    Ok(text)
}

/// They, and data after them.
pub(crate) fn with_data(
    alloc: Global,
    made: Result<String, AllocError>,
    bytes: &[u8],
) -> Result<String, AllocError>
    ensures { (parts : List Part) (shown : List ℕ)
        → IfOk made (λ text. string_bytes text ≡ page_text parts) → bytes.now ≡ shown
        → IfOk result (λ text. string_bytes text ≡ page_text (parts ++ Escaped shown ∷ [])) }
{
    let mut text = made?;
    let data = data_text(alloc, bytes)?;
    text.push_str(data.as_str())?;
    Ok(text)
}

/// They, and a number after them.
pub(crate) fn with_number(
    alloc: Global,
    made: Result<String, AllocError>,
    number: u64,
) -> Result<String, AllocError>
    ensures { (parts : List Part) (n : ℕ)
        → IfOk made (λ text. string_bytes text ≡ page_text parts) → number ≡ n
        → IfOk result (λ text. string_bytes text ≡ page_text (parts ++ Escaped (decimal n) ∷ [])) }
{
    let digits = format!(in alloc; "{number}")?;
    with_data(alloc, made, digits.as_bytes())
}

/// They, and a moment after them.
pub(crate) fn with_moment(
    alloc: Global,
    made: Result<String, AllocError>,
    moment: Moment,
    style: MomentStyle,
) -> Result<String, AllocError>
    ensures { (parts : List Part) (t : ℕ) (wanted : Style)
        → IfOk made (λ text. string_bytes text ≡ page_text parts) → moment ≡ t → style ≡ wanted
        → IfOk result
        (λ text. string_bytes text ≡ page_text (parts ++ Escaped (texts.moment_text t wanted) ∷ [])) }
{
    let words = moment_text(alloc, moment.number(), style)?;
    with_data(alloc, made, words.as_bytes())
}

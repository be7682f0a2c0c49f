//! Data as a page has it.
ghost use Rattle.std.specs.Prelude.{◌≡◌, ◌++◌, IfOk, OnOk, string_bytes};
ghost use Rattle.hex.specs.Hex.{encode_lower};
ghost use Rattle.history_report.specs.Page.{Escaped, escaped, escaped_char, part_text};

use shown_text::push_in_lines;
use std::alloc::{AllocError, Global};
use std::str;

// Adds a character to a text of a page.
fn push_escaped(alloc: Global, text: &mut String, c: char) -> Result<(), AllocError>
    ensures { OnOk result (string_bytes text.new ≡ string_bytes text.old ++ escaped_char c) }
{
    match c {
        '<' => text.push_str("&lt;"),
        '>' => text.push_str("&gt;"),
        '&' => text.push_str("&amp;"),
        '"' => text.push_str("&quot;"),
        '\'' => text.push_str("&#39;"),
        other => push_in_lines(alloc, text, other),
    }
}

fn escaped(alloc: Global, text: &str) -> Result<String, AllocError>
    ensures { IfOk result (λ escaped_text. string_bytes escaped_text ≡ escaped text.now) }
{
    let mut escaped_text = String::new(alloc);
    for c in text.chars() {
        push_escaped(alloc, &mut escaped_text, c)?;
    }
    Ok(escaped_text)
}

/// The text of data on a page: of its bytes where they are UTF-8, and else of their hex. What means
/// something to HTML is replaced by entities, and what isn't printed as it is by its number.
pub(crate) fn data_text(alloc: Global, bytes: &[u8]) -> Result<String, AllocError>
    ensures { IfOk result (λ text. string_bytes text ≡ part_text (Escaped bytes.now)) }
{
    match str::from_utf8(bytes) {
        Ok(text) => escaped(alloc, text),
        Err(_) => digits_text(alloc, bytes),
    }
}

// The hex of bytes.
fn digits_text(alloc: Global, bytes: &[u8]) -> Result<String, AllocError>
    ensures { IfOk result (λ text. string_bytes text ≡ escaped (encode_lower bytes.now)) }
{
    let digits = hex::encode(alloc, bytes)?;
    escaped(alloc, digits.as_str())
}

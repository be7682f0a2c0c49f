//! Lines that people read.
ghost use Rattle.std.specs.Prelude.{◌≡◌, ◌++◌, IfOk, OnOk, string_bytes};
ghost use Rattle.shown_text.specs.Shown.{is_plain, number_of, shown_in_lines, shown_lines};

use crate::hidden::is_hidden_character;
use std::alloc::{AllocError, Global};

fn is_plain(c: char) -> bool
    ensures { result ≡ is_plain c }
{
    c == '\n' || !is_hidden_character(c)
}

// A character by its number.
fn number_of(alloc: Global, c: char) -> Result<String, AllocError>
    ensures { IfOk result (λ text. string_bytes text ≡ number_of c) }
{
    let number = u32::from(c);
    format!(in alloc; "\\u{{{number:x}}}")
}

/// Adds a character of lines to a text, by its number where it isn't printed as it is.
pub fn push_in_lines(alloc: Global, text: &mut String, c: char) -> Result<(), AllocError>
    ensures { OnOk result (string_bytes text.new ≡ string_bytes text.old ++ shown_in_lines c) }
{
    if is_plain(c) {
        return text.push(c);
    }
    let number = number_of(alloc, c)?;
    text.push_str(number.as_str())
}

/// Lines as they are shown: each character that isn't printed as it is, except the newlines that
/// end them, is there by its number, as `\u{202e}`. Linear in the text: at most five times its
/// length.
pub fn shown_lines(alloc: Global, text: &str) -> Result<String, AllocError>
    ensures { IfOk result (λ shown. string_bytes shown ≡ shown_lines text.now) }
{
    let mut shown = String::new(alloc);
    for c in text.chars() {
        push_in_lines(alloc, &mut shown, c)?;
    }
    Ok(shown)
}

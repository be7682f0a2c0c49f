//! Attributes as people read them.
ghost use Rattle.std.specs.Prelude.{◌≡◌, ◌++◌, true, false, IfOk, IfSome, IfNone, codes};
ghost use Rattle.std.specs.Prelude.{string_bytes};
ghost use Rattle.std.specs.List.{list_all};
ghost use Rattle.std.specs.Str.{chars};
ghost use Rattle.history_text.specs.Lines.{is_printable, are_printable, printed_attribute};

use shown_text::is_hidden_character;
use std::alloc::{AllocError, Global};
use std::str;

fn is_printable(character: char) -> bool
    ensures { result ≡ is_printable character }
{
    !is_hidden_character(character) && character != '"' && character != '\\'
}

fn has_printable(text: &str) -> bool
    ensures { result ≡ list_all is_printable (chars text.now) }
{
    text.chars().all(|character| is_printable(character))
}

fn quoted(alloc: Global, text: &str) -> Result<String, AllocError>
    ensures { IfOk result (λ line. string_bytes line ≡ codes "\"" ++ (text.now ++ codes "\"")) }
{
    format!(in alloc; "\"{text}\"")
}

// The text that bytes are in UTF-8, where all its characters are printable.
fn printable_text(bytes: &[u8]) -> Option<&str>
    ensures some { IfSome result
        (λ text. (are_printable bytes.now ≡ true) × (text.now ≡ bytes.now)) }
    ensures none { IfNone result (are_printable bytes.now ≡ false) }
{
    let Ok(text) = str::from_utf8(bytes) else {
        return None;
    };
    if !has_printable(text) {
        return None;
    }
    Some(text)
}

/// An attribute between quotation marks where it is text in UTF-8 of printable characters alone,
/// and else in hex.
pub fn printed_attribute(alloc: Global, bytes: &[u8]) -> Result<String, AllocError>
    ensures { IfOk result (λ text. string_bytes text ≡ printed_attribute bytes.now) }
{
    match printable_text(bytes) {
        Some(text) => quoted(alloc, text),
        None => hex::encode(alloc, bytes),
    }
}

//! JSON that programs read.
ghost use Rattle.std.specs.Prelude.{◌≡◌, ◌++◌, ◌+◌, ◌*◌, ◌^◌, ◌<◌, IfOk, OnOk, string_bytes};
ghost use Rattle.shown_text.specs.Shown.{unit_in_json, pair_in_json, units_in_json};
ghost use Rattle.shown_text.specs.Shown.{shown_in_json, shown_json};

use crate::hidden::is_hidden_character;
use std::alloc::{AllocError, Global};

// Adds a unit of UTF-16 to a text of JSON.
fn push_unit(alloc: Global, text: &mut String, unit: u32) -> Result<(), AllocError>
    requires { unit < 65536 }
    ensures { OnOk result (string_bytes text.new ≡ string_bytes text.old ++ unit_in_json unit) }
{
    let digits = hex::encode(alloc, &[(unit / 256) as u8, (unit % 256) as u8])?;
    text.push_str("\\u")?;
    text.push_str(digits.as_str())
}

// Adds the two units of a character that is this far above the first 65,536.
fn push_pair(alloc: Global, text: &mut String, above: u32) -> Result<(), AllocError>
    requires { above < 1024 * 1024 }
    ensures { OnOk result (string_bytes text.new ≡ string_bytes text.old ++ pair_in_json above) }
{
    push_unit(alloc, text, 0xd800 + above / 1024)?;
    push_unit(alloc, text, 0xdc00 + above % 1024)
}

// Adds a character by its units.
fn push_units(alloc: Global, text: &mut String, c: char) -> Result<(), AllocError>
    ensures { OnOk result (string_bytes text.new ≡ string_bytes text.old ++ units_in_json c) }
{
    let number = u32::from(c);
    if number < 0x10000 {
        return push_unit(alloc, text, number);
    }
    push_pair(alloc, text, number - 0x10000)
}

// Adds a character of JSON to a text.
fn push_in_json(alloc: Global, text: &mut String, c: char) -> Result<(), AllocError>
    ensures { OnOk result (string_bytes text.new ≡ string_bytes text.old ++ shown_in_json c) }
{
    if is_hidden_character(c) {
        return push_units(alloc, text, c);
    }
    text.push(c)
}

/// JSON as it is printed: each character that isn't printed as it is, which strings alone have, is
/// there by its units of UTF-16, as `\u202e`. Linear in the text: at most six times its length.
pub fn shown_json(alloc: Global, text: &str) -> Result<String, AllocError>
    ensures { IfOk result (λ shown. string_bytes shown ≡ shown_json text.now) }
{
    let mut shown = String::new(alloc);
    for c in text.chars() {
        push_in_json(alloc, &mut shown, c)?;
    }
    Ok(shown)
}

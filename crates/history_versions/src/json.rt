//! A version as programs read it.
ghost use Rattle.std.specs.Prelude.{◌≡◌, IfOk, option_map, string_bytes};
ghost use Rattle.serde_json.specs.Data.{Members};
ghost use Rattle.serde_json.specs.View.{view, members_view};
ghost use Rattle.serde_json.specs.Written.{compact_text};
ghost use Rattle.history_text.specs.Json.{time_data};
ghost use Rattle.history_versions.specs.Json.{version_data, with_contents};

use history_text::{no_members, object_of, with_hex, with_member, with_number};
use moment_words::{MomentStyle, moment_text};
use s4_types::Moment;
use serde_json::{Map, Value};
use std::alloc::{AllocError, Global};

/// The numbers of a version.
#[derive(Clone, Copy)]
pub struct VersionNumbers {
    /// The first moment at which it can be read.
    pub moment: Moment,
    /// When the object was changed to it.
    pub changed: Moment,
    /// In bytes.
    pub size: u64,
}

// The date of a moment; null where moments are numbers.
fn time_value(alloc: Global, moment: Moment, style: MomentStyle) -> Result<Value, AllocError>
    ensures { IfOk result (λ value. view value ≡ time_data style moment) }
{
    match style {
        MomentStyle::Number => Ok(Value::Null),
        MomentStyle::Date => Ok(Value::from(moment_text(
            alloc,
            moment.number(),
            MomentStyle::Date,
        )?)),
    }
}

// The members that are being made, with the contents more, where these are asked for.
fn with_contents(
    alloc: Global,
    made: Result<Map<String, Value>, AllocError>,
    contents: Option<&[u8]>,
) -> Result<Map<String, Value>, AllocError>
    ensures { (members : Members) → IfOk made (λ map. members_view map.entries ≡ members)
        → IfOk result (λ map. members_view map.entries
        ≡ with_contents (option_map (λ bytes. bytes.now) contents.entry) members) }
{
    match contents {
        None => made,
        Some(bytes) => with_hex(alloc, made, "contents", bytes),
    }
}

fn version_value(
    alloc: Global,
    numbers: VersionNumbers,
    attribute: &[u8],
    contents: Option<&[u8]>,
    style: MomentStyle,
) -> Result<Value, AllocError>
    ensures { IfOk result (λ value. view value
        ≡ version_data style numbers attribute.now (option_map (λ bytes. bytes.now) contents.entry)) }
{
    let changed_time = time_value(alloc, numbers.changed, style)?;
    let time = time_value(alloc, numbers.moment, style)?;
    let made = with_hex(alloc, no_members(alloc), "attribute", attribute);
    let made = with_number(alloc, made, "changed", numbers.changed.number());
    let made = with_member(alloc, made, "changed_time", changed_time);
    let made = with_number(alloc, made, "moment", numbers.moment.number());
    let made = with_number(alloc, made, "size", numbers.size);
    let made = with_member(alloc, made, "time", time);
    object_of(with_contents(alloc, made, contents))
}

/// The text of a version, with its contents where they are given.
#[tactic(auto, using(crate::proofs::Texts::no_floats))]
pub(crate) fn version_json(
    alloc: Global,
    numbers: VersionNumbers,
    attribute: &[u8],
    contents: Option<&[u8]>,
    style: MomentStyle,
) -> Result<String, AllocError>
    ensures { IfOk result (λ text. string_bytes text ≡ compact_text
        (version_data style numbers attribute.now (option_map (λ bytes. bytes.now) contents.entry))) }
{
    let value = version_value(alloc, numbers, attribute, contents, style)?;
    value.to_string(alloc)
}

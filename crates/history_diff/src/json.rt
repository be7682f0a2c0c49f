//! The lines that programs read.
ghost use Rattle.std.specs.Prelude.{◌≡◌, IfOk, option_map, string_bytes};
ghost use Rattle.serde_json.specs.Data.{no_members};
ghost use Rattle.serde_json.specs.View.{view, members_view};
ghost use Rattle.history_text.specs.Json.{json_line, side_data};
ghost use Rattle.history_diff.specs.Differences.{told_of};
ghost use Rattle.history_diff.specs.Json.{kind_word, place_data, patch_data, range_data};
ghost use Rattle.history_diff.specs.Json.{ranges_data, text_data, text_members, has_bytes};
ghost use Rattle.history_diff.specs.Json.{difference_members, difference_data};
ghost use Rattle.history_diff.specs.Texts.{detail_of, text_shown};

use crate::differences::{AttributePair, Difference, DifferenceKind};
use crate::patches::bytes_in;
use crate::ranges::ByteRange;
use crate::texts::Shown;
use history_text::{
    json_line, no_members, object_of, with_hex, with_member, with_number, with_text,
};
use s4_types::ObjectId;
use serde_json::{Map, Value, put};
use std::alloc::{AllocError, Global};

fn kind_word(kind: DifferenceKind) -> &'static str
    ensures { result.now ≡ kind_word kind }
{
    match kind {
        DifferenceKind::Made => "made",
        DifferenceKind::Deleted => "deleted",
        DifferenceKind::Changed => "changed",
    }
}

fn place_value(alloc: Global, range: ByteRange) -> Result<Value, AllocError>
    ensures { IfOk result (λ value. view value ≡ place_data range) }
{
    let made = with_number(alloc, no_members(alloc), "first", range.first as u64);
    object_of(with_number(alloc, made, "last", range.last as u64))
}

fn patch_value(
    alloc: Global,
    range: ByteRange,
    before: &[u8],
    after: &[u8],
) -> Result<Value, AllocError>
    ensures { IfOk result (λ value. view value ≡ patch_data before.now after.now range) }
{
    let made = with_number(alloc, no_members(alloc), "first", range.first as u64);
    let made = with_number(alloc, made, "last", range.last as u64);
    let made = with_hex(alloc, made, "before", bytes_in(range, before));
    object_of(with_hex(alloc, made, "after", bytes_in(range, after)))
}

fn range_value(
    alloc: Global,
    range: ByteRange,
    before: &[u8],
    after: &[u8],
    patch: bool,
) -> Result<Value, AllocError>
    ensures { IfOk result (λ value. view value ≡ range_data patch before.now after.now range) }
{
    if patch {
        return patch_value(alloc, range, before, after);
    }
    place_value(alloc, range)
}

fn ranges_value(
    alloc: Global,
    ranges: &[ByteRange],
    before: &[u8],
    after: &[u8],
    patch: bool,
) -> Result<Value, AllocError>
    ensures { IfOk result
        (λ value. view value ≡ ranges_data patch before.now after.now ranges.now) }
{
    let mut values = Vec::new(alloc);
    for range in ranges {
        let value = range_value(alloc, *range, before, after, patch)?;
        values.push(value)?;
    }
    Ok(Value::from(values))
}

// The attributes before and after in hex; null where they are the same.
fn attribute_values(
    alloc: Global,
    pair: &Option<AttributePair>,
) -> Result<(Value, Value), AllocError>
    ensures before { IfOk result (λ values. view values.0 ≡ side_data (λ p. p.before) pair.now) }
    ensures after { IfOk result (λ values. view values.1 ≡ side_data (λ p. p.after) pair.now) }
{
    let Some(pair) = pair else {
        return Ok((Value::Null, Value::Null));
    };
    let before = hex::encode(alloc, pair.before.as_slice())?;
    let after = hex::encode(alloc, pair.after.as_slice())?;
    Ok((Value::from(before), Value::from(after)))
}

// The unified difference that is shown; null where a version isn't text.
fn text_value(alloc: Global, text: &Option<String>) -> Result<Value, AllocError>
    ensures { IfOk result (λ value. view value ≡ text_data (option_map string_bytes text.now)) }
{
    match text {
        Some(text) => Ok(Value::from(String::from_str(alloc, text.as_str())?)),
        None => Ok(Value::Null),
    }
}

// The members of a difference, with the value of its ranges.
fn difference_members(
    alloc: Global,
    object: ObjectId,
    difference: &Difference,
    ranges: Value,
) -> Result<Map<String, Value>, AllocError>
    ensures { IfOk result
        (λ members. members_view members.entries
        ≡ difference_members object (view ranges) no_members (told_of difference.now)) }
{
    let sides = attribute_values(alloc, &difference.attributes)?;
    let made = with_number(alloc, no_members(alloc), "object", object.number());
    let made = with_text(alloc, made, "kind", kind_word(difference.kind));
    let made = with_number(alloc, made, "size_before", difference.size_before as u64);
    let made = with_number(alloc, made, "size_after", difference.size_after as u64);
    let made = with_member(alloc, made, "attribute_before", sides.0);
    let made = with_member(alloc, made, "attribute_after", sides.1);
    with_member(alloc, made, "ranges", ranges)
}

// The value of a difference, with the value of its ranges and what is shown.
fn difference_value(
    alloc: Global,
    object: ObjectId,
    difference: &Difference,
    ranges: Value,
    shown: &Shown,
) -> Result<Value, AllocError>
    ensures { IfOk result
        (λ value. view value
        ≡ difference_data object (view ranges)
        (text_members (detail_of shown.now) (text_shown shown.now))
        (told_of difference.now)) }
{
    let mut members = difference_members(alloc, object, difference, ranges)?;
    if let Shown::Lines(text) = shown {
        put(&mut members, alloc, "text", text_value(alloc, text)?)?;
    }
    Ok(Value::from(members))
}

fn has_bytes(shown: &Shown) -> bool
    ensures { result ≡ has_bytes (detail_of shown.now) }
{
    match shown {
        Shown::Ranges => false,
        Shown::Bytes => true,
        Shown::Lines(_) => false,
    }
}

/// The line of what differs of an object: with the bytes of its ranges, of those that it had before
/// and after, in hex where they are shown, and with the unified difference where lines are.
pub fn difference_json(
    alloc: Global,
    object: ObjectId,
    before: &[u8],
    after: &[u8],
    difference: &Difference,
    shown: &Shown,
) -> Result<String, AllocError>
    ensures { IfOk result
        (λ line. string_bytes line
        ≡ json_line
        (difference_data object
        (ranges_data (has_bytes (detail_of shown.now)) before.now after.now
        difference.now.ranges.items)
        (text_members (detail_of shown.now) (text_shown shown.now))
        (told_of difference.now))) }
{
    let patch = has_bytes(shown);
    let ranges = ranges_value(alloc, difference.ranges.as_slice(), before, after, patch)?;
    let value = difference_value(alloc, object, difference, ranges, shown)?;
    json_line(alloc, &value)
}

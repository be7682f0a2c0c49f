//! The lines that programs read.
ghost use Rattle.std.specs.Prelude.{◌≡◌, IfOk, false, string_bytes};
ghost use Rattle.serde_json.specs.View.{view};
ghost use Rattle.serde_json.specs.Written.{has_float};
ghost use Rattle.moment_words.specs.declared.printing.MomentStyle.TheVariants.{Date};
ghost use Rattle.history_text.specs.Json.{json_line, state_word, kind_word, text_data, time_data};
ghost use Rattle.history_text.specs.Json.{listed_data, change_data, side_data, index_data};
ghost use Rattle.history_text.specs.Json.{hidden_data, row_data, kinds_data, stat_data, times_data};
ghost use Rattle.history_text.specs.Json.{counts_data, numbers_data};

use crate::members::{
    no_members, object_of, with_hex, with_member, with_number, with_text, with_time,
};
use crate::numbers::DriveNumbers;
use codec::Pair;
use history_view::{Blocks, Kind, KindCounts, Listed, LogRow, ObjectChange, ObjectStat};
use moment_words::{MomentStyle, moment_text};
use s4_types::{Moment, ObjectId, Span};
use serde_json::Value;
use shown_text::shown_json;
use std::alloc::{AllocError, Global};
use std::str;

/// The line of a value. What isn't printed as it is, is in its strings by its units of UTF-16.
pub fn json_line(alloc: Global, value: &Value) -> Result<String, AllocError>
    requires { has_float (view value.now) ≡ false }
    ensures { IfOk result (λ line. string_bytes line ≡ json_line (view value.now)) }
{
    let text = value.to_string(alloc)?;
    let mut line = shown_json(alloc, text.as_str())?;
    line.push_str("\n")?;
    Ok(line)
}

fn state_word(is_live: bool) -> &'static str
    ensures { result.now ≡ state_word is_live }
{
    if is_live { "live" } else { "deleted" }
}

/// The text that bytes are in UTF-8; null where they are none.
pub fn text_value(alloc: Global, bytes: &[u8]) -> Result<Value, AllocError>
    ensures { IfOk result (λ value. view value ≡ text_data bytes.now) }
{
    match str::from_utf8(bytes) {
        Ok(text) => Ok(Value::from(String::from_str(alloc, text)?)),
        Err(_) => Ok(Value::Null),
    }
}

/// The date of a moment; null where moments are numbers.
pub(crate) fn time_value(
    alloc: Global,
    moment: Moment,
    style: MomentStyle,
) -> Result<Value, AllocError>
    ensures { IfOk result (λ value. view value ≡ time_data style moment) }
{
    match style {
        MomentStyle::Number => Ok(Value::Null),
        MomentStyle::Date => Ok(Value::from(moment_text(
            alloc,
            moment.number(),
            MomentStyle::Date,
        )?)),
    }
}

fn listed_value(alloc: Global, row: &Listed, style: MomentStyle) -> Result<Value, AllocError>
    ensures { IfOk result (λ value. view value ≡ listed_data style row.now) }
{
    let attribute_text = text_value(alloc, row.attribute.as_slice())?;
    let made = with_number(alloc, no_members(alloc), "object", row.object.number());
    let made = with_text(alloc, made, "state", state_word(row.is_live));
    let made = with_number(alloc, made, "size", u64::from(row.size));
    let made = with_number(alloc, made, "created", row.created.number());
    let made = with_time(alloc, made, "created_time", row.created, style);
    let made = with_number(alloc, made, "changed", row.changed.number());
    let made = with_time(alloc, made, "changed_time", row.changed, style);
    let made = with_hex(alloc, made, "attribute", row.attribute.as_slice());
    object_of(with_member(alloc, made, "attribute_text", attribute_text))
}

/// The line of an object.
pub fn listed_json(alloc: Global, row: &Listed, style: MomentStyle) -> Result<String, AllocError>
    ensures { IfOk result (λ line. string_bytes line ≡ json_line (listed_data style row.now)) }
{
    let value = listed_value(alloc, row, style)?;
    json_line(alloc, &value)
}

/// The word for what was done.
pub(crate) fn kind_word(kind: Kind) -> &'static str
    ensures { result.now ≡ kind_word kind }
{
    match kind {
        Kind::Made => "made",
        Kind::Deleted => "deleted",
        Kind::Continued => "continued",
        Kind::Attribute => "attribute",
        Kind::Cut => "cut",
        Kind::Written => "written",
        Kind::Lengthened => "lengthened",
        Kind::Touched => "touched",
    }
}

// The attributes before and after a change in hex; null where it has none.
fn attribute_values(alloc: Global, pair: &Option<Pair>) -> Result<(Value, Value), AllocError>
    ensures before { IfOk result (λ values. view values.0 ≡ side_data (λ p. p.before) pair.now) }
    ensures after { IfOk result (λ values. view values.1 ≡ side_data (λ p. p.after) pair.now) }
{
    let Some(pair) = pair else {
        return Ok((Value::Null, Value::Null));
    };
    let before = hex::encode(alloc, pair.before.as_slice())?;
    let after = hex::encode(alloc, pair.after.as_slice())?;
    Ok((Value::from(before), Value::from(after)))
}

// The first and the last block of a change; null where it has none.
fn block_values(blocks: Option<Blocks>) -> (Value, Value)
    ensures first { view result.0 ≡ index_data (λ b. b.first) blocks }
    ensures last { view result.1 ≡ index_data (λ b. b.last) blocks }
{
    match blocks {
        Some(blocks) => (Value::from(blocks.first), Value::from(blocks.last)),
        None => (Value::Null, Value::Null),
    }
}

fn change_value(
    alloc: Global,
    object: ObjectId,
    change: &ObjectChange,
    style: MomentStyle,
) -> Result<Value, AllocError>
    ensures { IfOk result (λ value. view value ≡ change_data style object change.now) }
{
    let sides = attribute_values(alloc, &change.pair)?;
    let ends = block_values(change.blocks);
    let made = with_number(alloc, no_members(alloc), "moment", change.moment.number());
    let made = with_time(alloc, made, "time", change.moment, style);
    let made = with_number(alloc, made, "object", object.number());
    let made = with_text(alloc, made, "kind", kind_word(change.kind));
    let made = with_number(alloc, made, "size_before", u64::from(change.size_before));
    let made = with_number(alloc, made, "size_after", u64::from(change.size_after));
    let made = with_member(alloc, made, "first_block", ends.0);
    let made = with_member(alloc, made, "last_block", ends.1);
    let made = with_member(alloc, made, "attribute_before", sides.0);
    object_of(with_member(alloc, made, "attribute_after", sides.1))
}

fn hidden_value(alloc: Global, run: &Span, style: MomentStyle) -> Result<Value, AllocError>
    ensures { IfOk result (λ value. view value ≡ hidden_data style run.now) }
{
    let made = with_number(alloc, no_members(alloc), "moment", run.first.number());
    let made = with_time(alloc, made, "time", run.first, style);
    let made = with_number(alloc, made, "last", run.last.number());
    let made = with_time(alloc, made, "last_time", run.last, style);
    let made = with_number(alloc, made, "object", run.object.number());
    object_of(with_text(alloc, made, "kind", "hidden"))
}

fn row_value(alloc: Global, row: &LogRow, style: MomentStyle) -> Result<Value, AllocError>
    ensures { IfOk result (λ value. view value ≡ row_data style row.now) }
{
    match row {
        LogRow::Changed { object, change } => change_value(alloc, *object, change, style),
        LogRow::Hidden(run) => hidden_value(alloc, run, style),
    }
}

/// The line of a row of a log.
pub fn log_json(alloc: Global, row: &LogRow, style: MomentStyle) -> Result<String, AllocError>
    ensures { IfOk result (λ line. string_bytes line ≡ json_line (row_data style row.now)) }
{
    let value = row_value(alloc, row, style)?;
    json_line(alloc, &value)
}

fn kinds_value(alloc: Global, kinds: &KindCounts) -> Result<Value, AllocError>
    ensures { IfOk result (λ value. view value ≡ kinds_data kinds.now) }
{
    let made = with_number(alloc, no_members(alloc), "made", kinds.made);
    let made = with_number(alloc, made, "deleted", kinds.deleted);
    let made = with_number(alloc, made, "attribute", kinds.attribute);
    let made = with_number(alloc, made, "written", kinds.written);
    let made = with_number(alloc, made, "cut", kinds.cut);
    let made = with_number(alloc, made, "lengthened", kinds.lengthened);
    object_of(with_number(alloc, made, "touched", kinds.touched))
}

fn stat_value(alloc: Global, stat: &ObjectStat, style: MomentStyle) -> Result<Value, AllocError>
    ensures { IfOk result (λ value. view value ≡ stat_data style stat.now) }
{
    let kinds = kinds_value(alloc, &stat.kinds)?;
    let made = with_member(alloc, no_members(alloc), "kinds", kinds);
    let made = with_number(alloc, made, "object", stat.object.number());
    let made = with_number(alloc, made, "changes", stat.changes);
    let made = with_number(alloc, made, "first", stat.first.number());
    let made = with_time(alloc, made, "first_time", stat.first, style);
    let made = with_number(alloc, made, "last", stat.last.number());
    object_of(with_time(alloc, made, "last_time", stat.last, style))
}

/// The line of what the changes of an object come to.
pub fn stat_json(alloc: Global, stat: &ObjectStat, style: MomentStyle) -> Result<String, AllocError>
    ensures { IfOk result (λ line. string_bytes line ≡ json_line (stat_data style stat.now)) }
{
    let value = stat_value(alloc, stat, style)?;
    json_line(alloc, &value)
}

fn times_value(
    alloc: Global,
    numbers: &DriveNumbers,
    style: MomentStyle,
) -> Result<Value, AllocError>
    ensures { IfOk result (λ value. view value ≡ times_data style numbers.now) }
{
    match style {
        MomentStyle::Number => Ok(Value::Null),
        MomentStyle::Date => dates_value(alloc, numbers),
    }
}

fn dates_value(alloc: Global, numbers: &DriveNumbers) -> Result<Value, AllocError>
    ensures { IfOk result (λ value. view value ≡ times_data Date numbers.now) }
{
    let clock = Moment::new(numbers.clock);
    let floor = Moment::new(numbers.floor);
    let made = with_time(alloc, no_members(alloc), "clock", clock, MomentStyle::Date);
    object_of(with_time(alloc, made, "floor", floor, MomentStyle::Date))
}

fn counts_value(alloc: Global, numbers: &DriveNumbers) -> Result<Value, AllocError>
    ensures { IfOk result (λ value. view value ≡ counts_data numbers.now) }
{
    let made = with_number(alloc, no_members(alloc), "runs", numbers.hidden);
    object_of(with_number(alloc, made, "objects", numbers.hidden_objects))
}

fn numbers_value(
    alloc: Global,
    numbers: &DriveNumbers,
    style: MomentStyle,
) -> Result<Value, AllocError>
    ensures { IfOk result (λ value. view value ≡ numbers_data style numbers.now) }
{
    let hidden = counts_value(alloc, numbers)?;
    let time = times_value(alloc, numbers, style)?;
    let made = with_member(alloc, no_members(alloc), "hidden", hidden);
    let made = with_member(alloc, made, "time", time);
    let made = with_number(alloc, made, "frames", numbers.frames);
    let made = with_number(alloc, made, "free", numbers.free);
    let made = with_number(alloc, made, "retired", numbers.retired);
    let made = with_number(alloc, made, "room", numbers.room);
    let made = with_number(alloc, made, "live", numbers.live);
    let made = with_number(alloc, made, "deleted", numbers.deleted);
    let made = with_number(alloc, made, "next", numbers.next);
    let made = with_number(alloc, made, "clock", numbers.clock);
    let made = with_number(alloc, made, "window", numbers.window);
    object_of(with_number(alloc, made, "floor", numbers.floor))
}

/// The line of a drive's numbers.
pub fn numbers_json(
    alloc: Global,
    numbers: &DriveNumbers,
    style: MomentStyle,
) -> Result<String, AllocError>
    ensures { IfOk result (λ line. string_bytes line ≡ json_line (numbers_data style numbers.now)) }
{
    let value = numbers_value(alloc, numbers, style)?;
    json_line(alloc, &value)
}

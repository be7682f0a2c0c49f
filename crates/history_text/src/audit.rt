//! The lines of an audit: for people in columns, for programs as JSON.
ghost use Rattle.std.specs.Prelude.{◌≡◌, IfOk, string_bytes};
ghost use Rattle.serde_json.specs.Data.{number, unsigned, object, member, no_members};
ghost use Rattle.serde_json.specs.View.{view};
ghost use Rattle.history_text.specs.Audit.{kind_word, kind_column, what_text, audit_head};
ghost use Rattle.history_text.specs.Audit.{audit_line, bytes_data, moments_data, what_data};
ghost use Rattle.history_text.specs.Audit.{audit_data, flush_line};
ghost use Rattle.history_text.specs.Json.{json_line};

use crate::json::json_line;
use crate::lines::{hidden_of, moment_column};
use crate::members::{no_members, object_of, with_member, with_number, with_text, with_time};
use moment_words::{MomentStyle, moment_text};
use s4_types::{AuditKind, AuditRow, Moment};
use serde_json::Value;
use std::alloc::{AllocError, Global};

fn kind_word(kind: AuditKind) -> &'static str
    ensures { result.now ≡ kind_word kind }
{
    match kind {
        AuditKind::Create => "create",
        AuditKind::Delete => "delete",
        AuditKind::Write => "write",
        AuditKind::Truncate => "truncate",
        AuditKind::SetAttr => "setattr",
        AuditKind::SetWindow => "setwindow",
        AuditKind::Flush => "flush",
        AuditKind::FlushO => "flusho",
    }
}

fn kind_column(kind: AuditKind) -> &'static str
    ensures { result.now ≡ kind_column kind }
{
    match kind {
        AuditKind::Create => "create   ",
        AuditKind::Delete => "delete   ",
        AuditKind::Write => "write    ",
        AuditKind::Truncate => "truncate ",
        AuditKind::SetAttr => "setattr  ",
        AuditKind::SetWindow => "setwindow",
        AuditKind::Flush => "flush    ",
        AuditKind::FlushO => "flusho   ",
    }
}

// The moments of a flush, after two spaces.
fn moments_text(
    alloc: Global,
    first: u64,
    last: u64,
    style: MomentStyle,
) -> Result<String, AllocError>
    ensures { IfOk result (λ text. string_bytes text ≡ what_text style AuditKind.Flush first last) }
{
    let first = moment_text(alloc, first, style)?;
    let last = moment_text(alloc, last, style)?;
    format!(in alloc; "  {first}-{last}")
}

// What was done, by the numbers of a row: two spaces and the text; nothing of a deletion.
fn what_text(
    alloc: Global,
    kind: AuditKind,
    first: u64,
    second: u64,
    style: MomentStyle,
) -> Result<String, AllocError>
    ensures { IfOk result (λ text. string_bytes text ≡ what_text style kind first second) }
{
    match kind {
        AuditKind::Create | AuditKind::SetAttr => format!(in alloc; "  attribute length {first}"),
        AuditKind::Delete => Ok(String::new(alloc)),
        AuditKind::Write => format!(in alloc; "  offset {first} length {second}"),
        AuditKind::Truncate => format!(in alloc; "  size {first}"),
        AuditKind::SetWindow => format!(in alloc; "  window {first}"),
        AuditKind::Flush | AuditKind::FlushO => moments_text(alloc, first, second, style),
    }
}

/// The line above the rows of an audit.
pub fn audit_head(style: MomentStyle) -> &'static str
    ensures { result.now ≡ audit_head style }
{
    match style {
        MomentStyle::Number => "    MOMENT  KIND           OBJECT  WHAT\n",
        MomentStyle::Date => "MOMENT                       KIND           OBJECT  WHAT\n",
    }
}

/// The line of a row of an audit.
///
/// An error where memory is refused, and nowhere else.
pub fn audit_line(alloc: Global, row: &AuditRow, style: MomentStyle) -> Result<String, AllocError>
    ensures { IfOk result (λ line. string_bytes line ≡ audit_line style row.now) }
{
    let moment = moment_column(alloc, row.moment, style)?;
    let (kind, object) = (kind_column(row.kind), row.object.number());
    let what = what_text(alloc, row.kind, row.first, row.second, style)?;
    format!(in alloc; "{moment}  {kind}  {object:10}{what}\n")
}

/// The line of a flush below the rows of a log that it cut: when it was, and what it hid.
///
/// An error where memory is refused, and nowhere else.
pub fn flush_line(alloc: Global, row: &AuditRow, style: MomentStyle) -> Result<String, AllocError>
    ensures { IfOk result (λ line. string_bytes line ≡ flush_line style row.now) }
{
    let moment = moment_column(alloc, row.moment, style)?;
    let first = moment_text(alloc, row.first, style)?;
    let last = moment_text(alloc, row.second, style)?;
    let object = hidden_of(alloc, row.object)?;
    format!(in alloc; "{moment}  flush hid {first}-{last}{object}\n")
}

fn bytes_value(alloc: Global, offset: u64, length: u64) -> Result<Value, AllocError>
    ensures { IfOk result (λ value. view value ≡ bytes_data offset length) }
{
    let made = with_number(alloc, no_members(alloc), "offset", offset);
    object_of(with_number(alloc, made, "length", length))
}

fn moments_value(
    alloc: Global,
    first: u64,
    last: u64,
    style: MomentStyle,
) -> Result<Value, AllocError>
    ensures { IfOk result (λ value. view value ≡ moments_data style first last) }
{
    let made = with_number(alloc, no_members(alloc), "first", first);
    let made = with_time(alloc, made, "first_time", Moment::new(first), style);
    let made = with_number(alloc, made, "last", last);
    object_of(with_time(alloc, made, "last_time", Moment::new(last), style))
}

// An object with one number.
fn number_value(alloc: Global, key: &str, count: u64) -> Result<Value, AllocError>
    ensures { IfOk result (λ value. view value
        ≡ object (member key.now (number (unsigned count)) no_members)) }
{
    object_of(with_number(alloc, no_members(alloc), key, count))
}

fn what_value(
    alloc: Global,
    kind: AuditKind,
    first: u64,
    second: u64,
    style: MomentStyle,
) -> Result<Value, AllocError>
    ensures { IfOk result (λ value. view value ≡ what_data style kind first second) }
{
    match kind {
        AuditKind::Create | AuditKind::SetAttr => number_value(alloc, "attribute_length", first),
        AuditKind::Delete => Ok(Value::Null),
        AuditKind::Write => bytes_value(alloc, first, second),
        AuditKind::Truncate => number_value(alloc, "size", first),
        AuditKind::SetWindow => number_value(alloc, "window", first),
        AuditKind::Flush | AuditKind::FlushO => moments_value(alloc, first, second, style),
    }
}

fn audit_value(alloc: Global, row: &AuditRow, style: MomentStyle) -> Result<Value, AllocError>
    ensures { IfOk result (λ value. view value ≡ audit_data style row.now) }
{
    let what = what_value(alloc, row.kind, row.first, row.second, style)?;
    let made = with_member(alloc, no_members(alloc), "what", what);
    let made = with_number(alloc, made, "moment", row.moment.number());
    let made = with_time(alloc, made, "time", row.moment, style);
    let made = with_text(alloc, made, "kind", kind_word(row.kind));
    object_of(with_number(alloc, made, "object", row.object.number()))
}

/// The line of a row of an audit, for programs: one JSON object.
///
/// An error where memory is refused, and nowhere else.
pub fn audit_json(alloc: Global, row: &AuditRow, style: MomentStyle) -> Result<String, AllocError>
    ensures { IfOk result (λ line. string_bytes line ≡ json_line (audit_data style row.now)) }
{
    let value = audit_value(alloc, row, style)?;
    json_line(alloc, &value)
}

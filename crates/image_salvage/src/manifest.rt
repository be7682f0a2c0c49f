//! The manifest of a salvage: what each of its files is, and what is lost.
ghost use Rattle.std.specs.Prelude.{◌≡◌, IfOk, string_bytes};
ghost use Rattle.serde_json.specs.View.{view};
ghost use Rattle.image_salvage.specs.Manifest.{salvaged_line, unlisted_data, unlisted_line};
ghost use Rattle.image_salvage.specs.Manifest.{unlisted_name};
ghost use Rattle.image_salvage.specs.Manifest.{lost_frame_data, lost_frame_line};
ghost use Rattle.image_salvage.specs.Manifest.{lost_object_data, lost_object_line};

use history_export::{file_members, object_members};
use history_text::{json_line, no_members, object_of, with_member, with_number};
use history_view::Listed;
use s4_types::ObjectId;
use serde_json::{Value, put};
use std::alloc::{AllocError, Global};

/// The line of an object of these bytes, of which this many blocks are gone.
pub(crate) fn salvaged_line(
    alloc: Global,
    row: &Listed,
    content: &[u8],
    gone: u64,
) -> Result<String, AllocError>
    ensures { IfOk result (λ line. string_bytes line ≡ salvaged_line row.now content.now gone) }
{
    let mut members = object_members(alloc, row, content)?;
    put(&mut members, alloc, "blocks_gone", Value::from(gone))?;
    json_line(alloc, &Value::from(members))
}

/// The name of the file of an object that no row gives.
pub(crate) fn unlisted_name(alloc: Global, object: ObjectId) -> Result<String, AllocError>
    ensures { IfOk result (λ name. string_bytes name ≡ unlisted_name object) }
{
    let number = object.number();
    format!(in alloc; "unlisted/object-{number}")
}

/// The line of an object that no row gives, of these bytes, of which this many blocks are gone, and
/// whether a newer change of it was left out.
pub(crate) fn unlisted_line(
    alloc: Global,
    row: &Listed,
    content: &[u8],
    gone: u64,
    left_out: bool,
) -> Result<String, AllocError>
    ensures { IfOk result
        (λ line. string_bytes line ≡ unlisted_line row.now content.now gone left_out) }
{
    let value = unlisted_value(alloc, row, content, gone, left_out)?;
    let line = json_line(alloc, &value);
    drop(value);
    line
}

// The same as a value.
fn unlisted_value(
    alloc: Global,
    row: &Listed,
    content: &[u8],
    gone: u64,
    left_out: bool,
) -> Result<Value, AllocError>
    ensures { IfOk result
        (λ value. view value ≡ unlisted_data row.now content.now gone left_out) }
{
    let file = unlisted_name(alloc, row.object)?;
    let made = file_members(alloc, file.as_str(), row, content);
    let made = with_number(alloc, made, "unlisted_object", row.object.number());
    let made = with_number(alloc, made, "blocks_gone", gone);
    object_of(with_member(alloc, made, "left_out", Value::from(left_out)))
}

fn lost_frame_value(alloc: Global, frame: u16) -> Result<Value, AllocError>
    ensures { IfOk result (λ value. view value ≡ lost_frame_data frame) }
{
    object_of(with_number(alloc, no_members(alloc), "lost_frame", u64::from(frame)))
}

/// The line of a lost frame.
pub(crate) fn lost_frame_line(alloc: Global, frame: u16) -> Result<String, AllocError>
    ensures { IfOk result (λ line. string_bytes line ≡ lost_frame_line frame) }
{
    let value = lost_frame_value(alloc, frame)?;
    json_line(alloc, &value)
}

fn lost_object_value(alloc: Global, object: ObjectId) -> Result<Value, AllocError>
    ensures { IfOk result (λ value. view value ≡ lost_object_data object) }
{
    object_of(with_number(alloc, no_members(alloc), "lost_object", object.number()))
}

/// The line of a lost object.
pub(crate) fn lost_object_line(alloc: Global, object: ObjectId) -> Result<String, AllocError>
    ensures { IfOk result (λ line. string_bytes line ≡ lost_object_line object) }
{
    let value = lost_object_value(alloc, object)?;
    json_line(alloc, &value)
}

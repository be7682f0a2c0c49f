//! The manifest of an export: what each of its files is.
ghost use Rattle.std.specs.Prelude.{◌≡◌, IfOk, string_bytes};
ghost use Rattle.serde_json.specs.View.{members_view};
ghost use Rattle.history_export.specs.Manifest.{file_members, file_name, manifest_line};
ghost use Rattle.history_export.specs.Manifest.{object_members};

use history_text::{
    json_line, no_members, text_value, with_hex, with_member, with_number, with_text,
};
use history_view::Listed;
use s4_types::ObjectId;
use serde_json::{Map, Value};
use sha2::{Digest, Sha256};
use std::alloc::{AllocError, Global};

/// The name of the manifest.
pub const MANIFEST: &str = "manifest.jsonl";

/// The name of an object's file.
pub fn file_name(alloc: Global, object: ObjectId) -> Result<String, AllocError>
    ensures { IfOk result (λ name. string_bytes name ≡ file_name object) }
{
    let number = object.number();
    format!(in alloc; "object-{number}")
}

/// What a manifest says of a file of this name, which has an object's bytes.
pub fn file_members(
    alloc: Global,
    file: &str,
    row: &Listed,
    content: &[u8],
) -> Result<Map<String, Value>, AllocError>
    ensures { IfOk result
        (λ members. members_view members.entries ≡ file_members file.now row.now content.now) }
{
    let digest = Sha256::digest(content);
    let attribute_text = text_value(alloc, row.attribute.as_slice())?;
    let made = with_text(alloc, no_members(alloc), "file", file);
    let made = with_number(alloc, made, "size", content.len() as u64);
    let made = with_hex(alloc, made, "sha256", digest.as_slice());
    let made = with_hex(alloc, made, "attribute", row.attribute.as_slice());
    let made = with_member(alloc, made, "attribute_text", attribute_text);
    let made = with_number(alloc, made, "created", row.created.number());
    with_number(alloc, made, "changed", row.changed.number())
}

/// The same of the file that an object has by its number.
pub fn object_members(
    alloc: Global,
    row: &Listed,
    content: &[u8],
) -> Result<Map<String, Value>, AllocError>
    ensures { IfOk result
        (λ members. members_view members.entries ≡ object_members row.now content.now) }
{
    let file = file_name(alloc, row.object)?;
    let made = file_members(alloc, file.as_str(), row, content);
    with_number(alloc, made, "object", row.object.number())
}

/// The line of an object of these bytes.
pub(crate) fn manifest_line(
    alloc: Global,
    row: &Listed,
    content: &[u8],
) -> Result<String, AllocError>
    ensures { IfOk result (λ line. string_bytes line ≡ manifest_line row.now content.now) }
{
    let value = Value::from(object_members(alloc, row, content)?);
    json_line(alloc, &value)
}

//! What was given out of an image, as JSON.
ghost use Rattle.std.specs.Prelude.{◌≡◌, IfOk, string_bytes};
ghost use Rattle.serde_json.specs.View.{view};
ghost use Rattle.image_salvage.specs.Counts.{given_data, given_line};

use crate::giving::GivenOut;
use history_text::{json_line, no_members, object_of, with_member, with_number};
use serde_json::Value;
use std::alloc::{AllocError, Global};

fn given_value(alloc: Global, given: &GivenOut) -> Result<Value, AllocError>
    ensures { IfOk result (λ value. view value ≡ given_data given.now) }
{
    let made = with_number(alloc, no_members(alloc), "objects", given.objects);
    let made = with_number(alloc, made, "blocks_gone", given.blocks_gone);
    let made = with_number(alloc, made, "lost_objects", given.lost_objects);
    let made = with_number(alloc, made, "lost_frames", given.lost_frames);
    let made = with_number(alloc, made, "unlisted", given.unlisted);
    let made = with_number(alloc, made, "left_out", given.left_out);
    object_of(with_member(alloc, made, "damaged", Value::from(given.damaged)))
}

/// What was given out of an image, as one line of JSON: an object with the counts by their names,
/// and whether the bytes are no image.
pub fn given_json(alloc: Global, given: &GivenOut) -> Result<String, AllocError>
    ensures { IfOk result (λ line. string_bytes line ≡ given_line given.now) }
{
    let value = given_value(alloc, given)?;
    json_line(alloc, &value)
}

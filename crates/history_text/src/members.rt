//! JSON objects that are made member by member.
ghost use Rattle.std.specs.Prelude.{◌≡◌, ℕ, List, IfOk};
ghost use Rattle.hex.specs.Hex.{encode_lower};
ghost use Rattle.serde_json.specs.Data.{Data, Members, no_members, object, put};
ghost use Rattle.serde_json.specs.Data.{number, unsigned, string};
ghost use Rattle.serde_json.specs.View.{view, members_view};
ghost use Rattle.history_text.specs.Json.{time_data};

use crate::json::time_value;
use moment_words::MomentStyle;
use s4_types::Moment;
use serde_json::{Map, Value};
use std::alloc::{AllocError, Global};

/// No members.
pub fn no_members(alloc: Global) -> Result<Map<String, Value>, AllocError>
    ensures { IfOk result (λ map. members_view map.entries ≡ no_members) }
{
    Ok(Map::new(alloc))
}

/// The members that are being made, with one more. The first refusal of memory stays.
pub fn with_member(
    alloc: Global,
    made: Result<Map<String, Value>, AllocError>,
    key: &str,
    value: Value,
) -> Result<Map<String, Value>, AllocError>
    ensures { (members : Members) (what : Data)
        → IfOk made (λ map. members_view map.entries ≡ members) → view value ≡ what
        → IfOk result (λ map. members_view map.entries ≡ put key.now what members) }
{
    let mut map = made?;
    serde_json::put(&mut map, alloc, key, value)?;
    Ok(map)
}

/// They, with a number more.
pub fn with_number(
    alloc: Global,
    made: Result<Map<String, Value>, AllocError>,
    key: &str,
    count: u64,
) -> Result<Map<String, Value>, AllocError>
    ensures { (members : Members) (n : ℕ)
        → IfOk made (λ map. members_view map.entries ≡ members) → count ≡ n
        → IfOk result (λ map. members_view map.entries
        ≡ put key.now (number (unsigned n)) members) }
{
    with_member(alloc, made, key, Value::from(count))
}

/// They, with a text more.
pub fn with_text(
    alloc: Global,
    made: Result<Map<String, Value>, AllocError>,
    key: &str,
    text: &str,
) -> Result<Map<String, Value>, AllocError>
    ensures { (members : Members) (letters : List ℕ)
        → IfOk made (λ map. members_view map.entries ≡ members) → text.now ≡ letters
        → IfOk result (λ map. members_view map.entries ≡ put key.now (string letters) members) }
{
    let text = Value::try_from_str(alloc, text)?;
    with_member(alloc, made, key, text)
}

/// They, with bytes more, in hex.
pub fn with_hex(
    alloc: Global,
    made: Result<Map<String, Value>, AllocError>,
    key: &str,
    bytes: &[u8],
) -> Result<Map<String, Value>, AllocError>
    ensures { (members : Members) (shown : List ℕ)
        → IfOk made (λ map. members_view map.entries ≡ members) → bytes.now ≡ shown
        → IfOk result (λ map. members_view map.entries
        ≡ put key.now (string (encode_lower shown)) members) }
{
    let text = hex::encode(alloc, bytes)?;
    with_member(alloc, made, key, Value::from(text))
}

/// They, with the date of a moment more; null where moments are numbers.
pub(crate) fn with_time(
    alloc: Global,
    made: Result<Map<String, Value>, AllocError>,
    key: &str,
    moment: Moment,
    style: MomentStyle,
) -> Result<Map<String, Value>, AllocError>
    ensures { (members : Members) (n : ℕ)
        → IfOk made (λ map. members_view map.entries ≡ members) → moment ≡ n
        → IfOk result (λ map. members_view map.entries
        ≡ put key.now (time_data style n) members) }
{
    let time = time_value(alloc, moment, style)?;
    with_member(alloc, made, key, time)
}

/// The object of the members.
pub fn object_of(made: Result<Map<String, Value>, AllocError>) -> Result<Value, AllocError>
    ensures { (members : Members) → IfOk made (λ map. members_view map.entries ≡ members)
        → IfOk result (λ value. view value ≡ object members) }
{
    Ok(Value::Object(made?))
}

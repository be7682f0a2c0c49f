//! The lines of what a drive has of the past: for people in columns, for programs as JSON.
//!
//! The layer above may rely on this: each function gives exactly the text that its definition says,
//! or NoMemory alone. Members of a JSON object are added one by one, by functions that pass the first
//! refusal of memory on.
#![tactic(auto)]

mod attributes;
mod audit;
mod json;
mod lines;
mod members;
mod numbers;

pub use attributes::printed_attribute;
pub use audit::{audit_head, audit_json, audit_line, flush_line};
pub use json::{json_line, listed_json, log_json, numbers_json, stat_json, text_value};
pub use lines::{
    attributes_text, list_head, listed_line, log_head, log_line, numbers_lines, stat_head,
    stat_line,
};
pub use members::{no_members, object_of, with_hex, with_member, with_number, with_text};
pub use numbers::DriveNumbers;

//! What differs between two moments of a drive: of two versions of an object which bytes differ,
//! and of a drive which objects do.
//!
//! The layers above may rely on this: `difference_of` gives nothing exactly where two versions are
//! alike, and else all that differs, with exactly the positions of the bytes that do.
//! `next_differing` gives the objects that differ, one after the other. `write_differences` writes
//! exactly the lines of the objects that differ, by ascending number, and says whether any does;
//! where lines are asked for, each with the unified difference of its versions if both are UTF-8
//! text. Nothing here changes what a drive has. Moments are not compared: an object that was
//! changed to what it was has no difference. No call takes memory beyond a constant number of bytes
//! for each byte of the two versions it looks at.
#![tactic(auto)]

mod differences;
mod differing;
mod diffing;
mod faults;
mod json;
pub mod laws;
mod lines;
mod output;
mod patches;
mod ranges;
mod texts;
mod versions;

pub use differences::{AttributePair, Difference, DifferenceKind, difference_of};
pub use differing::{DifferingObject, next_differing};
pub use diffing::{DiffAsked, write_differences, write_line};
pub use faults::{DiffFault, Stop};
pub use json::difference_json;
pub use lines::difference_line;
pub use output::write_out;
pub use patches::{PATCH_LINE_BYTES, write_patch};
pub use ranges::{ByteRange, ranges_of};
pub use texts::{Detail, Shown, hunks_between};

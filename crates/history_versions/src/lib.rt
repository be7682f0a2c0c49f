//! The objects that are listed at a moment with all their versions, as programs read them.
//!
//! The layer above may rely on this: `write_with_versions` writes one line for an object. It is the
//! line that a list has of the object, and in it besides each version that can be read up to a
//! moment, once, the oldest first. A version has the first moment at which it can be read, and
//! where its contents are asked for, all its bytes. No version that can be read is left out, and
//! none is printed of a moment that can't be (`laws`). Nothing here changes a drive's state. In
//! memory there is one version at a time, and it is written before the next one is read.
#![tactic(auto)]

mod json;
pub mod laws;
mod lines;
mod output;
mod pieces;

pub use json::VersionNumbers;
pub use lines::{VersionsAsked, write_with_versions};

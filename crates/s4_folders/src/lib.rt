//! The commands of `s4` that write objects as files into a folder: `export` of an image, `salvage`
//! of a damaged one.
//!
//! The layer above may rely on this: where `export_image` succeeds, each object that the drive of
//! the file's bytes has at the moment asked for was written into the folder at the path asked for,
//! and a manifest. `salvage_image` writes what whole frames of the bytes still give, and prints how
//! much that is. Its verdict is `Fine` only where the bytes are an image, and each object that is
//! live in its drive was written whole. That is proved over any `Folders` that say what their
//! folders have; that the system's do so is tested.
#![tactic(auto)]

mod exporting;
mod salvaging;

pub use exporting::{Folders, export_image};
pub use salvaging::salvage_image;

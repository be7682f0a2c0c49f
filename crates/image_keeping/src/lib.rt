//! An image at a path, and what a crash leaves there.
//!
//! The layer above may rely on this: where `keep` ends well, a crash leaves the image that it was
//! given, and nothing else; whatever it answers, each outcome of a crash was one before, or is that
//! image; and where it lacked memory or space, each was one before. A keeper doesn't say what is
//! kept: it says what a crash may leave, and `IsKept` is made of that. A crash inside of a call is
//! read as a folder whose later calls all fail and change nothing, so the clauses that hold for
//! each answer speak of it; that step is an argument in writing. Of a real folder nothing is said.
#![tactic(auto)]

mod folder;
mod keeper;
mod memory;
mod whole;

pub use folder::{Folder, FolderError};
pub use keeper::{KeepError, Keeper};
pub use memory::MemoryFolder;
pub use whole::WholeImage;

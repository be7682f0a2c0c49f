//! `restore`: the drive of an image is made what it was at a moment.
//!
//! The layer above may rely on this: where `restore_image` succeeds, the file has what the restored
//! drive is saved as. The objects that are named, or all, are what they were then, every other one
//! is what it was, the past stays, and the output has a line for each object that something was
//! done to. Where the moment would expire on the way the window is widened before, by as little as
//! serves. Where a journal is full or no room is left, room is made as `compact` does, or by moves
//! alone, each only where a trial without it found something lacking; with `--flush` the fewest
//! versions are hidden that serve, the newest first, and with `--skip` what a trial found lacking
//! is left out. With all that a last trial was made, in which everything was restored that is to
//! be. The last line says how many versions age by it, where any do. `dry_run_image` prints the
//! same of a drive that isn't saved, or is refused as that is.
//! `read_map` reads what an earlier restore printed of objects that it made anew: with that they
//! are restored under the numbers that they got.
#![tactic(auto)]

mod counting;
mod images;
pub mod laws;
mod maps;
mod preparing;
mod searching;

pub use images::{RestoreFailure, dry_run_image, perform_restore, restore_image};
pub use maps::{MapFault, read_map};

//! `compact`: room is made in the drive of an image.
//!
//! The layer above may rely on this: where `compact_image` succeeds, the file has what the
//! compacted drive is saved as, with no fewer blocks left than before, those of the reserve among
//! them, and no fewer than any of its three ways leaves: with the cleaner, by moves alone, or with
//! the cleaner after moves alone. A full pass of the cleaner follows, where that leaves no fewer
//! blocks: then just those data blocks are held that readable versions reach. The output has the
//! counts of the compaction, each after its name, how the full pass ended, and how many data blocks
//! are held; or all that as one object of JSON. Where it fails all files are as they were.
#![tactic(auto)]

mod compacting;
mod reports;
mod trying;
mod ways;

pub use compacting::compact_image;
pub use reports::Report;

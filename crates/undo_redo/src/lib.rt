//! What ties the inodes of an object's history: an entry links an inode to the next one.
//!
//! The layers above may rely on this: `undo` and `redo` are the two directions of one link, told of
//! the whole inode. `EntriesBetween` gives the one list of entries that leads from an inode to
//! another, one at a time, and `compose` the one list that leads where a run of entries leads.
//! `laws` says how runs are joined and cut, and which inode is current at a moment. Nothing here
//! reaches a block, and no call takes memory.
#![tactic(auto)]

mod between;
mod composition;
pub mod laws;
mod links;
mod pieces;
mod sizes;

pub use between::{EntriesBetween, OtherEntries};
pub use composition::{Entries, compose};
pub use links::{blank, redo, redo_all, undo, undo_all};
pub use sizes::{Sizes, entry_sizes};

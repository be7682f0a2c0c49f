//! The inode of an object that is current at a moment, from its present one and the entries of its
//! journal, or an index of these in memory. And plans of reads: made over the table, and fetched
//! without it.
//!
//! The layers above may rely on this: what is told of an object depends on its own journal blocks
//! and checkpoints alone, and nothing in the log changes. A plan gives the bytes that its inode had
//! over the table when it was made, whatever becomes of the table and of the drive until it is
//! fetched.
//!
//! Contracts see an index as the list of what undoes each entry, oldest first. Where these are the
//! undoings of a run of entries, the inode current at a moment is found from the run's last one
//! without a look at the journal. An index is never needed: where its growth is refused it may be
//! let go, and the journal says the same.
#![tactic(auto)]

mod block_ranges;
mod earlier_pointers;
mod inodes;
mod journals;
pub mod laws;
mod plans;
mod presents;
mod starts;
mod undo_index;
pub mod undo_laws;
mod undo_records;

pub use block_ranges::BlockRange;
pub use inodes::{entries, inode_before};
pub use journals::ObjectJournal;
pub use plans::{ReadPlan, plan};
pub use presents::{Present, index_of, turn_beside};
pub use starts::{inode_at, inode_at_counted};
pub use undo_index::UndoIndex;

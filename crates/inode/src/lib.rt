//! What an inode means over the blocks that its pointers refer to, and what each change of an
//! object makes of it.
//!
//! The layers above may rely on this: an inode represents a version, its bytes are those of its
//! blocks joined by index, and each change here gives the inode that represents what the change
//! makes of that version. A write and a truncation append the data blocks that they need, in places
//! where no block was, and leave all blocks that are held. An inode is changed by replacing
//! pointers, never a whole list. What a change means for a version is in `s4_model`; which entries
//! lead from one inode to the next, and whether there is room, is told elsewhere.
#![tactic(auto)]

mod appends;
mod counts;
pub mod laws;
mod loads;
mod reads;
mod status;
mod truncations;
mod writes;

pub use counts::{blocks_of_truncate, blocks_of_write};
pub use loads::zero_block;
pub use reads::read;
pub use status::{created, deleted, with_attribute};
pub use truncations::truncate;
pub use writes::write;

//! What a change of an object makes of its row and of its blocks: entries after its journal, a
//! checkpoint before older ones, both written anew, and the older checkpoints dropped.
//!
//! The layers above may rely on this: from a change's moment on the object's inode is the changed
//! one, and before it each is as it was; a checkpoint changes no inode; a journal that is written
//! anew tells what it was given. A row tells of moments up to one that is known, and a row that is
//! in order stays so; blocks of other kinds and objects stay.
#![tactic(auto)]

mod changes;
mod checkpoints;
pub mod laws;
mod moves;
mod rewrites;
mod writing;

pub use changes::record_change;
pub use checkpoints::{drop_sides, record_checkpoint};
pub use moves::{move_row, moved_blocks};
pub use rewrites::{rewrite_row, rewritten_blocks};
pub use writing::{journal_blocks, write_row};

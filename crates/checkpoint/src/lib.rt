//! Checkpoints in the log: an object's inode at a moment, written in blocks and read back.
//!
//! The layers above may rely on this: what is read at a pointer is what was written there. In how
//! many blocks a checkpoint stands, and where, is told by the names `checkpoint_blocks` and
//! `checkpoint_places` and by the laws here.
//!
//! A cache has some of the inodes that were read last, in memory, each under an object and a stamp.
//! What it answers under a key was kept under that key. It may forget each of them at any time, and
//! keeps none where memory for that is refused.
#![tactic(auto)]

mod cache;
mod calls;
pub mod laws;

pub use cache::{CACHED_INODES, CacheKey, InodeCache};
pub use calls::{
    add_places, checkpoint_blocks, drop_checkpoint, placed_blocks, read_checkpoint,
    write_checkpoint,
};

//! Where two lists of bytes differ, as runs of neighbouring blocks: the least that has to be
//! written over the one, so that it becomes the other.
//!
//! The layers above may rely on this: `runs_to` is a function of both lists, and of how many blocks
//! that are the same may lie between two of one run; `count_blocks` says how many blocks runs have,
//! and `cut_between` where bytes are cut first. `laws` says what runs are, and that the bytes are
//! had by writing them one after the other, once the others are cut: each block that differs once
//! and none that was cut in its midst, and of the others those alone that lie between two that
//! differ, near enough to each other.
#![tactic(auto)]

mod counting;
mod cuts;
pub mod laws;
mod running;

pub use counting::{blocks_in, count_blocks};
pub use cuts::cut_between;
pub use running::{Run, runs_to};

//! Blocks and the log that they are appended to: what a block is for, and what the layers above a
//! table of blocks may rely on.
//!
//! A log is seen as four things: what each held pointer refers to, the places that the next appends
//! take, in order, how many places were ever taken, and how many names each data block has. How a
//! table keeps them in frames and words is not told here.
#![tactic(auto)]

mod kinds;
pub mod laws;
mod table;

pub use kinds::BlockKind;
pub use table::{Block, Blocks};

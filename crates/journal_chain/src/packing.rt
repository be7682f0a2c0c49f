//! How the entries of a chain are packed into journal blocks, and how many blocks a push appends.
//!
//! A journal block holds at most `JOURNAL_ENTRY_BYTES` of entries. An entry goes into the newest
//! block if it fits after its entries, else it begins a new block. So the blocks of a chain are a
//! function of its entries, `packed` in `specs/`, and a push is the packing of the joined entries.
//!
//! The layers above may rely on this: the counts here are exact, and the laws in [`laws`] tie them
//! to the blocks. Everything is a function of sizes, so that a drive can count before there is any
//! block or pointer. How a block is encoded, and where blocks stand, is told elsewhere.
pub mod laws;
mod sizes;

pub use sizes::{blocks_needed, filled_after, fits};

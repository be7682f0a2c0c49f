//! An object's chain of journal blocks, over any table of blocks.
//!
//! A [`Chain`] is what is kept of a chain beside its object's row: where its newest block is, and
//! two counts of bytes, so that a push is counted before anything is read or written. The blocks
//! themselves are in the table: each names the one before, and their entries are packed.
//!
//! The layers above may rely on this: a chain that was pushed to holds its old entries and the new
//! ones, one that was written afresh just those that it was given, and no other journal block of
//! the object is held. No block of another kind or object has changed, and where a call is refused,
//! none at all. When it is, and how many blocks it appends, are functions of the chain, the entries
//! and the places ahead. What entries say together is not told here.
#![tactic(auto)]

mod back;
mod chain;
pub mod laws;
pub mod packing;
mod rewriting;
mod table;
mod writing;

pub use back::EntriesBack;
pub use chain::Chain;

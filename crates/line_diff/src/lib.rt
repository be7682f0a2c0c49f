//! The unified difference of two texts, line by line, as `diff -u` prints it.
//!
//! The layers above may rely on this: what `unified` gives is made of rows that turn the lines of
//! the one text into those of the other. The lines that both begin with and those that both end
//! with are kept. Exactly those rows are shown of which a change is at most three rows away, and
//! each hunk says where its rows are in both texts. Which of the lines in between are kept isn't
//! said: it needn't be the shortest difference. Time and memory grow with the lengths of the texts,
//! and never with their product.
#![tactic(auto)]

mod gaps;
pub mod laws;
mod lines;
mod matches;
mod places;
mod printing;
mod script;
mod spans;
mod trimming;

pub use printing::unified;

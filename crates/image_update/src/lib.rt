//! What changed from one front of an image to the next: steps, and their one encoding. A front is
//! an image without its digest.
//!
//! A step keeps bytes of the old front, skips those after them, and puts others in their place. The
//! steps of a `Difference` go once over the old front, and `patched` gives what they make of it.
//!
//! The layers above may rely on this: `difference_between` is a function of both fronts alone, and
//! what it gives makes the new front of the old one, whatever bytes the two are. `encode` gives the
//! one encoding of a difference; `decode` takes that and nothing else, and says why it refuses
//! other bytes. No difference has an encoding of more than `LARGEST_DIFFERENCE` bytes.
//!
//! Fronts are compared part by part, as their headers say, in units: blocks and words of frames by
//! their places, rows, spans and audit rows by their objects and moments, in ascending order. A
//! unit that is the same in both isn't put. Whether two lists of bytes are fronts isn't looked at:
//! of others a difference is as right, and may be longer.
//!
//! Nothing is said of what a difference is of: bytes that make some front of one may make another
//! of another, so the layer above has to know which front it patches.
#![tactic(auto)]

mod building;
mod counts;
mod differing;
mod encoding;
mod kinds;
pub mod laws;
mod numbers;
mod patching;
mod reading;
mod refusals;
mod steps;
mod walking;

pub use differing::{Difference, difference_between};
pub use encoding::encode;
pub use patching::patched;
pub use reading::decode;
pub use refusals::{NoDifference, NotPatched, Unread};
pub use steps::{LARGEST_DIFFERENCE, Step};

//! A drive that is kept: what was accepted lasts, at its number and its moment.
//!
//! The layer above may rely on this: where `flush` gives a receipt, whatever a crash leaves at the
//! image's path is the image of the drive as it was when the flusher's session met it, after it has
//! seen the receipt's reach; the receipt's number is that of the changes that this session has
//! seen. Whatever `flush` answers, each outcome of a crash was one before, or is such an image; so
//! what a receipt shows stays kept, whatever becomes of later flushes. The running drive never sees
//! the reach, and is left as it was. `recover` refuses what is kept only where memory is short,
//! and what it opens goes on where the kept history ended.
//!
//! `close` keeps the drive a last time, at its own clock, and nothing more is asked then.
//!
//! What two sessions of one drive have seen are beginnings of one list, so all changes that a
//! session has seen are among the kept ones, at their numbers and moments, where a receipt covers
//! its last step. Then the clock of what is kept isn't below that step's, so no later change has a
//! moment up to it.
//!
//! Which calls a crash falls between, while threads run, is an argument in writing. So is it that
//! the drive's clock doesn't fall from one session's step to the next one's.
#![tactic(auto)]

mod closing;
mod collecting;
mod collecting_last;
mod flushing;
mod keeping;
pub mod laws;
mod preparing;
mod reach;
mod receipts;
mod recovering;

pub use collecting::{Collected, DriveLock, collect};
pub use collecting_last::collect_last;
pub use flushing::{Announce, Flushing};
pub use keeping::KeptImage;
pub use reach::{MOST_AHEAD, reach_after};
pub use receipts::KeptReceipt;
pub use recovering::recover;

//! Group commit: whoever waits until its change is kept flushes for all that wait, or waits for
//! the one who does.
//!
//! The layer above may rely on this: `await_kept` gives a receipt only where it covers the number
//! of changes and the moment that were asked for, and a receipt is made by a flush that ended well,
//! or is the one that the monitor began with. The receipt that is had by the monitor is replaced
//! only by one that covers as much. A flush that failed ends the service: nothing is flushed after
//! it. So does `end`, which flushes a last time: whoever asks after that began is given no receipt,
//! whatever an earlier one covers. Only `end` gives what shows that, to the last flush, and what
//! shows that this has ended well, and who asked for it. Until each reply that is due has a receipt,
//! nothing ends, but where a flush has failed. A service that is to stop gives up a flush that has lacked
//! memory or space too often. What a receipt shows is its type's to say. That a thread which waits
//! goes on is no clause's; a model that is searched has it.
#![tactic(auto)]

mod flush;
mod monitor;
mod over;
mod progress;

pub use flush::{CommitStep, Flush, FlushError, LastFlush, NotKept, Open, Receipt, Steps};
pub use monitor::Monitor;
pub use over::{Ended, Over};

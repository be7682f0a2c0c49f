//! The accept word: one history for all sessions.
//!
//! One word counts the accepted changes of a drive. The drive's seat, `HistorySeat`, knows the
//! history, and a session's seat knows what the session was told of it; neither takes memory for
//! that. One rule ties them between any two steps of any threads (`specs/AcceptRule.antt`): what a
//! session has seen begins the accepted changes, its own numbers are numbers in that, strictly
//! ascending, of changes accepted for its seat, and two sessions share none.
pub(crate) mod board;
pub(crate) mod history;
pub mod laws;
mod lending;
pub(crate) mod naming;
mod plays;
mod rule;
pub(crate) mod sessions;
mod steps;

pub use board::Accepts;
pub use history::HistorySeat;
pub use naming::Taking;
pub use sessions::{SessionSeat, Sessions};

//! An image that is kept by a log of what changed since it was written.
//!
//! The layer above may rely on this: where `keep` ends well, the front that it was given is read of
//! whatever a crash leaves of image and log, and no other; whatever it answers, what is read was
//! read before, or is that front; where it lacked memory or space, it was read before. What a crash
//! leaves is always read. A front is an image without its digest.
//!
//! A log is bound to an image by that one's digest. So a new image that takes the old one's place
//! makes the log count for nothing, at the moment at which it has its name.
#![tactic(auto)]

mod logged;
mod reading;
mod update_log;

pub use logged::LoggedImage;
pub use reading::{Unreadable, read_front};
pub use update_log::UpdateLog;

//! A drive is restored by an order: what was asked for, with what was found to be needed for it.
//!
//! The layers above may rely on this: by an `Order` what it names is chosen of the drive as it is,
//! room is made by its means, the window is widened where the moment would expire on the way, by as
//! little as serves, versions are hidden where the order says so, and what was chosen is restored.
//! All changes are asked for at the machine's time where the drive's moments are times.
//! The objects that are named, or all, are what they were then, every other one is what it was, the
//! past stays, and the output has a line for each object that something was done to. The other
//! functions are the steps of that, for trials.
#![tactic(auto)]

mod choosing;
mod dating;
mod lines;
mod making_room;
mod means;
mod orders;
mod previewing;
mod reaching;
mod restoring;

pub use choosing::{aims_by, readable};
pub use dating::{Moments, asked_at, check_left};
pub use lines::remade_value;
pub use making_room::prepare;
pub use means::{Means, compact_for};
pub use orders::Order;
pub use previewing::Preview;
pub use reaching::changes_ahead;
pub use restoring::failure_of;

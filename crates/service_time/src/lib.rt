//! The time of a service: moments in microseconds since 1970 that never go back.
//!
//! The layer above may rely on this: whatever is drawn from a `ServiceClock`, one moment after
//! another, none is below its start or below the one before; a moment is the start and what the
//! monotonic clock has counted since, where that clock doesn't go back. `start_of` gives the start
//! over an image whose clock is there, or says why none is given, `wait_before` how long it is
//! waited for, and `duration_of` exactly what a text says. That the machine's clocks run as time does is said nowhere.
#![tactic(auto)]

mod clock;
mod durations;
mod machine;
mod starts;

pub use clock::{Readings, ServiceClock};
pub use durations::duration_of;
pub use machine::{Monotonic, system_time};
pub use starts::{DAY, FIRST_START, MINUTE, StartFault, WEEK, most_leap, start_of, wait_before};

//! Moments as people write and read them.
//!
//! A moment is a number of a drive's clock. A service sets the clock to the microseconds since
//! 1970-01-01T00:00:00Z (Unix time), and then a moment is a date too; other clocks count requests.
//! The layer above may rely on this: `moment_text` gives exactly the text that its definition says,
//! or a refusal of memory alone, a `ShownMoment` displays as the same text, and `read` gives
//! exactly number or the time that a text says.
#![tactic(auto)]

mod printing;
mod words;

pub use printing::{FIRST_DATED, MomentStyle, ShownMoment, moment_text, style_of};
pub use words::{AgeUnit, MomentWord, age_of, moment_of, read};

//! The commands of `s4` that print something of the drive of an image, and change nothing: `list`,
//! `log`, `audit`, `cat`, `info`, `diff` and `check`.
//!
//! `Showing` names each of them but `check` with what its line asks for, `Checking` is `check`, and
//! `s4_images::show_image` performs both.
//!
//! The layer above may rely on this: each of them writes, over the drive that it is given, exactly
//! what its definition in specs/ says for what is asked. `List` writes the line of each object that
//! is listed at a moment, `Log` a line for each entry of the journals between two moments and for
//! each flush of the audit that hid some of them, `Audit` a line for each row of the audit that is
//! asked for, `Cat` the bytes of an object at a moment, `Info` the numbers of the drive, `Diff`
//! what differs between two moments, and `Checking` how many versions can be read, all of which
//! were. The verdict of `Diff` is whether anything differs, and that of each other is `Fine`. What
//! a check shows meanwhile on its `Meter` isn't proved.
#![tactic(auto)]

mod auditing;
mod checking;
mod choosing;
mod comparing;
mod flushes;
mod forms;
mod listing;
mod logging;
mod reading;
mod showing;
mod telling;
mod watching;

pub use checking::Checking;
pub use showing::Showing;
pub use watching::{Meter, Screens, TerminalMeter};

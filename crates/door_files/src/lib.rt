//! The FIFOs of a door and of its sessions, opened without waiting for whoever is at the other end.
//!
//! The layer above may rely on this: a door is opened at `door` in its folder, and a session's
//! streams at its name with `.in` and `.out` in that folder, and nothing else is opened; a name has
//! no sign that leads out of a folder. Nothing is made, and nothing is emptied. What a path leads to
//! on a real system is said nowhere; there it has to be a FIFO, and no link to one, and the system
//! has to show a program's files in `/proc/self/fd`.
#![tactic(auto)]

mod fifos;
mod host_fifos;

pub use fifos::{Fifos, open_door, open_session};

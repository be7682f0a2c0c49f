//! The history cleaner: of each object's chain those inodes stay that can be read at some moment.
//!
//! The layers above may rely on this: whatever [`clean_object`] answers, the history and every
//! version that can be read stay. Once it answered Ok, each inode of the object's chain that isn't
//! between two entries of one moment is current at some moment that can be read, and an object that
//! is absent at all of them has no row. Nothing is written where the chain would hold the entries
//! that it holds. [`empty_frames`] leaves no frame that holds nothing but free ones and the open
//! one. [`full_pass`] cleans all objects and then empties the frames, and counts the rows and
//! frames that have changed since it began. [`Rounds`] goes over all objects in turns that are
//! short enough to be taken beside sessions; [`visit`] is the turn of one object, and [`sweep`]
//! empties frames, past those that have a reader. `laws` says what holds of the chains of stored
//! objects, and that of a cleaned one just that data is held which can be reached.
#![tactic(auto)]

mod cleaner;
mod cleaning;
mod entries;
mod frames;
pub mod laws;
mod passes;
mod places;
mod rounds;
mod sight;

pub use cleaner::Cleaner;
pub use cleaning::clean_object;
pub use frames::empty_frames;
pub use passes::{PassReport, clean_audit, full_pass};
pub use rounds::{Rounds, Turn, sweep, visit};

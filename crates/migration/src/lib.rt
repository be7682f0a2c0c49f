//! An image of an earlier version becomes one of the present version, and one of the present version
//! another, with other frames or fewer objects.
//!
//! The layers above may rely on this: the new image says what the old one says, at all moments, of
//! the objects that are in it; its blocks are where a fixed order puts them; and what can't become
//! an image is refused with that version's own causes.
#![tactic(auto)]

mod copies;
mod copy_laws;
mod copying;
mod counting;
mod images;
pub mod laws;
mod migrating;
mod moves;
mod objects;
mod places;
mod rows;
mod tables;
mod writing;

pub use copying::{CopyAsked, copied};
pub use migrating::{migrate, migrated};
pub use moves::Move;

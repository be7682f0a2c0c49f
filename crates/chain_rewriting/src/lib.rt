//! What history cleaner and segment copier make of an object's chain: which inodes stay, and
//! pointers that lead to new places.
//!
//! The layers above may rely on this: `clean` answers exactly the kept chain of
//! `specs/Cleaned.antt`. What can be seen of an object is asked of a `Sees`. `map_inode` and
//! `map_entries` map the places of inodes and entries by a `MapsPlaces`, exactly as
//! `specs/Mapping.antt` says. A `Renaming` is one: it knows the new place of each block of a frame
//! that moves. No block and no table is reached.
//!
//! `cleaning_laws` says what holds of a kept chain. `mapping_laws` says what holds of one whose
//! places are mapped to others, by any map that is one to one on them: it is a chain again, of as
//! many bytes, and shows the same versions over blocks that are copied so. `renaming_laws` says it
//! of a renamed one, where no pointer of the chain led to the new places before, and that none of
//! its pointers leads into the frame any more.
#![tactic(auto)]

mod cleaning;
pub mod cleaning_laws;
mod mapping;
pub mod mapping_laws;
mod renaming;
pub mod renaming_laws;

pub use cleaning::{Cleaned, Sees, clean};
pub use mapping::{MapsPlaces, map_entries, map_entry, map_inode, map_slot};
pub use renaming::Renaming;

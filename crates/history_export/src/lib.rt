//! The cores of two commands over a drive: `export` writes the objects of a moment into a folder,
//! and `check` reads every version.
//!
//! The layer above may rely on this: nothing here changes a drive's state, and at a moment that can
//! be read nothing is refused but for lack of memory, or of a seat. `export` leaves one file in an
//! empty folder for each object that is live at the moment, with exactly its bytes, and a manifest
//! with one line of JSON for each. `check_all` reads each version that can be read once, from the
//! first moment of its object that can be, counts versions and bytes, and gives the digest of these
//! bytes. `beginnings` gives these first moments of an object.
//!
//! Whoever gives out objects of another source writes the same files by `begin_folder`,
//! `add_object` and `add_line`, and their lines by `object_members` and `file_members`.
//!
//! What a folder of the system has of the bytes that it was given no clause says.
#![tactic(auto)]

mod begun;
mod checking;
mod exporting;
mod faults;
mod folders;
pub mod laws;
mod manifest;
mod versions;

pub use begun::beginnings;
pub use checking::{CheckReport, Checked, Progress, Silent, check_all};
pub use exporting::{add_line, add_named, add_object, begin_folder, export};
pub use faults::{ExportError, ExportedFile};
pub use folders::{Folder, SystemFolder};
pub use manifest::{MANIFEST, file_members, file_name, object_members};

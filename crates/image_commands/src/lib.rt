//! The commands over images that serve no sessions: `new`, `verify` and `at`; and how every command
//! reads an image and writes one.
//!
//! The layer above may rely on this: `read_image` gives the image that a file's bytes encode,
//! `read_whole` the bytes of what may be an image that is asked for, and `read_bytes` all bytes,
//! whatever they are. `verify_file` writes its line, `write_object` the bytes of an object at a
//! moment in the drive that begins with it, and `make_file` leaves the image of a new drive in a
//! file that had no bytes; what was written has been passed on where they succeed.
//! `remove_leftovers` removes nothing that `verify` takes. `spent_leftovers` gives each file that
//! services left, of which none has an image with a later clock, and refuses where one has;
//! `refuse_whole` where any is whole. That is proved over any `Files` that say what files hold. The
//! system's files say nothing of it, since no clause of the standard library does: that they read
//! and write as the trait says is tested through the program, and so is the line that a `Fault`
//! prints.
#![tactic(auto)]

mod beside;
mod faults;
mod files;
mod host_files;
mod leftovers;
mod obstacles;
mod paths;
mod reading_past;
mod saving;
mod streams;
mod verifying;

pub use beside::{MOST_BESIDE, part_path, whole_path};
pub use faults::{Fault, reading, writing};
pub use files::{Files, NotReplaced, Placed};
pub use host_files::{ImageClaim, LeftFile};
pub use leftovers::{LeftFault, refuse_whole, remove_leftovers, spent_leftovers};
pub use obstacles::Obstacle;
pub use paths::{folder_of, is_file_of};
pub use reading_past::{write_object, write_version};
pub use saving::{Place, claim_empty, longest_image, make_file, put_image};
pub use streams::hold_standard_streams;
pub use verifying::{
    Asked, number_line, read_bytes, read_image, read_whole, verify_file, write_out,
};

//! `copy`: another image of the same versions, in other frames or without some objects.
//!
//! The layer above may rely on this: where `copy_image` succeeds, the new file has the copy of the
//! old one's image that the line asks for, it had no bytes before, each object that is named has a
//! row in the old image, and the output has the numbers of the copy, each after its name, or as one
//! object of JSON. Among these is how many versions could be read of the objects that are left out,
//! as `check` counts them. Where it fails all files are as they were, and a `CopyFailure` says why:
//! each reason holds where it is given. The old image is only read, so it may be served meanwhile:
//! the copy is of what it had when it was read.
#![tactic(auto)]

mod asking;
mod copying;
mod counting;
mod faults;
mod reports;

pub use copying::copy_image;
pub use faults::CopyFailure;
pub use reports::Report;

//! Trials to restore objects of the drive in an image by an order, of which nothing is kept.
//!
//! The layer above may rely on this: `survey_image` opens the drive, makes room as the order says,
//! and tries one object after the other, also after one that can't be restored. What it lists as
//! lacking is so: its moment is hidden, or it was refused once room was made and the objects before
//! it were tried, and where that was for its journal one of its changes would have made it too
//! long. Where it lists nothing, all that the order chooses was restored in the trial.
#![tactic(auto)]

mod surveys;
mod trying;

pub use surveys::survey_image;

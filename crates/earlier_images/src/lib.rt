//! Images of earlier versions: bytes are read and judged as `verifier` does those of the present
//! one.
//!
//! The layers above may rely on this: `read_earlier` answers what an image has exactly where the
//! bytes encode one, lack of memory aside, and else the cause of the first test that fails, in the
//! order of `verifier::verify`. No drive is opened from such an image, so nothing of it is kept in
//! a table, named or held: its used blocks are seen straight in its bytes, by its frames'
//! summaries. `read_present` reads an image of the present version in the same form, for whoever
//! copies it.
#![tactic(auto)]

mod frames;
mod images;
pub mod laws;
mod present;
mod reading;
mod rows;

pub use frames::EarlierFrames;
pub use images::EarlierImage;
pub use present::read_present;
pub use reading::read_earlier;

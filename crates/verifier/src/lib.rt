//! Images of drives: bytes are verified, a drive is opened from them, and a drive is saved as them.
//!
//! The layers above may rely on this: `verify` answers an image exactly where the bytes encode one,
//! lack of memory aside, and else the cause of the first test that fails, each of which looks at
//! the whole image before the next one does. `open` gives a drive whose frames, rows, spans,
//! numbers and audit rows are the image's, and whose history begins with what they represent.
//! `save` gives bytes that encode an image with the numbers, frames, rows and audit of the drive,
//! which stays as it is, and with spans that hide from its floor on what its own do. `save_front`
//! gives the same but for the digest, as it is once the drive has seen a moment, which it doesn't.
#![tactic(auto)]

mod audit;
mod blocks;
mod images;
pub mod laws;
mod moments;
mod objects;
mod opening;
pub mod opening_laws;
mod round_trips;
mod rows;
mod saved_frames;
mod saved_rows;
mod saving;
pub mod seen_laws;
mod seen_parts;
mod tables;
mod verifying;

pub use blocks::TableBlocks;
pub use images::Image;
pub use moments::{are_apart, push_moments};
pub use opening::open;
pub use round_trips::round_trip;
pub use rows::row_of;
pub use saved_frames::push_frames;
pub use saved_rows::{part_of, push_rows, push_spans};
pub use saving::{save, save_front};
pub use verifying::{spans_of, verify};

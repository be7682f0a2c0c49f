//! Salvage: what a damaged image still has of its objects.
//!
//! Each frame of an image that isn't free has a summary with a digest of its own. The layers above
//! may rely on this: no block is used but of frames whose own digest holds in the bytes that were
//! given; and of each row the present inode of its object is given exactly where its chain, from
//! the head on, and its checkpoint are over those blocks. Neither the image's digest nor its clock
//! is asked. Of a present version the bytes are given that those frames have, with zeros for the
//! blocks that are gone, and how many these are.
//!
//! In an image with a fault frames are found wherever they begin, whatever header, words and length
//! say. Rows are those of the image where its header is one and the parts fill the bytes, and else
//! all that are found outside of frames and give their object; one that names an older block of its
//! object than there is counts as missing. An object that none of the others gives is found by its
//! newest journal block and its newest checkpoint, as it was after its last change that is whole: a
//! change that may go on in a lost frame is left out.
//!
//! `give_out` writes these into an empty folder, one file for each object that is there, and a
//! manifest of them and of what is lost. It says that nothing is lost only where `verify` finds no
//! fault and each live object was written whole (`laws::what_is_whole_is_all`). Rows of the audit
//! are no part of a salvage.
#![tactic(auto)]

mod contents;
mod counts;
mod frames;
mod giving;
mod heads;
pub mod laws;
mod left_out;
mod manifest;
mod newest;
mod outdated;
mod row_search;
mod rows;
mod salvaging;
mod searching;
mod unlisted;

pub use counts::given_json;
pub use giving::{GivenOut, give_out};
pub use rows::Salvaged;
pub use salvaging::{SalvagedImage, salvage};
pub use unlisted::Unlisted;

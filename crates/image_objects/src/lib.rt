//! The objects of an image: whether each keeps the rules, with its journal, its pointers and its
//! inodes, and which blocks they name.
//!
//! An image is seen through its used blocks: what each pointer names in it. The layers above may
//! rely on this: a row's chain, and its whole version chain, is read exactly where it keeps the
//! rules, with all entries, the two counts of bytes that a drive's row keeps, the first inode and
//! the present one. A block of one kind and object, a journal block and a checkpoint are read
//! alike. The places that a row names are listed; and where all rows keep the rules and just what
//! they name is held, the rows make a store of a drive, in which each object has at each moment the
//! inode that it has in the image. The other way round, the rows of a store, saved as an image's,
//! keep the rules where what the store holds is used. What the bytes of an image are is read below.
//!
//! `version_chain_laws` says that a version chain that keeps the rules is a row of a drive, in
//! order up to the clock, where of the object's journal blocks and checkpoints those alone are held
//! that it names. `writing_laws` says that an object of an image, of whichever version, can be
//! written into a drive, and `old_checkpoint_laws` that a checkpoint of an image of the first version
//! is what its one block encodes.
#![tactic(auto)]

mod chains;
mod checkpoint_blocks;
mod groups;
mod inodes;
pub mod laws;
mod links;
mod naming;
mod objects;
pub mod old_checkpoint_laws;
mod order;
mod pointers;
mod reading;
mod rows;
pub mod saving_laws;
mod tidiness;
mod used_blocks;
pub mod version_chain_laws;
mod version_chains;
mod walk;
pub mod writing_laws;

pub use chains::{ChainRead, ImageChain, read_chain, read_chain_by};
pub use checkpoint_blocks::read_checkpoint;
pub use inodes::redo_by;
pub use naming::push_named;
pub use objects::{read_object, read_object_by};
pub use reading::{read_journal, read_journal_by};
pub use rows::ImageRow;
pub use used_blocks::{UsedBlock, UsedBlocks, bytes_at};
pub use version_chains::{VersionChain, VersionsRead, read_version_chain, read_version_chain_by};

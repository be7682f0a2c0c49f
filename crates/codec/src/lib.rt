//! The records of the log as values, and their bytes: pointers, inodes, the blocks of checkpoints,
//! journal entries and blocks, and the summaries of frames.
//!
//! The layers above may rely on this: each record has one encoding, a function of its fields in
//! `specs/`. An encoder gives that encoding, and a decoder answers the record whose encoding is in
//! its input, and None only where no record's encoding does. A type of a record can't hold what its
//! record can't encode, and no call here takes memory. Whether a pointer's frame is one that a
//! drive has, and what the entries of a chain say together, as those of one moment, is told
//! elsewhere.
#![tactic(auto)]

mod attributes;
mod checkpoints;
mod entries;
mod entry_reader;
mod entry_reading;
mod entry_writing;
mod fields;
mod first_blocks;
mod frame_digests;
mod inodes;
mod journal_bytes;
pub mod journal_laws;
mod journal_reading;
mod journal_writing;
mod journals;
pub mod laws;
pub mod part_laws;
mod parts;
mod pointer_blocks;
mod pointers;
mod small_checkpoints;
mod summaries;
mod summary_kinds;
mod summary_reading;
mod summary_writing;
pub mod versions;
mod writing;

pub use attributes::Attribute;
pub use checkpoints::Checkpoint;
pub use entries::{Entry, Pair, PointerIndex, Status, Triple, Triples};
pub use entry_reader::EntryReader;
pub use entry_writing::{decode_entry, decode_entry_by, encode_entry};
pub use first_blocks::{FirstBlock, decode_first_block, encode_first_block};
pub use inodes::Inode;
pub use journal_bytes::JournalBytes;
pub use journal_reading::{decode_journal, decode_journal_by, decode_journal_of};
pub use journal_writing::{encode_entries, encode_journal};
pub use journals::{Entries, JournalBlock};
pub use parts::{PartPointers, are_holes, part_of};
pub use pointer_blocks::{PointerBlock, decode_pointer_block, encode_pointer_block};
pub use pointers::{decode_ptr, encode_ptr};
pub use small_checkpoints::decode_small_checkpoint;
pub use summaries::{BlockRole, BlockRoles, Summary};
pub use summary_kinds::has_no_parts;
pub use summary_reading::decode_summary;
pub use summary_writing::encode_summary;
pub use versions::ImageVersion;
pub use writing::Writing;

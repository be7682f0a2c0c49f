//! The versions of images, as a value: what differs in how records are encoded, and in how much
//! there may be.
//!
//! No image of the first version is written any more. What its limits have in common with those of
//! the present one is in `s4_types::limits`.
ghost use Rattle.std.specs.Prelude.{◌≡◌, ◌≤◌, ◌*◌};
ghost use Rattle.s4_types.specs.declared.limits.TheConstants.{TRIPLE_BYTES};
ghost use Rattle.s4_types.specs.declared.limits.TheConstants.{CHANGE_ENTRIES, CHAIN_BLOCKS};
ghost use Rattle.s4_types.specs.declared.limits.TheConstants.{CHAIN_ENTRY_BYTES, FEWEST_FRAMES};
ghost use Rattle.codec.specs.Versions.{triple_bytes_by, change_entries_by, chain_entry_bytes_by};
ghost use Rattle.codec.specs.Versions.{chain_blocks_by, fewest_frames_by};

use s4_types::limits::{
    BLOCK_BYTES, CHAIN_BLOCKS, CHAIN_ENTRY_BYTES, CHANGE_ENTRIES, CHECKPOINT_POINTERS,
    ENTRY_TRIPLES, FEWEST_FRAMES, JOURNAL_ENTRY_BYTES, POINTER_BYTES, TRIPLE_BYTES,
};

/// Blocks of the largest object of the first version, and its pointers: as many as one block of a
/// checkpoint has.
pub const FIRST_OBJECT_BLOCKS: usize = CHECKPOINT_POINTERS;

/// Bytes of the largest object of the first version.
pub const FIRST_OBJECT_BYTES: u64 = (FIRST_OBJECT_BLOCKS * BLOCK_BYTES) as u64;

/// Bytes of a pointer change in a journal entry of the first version: an index of one byte, and the
/// pointers before and after.
pub const FIRST_TRIPLE_BYTES: usize = 1 + 2 * POINTER_BYTES;

/// Entries of one change of the first version at most.
pub const FIRST_CHANGE_ENTRIES: usize = FIRST_OBJECT_BLOCKS / ENTRY_TRIPLES;

/// Bytes of all entries of a chain of the first version: as many as 24 full journal blocks hold.
pub const FIRST_CHAIN_ENTRY_BYTES: usize = 24 * JOURNAL_ENTRY_BYTES;

/// Journal blocks of a chain of the first version, by the same count as `CHAIN_BLOCKS`.
pub const FIRST_CHAIN_BLOCKS: usize = 2 * (FIRST_CHAIN_ENTRY_BYTES / JOURNAL_ENTRY_BYTES) - 1;

/// Frames of the smallest drive of the first version.
pub const FIRST_FEWEST_FRAMES: usize = 8;

/// The version of an image, by which its records are read.
#[derive(Clone, Copy, Debug, PartialEq, Eq)]
pub enum ImageVersion {
    /// Objects of up to `FIRST_OBJECT_BLOCKS`, whose checkpoints are one block each.
    First,
    /// What is written now.
    Second,
}

impl ImageVersion {
    /// Bytes of this many pointer changes in a journal entry.
    pub(crate) fn bytes_of_triples(self, count: u8) -> usize
        ensures exact { result ≡ triple_bytes_by self * count }
        ensures most { result ≤ TRIPLE_BYTES * count }
    {
        let count = count as usize;
        match self {
            ImageVersion::First => FIRST_TRIPLE_BYTES * count,
            ImageVersion::Second => TRIPLE_BYTES * count,
        }
    }

    /// Entries of one change at most.
    pub fn change_entries(self) -> usize
        ensures exact { result ≡ change_entries_by self }
        ensures most { result ≤ CHANGE_ENTRIES }
    {
        match self {
            ImageVersion::First => FIRST_CHANGE_ENTRIES,
            ImageVersion::Second => CHANGE_ENTRIES,
        }
    }

    /// Bytes of all entries of a chain at most.
    pub fn chain_entry_bytes(self) -> usize
        ensures exact { result ≡ chain_entry_bytes_by self }
        ensures most { result ≤ CHAIN_ENTRY_BYTES }
    {
        match self {
            ImageVersion::First => FIRST_CHAIN_ENTRY_BYTES,
            ImageVersion::Second => CHAIN_ENTRY_BYTES,
        }
    }

    /// Journal blocks of a chain at most.
    pub fn chain_blocks(self) -> usize
        ensures exact { result ≡ chain_blocks_by self }
        ensures most { result ≤ CHAIN_BLOCKS }
    {
        match self {
            ImageVersion::First => FIRST_CHAIN_BLOCKS,
            ImageVersion::Second => CHAIN_BLOCKS,
        }
    }

    /// Frames of the smallest drive.
    pub fn fewest_frames(self) -> usize
        ensures exact { result ≡ fewest_frames_by self }
        ensures most { result ≤ FEWEST_FRAMES }
    {
        match self {
            ImageVersion::First => FIRST_FEWEST_FRAMES,
            ImageVersion::Second => FEWEST_FRAMES,
        }
    }
}

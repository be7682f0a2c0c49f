//! Where the words of a frame are in the table.

/// Words of a frame: its state word, and 64 for each of its 16 blocks.
pub const FRAME_WORDS: usize = 1025;

/// Words of a block.
pub const BLOCK_WORDS: usize = 64;

/// Bytes of a word.
pub const WORD_BYTES: usize = 8;

/// One reader in a state word.
pub const ONE_READER: u64 = 4;

/// Bits of a state word below its generation: two of the phase, and thirty that count readers.
pub const GENERATION_SHIFT: u32 = 32;

/// The phase of a free frame, as the two low bits of a state word tell it.
pub const FREE: u64 = 0;

/// The phase of an open frame, as the two low bits of a state word tell it.
pub const OPEN: u64 = 1;

/// The phase of a sealed frame, as the two low bits of a state word tell it.
pub const SEALED: u64 = 2;

/// The phase of a frame that is being emptied, as the two low bits of a state word tell it.
pub const EMPTIED: u64 = 3;

/// The state word of a free frame at generation 1.
pub const FIRST_STATE: u64 = 1 << GENERATION_SHIFT;

/// The word of a perch on which no seat rests.
pub const EMPTY: u64 = 0;

/// The word of a perch on which a seat rests.
pub const RESTING: u64 = 2;

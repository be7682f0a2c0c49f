//! Every limit of the drive, in one place, each with where it comes from.

/// Bytes in a block. All records of the log are blocks.
pub const BLOCK_BYTES: usize = 512;

/// Bytes of a pointer's encoding: frame, block, a zero and generation.
pub const POINTER_BYTES: usize = 8;

/// Bytes of a checkpoint's first block in front of its pointers.
pub const CHECKPOINT_HEAD_BYTES: usize = 104;

/// Pointers of an inode in one block of a checkpoint. With the bytes in front of them they leave 24
/// bytes of the first block over.
pub const CHECKPOINT_POINTERS: usize = 48;

/// Pointers of a checkpoint's first block to its other blocks: as many as fit the bytes that are
/// left over.
pub const CHECKPOINT_PARTS: usize = (BLOCK_BYTES
    - CHECKPOINT_HEAD_BYTES
    - CHECKPOINT_POINTERS * POINTER_BYTES)
    / POINTER_BYTES;

/// Blocks of the longest checkpoint: the first, and its parts.
pub const CHECKPOINT_BLOCKS: usize = 1 + CHECKPOINT_PARTS;

/// Blocks of the largest object, and the pointers of each inode: as many as the longest checkpoint
/// holds.
pub const OBJECT_BLOCKS: usize = CHECKPOINT_BLOCKS * CHECKPOINT_POINTERS;

/// Bytes of the largest object, whose blocks are all whole.
pub const OBJECT_BYTES: u64 = (OBJECT_BLOCKS * BLOCK_BYTES) as u64;

/// Bytes of the longest read. Chosen: those of `CHECKPOINT_POINTERS` blocks.
pub const READ_BYTES: u64 = 24_576;

/// Bytes of an audit row's encoding: moment, kind, object, and two numbers.
pub const AUDIT_ROW_BYTES: usize = 33;

/// Rows of the longest answer to an Audit. Chosen, so that they fit a frame of the wire.
pub const AUDIT_ROWS: usize = 512;

/// Bytes of the longest attribute. Chosen, so that two of them fit a journal entry.
pub const ATTRIBUTE_BYTES: usize = 64;

/// Bytes of the longest pair of attributes in a journal entry: each comes after a byte with its
/// length.
pub const ATTRIBUTE_PAIR_BYTES: usize = 2 * (1 + ATTRIBUTE_BYTES);

/// Bytes of a pointer's index in a journal entry.
pub const POINTER_INDEX_BYTES: usize = 2;

/// Bytes of a pointer change in a journal entry: the index, and the pointers before and after.
pub const TRIPLE_BYTES: usize = POINTER_INDEX_BYTES + 2 * POINTER_BYTES;

/// Pointer changes in one journal entry. Chosen, so that the longest entry fits a journal block.
pub const ENTRY_TRIPLES: usize = 16;

/// Bytes of the header of a journal block.
pub const JOURNAL_HEAD_BYTES: usize = 24;

/// Bytes of entries in a journal block: what the header leaves of it.
pub const JOURNAL_ENTRY_BYTES: usize = BLOCK_BYTES - JOURNAL_HEAD_BYTES;

/// Bytes of the shortest entry: its fixed fields.
pub const SHORTEST_ENTRY_BYTES: usize = 34;

/// Bytes of the longest entry that has no attributes.
pub const LONGEST_PLAIN_ENTRY_BYTES: usize = SHORTEST_ENTRY_BYTES + ENTRY_TRIPLES * TRIPLE_BYTES;

/// Bytes of the longest entry.
pub const LONGEST_ENTRY_BYTES: usize = LONGEST_PLAIN_ENTRY_BYTES + ATTRIBUTE_PAIR_BYTES;

/// Entries in a journal block at most: as many of the shortest as it has bytes for.
pub const JOURNAL_ENTRIES: usize = JOURNAL_ENTRY_BYTES / SHORTEST_ENTRY_BYTES;

/// Entries of one change at most: as many as hold the pointers of the largest object.
pub const CHANGE_ENTRIES: usize = OBJECT_BLOCKS / ENTRY_TRIPLES;

/// Bytes of the entries of one change at most: the first alone has attributes.
pub const CHANGE_ENTRY_BYTES: usize = CHANGE_ENTRIES * LONGEST_PLAIN_ENTRY_BYTES
    + ATTRIBUTE_PAIR_BYTES;

/// Bytes of all entries of a chain: as many as 84 full journal blocks hold. Chosen, so that the
/// reserve is of twelve frames.
pub const CHAIN_ENTRY_BYTES: usize = 84 * JOURNAL_ENTRY_BYTES;

/// Entries of a chain at most: as many of the shortest as it has bytes for.
pub const CHAIN_ENTRIES: usize = CHAIN_ENTRY_BYTES / SHORTEST_ENTRY_BYTES;

/// Journal blocks of a chain: of two neighbours the entries have more than `JOURNAL_ENTRY_BYTES`
/// together, so one block more, which makes pairs of all, would have more than `CHAIN_ENTRY_BYTES`.
pub const CHAIN_BLOCKS: usize = 2 * (CHAIN_ENTRY_BYTES / JOURNAL_ENTRY_BYTES) - 1;

/// Older checkpoints that are kept of an object at most, beside its newest one. Chosen.
pub const SIDES: usize = 8;

/// Pointers by which an object's row refers to data, at most: those of each of its checkpoints, and
/// two of each triple of its chain, which has as many bytes at least.
pub const ROW_POINTERS: usize = (1 + SIDES) * OBJECT_BLOCKS + CHAIN_ENTRY_BYTES;

/// Runs of hidden moments in one list of spans. Chosen: a look-up goes through at most two lists.
pub const RUNS_IN_A_LIST: usize = 64;

/// Runs of hidden moments in all lists of spans together. Chosen, as the most that an image has.
pub const RUNS_IN_ALL: usize = 65_536;

/// Blocks of a frame: the summary, and the payload.
pub const FRAME_BLOCKS: usize = 16;

/// Payload blocks of a frame.
pub const PAYLOAD_BLOCKS: usize = FRAME_BLOCKS - 1;

/// Frames whose payload is kept back for cleaner and copier: as few as have room for a rewrite,
/// which takes at most a checkpoint and a chain.
pub const RESERVE_FRAMES: usize = (CHECKPOINT_BLOCKS + CHAIN_BLOCKS + PAYLOAD_BLOCKS - 1)
    / PAYLOAD_BLOCKS;

/// Blocks kept back for cleaner and copier. A move takes up to a frame's data blocks more than a
/// rewrite, and waits until there is room beyond the reserve.
pub const RESERVE_BLOCKS: usize = RESERVE_FRAMES * PAYLOAD_BLOCKS;

/// Blocks that a move takes at most: the data blocks of a frame, a checkpoint and a chain.
pub const MOVE_BLOCKS: usize = PAYLOAD_BLOCKS + CHECKPOINT_BLOCKS + CHAIN_BLOCKS;

/// Frames of the smallest drive: the reserve's, and as many beside them. Chosen.
pub const FEWEST_FRAMES: usize = 2 * RESERVE_FRAMES;

/// Frames of a drive where nobody says how many. Chosen: the smallest.
pub const DEFAULT_FRAMES: usize = FEWEST_FRAMES;

/// Frames of the largest drive, about 8 MiB of blocks. Chosen.
pub const MOST_FRAMES: usize = 1024;

/// Seats of a table, beside the drive's own: for pins in one, for sessions in the other. Chosen.
pub const SEATS: usize = 64;

/// Readers that a frame's word counts at most: 2^20, far below the 2^30 that the word's field
/// holds.
pub const MOST_READERS: u64 = 1_048_576;

/// Tries of one pin before it gives up. Chosen, so that a pin always returns.
pub const PIN_TRIES: usize = 64;

/// Bytes of the longest body of a frame on the wire. Chosen.
pub const FRAME_BODY_BYTES: usize = 32_768;

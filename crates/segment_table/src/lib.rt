//! The segment table: a map from pointers to blocks, in the frames of a drive.
//!
//! The layers above may rely on this: a [`SegmentTable`] is a log as `block_log` tells it. An
//! append takes the lowest unused payload block of the open frame, or else opens the free frame of
//! the lowest number, and no other pair of a pointer and its block changes. A data block has one
//! name then; it is held until a drop takes its last one, and `hold` gives it another. How many
//! places name a block, and how many blocks of a frame are held, are counts that the table keeps. A
//! frame is sealed once its last block is filled, or by `seal_open`: its unused blocks are zeros
//! then, and its block 0 is the summary of what the used ones are for. A pointer has the generation
//! of its frame, so that it never leads to a block of a later life. All memory but that of
//! `count_on` and `held_in` is had in `new` and `from_parts`.
//!
//! A sealed frame of which no block is held can be marked, and then released once it has no reader:
//! it is free again, at its next generation, and both leave every pair. Which frames are marked and
//! when is the layer's above. Nothing is kept back: an append answers NoSpace only where no frame
//! is open and none can be opened: of the free ones, those at the last generation, 2^32 - 1, are
//! retired.
//!
//! A drive is saved frame by frame: `saved_word` gives a frame's state, and `save_blocks` its
//! blocks, those of the open frame as sealing it now would leave them. It is opened from what was
//! saved by way of [`TableBuilder`], which has the frames before they are shared: each free one
//! gets its generation, each other one the blocks that its summary tells of. None of these is held
//! until `hold` says so; `used` tells what a pointer names, held or not. A table made of them has
//! the same log.
//!
//! That the saved bytes make an image, and which pointers an image's rows name, is not told here.
#![tactic(auto)]

mod builder;
pub mod laws;
mod over_frames;
mod saving;
mod seals;
mod segments;
mod slots;
mod table;

pub use builder::{TableBuilder, UsedBlock};
pub use over_frames::OverFrames;
pub use slots::Slot;
pub use table::SegmentTable;

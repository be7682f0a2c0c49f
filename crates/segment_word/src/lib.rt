//! The memory of a drive as words of one table, and pins that keep a frame from being reused while
//! another thread reads it without a lock.
//!
//! A drive has `FEWEST_FRAMES` to `MOST_FRAMES` frames, each with a state word (phase, readers,
//! generation) and 16 blocks of 512 bytes as 64 words each. One seat at the table, `DriveSeat`,
//! opens, fills and seals frames; it knows every frame. Up to `SEATS` are had as a `Pin`, which
//! counts on sealed frames and reads their blocks.
//!
//! The layers above may rely on this: each step is one atomic step on one word, and one rule holds
//! between any two steps of any threads (`specs/FrameRule.antt`). While a `Pin` lives, each frame
//! that it counts on stays sealed or is being emptied, at the same generation and with the same
//! contents, so `read_block` gives the bytes that the drive's seat knew when the frame was pinned;
//! it takes no memory, waits for nobody and always returns. Each call says exactly what it changes
//! of what the drive's seat knows.
//!
//! `FrameWords` are the frames before there is a table: a drive that is opened from a saved image
//! sets the state and the blocks of each, and `Frames::from_words` makes the drive's memory of
//! them.
//!
//! A `Memory` is what a pin counted on, kept after the pin. It keeps nothing from being released;
//! `recall` tells of each of its frames that while the frame is at the generation remembered, the
//! drive's seat still knows the contents remembered.
//!
//! Not said: that a seat is free or comes back, that a pin wins within its `PIN_TRIES`, and which
//! blocks of a frame are in use. At most one frame is open at a time only if the layer above keeps
//! it so.
//!
//! A second table has one word, which counts the accepted changes of the drive ([`accepts`]): one
//! history, which only its drive's seat makes grow, and of which each session knows a beginning and
//! its own changes. History and knowledge are in the proofs alone and take no memory. Not said
//! there: that one of the seats is free or comes back.
#![tactic(auto)]

pub mod accepts;
mod blocks;
mod board;
mod drive;
mod frame_words;
mod layout;
mod lending;
mod memories;
mod pins;
mod plays;
mod pool;
mod rule;
mod steps;

pub use accepts::naming::Naming;
pub use drive::{DriveSeat, FrameToken};
pub use frame_words::{FrameState, FrameWords};
pub use memories::Memory;
pub use pins::Pin;
pub use pool::Frames;

//! The log of a service: what changed in an image since it was kept, record by record, each of
//! them on the disk before it counts.
//!
//! A log is bound to one image by the image's digest. A record has a payload, a number, and a
//! digest that goes on from the one before, so that records are read in their order and none is
//! left out. Records are written over zeros that are on the disk already, so that a write which a
//! crash cuts short leaves each byte zero or its own; a count of the bytes that aren't zero tells
//! such a record from a whole one, whatever bytes are missing.
//!
//! The layers above may rely on this: `put` answers `Ok` once the record is on the disk, and a
//! crash at any moment leaves a log with the payloads from before, with the new one or without.
//! Where memory was refused, or the log is as long as one may be, it goes on as it was; where zeros
//! can't be written ahead of it, a crash leaves the payloads from before.
//! `accept` reads a file: it gives the payloads of a log, cuts a record that was torn at its end,
//! and refuses every other file. A record that misses bytes and isn't the last is damage, as is one
//! of which a byte was changed otherwise. After `accept`, `clear` puts zeros over torn bytes.
//!
//! Supposed of the disk: a torn write leaves each byte old or new (`Disk::mixes`), and another disk
//! is refused. Bytes of the very last record that were lost later look like a record that was torn.
//! Nothing is said of what a payload means, nor of a file's name.
#![tactic(auto)]

mod accepting;
mod headers;
mod laws;
mod numbers;
mod places;
mod putting;
mod records;
mod recovering;
mod refusals;
mod sectors;
mod tails;

pub use accepting::{Accepted, accept, tail};
pub use laws::a_file_is_one_log;
pub use places::Place;
pub use putting::{AHEAD_BYTES, LARGEST_LOG, put};
pub use records::LARGEST_PAYLOAD;
pub use recovering::{clear, create};
pub use refusals::{NotPut, Refusal};

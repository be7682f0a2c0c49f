//! Files of logs, over calls of the system of which a record is kept.
//!
//! The layer above may rely on this: `LogFile` is a disk, so what is proved of a log over any disk
//! holds of it. What it says that a crash leaves is what the record of its calls, and of their
//! answers, makes of the file since it was made: its bytes at the last sync, and of each write since
//! then, also of one that failed, any of its bytes. After a write that failed it isn't synced any
//! more, since it isn't known what it has; after a sync that failed nothing more is asked of it.
//! `make` makes one call and no other.
//!
//! A disk's clauses have no place for what happens to other files. So those of `write_all`, `cut_at`
//! and `sync_now` say that only this file's calls are made; that the disk uses nothing else has to be
//! read.
//!
//! Supposed of the disk: a write that a crash cuts short leaves each byte below the old end of the
//! file old or new, and no byte outside of it changes. Nobody else writes the file. What a write that
//! failed was to write is noted beside the record: that it is noted as it was has to be read.
#![tactic(auto)]

mod counting;
mod log_file;
mod taking;
#[cfg(test)]
mod tests;
mod unwritten;

pub use log_file::LogFile;
pub use unwritten::Unwritten;

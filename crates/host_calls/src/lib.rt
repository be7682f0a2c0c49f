//! Calls of the system that change files, of which a record is kept, and what they leave.
//!
//! The layer above may rely on this: each method of `Calls` that changes a file or a name notes
//! what it asked and what was answered, and nothing else. `replay` says what the names have after
//! these calls, and what a crash may leave of them, from what was there before the first of them:
//! a file's bytes last once it was synced with no write since, and a name once its folder was; until
//! then a crash may leave what had the name before, or of a file any bytes. Where a call is made on
//! a file that isn't followed, nothing is known any more. So all of that holds of a system that
//! does what it answers, and while nobody else changes these files.
//!
//! That each method of `HostCalls` makes the call that it notes is what no clause says: it has to be
//! read, and the transcript `service_seen` sees those of a flush by `strace`. A folder whose names its
//! file system doesn't sync is taken for one whose names last.
#![tactic(auto)]

mod calls;
mod host;
mod record;
mod steps;
#[cfg(test)]
mod tests;

pub use calls::Calls;
pub use host::{HostCalls, HostFile, HostFolder};
pub use record::Record;
pub use steps::{
    fill_file, give_file, link_file, lock_file, make_file, remove_file, rename_file, set_file_mode,
    sync_file, sync_names, write_zeros,
};

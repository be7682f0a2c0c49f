//! The drive: objects that keep every version, and sessions that share one history.
//!
//! The layers above may rely on this: a [`Drive`] has one history, and a request is exactly the
//! step that the model makes on it, the reply and the next history. At every moment that can be
//! read each object's blocks represent the version that the history tells. A change that no check
//! refuses is refused for a full chain or lack of room exactly where its own blocks say so, and
//! what is refused leaves objects, window and spans. After each call a session has seen all
//! accepted changes, and only an accepted one of its own adds to its numbers.
//!
//! A drive is new, or it is opened over objects that are there already: then its history begins
//! with a base that is what they represent, each version from the moment at which it came.
//!
//! Frames are marked and released, an object's row removed and its journal replaced, where every
//! version that can be read stays; and it stays whatever they answer.
//!
//! A Read can be had as a plan, which is fetched without the drive; one that is asked as a request
//! is read at once, without a plan.
//!
//! A read costs the blocks of its own bytes, and a change those, its journal's and the sealing of
//! the frames that it fills, whatever else the drive has. A read of a moment before the drive's
//! last change, of whatever object, undoes the later changes of its own object besides, by an index
//! in memory. Where memory for the index was refused, the journal is read: the way begins at the
//! nearest checkpoint, or where there is no memory for that either at the present. Nothing here
//! waits or knows of threads: whoever shares a drive holds it under a lock.
#![tactic(auto)]

mod acceptance;
mod changes;
mod checks;
mod drive;
mod flushes;
mod frames;
mod holdings;
mod judgements;
pub mod laws;
mod new_drive;
mod opened_drive;
mod plans;
mod reads;
mod relocations;
mod replacements;
mod requests;
mod session;
mod upkeep;

pub use drive::Drive;
pub use new_drive::NewDrive;
pub use opened_drive::OpenedDrive;
pub use session::Session;

//! Images that are kept in files.
//!
//! The layer above may rely on this: `FileFolder` is the folder that a keeper of whole images asks
//! for. What it says that a crash leaves is what `host_calls` makes of the calls that it made, and of
//! their answers: the file beside the image was filled and synced, is locked, and has the image's
//! name; and its folder was synced after that. It holds the claim of the file that has the image's
//! name, from before the name is that file's until the next one has it, so no other program claims
//! the image in between. Want of memory or room leaves the file that was there, and the file beside
//! it is removed at the next try. It knows what was in the way of the last call that failed, and
//! which file has all of an image that couldn't take the place of the one before. What services left
//! beside the image it removes once an image is kept, and not before. That the image's path still
//! leads to what was claimed is read before each rename, and no clause says so.
#![tactic(auto)]

mod folder;
mod making;
mod obstacles;
mod placing;

pub use folder::FileFolder;
pub use obstacles::{KeepCause, KeepObstacle, WholeIn};

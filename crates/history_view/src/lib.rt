//! What a drive has of the past, for whoever looks at it: which objects there were at a moment,
//! what was changed and when, and which moments can be read.
//!
//! The layers above may rely on this: nothing here changes a drive or its clock. `next_listed` goes
//! by ascending number over exactly the objects that are live at a moment, by the drive's history,
//! and over those that were deleted where they are asked for; `all_objects` has both kinds.
//! `changes_between` has one change for each entry of an object's journal between two moments that
//! can be read, in order, and `change_of` says what an entry tells: all blocks that differ are
//! among those. `log_rows` has exactly these of all objects that are asked for, and the runs of
//! hidden moments between them, each once, in order of time or object by object, and `log_stats`
//! what they come to. `named_object` is the one object that has an attribute. `earliest` is the
//! first moment of an object that can be read, and `first_seen` the first from a moment on.
#![tactic(auto)]

mod changes;
mod filters;
pub mod laws;
mod listing;
mod logs;
mod moments;
mod names;
mod rows;
mod stats;
mod versions;

pub use changes::{Blocks, Kind, ObjectChange, change_of, changes_between};
pub use listing::{Listed, listed_of, look_at, next_listed};
pub use logs::{LogQuery, all_objects, cuts, log_rows};
pub use moments::{earliest, first_seen, is_visible};
pub use names::{NameRefusal, named_object};
pub use rows::{LogOrder, LogRow};
pub use stats::{KindCounts, ObjectStat, log_stats};
pub use versions::{attribute_of, content_of, moment_refusal, version_at};

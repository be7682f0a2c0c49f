//! The words that every crate of the drive shares: moments and object numbers, requests, replies
//! and refusals, changes and versions, pointers, and the limits.
//!
//! The layers above may rely on this: contracts see a moment or an object as its number, bytes as a
//! list of numbers and a pointer as a record of three numbers, so that values of these types are
//! equal where they read the same. `specs/History.antt` has the history that a drive represents.
//! What the requests mean is in `s4_model`.
#![tactic(auto)]

mod audit_rows;
mod byte_list;
mod changes;
pub mod limits;
mod moments;
mod pointers;
mod refusals;
mod replies;
mod requests;
mod spans;
mod versions;

pub use audit_rows::{AuditKind, AuditRow, AuditRows};
pub use byte_list::Bytes;
pub use changes::{Accepted, Change};
pub use moments::{Moment, ObjectId};
pub use pointers::Ptr;
pub use refusals::{Cause, Refusal};
pub use replies::Reply;
pub use requests::{AdminRequest, ObjectRequest, Question, Request, Role};
pub use spans::Span;
pub use versions::Version;

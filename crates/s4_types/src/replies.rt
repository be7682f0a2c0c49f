use crate::audit_rows::AuditRows;
use crate::byte_list::Bytes;
use crate::moments::{Moment, ObjectId};
use crate::refusals::Refusal;

/// What the drive answers to a request.
#[derive(Drop, PartialEq, Eq)]
pub enum Reply {
    /// The request was refused.
    Refused(Refusal),
    /// A change was accepted, stamped with this moment.
    Changed(Moment),
    /// A Create was accepted: the object's number, and the moment of the change.
    Created(ObjectId, Moment),
    /// The bytes that were read.
    Data(Bytes),
    /// An object's size in bytes, the moments at which it was made and last changed, and its
    /// attribute.
    Attr {
        size: u32,
        created: Moment,
        changed: Moment,
        attribute: Bytes,
    },
    /// Accepted changes, in order of time.
    AuditRows(AuditRows),
}

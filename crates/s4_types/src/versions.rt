use crate::byte_list::Bytes;
use crate::moments::Moment;

/// What an object is at a moment.
#[derive(Drop, PartialEq, Eq)]
pub enum Version {
    /// It isn't there.
    Absent,
    /// It has bytes and an attribute, and the moments at which it was made and last changed.
    Live {
        bytes: Bytes,
        attribute: Bytes,
        created: Moment,
        changed: Moment,
    },
}

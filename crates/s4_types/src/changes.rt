use crate::byte_list::Bytes;
use crate::moments::{Moment, ObjectId};

/// A change of the drive, as it is in a history. An accepted Append is the write that it came to.
#[derive(Drop, PartialEq, Eq)]
pub enum Change {
    /// The object becomes live and empty, with this attribute.
    Create {
        object: ObjectId,
        attribute: Bytes,
    },
    /// The object becomes absent.
    Delete {
        object: ObjectId,
    },
    /// Bytes placed at an offset, in bytes.
    Write {
        object: ObjectId,
        offset: u64,
        bytes: Bytes,
    },
    /// Cut or lengthened to a size, in bytes.
    Truncate {
        object: ObjectId,
        size: u64,
    },
    /// The attribute replaced.
    SetAttr {
        object: ObjectId,
        attribute: Bytes,
    },
    /// The detection window, in moments.
    SetWindow {
        window: u64,
    },
    /// The moments from `first` to `last` hidden, of all objects.
    Flush {
        first: Moment,
        last: Moment,
    },
    /// The moments from `first` to `last` hidden, of one object.
    FlushO {
        object: ObjectId,
        first: Moment,
        last: Moment,
    },
}

/// An accepted change: its number, counted from 1, the moment that it was stamped with, and the
/// change.
#[derive(Drop, PartialEq, Eq)]
pub struct Accepted {
    pub number: u64,
    pub moment: Moment,
    pub change: Change,
}

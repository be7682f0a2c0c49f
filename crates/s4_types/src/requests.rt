use crate::byte_list::Bytes;
use crate::moments::{Moment, ObjectId};

/// What a session may do, set by whoever opens it.
#[derive(Clone, Copy, PartialEq, Eq)]
pub enum Role {
    /// Reads and changes objects.
    Client,
    /// Also sets the window and hides spans of moments.
    Admin,
}

/// What a session asks of the drive. Sizes, offsets and lengths are in bytes.
#[derive(Drop, PartialEq, Eq)]
pub enum Request {
    /// Looks at an object or at what was changed, and changes nothing.
    Query(Question),
    /// Makes a version of an object.
    Update(ObjectRequest),
    /// Sets the window or hides moments: for administrators alone.
    Control(AdminRequest),
}

/// A look at an object, or at what was changed.
#[derive(Clone, Copy, PartialEq, Eq)]
pub enum Question {
    /// At most `length` bytes from `offset` on, at a moment or, without one, at the present clock.
    Read {
        object: ObjectId,
        offset: u64,
        length: u32,
        at: Option<Moment>,
    },
    /// Size, moments and attribute, at a moment or, without one, at the present clock.
    GetAttr {
        object: ObjectId,
        at: Option<Moment>,
    },
    /// The first `max` accepted changes of those from a moment on, of all that are still at or
    /// above the floor: for administrators alone.
    Audit {
        from: Moment,
        max: u16,
    },
}

/// A change of one object.
#[derive(Drop, PartialEq, Eq)]
pub enum ObjectRequest {
    /// Makes the next object, empty, with this attribute.
    Create {
        attribute: Bytes,
    },
    /// Makes the object absent from now on.
    Delete {
        object: ObjectId,
    },
    /// Places bytes at `offset`, with zeros between the old end and the offset.
    Write {
        object: ObjectId,
        offset: u64,
        bytes: Bytes,
    },
    /// A write at the present size.
    Append {
        object: ObjectId,
        bytes: Bytes,
    },
    /// Cuts the object to `size`, or lengthens it by zeros.
    Truncate {
        object: ObjectId,
        size: u64,
    },
    /// Replaces the attribute.
    SetAttr {
        object: ObjectId,
        attribute: Bytes,
    },
}

/// A change of how far back moments can be read, and of which.
#[derive(Clone, Copy, PartialEq, Eq)]
pub enum AdminRequest {
    /// Sets how many moments back from the clock are kept.
    SetWindow {
        window: u64,
    },
    /// Hides the moments from `first` to `last` of all objects.
    Flush {
        first: Moment,
        last: Moment,
    },
    /// Hides the moments from `first` to `last` of one object.
    FlushO {
        object: ObjectId,
        first: Moment,
        last: Moment,
    },
}

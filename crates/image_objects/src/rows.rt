use s4_types::{Moment, ObjectId, Ptr};

/// What an image tells of an object's row.
#[derive(Clone, Copy)]
pub struct ImageRow {
    pub object: ObjectId,
    /// The moment of the object's creation.
    pub created: Moment,
    /// The block of an inode of the object, if one was written.
    pub checkpoint: Option<Ptr>,
    /// The moment of that inode, and 0 where there is none.
    pub checkpoint_moment: Moment,
    /// The newest block of the object's journal, if there is one.
    pub head: Option<Ptr>,
}

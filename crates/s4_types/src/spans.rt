use crate::moments::{Moment, ObjectId};

/// A span of hidden moments, both ends in it: of one object, or of all objects under the object
/// number 0.
#[derive(Clone, Copy, PartialEq, Eq)]
pub struct Span {
    pub object: ObjectId,
    pub first: Moment,
    pub last: Moment,
}

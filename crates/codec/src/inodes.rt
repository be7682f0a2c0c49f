use crate::attributes::Attribute;
use s4_types::limits::OBJECT_BLOCKS;
use s4_types::{Moment, Ptr};

/// What an object is at a moment, but for its bytes: pointer `i` leads to the bytes from `512 * i`
/// on, and where there is none these are zeros.
#[derive(Clone, Copy, PartialEq, Eq)]
pub struct Inode {
    pub alive: bool,
    /// In bytes.
    pub size: u32,
    pub created: Moment,
    pub changed: Moment,
    pub attribute: Attribute,
    pub pointers: [Option<Ptr>; OBJECT_BLOCKS],
}

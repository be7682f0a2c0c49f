//! Room in a journal.

use s4_types::ObjectId;

/// How many of its newest versions but the present one are hidden of an object whose journal is
/// full. With none its journal is cleaned alone.
#[derive(Clone, Copy)]
pub struct Room {
    pub object: ObjectId,
    pub count: usize,
}

//! What the copier chooses.
use s4_types::ObjectId;

/// A move that the copier makes next: which object leaves which frame.
#[derive(Clone, Copy)]
pub struct Candidate {
    pub frame: u16,
    pub object: ObjectId,
}

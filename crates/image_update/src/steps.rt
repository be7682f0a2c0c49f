//! A step from one front to the next, and how many there may be.

/// The most bytes that the encoding of a difference has.
pub const LARGEST_DIFFERENCE: usize = 1 << 24;

/// Bytes of the number of steps, in front of them.
pub(crate) const COUNT_BYTES: usize = 8;

/// Bytes of a step.
pub(crate) const STEP_BYTES: usize = 24;

/// Keeps bytes of the old front, skips those after them, and puts others in their place: how many
/// of each.
#[derive(Clone, Copy)]
pub struct Step {
    pub keep: u64,
    pub skip: u64,
    pub put: u64,
}

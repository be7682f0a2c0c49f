//! Where a log goes on.

/// The end of a log's records: which number the next one has, the digest that it goes on from, its
/// offset, and how far the log goes.
#[derive(Clone, Copy)]
pub struct Place {
    pub(crate) number: u64,
    pub(crate) digest: [u8; 32],
    pub(crate) at: usize,
    pub(crate) limit: usize,
}

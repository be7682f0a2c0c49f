//! Ranges of an object's blocks, by their index.
ghost use Rattle.std.specs.Prelude.{◌/◌, ◌+◌, ◌<◌, ◌≤◌, ℕ};
ghost use Rattle.s4_types.specs.declared.limits.TheConstants.{OBJECT_BYTES};
ghost use Rattle.time_read.specs.Within.{IsIn};

use s4_types::limits::BLOCK_BYTES;

/// The blocks of an object from a first one up to an end, which may be after its last one.
#[derive(Clone, Copy)]
pub struct BlockRange {
    pub first: usize,
    pub end: usize,
}

impl BlockRange {
    /// The range of no block.
    pub fn none() -> Self
        ensures { (k : ℕ) → IsIn result k → ⊥ }
    {
        BlockRange { first: 0, end: 0 }
    }

    /// The blocks of an object that have one of this many bytes from an offset on.
    pub fn of_bytes(offset: u64, count: u64) -> Self
        ensures { (n : ℕ) → offset ≤ n → n < offset + count → n < OBJECT_BYTES
            → IsIn result (n / 512) }
    {
        let block = BLOCK_BYTES as u64;
        let last = offset.saturating_add(count.saturating_sub(1));
        BlockRange {
            first: (offset / block) as usize,
            end: (last / block) as usize + 1,
        }
    }
}

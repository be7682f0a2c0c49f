//! Where two lists of bytes differ.
ghost use Rattle.std.specs.Prelude.{◌≡◌, ◌≢◌, ℕ, ◌+◌, ◌<◌, ◌≤◌, max, length, slice_get, MatchBool};
ghost use Rattle.std.specs.Prelude.{IfOk, IfSome, IfNone};
ghost use Rattle.history_diff.specs.Ranges.{DiffersAt, IsAlikeAt, AreRangesOf};
ghost use Rattle.history_diff.specs.private.Finding.{same_byte, IsFirstDiffering, IsRunEnd};
ghost use Rattle.history_diff.specs.private.Finding.{IsNextRange};

use std::alloc::{AllocError, Global};

/// Positions that differ, one after the other: the first and the last of them.
#[derive(Clone, Copy)]
pub struct ByteRange {
    pub first: usize,
    pub last: usize,
}

fn byte_at(bytes: &[u8], position: usize) -> Option<u8>
    ensures { result ≡ slice_get bytes.now position }
{
    bytes.get(position).copied()
}

fn is_same_byte(one: Option<u8>, other: Option<u8>) -> bool
    ensures { result ≡ same_byte one other }
{
    match (one, other) {
        (None, None) => true,
        (Some(one), Some(other)) => one == other,
        _ => false,
    }
}

fn is_alike_at(before: &[u8], after: &[u8], position: usize) -> bool
    ensures { MatchBool result (IsAlikeAt before.now after.now position)
        (DiffersAt before.now after.now position) }
{
    let old = byte_at(before, position);
    let new = byte_at(after, position);
    is_same_byte(old, new)
}

// The first position from one on at which the two differ.
fn first_differing(before: &[u8], after: &[u8], from: usize) -> Option<usize>
    ensures some { IfSome result (IsFirstDiffering before.now after.now from) }
    ensures none { IfNone result ((i : ℕ) → from ≤ i → IsAlikeAt before.now after.now i) }
{
    for position in from..before.len().max(after.len()) {
        if !is_alike_at(before, after, position) {
            return Some(position);
        }
    }
    None
}

// The last of the positions that differ one after the other from one on.
fn last_differing(before: &[u8], after: &[u8], first: usize) -> usize
    requires within { first < max (length before.now) (length after.now) }
    requires differs { DiffersAt before.now after.now first }
    ensures { IsRunEnd before.now after.now first result }
{
    let end = before.len().max(after.len());
    for position in first + 1..end {
        if is_alike_at(before, after, position) {
            return position - 1;
        }
    }
    end - 1
}

// The first range from a position on.
fn next_range(before: &[u8], after: &[u8], from: usize) -> Option<ByteRange>
    ensures some { IfSome result (IsNextRange before.now after.now from) }
    ensures none { IfNone result ((i : ℕ) → from ≤ i → IsAlikeAt before.now after.now i) }
{
    let first = first_differing(before, after, from)?;
    let last = last_differing(before, after, first);
    Some(ByteRange { first, last })
}

/// The ranges of positions at which two lists of bytes differ: they ascend, no two touch, and a
/// position is in one of them exactly where the two differ. Where one list is longer, it differs
/// after the other's end. Linear in the longer one.
pub fn ranges_of(alloc: Global, before: &[u8], after: &[u8]) -> Result<Vec<ByteRange>, AllocError>
    ensures { IfOk result (λ ranges. AreRangesOf before.now after.now ranges.items) }
{
    let mut ranges = Vec::new(alloc);
    let mut from = 0;
    while let Some(range) = next_range(before, after, from) {
        from = range.last + 1;
        ranges.push(range)?;
    }
    Ok(ranges)
}

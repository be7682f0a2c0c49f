//! What is read of the bytes from the end of some records on.
ghost use Rattle.std.specs.Prelude.{◌≡◌, ◌≢◌, ◌^◌, ◌<◌, ◌≤◌, ◌==◌, if◌then◌else◌, length, take};
ghost use Rattle.std.specs.Prelude.{IfOk, MatchBool};
ghost use Rattle.update_log.specs.Records.{nonzeros};
ghost use Rattle.update_log.specs.Sectors.{size_of};
ghost use Rattle.update_log.specs.Tails.{IsOpen, OthersFit, found_in, length_in};
ghost use Rattle.update_log.specs.Tails.{payload_in, weight};

use crate::numbers::word_at;
use crate::sectors::{
    FURTHER_MARK, RECORD_MARK, SECTOR_BYTES, further_sectors, gather_further, size_of_record,
};
use std::alloc::{AllocError, Global};

/// What a record's count and the bytes of it that aren't zero make.
pub(crate) const WHOLE: u64 = u32::MAX as u64;

/// One for a byte that isn't zero.
fn present(byte: u8) -> usize
    ensures { result ≡ (if byte == 0 then 0 else 1) }
{
    if byte == 0 { 0 } else { 1 }
}

/// How many bytes aren't zero.
pub(crate) fn count_nonzeros(bytes: &[u8]) -> usize
    ensures count { result ≡ nonzeros bytes.now }
    ensures few { result ≤ length bytes.now }
{
    let mut count = 0;
    for byte in bytes {
        count += present(*byte);
    }
    count
}

/// The first bytes, or all of them where they are fewer.
pub(crate) fn front(bytes: &[u8], count: usize) -> &[u8]
    ensures { result.now ≡ take count bytes.now }
{
    let (first, _) = bytes.split_at(count.min(bytes.len()));
    first
}

/// Whether these are the same bytes.
pub(crate) fn is_same(one: &[u8], other: &[u8]) -> bool
    ensures { MatchBool result (one.now ≡ other.now) (one.now ≢ other.now) }
{
    one == other
}

#[tactic(auto, unfolding(crate::specs::Tails::found_in, crate::specs::Tails::length_in))]
fn found(tail: &[u8]) -> usize
    requires { 512 ≤ length tail.now }
    ensures found { result ≡ found_in tail.now }
    ensures few { result ≤ length tail.now }
{
    let size = size_of_record(word_at(tail, 21) as usize);
    let (first, _) = tail.split_at(1);
    let (_, others) = tail.split_at(5);
    count_nonzeros(first) + count_nonzeros(front(others, size - 5))
}

/// What the count and the bytes that aren't zero make: as much as `WHOLE` of a whole record, and
/// less of one of which bytes are missing.
#[tactic(auto, unfolding(crate::specs::Tails::weight, crate::specs::Tails::count_in))]
pub(crate) fn weight_of(tail: &[u8]) -> u64
    requires { 512 ≤ length tail.now }
    ensures { result ≡ weight tail.now }
{
    word_at(tail, 1) as u64 + found(tail) as u64
}

/// Whether no record begins after the first sector.
fn others_fit(tail: &[u8]) -> bool
    ensures { MatchBool result (OthersFit tail.now) (OthersFit tail.now → ⊥) }
{
    for k in 1..tail.len().div_ceil(SECTOR_BYTES) {
        let mark = tail[SECTOR_BYTES * k];
        if mark != 0 && mark != FURTHER_MARK {
            return false;
        }
    }
    true
}

/// Whether no record begins here that was written whole, and no other one after it.
pub(crate) fn is_open(tail: &[u8]) -> bool
    ensures { MatchBool result (IsOpen tail.now) (IsOpen tail.now → ⊥) }
{
    if tail.is_empty() {
        return true;
    }
    if tail.len() >= SECTOR_BYTES && weight_of(tail) >= WHOLE {
        return false;
    }
    tail[0] <= RECORD_MARK && others_fit(tail)
}

/// The payload of the record that begins here.
#[tactic(auto, unfolding(crate::specs::Tails::payload_in))]
pub(crate) fn payload_of(alloc: Global, tail: &[u8], bytes: usize) -> Result<Vec<u8>, AllocError>
    requires bytes { bytes ≡ length_in tail.now }
    requires short { bytes < 2 ^ 32 }
    requires room { size_of bytes ≤ length tail.now }
    ensures payload { IfOk result (λ out. out.items ≡ payload_in tail.now) }
    ensures few { IfOk result (λ out. length out.items ≤ bytes) }
{
    let (_, after) = tail.split_at(57);
    let (_, others) = tail.split_at(SECTOR_BYTES);
    let mut out = Vec::new(alloc);
    out.extend_from_slice(front(after, 455))?;
    gather_further(&mut out, further_sectors(bytes), others)?;
    out.truncate(bytes);
    Ok(out)
}

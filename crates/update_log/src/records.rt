//! How a record is encoded.
ghost use Rattle.std.specs.Prelude.{◌≡◌, ◌+◌, ◌-◌, ◌*◌, ◌^◌, ◌<◌, ◌≤◌, ◌∷◌, ◌++◌, length, IfOk};
ghost use Rattle.update_log.specs.Records.{after, chain, content, nonzeros, numbers, word};
ghost use Rattle.update_log.specs.Records.{record_bytes};
ghost use Rattle.update_log.specs.Sectors.{laid, padded};

use crate::numbers::{push_long, push_word};
use crate::places::Place;
use crate::sectors::{
    CONTENT_BYTES, FIRST_BYTES, RECORD_MARK, further_sectors, lay, size_of_record,
};
use crate::tails::count_nonzeros;
use sha2::{Digest, Sha256};
use std::alloc::{AllocError, Global};

/// The most bytes that a payload has.
pub const LARGEST_PAYLOAD: usize = 1 << 24;

#[tactic(auto, unfolding(crate::specs::Records::numbers))]
fn numbers_of(
    alloc: Global,
    place: &Place,
    limit: u64,
    payload: &[u8],
) -> Result<Vec<u8>, AllocError>
    requires { length payload.now ≤ 2 ^ 24 }
    ensures { IfOk result (λ out. out.items
        ≡ numbers place.now (record { limit = limit; payload = payload.now })) }
{
    let mut out = Vec::new(alloc);
    push_long(&mut out, place.number)?;
    push_long(&mut out, limit)?;
    push_word(&mut out, payload.len() as u32)?;
    Ok(out)
}

#[tactic(auto, unfolding(crate::specs::Records::chain))]
fn digest_of(place: &Place, head: &[u8], limit: u64, payload: &[u8]) -> [u8; 32]
    requires { head.now ≡ numbers place.now (record { limit = limit; payload = payload.now }) }
    ensures { result ≡ chain place.now (record { limit = limit; payload = payload.now }) }
{
    let mut hasher = Sha256::new();
    hasher.update(place.digest.as_slice());
    hasher.update(head);
    hasher.update(payload);
    hasher.finalize()
}

/// What a record has after its count, but for its further marks: and its digest.
#[tactic(auto, unfolding(crate::specs::Records::content))]
fn content_of(
    alloc: Global,
    place: &Place,
    limit: u64,
    payload: &[u8],
) -> Result<(Vec<u8>, [u8; 32]), AllocError>
    requires { length payload.now ≤ 2 ^ 24 }
    ensures content { IfOk result (λ made. made.0.items
        ≡ content place.now (record { limit = limit; payload = payload.now })) }
    ensures digest { IfOk result (λ made. made.1
        ≡ chain place.now (record { limit = limit; payload = payload.now })) }
{
    let mut out = numbers_of(alloc, place, limit, payload)?;
    let digest = digest_of(place, &out, limit, payload);
    out.extend_from_slice(digest.as_slice())?;
    out.extend_from_slice(payload)?;
    Ok((out, digest))
}

/// A content in its sectors, without what the first one begins with.
fn in_sectors(alloc: Global, content: Vec<u8>, count: usize) -> Result<Vec<u8>, AllocError>
    requires room { length content.items ≤ 507 + 511 * count }
    requires few { count < 2 ^ 32 }
    ensures { IfOk result (λ out. out.items ≡ laid count (padded count content.items)) }
{
    let mut content = content;
    content.resize(FIRST_BYTES + CONTENT_BYTES * count, 0)?;
    let mut out = Vec::new(alloc);
    lay(&mut out, count, &content)?;
    Ok(out)
}

/// A record from its count on, where that is the count.
#[tactic(auto, unfolding(crate::specs::Records::record_bytes))]
fn sealed(alloc: Global, body: &[u8]) -> Result<Vec<u8>, AllocError>
    requires { length body.now ≤ 2 ^ 25 }
    ensures { IfOk result (λ out. out.items
        ≡ 1 ∷ (word (2 ^ 32 - 2 - nonzeros body.now) ++ body.now)) }
{
    let count = u32::MAX - 1 - count_nonzeros(body) as u32;
    let mut out = Vec::new(alloc);
    out.push(RECORD_MARK)?;
    push_word(&mut out, count)?;
    out.extend_from_slice(body)?;
    Ok(out)
}

/// The record of a payload, or of none, where the log goes on at a place, and where it goes on
/// after it.
#[tactic(auto, unfolding(crate::specs::Records::record_bytes))]
pub(crate) fn record_of(
    alloc: Global,
    place: &Place,
    limit: usize,
    payload: &[u8],
) -> Result<(Vec<u8>, Place), AllocError>
    requires small { length payload.now ≤ 2 ^ 24 }
    requires number { place.now.number < 2 ^ 63 }
    requires room { place.now.at < 2 ^ 63 }
    ensures bytes { IfOk result (λ made. made.0.items
        ≡ record_bytes place.now (record { limit = limit; payload = payload.now })) }
    ensures after { IfOk result (λ made. made.1
        ≡ after place.now (record { limit = limit; payload = payload.now })) }
{
    let (content, digest) = content_of(alloc, place, limit as u64, payload)?;
    let body = in_sectors(alloc, content, further_sectors(payload.len()))?;
    let record = sealed(alloc, &body)?;
    let next = Place {
        number: place.number + 1,
        digest,
        at: place.at + size_of_record(payload.len()),
        limit,
    };
    Ok((record, next))
}

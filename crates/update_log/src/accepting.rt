//! Which bytes are taken as a log, and what it has.
ghost use Rattle.std.specs.Prelude.{◌≡◌, ◌⊎◌, ◌^◌, ◌<◌, ◌≤◌, length, map};
ghost use Rattle.std.specs.Prelude.{◌==◌, ◌++◌, ◌∷◌, [], if◌then◌else◌, IfErr, IfNone};
ghost use Rattle.std.specs.Prelude.{IfOk, IfSome, OnOk};
ghost use Rattle.update_log.specs.Headers.{HasOtherHeader};
ghost use Rattle.update_log.specs.Logs.{Accepts, Begins, FailsAt, HasNoLog, tail_of};
ghost use Rattle.update_log.specs.Records.{Entry, after};
ghost use Rattle.update_log.specs.Tails.{IsOpen};

use crate::headers::first_place;
use crate::numbers::{long_at, word_at};
use crate::places::Place;
use crate::records::{LARGEST_PAYLOAD, record_of};
use crate::refusals::Refusal;
use crate::sectors::{SECTOR_BYTES, size_of_record};
use crate::tails::{WHOLE, front, is_open, is_same, payload_of, weight_of};
use std::alloc::Global;

/// The bytes from a place on, as far as the log goes.
#[tactic(auto, unfolding(crate::specs::Logs::tail_of))]
pub fn tail<'a>(place: &Place, bytes: &'a [u8]) -> &'a [u8]
    requires at { place.now.at ≤ place.now.limit }
    requires limit { place.now.limit ≤ length bytes.now }
    ensures { result.now ≡ tail_of place.now bytes.now }
{
    let (within, _) = bytes.split_at(place.limit);
    let (_, tail) = within.split_at(place.at);
    tail
}

/// What is found at a place: the payload of a record, and where the log goes on after it.
type Found = (Vec<u8>, Place);

/// The record at a place, where nothing of it is missing.
fn whole_record(alloc: Global, place: &Place, bytes: &[u8], tail: &[u8]) -> Result<Found, Refusal>
    requires tail { tail.now ≡ tail_of place.now bytes.now }
    requires sector { 512 ≤ length tail.now }
    requires number { place.now.number ≤ place.now.at }
    requires at { place.now.at ≤ place.now.limit }
    requires limit { place.now.limit ≤ length bytes.now }
    ensures record { IfOk result
        (λ found. Begins place.now (record { limit = found.1.limit; payload = found.0.items })
        bytes.now) }
    ensures after { IfOk result (λ found. found.1
        ≡ after place.now (record { limit = found.1.limit; payload = found.0.items })) }
    ensures none { IfErr result (λ why. (why ≡ Refusal.NoMemory)
        ⊎ ((why ≡ Refusal.Damaged) × ((e : Entry) → Begins place.now e bytes.now → ⊥))) }
{
    let (_, after) = bytes.split_at(place.limit);
    let limit = long_at(tail, 13);
    if limit < place.limit as u64 || limit > (place.limit + after.len()) as u64 {
        return Err(Refusal::Damaged);
    }
    let length = word_at(tail, 21) as usize;
    if length > LARGEST_PAYLOAD || size_of_record(length) > tail.len() {
        return Err(Refusal::Damaged);
    }
    let payload = payload_of(alloc, tail, length)?;
    let (record, next) = record_of(alloc, place, limit as usize, &payload)?;
    if !is_same(front(tail, record.len()), &record) {
        return Err(Refusal::Damaged);
    }
    Ok((payload, next))
}

/// The record at a place, or none where the records of the log end there.
fn record_at(alloc: Global, place: &Place, bytes: &[u8]) -> Result<Option<Found>, Refusal>
    requires few { length bytes.now < 2 ^ 64 }
    requires number { place.now.number ≤ place.now.at }
    requires at { place.now.at ≤ place.now.limit }
    requires limit { place.now.limit ≤ length bytes.now }
    ensures record { IfOk result (λ read. IfSome read
        (λ found. Begins place.now (record { limit = found.1.limit; payload = found.0.items })
        bytes.now)) }
    ensures after { IfOk result (λ read. IfSome read (λ found. found.1
        ≡ after place.now (record { limit = found.1.limit; payload = found.0.items }))) }
    ensures end { IfOk result (λ read. IfNone read (IsOpen (tail_of place.now bytes.now))) }
    ensures none { IfErr result (λ why. (why ≡ Refusal.NoMemory)
        ⊎ ((why ≡ Refusal.Damaged) × FailsAt place.now bytes.now)) }
{
    let tail = tail(place, bytes);
    if is_open(tail) {
        return Ok(None);
    }
    if tail.len() < SECTOR_BYTES || weight_of(tail) != WHOLE {
        return Err(Refusal::Damaged);
    }
    let found = whole_record(alloc, place, bytes, tail)?;
    Ok(Some(found))
}

/// What a log has: its payloads in their order, and where it goes on.
#[derive(Drop)]
pub struct Accepted {
    pub payloads: Vec<Vec<u8>>,
    pub place: Place,
}

/// Adds a payload at the end, if it is one.
fn keep(payloads: &mut Vec<Vec<u8>>, payload: Vec<u8>) -> Result<(), Refusal>
    ensures kept { OnOk result (map (λ v. v.items) payloads.new.items
        ≡ map (λ v. v.items) payloads.old.items
        ++ (if length payload.items == 0 then [] else payload.items ∷ [])) }
    ensures none { IfErr result (λ why. why ≡ Refusal.NoMemory) }
{
    if !payload.is_empty() {
        payloads.push(payload)?;
    }
    Ok(())
}

/// What these bytes have, as a log of the image whose last 32 bytes are given.
pub fn accept(alloc: Global, image: &[u8; 32], bytes: &[u8]) -> Result<Accepted, Refusal>
    ensures accepted { IfOk result
        (λ log. Accepts image.now (map (λ v. v.items) log.payloads.items) bytes.now log.place) }
    ensures at { IfOk result (λ log. log.place.at ≤ log.place.limit) }
    ensures limit { IfOk result (λ log. log.place.limit ≤ length bytes.now) }
    ensures refused { IfErr result (λ why. (why ≡ Refusal.NoMemory)
        ⊎ (((why ≡ Refusal.Damaged) × HasNoLog bytes.now)
        ⊎ ((why ≡ Refusal.OtherImage) × HasOtherHeader image.now bytes.now))) }
{
    let mut place = first_place(alloc, image, bytes)?;
    let mut payloads = Vec::new(alloc);
    loop {
        match record_at(alloc, &place, bytes) {
            Err(why) => return Err(why),
            Ok(None) => return Ok(Accepted { payloads, place }),
            Ok(Some((payload, next))) => {
                keep(&mut payloads, payload)?;
                place = next;
            }
        }
    }
}

//! The first sector of a log: which image it goes on from.
ghost use Rattle.std.specs.Prelude.{◌≡◌, ◌⊎◌, ◌^◌, ◌<◌, ◌≤◌, ℕ, length, take, drop};
ghost use Rattle.std.specs.Prelude.{IfErr, IfOk, OnOk};
ghost use Rattle.update_log.specs.Headers.{HasNoHeader, HasOtherHeader, IsHeader};
ghost use Rattle.update_log.specs.Headers.{header_bytes, header_front, start};

use crate::numbers::{long_at, push_long};
use crate::places::Place;
use crate::refusals::Refusal;
use crate::sectors::SECTOR_BYTES;
use crate::tails::is_same;
use sha2::{Digest, Sha256};
use std::alloc::{AllocError, Global};

// The mark of a header, and the name of the format.
const MAGIC: [u8; 9] = [3, b'S', b'4', b'D', b'L', b'O', b'G', b'0', b'1'];

// Bytes of a header before its digest.
const FRONT_BYTES: usize = 480;

/// A header without its digest.
#[tactic(auto, unfolding(crate::specs::Headers::header_front))]
fn front_of(alloc: Global, image: &[u8], limit: u64) -> Result<Vec<u8>, AllocError>
    requires { length image.now ≡ 32 }
    ensures { IfOk result (λ out. out.items ≡ header_front image.now limit) }
{
    let mut out = Vec::new(alloc);
    out.extend_from_slice(MAGIC.as_slice())?;
    out.extend_from_slice(image)?;
    push_long(&mut out, limit)?;
    out.extend_from_slice([0; 431].as_slice())?;
    Ok(out)
}

/// A header, and where the first record after it begins.
#[tactic(auto, unfolding(crate::specs::Headers::header_bytes))]
pub(crate) fn header_of(
    alloc: Global,
    image: &[u8],
    limit: usize,
) -> Result<(Vec<u8>, Place), AllocError>
    requires { length image.now ≡ 32 }
    ensures bytes { IfOk result (λ made. made.0.items ≡ header_bytes image.now limit) }
    ensures place { IfOk result (λ made. made.1 ≡ start image.now limit) }
    ensures image { OnOk result (length image.now ≡ 32) }
{
    let mut header = front_of(alloc, image, limit as u64)?;
    let digest = Sha256::digest(&header);
    header.extend_from_slice(digest.as_slice())?;
    let place = Place {
        number: 1,
        digest,
        at: SECTOR_BYTES,
        limit,
    };
    Ok((header, place))
}

/// The image of a file's header, and where the first record after it begins.
fn read_header(alloc: Global, bytes: &[u8]) -> Result<([u8; 32], Place), Refusal>
    ensures header { IfOk result (λ read. (limit : ℕ)
        × (IsHeader read.0 limit bytes.now × (read.1 ≡ start read.0 limit))) }
    ensures image { IfOk result (λ read. length read.0 ≡ 32) }
    ensures few { OnOk result (length bytes.now < 2 ^ 64) }
    ensures none { IfErr result (λ why. (why ≡ Refusal.NoMemory)
        ⊎ ((why ≡ Refusal.Damaged) × HasNoHeader bytes.now)) }
{
    if bytes.len() < SECTOR_BYTES {
        return Err(Refusal::Damaged);
    }
    let (header, _) = bytes.split_at(SECTOR_BYTES);
    let length = bytes.len() as u64;
    let limit = long_at(header, 41);
    if limit < SECTOR_BYTES as u64 || limit > length {
        return Err(Refusal::Damaged);
    }
    let image = image_of(header);
    let (made, place) = header_of(alloc, image.as_slice(), limit as usize)?;
    if !is_same(&made, header) {
        return Err(Refusal::Damaged);
    }
    Ok((image, place))
}

/// The digest of the image that a header names.
fn image_of(header: &[u8]) -> [u8; 32]
    requires { length header.now ≡ 512 }
    ensures { result ≡ take 32 (drop 9 header.now) }
{
    let (_, rest) = header.split_at(9);
    let (named, _) = rest.split_at(32);
    let mut image = [0; 32];
    image.copy_from_slice(named);
    image
}

/// Where the first record of a log of this image begins.
pub(crate) fn first_place(alloc: Global, image: &[u8; 32], bytes: &[u8]) -> Result<Place, Refusal>
    ensures header { IfOk result (λ p. (limit : ℕ)
        × (IsHeader image.now limit bytes.now × (p ≡ start image.now limit))) }
    ensures image { OnOk result (length image.now ≡ 32) }
    ensures few { OnOk result (length bytes.now < 2 ^ 64) }
    ensures none { IfErr result (λ why. (why ≡ Refusal.NoMemory)
        ⊎ (((why ≡ Refusal.Damaged) × HasNoHeader bytes.now)
        ⊎ ((why ≡ Refusal.OtherImage) × HasOtherHeader image.now bytes.now))) }
{
    let (named, place) = read_header(alloc, bytes)?;
    if !is_same(named.as_slice(), image.as_slice()) {
        return Err(Refusal::OtherImage);
    }
    Ok(place)
}

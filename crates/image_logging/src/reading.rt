//! What is read of an image and of the log beside it.
ghost use Rattle.std.specs.Prelude.{◌≡◌, ◌⊎◌, IfErr, IfOk, None, Some, map};
ghost use Rattle.image_logging.specs.Reading.{followed, made, read_of};
ghost use Rattle.image_logging.specs.declared.reading.Unreadable.TheVariants.{NoMemory as Short};

use image_update::{NotPatched, Unread, decode, patched};
use std::alloc::{AllocError, Global};

/// Bytes of the digest that an image ends with.
pub(crate) const DIGEST_BYTES: usize = 32;

/// Why no front is read.
#[derive(Clone, Copy, Debug)]
pub enum Unreadable {
    /// Memory was refused.
    NoMemory,
    /// A record is no difference of the front before it.
    Record,
}

impl From<AllocError> for Unreadable {
    ghost from_gives = { λ _ e. e ≡ Short };

    fn from(_error: AllocError) -> Unreadable {
        Unreadable::NoMemory
    }
}

/// The front that a record makes of this one.
fn next_front(alloc: Global, front: &[u8], payload: &[u8]) -> Result<Vec<u8>, Unreadable>
    ensures made { IfOk result (λ next. made payload.now front.now ≡ Some next.items) }
    ensures unmade { IfErr result (λ why. (why ≡ Unreadable.NoMemory)
        ⊎ ((why ≡ Unreadable.Record) × (made payload.now front.now ≡ None))) }
{
    let difference = match decode(alloc, payload) {
        Ok(difference) => difference,
        Err(Unread::NoMemory) => return Err(Unreadable::NoMemory),
        Err(_) => return Err(Unreadable::Record),
    };
    match patched(alloc, front, &difference) {
        Ok(next) => Ok(next),
        Err(NotPatched::NoMemory) => Err(Unreadable::NoMemory),
        Err(NotPatched::OtherFront) => Err(Unreadable::Record),
    }
}

/// The front that all these records make of this one.
fn last_front(alloc: Global, first: Vec<u8>, payloads: &[Vec<u8>]) -> Result<Vec<u8>, Unreadable>
    ensures made { IfOk result
        (λ last. followed (map (λ p. p.items) payloads.now) (Some first.items) ≡ Some last.items) }
    ensures unmade { IfErr result (λ why. (why ≡ Unreadable.NoMemory)
        ⊎ ((why ≡ Unreadable.Record)
        × (followed (map (λ p. p.items) payloads.now) (Some first.items) ≡ None))) }
{
    let mut front = first;
    for payload in payloads {
        match next_front(alloc, front.as_slice(), payload.as_slice()) {
            Ok(next) => front = next,
            Err(why) => return Err(why),
        }
    }
    Ok(front)
}

/// The front that is read of an image and of the records of a log, which is bound to an image by
/// this digest: of the image alone, where it isn't that one's.
///
/// `Record` exactly where the log is the image's and a record is no difference of the front before
/// it; of an image shorter than a digest all bytes are the digest.
pub fn read_front(
    alloc: Global,
    image: &[u8],
    bound: &[u8],
    payloads: &[Vec<u8>],
) -> Result<Vec<u8>, Unreadable>
    ensures read { IfOk result (λ front.
        read_of image.now bound.now (map (λ p. p.items) payloads.now) ≡ Some front.items) }
    ensures unread { IfErr result (λ why. (why ≡ Unreadable.NoMemory)
        ⊎ ((why ≡ Unreadable.Record)
        × (read_of image.now bound.now (map (λ p. p.items) payloads.now) ≡ None))) }
{
    let (kept, digest) = image.split_at(image.len().saturating_sub(DIGEST_BYTES));
    let mut front = Vec::with_capacity(alloc, kept.len())?;
    front.extend_from_slice(kept)?;
    if bound != digest {
        return Ok(front);
    }
    last_front(alloc, front, payloads)
}

ghost use Rattle.std.specs.Prelude.{◌≡◌, ℕ, ◌<◌, List, length};
ghost use Rattle.std.specs.Int.{w16, w32, w64};
ghost use Rattle.rpc.specs.private.Reading.{Gives, wire_number_at, wire_text_at, wire_moment_at};
ghost use Rattle.rpc.specs.private.Reading.{tail_at, ended_at};

use crate::unread::Unread;
use byteorder::{BigEndian, ByteOrder};
use s4_types::Bytes;
use std::alloc::Global;

pub(crate) fn read_short(bytes: &[u8]) -> Result<(u16, &[u8]), Unread>
    ensures { Gives (λ x. (x.0, x.1.now)) result (wire_number_at w16 bytes.now) }
{
    if bytes.len() < 2 {
        return Err(Unread::Misspelled);
    }
    let (front, rest) = bytes.split_at(2);
    Ok((BigEndian::read_u16(front), rest))
}

pub(crate) fn read_word(bytes: &[u8]) -> Result<(u32, &[u8]), Unread>
    ensures { Gives (λ x. (x.0, x.1.now)) result (wire_number_at w32 bytes.now) }
{
    if bytes.len() < 4 {
        return Err(Unread::Misspelled);
    }
    let (front, rest) = bytes.split_at(4);
    Ok((BigEndian::read_u32(front), rest))
}

pub(crate) fn read_long(bytes: &[u8]) -> Result<(u64, &[u8]), Unread>
    ensures { Gives (λ x. (x.0, x.1.now)) result (wire_number_at w64 bytes.now) }
{
    if bytes.len() < 8 {
        return Err(Unread::Misspelled);
    }
    let (front, rest) = bytes.split_at(8);
    Ok((BigEndian::read_u64(front), rest))
}

#[tactic(auto, unfolding(crate::specs::private::Reading::wire_moment_at))]
pub(crate) fn read_at(bytes: &[u8]) -> Result<(Option<u64>, &[u8]), Unread>
    ensures { Gives (λ x. (x.0, x.1.now)) result (wire_moment_at bytes.now) }
{
    match bytes {
        [] => Err(Unread::Misspelled),
        [0, rest @ ..] => Ok((None, rest)),
        [1, rest @ ..] => {
            let (moment, rest) = read_long(rest)?;
            Ok((Some(moment), rest))
        }
        [_, ..] => Err(Unread::Misspelled),
    }
}

/// A text of at most `limit` bytes after the byte that tells its length.
#[tactic(auto, unfolding(crate::specs::private::Reading::wire_text_at))]
pub(crate) fn read_text(alloc: Global, limit: usize, bytes: &[u8]) -> Result<(Bytes, &[u8]), Unread>
    ensures { Gives (λ x. (x.0, x.1.now)) result (wire_text_at limit bytes.now) }
{
    let [len, rest @ ..] = bytes else {
        return Err(Unread::Misspelled);
    };
    let len = *len as usize;
    if limit < len || rest.len() < len {
        return Err(Unread::Misspelled);
    }
    let (text, rest) = rest.split_at(len);
    Ok((Bytes::from_slice(alloc, text)?, rest))
}

/// All of the bytes, at most `limit`.
#[tactic(auto, unfolding(crate::specs::private::Reading::tail_at))]
pub(crate) fn read_tail(alloc: Global, limit: usize, bytes: &[u8]) -> Result<Bytes, Unread>
    ensures { Gives (λ x. x) result (tail_at limit bytes.now) }
{
    if limit < bytes.len() {
        return Err(Unread::Misspelled);
    }
    Ok(Bytes::from_slice(alloc, bytes)?)
}

/// Nothing is left.
#[tactic(auto, unfolding(crate::specs::private::Reading::ended_at))]
pub(crate) fn read_end(bytes: &[u8]) -> Result<(), Unread>
    ensures { Gives (λ x. x) result (ended_at bytes.now) }
{
    match bytes {
        [] => Ok(()),
        [_, ..] => Err(Unread::Misspelled),
    }
}

ghost use Rattle.std.specs.Prelude.{◌≡◌, ℕ, ◌-◌, ◌+◌, ◌≤◌, ◌++◌, [], ◌∷◌, List, length};
ghost use Rattle.std.specs.Int.{w16, w32, w64};
ghost use Rattle.codec.specs.Fields.{Reads, number_at, byte_at, bytes_at, zeros_at, mark_at};
ghost use Rattle.codec.specs.Fields.{flag_at, behind_block, slot_at, slot_of, number, zeros, slot};

use byteorder::{BigEndian, ByteOrder};
use s4_types::Ptr;

pub(crate) fn read_byte(bytes: &[u8]) -> Option<(u8, &[u8])>
    ensures { Reads (λ x. (x.0, x.1.now)) result (byte_at bytes.now) }
{
    match bytes {
        [] => None,
        [byte, rest @ ..] => Some((*byte, rest)),
    }
}

#[tactic(auto, unfolding(crate::specs::Fields::number_at))]
pub(crate) fn read_short(bytes: &[u8]) -> Option<(u16, &[u8])>
    ensures { Reads (λ x. (x.0, x.1.now)) result (number_at w16 bytes.now) }
{
    if bytes.len() < 2 {
        return None;
    }
    let (front, rest) = bytes.split_at(2);
    Some((BigEndian::read_u16(front), rest))
}

#[tactic(auto, unfolding(crate::specs::Fields::number_at))]
pub(crate) fn read_word(bytes: &[u8]) -> Option<(u32, &[u8])>
    ensures { Reads (λ x. (x.0, x.1.now)) result (number_at w32 bytes.now) }
{
    if bytes.len() < 4 {
        return None;
    }
    let (front, rest) = bytes.split_at(4);
    Some((BigEndian::read_u32(front), rest))
}

#[tactic(auto, unfolding(crate::specs::Fields::number_at))]
pub(crate) fn read_long(bytes: &[u8]) -> Option<(u64, &[u8])>
    ensures { Reads (λ x. (x.0, x.1.now)) result (number_at w64 bytes.now) }
{
    if bytes.len() < 8 {
        return None;
    }
    let (front, rest) = bytes.split_at(8);
    Some((BigEndian::read_u64(front), rest))
}

/// The next `count` bytes.
#[tactic(auto, unfolding(crate::specs::Fields::bytes_at))]
pub(crate) fn read_bytes(count: usize, bytes: &[u8]) -> Option<(&[u8], &[u8])>
    ensures { Reads (λ x. (x.0.now, x.1.now)) result (bytes_at count bytes.now) }
{
    if bytes.len() < count {
        return None;
    }
    Some(bytes.split_at(count))
}

/// What comes after `count` zeros.
#[tactic(auto, using(crate::proofs::Zeros::zeros_step, crate::proofs::Zeros::zeros_stop, crate::proofs::Zeros::zeros_end))]
pub(crate) fn read_zeros(count: usize, bytes: &[u8]) -> Option<&[u8]>
    ensures { Reads (λ x. (tt, x.now)) result (zeros_at count bytes.now) }
{
    let mut rest = bytes;
    for _ in 0..count {
        let (byte, after) = read_byte(rest)?;
        if byte != 0 {
            return None;
        }
        rest = after;
    }
    Some(rest)
}

/// The pointer or the hole that four numbers encode.
#[tactic(auto, unfolding(crate::specs::Fields::slot_of))]
fn slot_named(frame: u16, block: u8, gap: u8, generation: u32) -> Option<Option<Ptr>>
    ensures { Reads (λ x. x) result (slot_of frame block gap generation) }
{
    if gap != 0 {
        return None;
    }
    if frame == 0 && block == 0 && generation == 0 {
        return Some(None);
    }
    if block < 1 || block > 15 || generation < 1 || generation == u32::MAX {
        return None;
    }
    Some(Ptr::new(frame, block, generation))
}

/// What comes after the block of a pointer or a hole.
fn read_behind_block(frame: u16, block: u8, bytes: &[u8]) -> Option<(Option<Ptr>, &[u8])>
    ensures { Reads (λ x. (x.0, x.1.now)) result (behind_block frame block bytes.now) }
{
    let (gap, rest) = read_byte(bytes)?;
    let (generation, rest) = read_word(rest)?;
    let slot = slot_named(frame, block, gap, generation)?;
    Some((slot, rest))
}

/// A pointer or a hole.
#[tactic(auto, unfolding(crate::specs::Fields::slot_at))]
pub(crate) fn read_slot(bytes: &[u8]) -> Option<(Option<Ptr>, &[u8])>
    ensures { Reads (λ x. (x.0, x.1.now)) result (slot_at bytes.now) }
{
    let (frame, rest) = read_short(bytes)?;
    let (block, rest) = read_byte(rest)?;
    read_behind_block(frame, block, rest)
}

/// Whether the next byte is `mark`, and what comes after it.
#[tactic(auto, unfolding(crate::specs::Fields::mark_at))]
pub(crate) fn read_mark(mark: u8, bytes: &[u8]) -> Option<&[u8]>
    ensures { Reads (λ x. (tt, x.now)) result (mark_at mark bytes.now) }
{
    match bytes {
        [] => None,
        [byte, rest @ ..] => {
            if *byte != mark {
                return None;
            }
            Some(rest)
        }
    }
}

/// A byte that is one or zero.
#[tactic(auto, unfolding(crate::specs::Fields::flag_at))]
pub(crate) fn read_flag(bytes: &[u8]) -> Option<(bool, &[u8])>
    ensures { Reads (λ x. (x.0, x.1.now)) result (flag_at bytes.now) }
{
    match bytes {
        [] => None,
        [0, rest @ ..] => Some((false, rest)),
        [1, rest @ ..] => Some((true, rest)),
        [_, ..] => None,
    }
}

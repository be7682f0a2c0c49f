//! The numbers of a front, which have their highest byte first, and those of a difference, which
//! have their lowest first.
ghost use Rattle.std.specs.Prelude.{◌≡◌, ◌+◌, ◌≤◌, length, drop};
ghost use Rattle.std.specs.Int.{w16, w32, w64, w128};
ghost use Rattle.image_parts.specs.Header.{number_in};
ghost use Rattle.image_update.specs.Encoding.{long_in};

use byteorder::{BigEndian, ByteOrder, LittleEndian};

/// The number of two bytes at a place of a front.
#[tactic(auto, unfolding(image_parts::specs::Header::number_in))]
pub(crate) fn front_short(bytes: &[u8], at: usize) -> u16
    requires { at + 2 ≤ length bytes.now }
    ensures { result ≡ number_in w16 (drop at bytes.now) }
{
    BigEndian::read_u16(&bytes[at..])
}

/// The number of four bytes at a place of a front.
#[tactic(auto, unfolding(image_parts::specs::Header::number_in))]
pub(crate) fn front_word(bytes: &[u8], at: usize) -> u32
    requires { at + 4 ≤ length bytes.now }
    ensures { result ≡ number_in w32 (drop at bytes.now) }
{
    BigEndian::read_u32(&bytes[at..])
}

/// The number of the first eight bytes of a part of a front.
#[tactic(auto, unfolding(image_parts::specs::Header::number_in))]
pub(crate) fn front_long(bytes: &[u8]) -> u64
    requires { 8 ≤ length bytes.now }
    ensures { result ≡ number_in w64 bytes.now }
{
    BigEndian::read_u64(bytes)
}

/// The number of the first sixteen bytes of a part of a front.
#[tactic(auto, unfolding(image_parts::specs::Header::number_in))]
pub(crate) fn front_double(bytes: &[u8]) -> u128
    requires { 16 ≤ length bytes.now }
    ensures { result ≡ number_in w128 bytes.now }
{
    BigEndian::read_u128(bytes)
}

/// The number of eight bytes at a place of a difference.
#[tactic(auto, unfolding(crate::specs::Encoding::long_in))]
pub(crate) fn long_at(bytes: &[u8], at: usize) -> u64
    requires { at + 8 ≤ length bytes.now }
    ensures { result ≡ long_in (drop at bytes.now) }
{
    LittleEndian::read_u64(&bytes[at..])
}

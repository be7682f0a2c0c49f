ghost use Rattle.std.specs.Prelude.{◌≡◌, ◌+◌, ◌≤◌, length, drop};
ghost use Rattle.std.specs.Int.{w16, w32, w64};
ghost use Rattle.image_parts.specs.Header.{number_in};

use byteorder::{BigEndian, ByteOrder};

/// The number of two bytes at a place.
#[tactic(auto, unfolding(crate::specs::Header::number_in))]
pub(crate) fn short_at(bytes: &[u8], at: usize) -> u16
    requires { at + 2 ≤ length bytes.now }
    ensures { result ≡ number_in w16 (drop at bytes.now) }
{
    BigEndian::read_u16(&bytes[at..])
}

/// The number of four bytes at a place.
#[tactic(auto, unfolding(crate::specs::Header::number_in))]
pub(crate) fn word_at(bytes: &[u8], at: usize) -> u32
    requires { at + 4 ≤ length bytes.now }
    ensures { result ≡ number_in w32 (drop at bytes.now) }
{
    BigEndian::read_u32(&bytes[at..])
}

/// The number of eight bytes at a place.
#[tactic(auto, unfolding(crate::specs::Header::number_in))]
pub(crate) fn long_at(bytes: &[u8], at: usize) -> u64
    requires { at + 8 ≤ length bytes.now }
    ensures { result ≡ number_in w64 (drop at bytes.now) }
{
    BigEndian::read_u64(&bytes[at..])
}

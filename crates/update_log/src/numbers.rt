//! Numbers of four and eight bytes, their highest byte first.
ghost use Rattle.std.specs.Prelude.{◌≡◌, ◌++◌, ◌+◌, ◌≤◌, length, drop, OnOk};
ghost use Rattle.update_log.specs.Records.{long, word};
ghost use Rattle.update_log.specs.Tails.{long_in, word_in};

use byteorder::{BigEndian, ByteOrder};
use std::alloc::AllocError;

/// The number of four bytes at an offset.
#[tactic(auto, unfolding(crate::specs::Tails::word_in))]
pub(crate) fn word_at(bytes: &[u8], at: usize) -> u32
    requires { at + 4 ≤ length bytes.now }
    ensures { result ≡ word_in (drop at bytes.now) }
{
    BigEndian::read_u32(&bytes[at..])
}

/// The number of eight bytes at an offset.
#[tactic(auto, unfolding(crate::specs::Tails::long_in))]
pub(crate) fn long_at(bytes: &[u8], at: usize) -> u64
    requires { at + 8 ≤ length bytes.now }
    ensures { result ≡ long_in (drop at bytes.now) }
{
    BigEndian::read_u64(&bytes[at..])
}

#[tactic(auto, unfolding(crate::specs::Records::word))]
pub(crate) fn push_word(out: &mut Vec<u8>, number: u32) -> Result<(), AllocError>
    ensures { OnOk result (out.new.items ≡ out.old.items ++ word number) }
{
    out.extend_from_slice(&number.to_be_bytes())
}

#[tactic(auto, unfolding(crate::specs::Records::long))]
pub(crate) fn push_long(out: &mut Vec<u8>, number: u64) -> Result<(), AllocError>
    ensures { OnOk result (out.new.items ≡ out.old.items ++ long number) }
{
    out.extend_from_slice(&number.to_be_bytes())
}

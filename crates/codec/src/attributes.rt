ghost use Rattle.std.specs.Prelude.{◌≡◌, ℕ, ◌≤◌, ◌↔◌, ◌++◌, List, length, IsSome, IfSome, nat_le};
ghost use Rattle.codec.specs.Fields.{Reads, kept, zeros, padded};

use s4_types::limits::ATTRIBUTE_BYTES;
use std::marker::Model;

/// An attribute of an object, of at most `ATTRIBUTE_BYTES`. Contracts see the list of its bytes.
#[derive(Clone, Copy, PartialEq, Eq)]
pub struct Attribute {
    len: u8,
    // Zero after the attribute.
    bytes: [u8; ATTRIBUTE_BYTES],
}

impl Model for Attribute {
    ghost use Rattle.std.specs.Prelude.{◌≡◌, ◌-◌, ℕ, ◌≤◌, ◌++◌, List, length, take};
    ghost use Rattle.codec.specs.Fields.{zeros, padded};
    ghost use Rattle.codec.specs.private.Padding.{cut_padded};

    ghost Value = { List ℕ };

    ghost view = { λ a. take a.len a.bytes };

    ghost invariant = { λ a. (a.len ≤ 64) × ((length a.bytes ≡ 64) × (padded (take a.len a.bytes) ≡ a.bytes)) };

    ghost inverse = { λ xs. record { len = length xs; bytes = padded xs } };

    ghost inverse_ok = { λ a h. cut_padded a h };
}

#[tactic(auto, unfolding(crate::specs::Fields::zeros))]
fn blank() -> [u8; ATTRIBUTE_BYTES]
    ensures { result ≡ zeros 64 }
{
    [0; ATTRIBUTE_BYTES]
}

/// The bytes, and zeros after them.
#[tactic(auto, using(crate::proofs::Padded::filled))]
fn padded_bytes(bytes: &[u8]) -> [u8; ATTRIBUTE_BYTES]
    requires { length bytes.now ≤ 64 }
    ensures { result ≡ padded bytes.now }
{
    let mut padded = blank();
    padded[..bytes.len()].copy_from_slice(bytes);
    padded
}

impl Attribute {
    #[tactic(auto, using(crate::proofs::Padded::padded_length, crate::proofs::Padded::padded_cut))]
    /// The attribute of these bytes. None where they are more than `ATTRIBUTE_BYTES`.
    pub fn new(bytes: &[u8]) -> Option<Self>
        ensures short { IsSome result ↔ (length bytes.now ≤ 64) }
        ensures value { IfSome result (λ attribute. attribute ≡ bytes.now) }
        ensures exact { Reads (λ attribute. attribute) result
            (kept (nat_le (length bytes.now) 64) bytes.now) }
    {
        if bytes.len() > ATTRIBUTE_BYTES {
            return None;
        }
        Some(Attribute {
            len: bytes.len() as u8,
            bytes: padded_bytes(bytes),
        })
    }

    /// Its bytes, at most `ATTRIBUTE_BYTES`.
    pub fn as_slice(&self) -> &[u8]
        ensures value { result.now ≡ self.now }
        ensures short { length self.now ≤ 64 }
    {
        &self.bytes[..self.len as usize]
    }
}

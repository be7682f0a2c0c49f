ghost use Rattle.std.specs.Iterator.{YieldsFirst, item_count};
ghost use Rattle.std.specs.Prelude.{◌≡◌, ℕ, ◌*◌, ◌≤◌, [], ◌∷◌, List, length};
ghost use Rattle.image_parts.specs.Audit.{audit_in, audits_in};

use crate::numbers::long_at;
use s4_types::{Moment, ObjectId};
use std::marker::Model;

/// Bytes of an audit row.
pub(crate) const AUDIT_BYTES: usize = 33;

/// An audit row of an image, with its kind as its byte is: not every byte is a kind's.
#[derive(Clone, Copy)]
pub struct AuditPart {
    pub moment: Moment,
    pub kind: u8,
    pub object: ObjectId,
    pub first: u64,
    pub second: u64,
}

/// The audit row that the bytes begin with.
#[tactic(auto, unfolding(crate::specs::Audit::audit_in))]
fn first_audit(bytes: &[u8]) -> AuditPart
    requires { 33 ≤ length bytes.now }
    ensures { result ≡ audit_in bytes.now }
{
    AuditPart {
        moment: Moment::new(long_at(bytes, 0)),
        kind: bytes[8],
        object: ObjectId::new(long_at(bytes, 9)),
        first: long_at(bytes, 17),
        second: long_at(bytes, 25),
    }
}

/// Audit rows that are given one by one, in their order.
#[derive(Drop)]
pub struct AuditParts<'a> {
    count: u64,
    bytes: &'a [u8],
}

impl<'a> Model for AuditParts<'a> {
    ghost use Rattle.std.specs.Prelude.{List, ◌*◌, ◌≤◌, length};
    ghost use Rattle.image_parts.specs.Audit.{audits_in};
    ghost use Rattle.image_parts.specs.declared.audit.AuditPart.{AuditPart as Saved};

    ghost Value = { List Saved };

    ghost view = { λ a. audits_in a.count a.bytes.now };

    ghost invariant = { λ a. 33 * a.count ≤ length a.bytes.now };
}

impl<'a> AuditParts<'a> {
    /// The first audit rows of these bytes.
    pub(crate) fn new(count: u64, bytes: &'a [u8]) -> Self
        requires { 33 * count ≤ length bytes.now }
        ensures { result ≡ audits_in count bytes.entry.now }
    {
        AuditParts { count, bytes }
    }

    /// How many audit rows were not given.
    pub fn len(&self) -> u64
        ensures { result ≡ length self.now }
    {
        self.count
    }
}

impl<'a> Iterator for AuditParts<'a> {
    type Item = AuditPart;

    ghost next_gives = { YieldsFirst (λ a. a) };

    ghost remaining = { item_count (λ a. a) };

    fn next(&mut self) -> Option<AuditPart> {
        if self.count == 0 {
            return None;
        }
        let row = first_audit(self.bytes);
        let (_, rest) = self.bytes.split_at(AUDIT_BYTES);
        self.count -= 1;
        self.bytes = rest;
        Some(row)
    }
}

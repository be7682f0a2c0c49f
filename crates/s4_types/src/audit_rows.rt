ghost use Rattle.std.specs.Prelude.{◌≡◌, IfSome, length};
ghost use Rattle.s4_types.specs.AuditKinds.{number_of_kind};
ghost use Rattle.s4_types.specs.declared.audit_rows.AuditKind.{AuditKind as Kind};

use crate::moments::{Moment, ObjectId};
use std::marker::Model;

/// What an accepted change was. An Append is the write that it came to.
#[derive(Clone, Copy, Debug, PartialEq, Eq)]
pub enum AuditKind {
    Create,
    Delete,
    Write,
    Truncate,
    SetAttr,
    SetWindow,
    Flush,
    FlushO,
}

impl AuditKind {
    /// The number of the kind: that of its request on the wire, and for an Append that of a Write.
    pub const fn number(self) -> u8
        ensures { result ≡ number_of_kind self }
    {
        match self {
            AuditKind::Create => 1,
            AuditKind::Delete => 2,
            AuditKind::Write => 4,
            AuditKind::Truncate => 6,
            AuditKind::SetAttr => 8,
            AuditKind::SetWindow => 9,
            AuditKind::Flush => 10,
            AuditKind::FlushO => 11,
        }
    }

    /// The kind that has the number. None for numbers that no kind has.
    pub fn from_number(number: u8) -> Option<Self>
        ensures found { IfSome result (λ kind. number_of_kind kind ≡ number) }
        ensures only { (kind : Kind) → number_of_kind kind ≡ number → result ≡ Some kind }
    {
        match number {
            1 => Some(AuditKind::Create),
            2 => Some(AuditKind::Delete),
            4 => Some(AuditKind::Write),
            6 => Some(AuditKind::Truncate),
            8 => Some(AuditKind::SetAttr),
            9 => Some(AuditKind::SetWindow),
            10 => Some(AuditKind::Flush),
            11 => Some(AuditKind::FlushO),
            _ => None,
        }
    }
}

/// An accepted change as an audit has it: all but its bytes and its attribute, of which it has the
/// lengths.
#[derive(Clone, Copy, Debug, PartialEq, Eq)]
pub struct AuditRow {
    /// The moment that the change was stamped with.
    pub moment: Moment,
    pub kind: AuditKind,
    /// The object that the change is of, a created one too; 0 for SetWindow and Flush.
    pub object: ObjectId,
    /// Of a Create and a SetAttr the bytes of the attribute, of a Write its offset, of a Truncate
    /// the size, of a SetWindow the window, of a Flush and a FlushO the first moment; else 0.
    pub first: u64,
    /// Of a Write its bytes, of a Flush and a FlushO the last moment; else 0.
    pub second: u64,
}

/// Rows of an audit, in order of time. Contracts see the list alone, so that two are equal where
/// their rows are.
#[derive(Drop)]
pub struct AuditRows {
    items: Vec<AuditRow>,
}

impl Model for AuditRows {
    ghost use Rattle.std.specs.Prelude.{List};
    ghost use Rattle.s4_types.specs.declared.audit_rows.AuditRow.{AuditRow};

    ghost Value = { List AuditRow };

    ghost view = { λ r. r.items.items };
}

impl AuditRows {
    /// Makes a list of the vector, in its memory.
    pub fn from_vec(items: Vec<AuditRow>) -> Self
        ensures { result ≡ items.items }
    {
        AuditRows { items }
    }

    pub fn len(&self) -> usize
        ensures { result ≡ length self.now }
    {
        self.items.len()
    }

    pub fn as_slice(&self) -> &[AuditRow]
        ensures { result.now ≡ self.now }
    {
        self.items.as_slice()
    }
}

impl PartialEq for AuditRows {
    ghost use Rattle.std.specs.Cmp.Lexicographic.{pointwise, lists_per};
    ghost use Rattle.s4_types.specs.contracts.audit_rows.AuditRowPartialEq.TheImpl as row_eq;
    ghost use Rattle.s4_types.specs.contracts.audit_rows.AuditRowPartialEq.TheImpl.Laws as row_laws;

    ghost eq = { pointwise (row_eq.ghosts).eq };

    ghost laws = { lists_per row_laws.laws-law };

    fn eq(&self, other: &AuditRows) -> bool {
        self.items == other.items
    }
}

impl Eq for AuditRows {
    ghost use Rattle.std.specs.Cmp.Lexicographic.{lists_equiv};
    ghost use Rattle.s4_types.specs.contracts.audit_rows.AuditRowEq.TheImpl.Laws as row_laws;

    ghost laws = { lists_equiv row_laws.laws-law };
}

//! The units that fronts are compared in.
ghost use Rattle.std.specs.Prelude.{◌≡◌, ◌≤◌, length};
ghost use Rattle.image_update.specs.Layout.{size_of, key_in, facing};

use crate::numbers::{front_double, front_long};

/// What the units of a part of a front are.
#[derive(Clone, Copy)]
pub(crate) enum Kind {
    /// 64 bytes of the header. All of its numbers are in the first.
    Head,
    /// A frame's word.
    Word,
    Block,
    Row,
    Span,
    AuditRow,
}

impl Kind {
    /// How many bytes a unit has.
    pub(crate) fn size(self) -> usize
        ensures { result ≡ size_of self }
    {
        match self {
            Kind::Head => 64,
            Kind::Word => 8,
            Kind::Block => 512,
            Kind::Row => 40,
            Kind::Span => 24,
            Kind::AuditRow => 33,
        }
    }

    // What a unit is found by in the other front: a row by its object, a span by its object and its
    // first moment, an audit row by its moment.
    #[tactic(auto, unfolding(crate::specs::Layout::key_in))]
    fn key(self, unit: &[u8]) -> u128
        requires { size_of self ≤ length unit.now }
        ensures { result ≡ key_in self unit.now }
    {
        match self {
            Kind::Head | Kind::Word | Kind::Block => 0,
            Kind::Row | Kind::AuditRow => u128::from(front_long(unit)),
            Kind::Span => front_double(unit),
        }
    }

    /// How many bytes of the old front face how many of the new one, where both begin with a unit.
    /// A unit whose key is the lesser went or came, and faces nothing.
    pub(crate) fn facing(self, old: &[u8], new: &[u8]) -> (usize, usize)
        requires old { size_of self ≤ length old.now }
        requires new { size_of self ≤ length new.now }
        ensures { result ≡ facing self old.now new.now }
    {
        let size = self.size();
        let before = self.key(old);
        let now = self.key(new);
        if before < now {
            (size, 0)
        } else if now < before {
            (0, size)
        } else {
            (size, size)
        }
    }
}

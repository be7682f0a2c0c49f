//! A session of a drive.
ghost use Rattle.std.specs.Prelude.{◌≡◌};

use s4_types::Role;
use segment_word::Naming;
use segment_word::accepts::SessionSeat;
use std::marker::Model;

/// A session of a drive: what it was told of the drive's history, and what it may do. Contracts see
/// both. Dropping it gives its seat back.
pub struct Session<J: Naming> {
    pub(crate) seat: SessionSeat<J>,
    pub(crate) role: Role,
}

// Written by hand, so that an owner lets it go by one call.
impl<J: Naming> Drop for Session<J> {
    fn drop(self) {
        let Session { seat: _, role: _ } = self;
    }
}

impl<J: Naming> Model for Session<J> {
    ghost use Rattle.drive.specs.Fields.{SessionFields};

    ghost Value = { SessionFields };

    ghost view = { λ s. record { told = s.seat; role = s.role } };
}

impl<J: Naming> Session<J> {
    /// What it may do.
    pub fn role(&self) -> Role
        ensures { result ≡ self.now.role }
    {
        self.role
    }

    /// Its seat alone, with all that the session has seen.
    pub(crate) fn into_seat(self) -> SessionSeat<J>
        ensures { result ≡ self.told }
    {
        let Session { seat, role: _ } = self;
        seat
    }
}

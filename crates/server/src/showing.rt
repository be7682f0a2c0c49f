//! What may be done with a shared drive beside requests and upkeep.
ghost use Rattle.std.specs.Prelude.{◌≡◌, ◌-◌, ◌^◌, min};
ghost use Rattle.segment_word.specs.AcceptViews.{count_of};

use drive::{Drive, Session};
use segment_word::Naming;

/// What is done with a drive while its lock is held, which leaves the drive as it is.
pub trait Visit<J: Naming> {
    ghost use Rattle.drive.specs.Fields.{DriveFields, SessionFields};

    type Given;

    /// What is given of a drive, by what the session was before and after.
    ghost gives: { Self → DriveFields → SessionFields → SessionFields → Self.Given → Type 0 };

    /// `number` is how many changes were accepted in the drive's history. It stops at its last
    /// number.
    fn visit(&self, drive: &mut Drive<J>, session: &mut Session<J>, number: u64) -> Self::Given
        requires { number ≡ min (count_of drive.old.ledger) (2 ^ 64 - 1) }
        ensures gives { gives self.now drive.old session.old session.new result }
        ensures same { drive.new ≡ drive.old };
}

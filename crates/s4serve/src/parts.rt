//! Parts of the books of a service, one for each session.
ghost use Rattle.std.specs.Prelude.{◌≡◌, ◌<◌, IfSome};
ghost use Rattle.server.specs.Accounts.{one_part};

use server::{Part, Running};

/// How many parts the books of a service have: one for each session, however many come.
pub const ALL_PARTS: u64 = u64::MAX;

/// A part of the books for one session, on which nothing is counted yet, and its number. No two
/// have the same number, and nothing but `Parts` makes one.
#[derive(Drop)]
pub struct OwnPart<J: Running> {
    number: u64,
    part: Part<J>,
    ghost one: { part ≡ one_part },
}

impl<J: Running> OwnPart<J> {
    pub(crate) fn number(&self) -> u64
        ensures { result ≡ self.now.number }
    {
        self.number
    }

    /// The part itself.
    pub(crate) fn into_part(self) -> Part<J>
        ensures { result ≡ one_part }
    {
        let OwnPart { number: _, part } = self;
        part
    }
}

/// The parts that no session has had yet. They take no memory.
#[derive(Drop)]
pub struct Parts<J: Running> {
    rest: Part<J>,
    /// How many more are given.
    left: u64,
    ghost enough: { left < rest.parts },
}

impl<J: Running> Parts<J> {
    /// All parts of the books of a service.
    pub fn new(all: Part<J>) -> Self
        requires { all.parts ≡ ALL_PARTS }
    {
        Parts {
            rest: all,
            left: ALL_PARTS - 1,
        }
    }

    /// A part for one session, by a number below those of all before. None once all are given,
    /// which no service lives to see.
    pub fn one(&mut self) -> Option<OwnPart<J>>
        ensures below { IfSome result (λ own. own.number < self.old.left) }
        ensures number { IfSome result (λ own. own.number ≡ self.new.left) }
    {
        if self.left == 0 {
            return None;
        }
        self.left -= 1;
        let part = self.rest.split();
        Some(OwnPart {
            number: self.left,
            part,
        })
    }
}

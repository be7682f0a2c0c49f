//! The books of a run, in proofs alone: how many requests were answered, and how many changes
//! accepted. The sessions of a run have a part of them each, and only with a part is a request
//! answered. So what the drive has come to is what its sessions asked, once all parts are together
//! again.
ghost use Rattle.std.specs.Prelude.{◌≡◌, ℕ, ◌+◌, ◌-◌, ◌<◌, ◌≤◌, Bool, cond};
ghost use Rattle.server.specs.Accounts.{one_part, counted};

use segment_word::Naming;
use std::marker::{Brand, Model, PhantomData};
use std::sync::ledger::{Blank, Book, Ledger, Share};

/// Which run it is, and what its drive begins with. As a ledger it is that of the changes that were
/// accepted. Each call that begins a run picks it, with `Brand`.
pub trait Running: Naming + Ledger {
    ghost use Rattle.std.specs.Prelude.{ℕ, Bool, List};
    ghost use Rattle.drive.specs.Fields.{DriveFields};

    /// What holds of the drive before its sessions.
    ghost begins: { DriveFields → Type 0 };

    /// These moments, in this order, may be drawn for the requests that are answered.
    ghost moments: { List ℕ → Type 0 };

    /// Whether cleaner and copier may be beside the sessions.
    ghost has_upkeep: { Bool };

    /// The ledger of the requests that were answered.
    ghost asked: { ℕ };

    /// How many blocks of room clients leave to administrators.
    ghost reserve: { ℕ };
}

impl Running for Brand {
    ghost use Rattle.std.specs.Prelude.{⊤, false};

    ghost begins = { λ _. ⊤ };

    ghost moments = { λ _. ⊤ };

    ghost has_upkeep = { false };

    ghost asked = { 0 };

    ghost reserve = { 0 };
}

/// The ledger of the requests that were answered in a run.
pub struct Asked<J: Running> {
    of: PhantomData<J>,
}

impl<J: Running> Ledger for Asked<J> {
    ghost name = { J.asked };

    ghost parts = { J.parts };
}

/// Two ledgers that no run has yet. Contracts see their names, and into how many parts each is cut.
pub struct Blanks {
    requests: Blank,
    changes: Blank,
}

// Written by hand, so that an owner lets it go by one call.
impl Drop for Blanks {
    fn drop(self) {
        let Blanks {
            requests: _,
            changes: _,
        } = self;
    }
}

impl Model for Blanks {
    ghost use Rattle.std.specs.Prelude.{◌≡◌};
    ghost use Rattle.server.specs.Accounts.{BlankFields};

    ghost Value = { BlankFields };

    ghost view = { λ b. record { requests = b.requests.name; changes = b.changes.name; parts = b.changes.parts } };

    ghost invariant = { λ b. b.requests.parts ≡ b.changes.parts };
}

impl Blanks {
    /// Two ledgers, of this many parts.
    pub fn new(parts: u64) -> Self
        ensures { result.parts ≡ parts }
    {
        Blanks {
            requests: Blank::new(parts),
            changes: Blank::new(parts),
        }
    }

    /// The books of a run, in which nothing is counted yet, and all parts of them.
    pub(crate) fn open<J: Running>(self) -> (Books<J>, Part<J>)
        requires requests { self.requests ≡ J.asked }
        requires changes { self.changes ≡ J.name }
        requires parts { self.parts ≡ J.parts }
        ensures books { result.0 ≡ record { requests = 0; changes = 0 } }
        ensures part { result.1 ≡ record { parts = J.parts; requests = 0; changes = 0 } }
    {
        let Blanks { requests, changes } = self;
        let (asked, all_asked) = requests.open::<Asked<J>>();
        let (accepted, all_accepted) = changes.open::<J>();
        (
            Books {
                requests: asked,
                changes: accepted,
            },
            Part {
                requests: all_asked,
                changes: all_accepted,
            },
        )
    }
}

/// The books of a run. Contracts see what they come to.
pub(crate) struct Books<J: Running> {
    requests: Book<Asked<J>>,
    changes: Book<J>,
}

// Written by hand, so that an owner lets it go by one call.
impl<J: Running> Drop for Books<J> {
    fn drop(self) {
        let Books {
            requests: _,
            changes: _,
        } = self;
    }
}

impl<J: Running> Model for Books<J> {
    ghost use Rattle.server.specs.Accounts.{BookFields};

    ghost Value = { BookFields };

    ghost view = { λ b. record { requests = b.requests.total; changes = b.changes.total } };
}

impl<J: Running> Books<J> {
    /// A request was answered to who has this part, and it was a change that was accepted, or not.
    pub(crate) fn count(&mut self, part: &mut Part<J>, is_accepted: bool)
        requires { 0 < part.old.parts }
        ensures books { self.new ≡ record { requests = self.old.requests + 1; changes = self.old.changes + cond is_accepted 1 0 } }
        ensures part { part.new ≡ counted part.old is_accepted }
        ensures bound { part.old.requests ≤ self.old.requests }
    {
        self.requests.audit(&mut part.requests);
        self.requests.add(&mut part.requests, 1);
        self.changes.add(&mut part.changes, is_accepted as u64);
    }

    /// All parts together have what the books come to.
    pub(crate) fn audit(&mut self, all: &mut Part<J>)
        requires { all.old.parts ≡ J.parts }
        ensures requests { self.old.requests ≡ all.old.requests }
        ensures changes { self.old.changes ≡ all.old.changes }
    {
        self.requests.audit(&mut all.requests);
        self.changes.audit(&mut all.changes);
    }
}

/// Some parts of a run's books. Contracts see how many, and what is counted on them.
pub struct Part<J: Running> {
    requests: Share<Asked<J>>,
    changes: Share<J>,
}

// Written by hand, so that an owner lets it go by one call.
impl<J: Running> Drop for Part<J> {
    fn drop(self) {
        let Part {
            requests: _,
            changes: _,
        } = self;
    }
}

impl<J: Running> Model for Part<J> {
    ghost use Rattle.std.specs.Prelude.{◌≡◌};
    ghost use Rattle.server.specs.Accounts.{PartFields};

    ghost Value = { PartFields };

    ghost view = { λ p. record { parts = p.changes.parts; requests = p.requests.amount; changes = p.changes.amount } };

    ghost invariant = { λ p. p.requests.parts ≡ p.changes.parts };
}

impl<J: Running> Part<J> {
    /// One of these parts, on which nothing is counted yet.
    pub fn split(&mut self) -> Part<J>
        requires { 1 < self.old.parts }
        ensures one { result ≡ one_part }
        ensures rest { self.new ≡ record self.old { parts = self.old.parts - 1 } }
    {
        Part {
            requests: self.requests.split_off(1, 0),
            changes: self.changes.split_off(1, 0),
        }
    }

    /// These parts and others.
    pub fn merge(&mut self, other: Part<J>)
        ensures { self.new ≡ record { parts = self.old.parts + other.parts; requests = self.old.requests + other.requests; changes = self.old.changes + other.changes } }
    {
        let Part { requests, changes } = other;
        self.requests.merge(requests);
        self.changes.merge(changes);
    }
}

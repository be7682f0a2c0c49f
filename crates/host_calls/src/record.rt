//! A list of calls that only clauses read.
ghost use Rattle.std.specs.Prelude.{◌≡◌, List, [], ◌∷◌};
ghost use Rattle.std.specs.Borrow.{ftrue};
ghost use Rattle.host_calls.specs.Events.{Event};
ghost use Rattle.host_calls.specs.Note.{event_of};

use std::marker::{Model, PhantomData};

/// The calls so far, the newest first. It has no bytes.
#[derive(Drop)]
pub struct Record {
    marker: PhantomData<u8>,
    pub ghost events: { List Event },
}

impl Model for Record {
    ghost also_owns = { λ _. ftrue };
}

impl Record {
    /// No calls yet.
    pub(crate) fn new() -> Record
        ensures { result.events ≡ [] }
    {
        Record {
            marker: PhantomData,
        }
    }

    /// Notes a call: its kind, the number of a file, an offset or a length, and its answer; and then
    /// the bytes of up to two texts.
    pub(crate) fn note(&mut self, _numbers: &[u64], _first: &[u8], _second: &[u8])
        ensures { self.new.events ≡ event_of _numbers.now _first.now _second.now ∷ self.old.events }
    {}
}

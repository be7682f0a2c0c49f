//! A list that only clauses read.
ghost use Rattle.std.specs.Prelude.{◌≡◌, ℕ, List, [], ◌∷◌};
ghost use Rattle.std.specs.Borrow.{ftrue};

use std::marker::{Model, PhantomData};

/// What each write that failed was to write, the newest first. It has no bytes.
#[derive(Drop)]
pub struct Unwritten {
    marker: PhantomData<u8>,
    pub ghost writes: { List (List ℕ) },
}

impl Model for Unwritten {
    ghost also_owns = { λ _. ftrue };
}

impl Unwritten {
    /// No write has failed.
    pub(crate) fn new() -> Unwritten
        ensures { result.writes ≡ [] }
    {
        Unwritten {
            marker: PhantomData,
        }
    }

    /// Notes what a write that failed was to write.
    pub(crate) fn add(&mut self, _bytes: &[u8])
        ensures { self.new.writes ≡ _bytes.now ∷ self.old.writes }
    {}
}

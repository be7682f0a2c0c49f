//! What shows that a service has come to its end.
ghost use Rattle.std.specs.Prelude.{◌≡◌};

use std::marker::PhantomData;

/// What shows that a monitor of receipts `T` has come to its end: it gives none any more, and nobody
/// flushes but whoever has this. Nothing but `Monitor::end` makes one.
#[derive(Drop)]
pub struct Over<T> {
    of: PhantomData<T>,
}

impl<T> Over<T> {
    pub(crate) fn new() -> Self {
        Over { of: PhantomData }
    }
}

/// What a service ended with. Nothing but `Monitor::end` makes one, after its last flush.
#[derive(Drop)]
pub struct Ended<U, S> {
    kept: U,
    by: S,
}

impl<U, S> Ended<U, S> {
    pub(crate) fn new(kept: U, by: S) -> Self
        ensures { (result.kept ≡ kept) × (result.by ≡ by) }
    {
        Ended { kept, by }
    }

    /// What the last flush gave.
    pub fn kept(&self) -> &U
        ensures { result.now ≡ self.now.kept }
    {
        &self.kept
    }

    /// Who asked for the end, before anybody else did.
    pub fn by(&self) -> &S
        ensures { result.now ≡ self.now.by }
    {
        &self.by
    }
}

//! What a session waits for before its replies go out.
ghost use Rattle.std.specs.Prelude.{ℕ, Bool, OnErr, OnOk, false, true};
ghost use Rattle.batch_serving.specs.Waiting.{HasWaited};

use group_commit::{Flush, Monitor, NotKept, Receipt, Steps};
use std::sync::Wait;
use std::time::Clock;

/// A backend whose last step is known.
pub trait Step {
    // This number of changes was accepted then, and the clock was there.
    ghost is_at: { Self → ℕ → ℕ → Type 0 };

    /// The number of accepted changes, and the clock.
    fn place(&self) -> (u64, u64)
        ensures { is_at self.now result.0 result.1 };
}

/// What waits until all that a backend has done is kept.
pub trait Keeping<B> {
    // From the first state it has waited for this backend, which is kept or isn't, and come to the
    // second.
    ghost waits: { Self → B → Bool → Self → Type 0 };

    /// Waits for the backend as it is now.
    fn await_kept(&mut self, backend: &B) -> Result<(), NotKept>
        ensures kept { OnOk result (waits self.old backend.now true self.new) }
        ensures failed { OnErr result (waits self.old backend.now false self.new) };
}

/// What waits at a monitor, and flushes where it is to.
#[derive(Drop)]
pub struct AtMonitor<'a, T, Q, R, F, S> {
    pub rt: &'a R,
    pub monitor: &'a Monitor<T, Q>,
    pub flusher: F,
    pub steps: &'a S,
    /// What it was given last.
    pub receipt: Option<T>,
}

impl<B: Step, T: Receipt + Drop, Q: Drop, R: Wait + Clock, F: Flush<T>, S: Steps> Keeping<B>
    for AtMonitor<'_, T, Q, R, F, S> {
    // Then it holds a receipt that covers the backend's last step.
    ghost waits = { λ old backend is_kept new.
        HasWaited B.is_at T.number T.reach is_kept backend old.receipt new.receipt };

    fn await_kept(&mut self, backend: &B) -> Result<(), NotKept> {
        let (number, clock) = backend.place();
        match self
            .monitor
            .await_kept(self.rt, &mut self.flusher, self.steps, number, clock)
        {
            Ok(receipt) => {
                self.receipt = Some(receipt);
                Ok(())
            }
            Err(error) => Err(error),
        }
    }
}

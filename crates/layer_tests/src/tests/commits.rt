//! Sessions that wait until their changes are kept, on threads that are held at steps: a store of
//! numbers that is flushed, and receipts of it.
ghost use Rattle.std.specs.Prelude.{◌≡◌};

mod batches;
mod gathered;
mod ordered;
mod stopping;

use group_commit::{Flush, FlushError, LastFlush, Monitor, NotKept, Over, Receipt, Steps};
use std::sync::{Mutex, Wait};
use std::time::Clock;

/// How far the moment of what is kept is ahead.
const AHEAD: u64 = 10;

/// How much is kept.
#[derive(Clone, Copy, Debug, PartialEq, Eq)]
struct Kept {
    number: u64,
    reach: u64,
}

/// Nothing is kept.
const NOTHING: Kept = Kept {
    number: 0,
    reach: 0,
};

/// Who stops a service here: anyone may.
#[derive(Clone, Copy)]
struct Anyone;

const ANYONE: Anyone = Anyone;

impl Receipt for Kept {
    ghost number = { λ k. k.number };

    ghost reach = { λ k. k.reach };

    fn number(&self) -> u64 {
        self.number
    }

    fn reach(&self) -> u64 {
        self.reach
    }

    fn again(&self) -> Self {
        *self
    }
}

/// What was accepted, and what becomes of flushes.
#[derive(Clone, Copy)]
struct Store {
    accepted: u64,
    clock: u64,
    flushes: u64,
    /// This number of flushes lack room before one doesn't.
    short: u64,
    announced: u64,
    /// Each flush fails.
    fails: bool,
}

impl Store {
    fn new(short: u64, fails: bool) -> Self {
        Store {
            accepted: 0,
            clock: 0,
            flushes: 0,
            short,
            announced: 0,
            fails,
        }
    }

    /// Accepts a change, and answers its number and the clock.
    fn accept(&mut self) -> (u64, u64) {
        self.accepted = self.accepted.saturating_add(1);
        self.clock = self.clock.saturating_add(7);
        (self.accepted, self.clock)
    }

    /// Keeps what was accepted.
    fn flush(&mut self) -> Result<Kept, FlushError> {
        if self.fails {
            return Err(FlushError::Failed);
        }
        if self.short > 0 {
            self.short -= 1;
            return Err(FlushError::Short);
        }
        self.flushes = self.flushes.saturating_add(1);
        Ok(Kept {
            number: self.accepted,
            reach: self.clock.saturating_add(AHEAD),
        })
    }

    fn announce(&mut self) {
        self.announced = self.announced.saturating_add(1);
    }
}

/// What flushes the store.
#[derive(Drop)]
struct Flusher<'a, R: Wait> {
    rt: &'a R,
    store: &'a Mutex<Store>,
}

impl<R: Wait> Flush<Kept> for Flusher<'_, R> {
    fn flush(&mut self) -> Result<Kept, FlushError> {
        self.store.lock(self.rt).flush()
    }

    fn announce_shortage(&mut self, _left: Option<u64>) {
        self.store.lock(self.rt).announce();
    }
}

/// What flushes it a last time.
#[derive(Drop)]
struct Last<'a, R: Wait> {
    rt: &'a R,
    store: &'a Mutex<Store>,
}

impl<R: Wait> LastFlush<Kept, ()> for Last<'_, R> {
    fn flush_last(&mut self, _over: &Over<Kept>) -> Result<(), FlushError> {
        match self.store.lock(self.rt).flush() {
            Ok(_) => Ok(()),
            Err(error) => Err(error),
        }
    }

    fn announce_shortage(&mut self, _left: Option<u64>) {
        self.store.lock(self.rt).announce();
    }
}

/// For this long a flush that lacks room is tried again once a service is to stop, in seconds.
const PATIENCE: u64 = 1;

/// A session accepts a change, and waits until it is kept. Answers whether its receipt covers it.
fn is_kept<R: Wait + Clock, S: Steps>(
    rt: &R,
    monitor: &Monitor<Kept, Anyone>,
    store: &Mutex<Store>,
    steps: &S,
) -> bool {
    let mut flusher = Flusher { rt, store };
    let (number, clock) = store.lock(rt).accept();
    match monitor.await_kept(rt, &mut flusher, steps, number, clock) {
        Ok(receipt) => receipt.number() >= number && receipt.reach() >= clock,
        Err(NotKept) => false,
    }
}

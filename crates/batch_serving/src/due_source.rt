//! A source that counts the replies that are due.
ghost use Rattle.std.specs.Prelude.{◌≡◌, ◌+◌, false};

use group_commit::{Monitor, Receipt};
use serving::{Source, StreamFailed};
use std::sync::Wait;

/// A source that gives no more bytes once the service is to stop. From the time that it gave some
/// until more are asked for, their replies are due.
#[derive(Drop)]
pub struct DueSource<'a, S, R, T, Q> {
    source: S,
    rt: &'a R,
    monitor: &'a Monitor<T, Q>,
    is_due: bool,
    /// How often it gave no more.
    refusals: u64,
}

impl<'a, S: Source, R: Wait, T: Receipt + Drop, Q: Drop> DueSource<'a, S, R, T, Q> {
    /// A source that gives what `source` does.
    pub fn new(source: S, rt: &'a R, monitor: &'a Monitor<T, Q>) -> Self
        ensures source { result.source ≡ source }
        ensures refusals { result.refusals ≡ 0 }
    {
        DueSource {
            source,
            rt,
            monitor,
            is_due: false,
            refusals: 0,
        }
    }

    /// The replies to what it gave are out, or never will be: to be called once the session has
    /// ended, too.
    pub fn end_replies(&mut self)
        ensures { self.new ≡ record self.old { is_due = false } }
    {
        if self.is_due {
            self.monitor.end_replies(self.rt);
            self.is_due = false;
        }
    }

    /// The replies to what it gives now are due.
    fn begin_replies(&mut self)
        ensures { self.new ≡ record self.old { is_due = self.new.is_due } }
    {
        self.monitor.begin_replies(self.rt);
        self.is_due = true;
    }
}

impl<S: Source, R: Wait, T: Receipt + Drop, Q: Drop> Source for DueSource<'_, S, R, T, Q> {
    ghost remaining = { λ s. S.remaining s.source };

    ghost failures = { λ s. S.failures s.source + s.refusals };

    ghost turns = { λ s. S.turns s.source };

    fn read(&mut self, into: &mut [u8]) -> Result<usize, StreamFailed> {
        self.end_replies();
        if !self.monitor.goes_on(self.rt) {
            self.refusals += 1;
            return Err(StreamFailed);
        }
        match self.source.read(into) {
            Ok(0) => Ok(0),
            Ok(count) => {
                self.begin_replies();
                Ok(count)
            }
            Err(error) => Err(error),
        }
    }
}

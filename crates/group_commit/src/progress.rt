//! What sessions wait for: one struct, which one lock guards.
ghost use Rattle.std.specs.Prelude.{◌≡◌, ◌≢◌, ◌+◌, ◌-◌, ◌^◌, ◌||◌, ◌&&◌, ◌==◌, true, false, not, min};
ghost use Rattle.std.specs.Prelude.{nat_le, None, Some, IfErr, IfOk, if◌then◌else◌, is_some};
ghost use Rattle.group_commit.specs.Commit.{covers, later_of, left_after, shortage_of, turn_of};
ghost use Rattle.group_commit.specs.private.Ending.{first_of, is_stopped, may_end};

use crate::flush::{FlushError, Receipt};

/// What a session is to do that waits until its change is kept.
#[derive(Clone, Copy, PartialEq, Eq)]
pub(crate) enum Turn {
    /// What is kept covers it: it goes on.
    Covered,
    /// It is given no receipt: a flush has failed, or the service has ended.
    Failed,
    /// It flushes.
    Flushes,
    /// Somebody flushes.
    Waits,
}

/// What is to be done where a flush lacked memory or space.
#[derive(Clone, Copy, PartialEq, Eq)]
pub(crate) enum Shortage {
    /// The one before didn't, so it is announced, and tried again: so often at most, where the
    /// service is to stop.
    Begins(Option<u64>),
    /// It is tried again.
    GoesOn,
    /// It was tried often enough.
    IsOver,
}

/// How far everything is kept, and who is to flush.
///
/// **The rule of every wait.** Whoever waits, waits for a predicate of this struct alone, in a loop
/// over it under the struct's lock. Whoever changes the struct does so under that lock, and
/// notifies the one condition variable after that, where the change may end a wait. For sessions
/// and clients that may never come, a wait has a limit. Whoever holds the lock takes no other, and
/// nobody asks for it with the drive's lock held.
///
/// **The end.** Once `has_ended` nobody is given a receipt, also for what an earlier one covers:
/// what is kept then may be at a lower clock than that. Whoever was given one before had taken its
/// step before, so whoever collects the drive afterwards finds it at no lower clock than that step.
#[derive(Drop)]
pub(crate) struct Progress<T, S> {
    /// What shows how much is kept.
    pub kept: T,
    /// Somebody flushes.
    pub is_flushing: bool,
    /// A flush has failed.
    pub has_failed: bool,
    /// The last flush lacked memory or space, which was announced.
    pub is_short: bool,
    /// Replies that are due: their requests were taken up.
    pub due: u64,
    /// Those of them that are being sent: a receipt covers them, and their client may never read.
    pub sending: u64,
    /// What shows who has asked that no request is taken up any more, where somebody has.
    pub stopped_by: Option<S>,
    /// How often a flush that lacks memory or space is tried again at most, once that is so.
    pub left: u64,
    /// What is kept at the end is collected, and no receipt is given any more.
    pub has_ended: bool,
    /// Flushes that have ended well.
    pub round: u64,
    /// Sessions that wait for the one that flushes, and have looked since the last flush ended.
    pub waiting: u64,
    /// How many did when the last flush ended. The next one waits a moment until there are as many.
    pub expected: u64,
}

impl<T: Receipt + Drop, S: Drop> Progress<T, S> {
    /// Before the first request.
    pub(crate) fn new(kept: T, left: u64) -> Self
        ensures { result
            ≡ record { kept = kept; is_flushing = false; has_failed = false; is_short = false; due = 0; sending = 0; stopped_by = None; left = left; has_ended = false; round = 0; waiting = 0; expected = 0 } }
    {
        Progress {
            kept,
            is_flushing: false,
            has_failed: false,
            is_short: false,
            due: 0,
            sending: 0,
            stopped_by: None,
            left,
            has_ended: false,
            round: 0,
            waiting: 0,
            expected: 0,
        }
    }

    /// Whether a receipt covers this number of changes and this moment.
    fn is_enough(receipt: &T, number: u64, clock: u64) -> bool
        ensures { result ≡ covers T.number T.reach receipt.now number clock }
    {
        number <= receipt.number() && clock <= receipt.reach()
    }

    /// What a session is to do that has seen this number of changes, and has read the drive at this
    /// clock.
    pub(crate) fn turn(&self, number: u64, clock: u64) -> Turn
        ensures { result ≡ turn_of self.now.has_ended
            (covers T.number T.reach self.now.kept number clock)
            self.now.has_failed self.now.is_flushing }
    {
        if self.has_ended {
            Turn::Failed
        } else if Self::is_enough(&self.kept, number, clock) {
            Turn::Covered
        } else if self.has_failed {
            Turn::Failed
        } else if self.is_flushing {
            Turn::Waits
        } else {
            Turn::Flushes
        }
    }

    /// Somebody flushes from now on.
    pub(crate) fn begin_flush(&mut self)
        requires alone { self.old.is_flushing ≡ false }
        requires well { self.old.has_failed ≡ false }
        requires open { self.old.has_ended ≡ false }
        ensures { self.new ≡ record self.old { is_flushing = true } }
    {
        self.is_flushing = true;
    }

    /// A session waits for the one that flushes. `counted` is the round in which it was counted
    /// last, and it is once in each. Answers whether it is the last one that was expected.
    pub(crate) fn count_wait(&mut self, counted: &mut Option<u64>) -> bool
        ensures counted { counted.new ≡ Some self.old.round }
        ensures again { counted.old ≡ Some self.old.round
            → (self.new ≡ self.old) × (result ≡ false) }
        ensures first { counted.old ≢ Some self.old.round
            → (self.new ≡ record self.old { waiting = min (self.old.waiting + 1) (2 ^ 64 - 1) })
            × (result ≡ self.new.waiting == self.old.expected) }
    {
        if *counted == Some(self.round) {
            return false;
        }
        *counted = Some(self.round);
        self.waiting = self.waiting.saturating_add(1);
        self.waiting == self.expected
    }

    /// It goes on, and isn't counted any more. Where a flush has ended since it was, nobody is who
    /// waited for that one.
    pub(crate) fn end_wait(&mut self, counted: Option<u64>)
        ensures now { counted ≡ Some self.old.round
            → self.new ≡ record self.old { waiting = self.old.waiting - 1 } }
        ensures before { counted ≢ Some self.old.round → self.new ≡ self.old }
    {
        if counted == Some(self.round) {
            self.waiting = self.waiting.saturating_sub(1);
        }
    }

    /// Whether as many sessions wait as are expected.
    pub(crate) fn is_gathered(&self) -> bool
        ensures { result ≡ nat_le self.now.expected self.now.waiting }
    {
        self.expected <= self.waiting
    }

    /// The flush has ended well. Whoever waited for it is expected at the next one, and isn't
    /// counted before it waits for that.
    pub(crate) fn keep(&mut self, receipt: T)
        ensures { self.new ≡ record self.old {
          kept = later_of T.number T.reach self.old.kept receipt;
          is_flushing = false;
          is_short = false;
          round = min (self.old.round + 1) (2 ^ 64 - 1);
          waiting = 0;
          expected = self.old.waiting;
        } }
    {
        if Self::is_enough(&receipt, self.kept.number(), self.kept.reach()) {
            self.kept = receipt;
        }
        self.is_flushing = false;
        self.is_short = false;
        self.round = self.round.saturating_add(1);
        self.expected = self.waiting;
        self.waiting = 0;
    }

    /// The flush lacked memory or space. It is tried again by the one who flushes; or has failed,
    /// where the service is to stop and it was tried often enough since then.
    pub(crate) fn put_off(&mut self) -> Shortage
        ensures shortage { result
            ≡ shortage_of (is_stopped self.old.stopped_by self.old.has_ended) self.old.is_short self.old.left }
        ensures over { result ≡ Shortage.IsOver
            → self.new ≡ record self.old { is_short = true; has_failed = true; is_flushing = false } }
        ensures again { result ≢ Shortage.IsOver → self.new ≡ record self.old {
          is_short = true;
          left = left_after (is_stopped self.old.stopped_by self.old.has_ended) self.old.left;
        } }
    {
        let was_short = self.is_short;
        self.is_short = true;
        if self.is_stopping() && self.left == 0 {
            self.end_badly(true);
            return Shortage::IsOver;
        }
        let left = self.count_again();
        if was_short {
            Shortage::GoesOn
        } else {
            Shortage::Begins(left)
        }
    }

    /// A flush is tried again. Answers how often that may be, where the service is to stop.
    fn count_again(&mut self) -> Option<u64>
        ensures left { result ≡ if is_stopped self.old.stopped_by self.old.has_ended then Some self.old.left else None }
        ensures counted { self.new
            ≡ record self.old { left = left_after (is_stopped self.old.stopped_by self.old.has_ended) self.old.left } }
    {
        if !self.is_stopping() {
            return None;
        }
        let left = self.left;
        self.left = left.saturating_sub(1);
        Some(left)
    }

    /// The flush has failed.
    pub(crate) fn fail(&mut self)
        ensures { self.new
            ≡ record self.old { has_failed = true; is_flushing = false; is_short = false } }
    {
        self.end_badly(false);
    }

    /// The flush has failed, or lacked memory or space too often.
    fn end_badly(&mut self, is_short: bool)
        ensures { self.new
            ≡ record self.old { has_failed = true; is_flushing = false; is_short = is_short } }
    {
        self.has_failed = true;
        self.is_flushing = false;
        self.is_short = is_short;
    }

    /// Whether no request is to be taken up any more.
    fn is_stopping(&self) -> bool
        ensures { result ≡ is_stopped self.now.stopped_by self.now.has_ended }
    {
        self.stopped_by.is_some() || self.has_ended
    }

    /// Whether another request may be taken up: not where the service is to stop, or a flush has
    /// failed.
    pub(crate) fn goes_on(&self) -> bool
        ensures { result ≡ not (is_stopped self.now.stopped_by self.now.has_ended || self.now.has_failed) }
    {
        !(self.is_stopping() || self.has_failed)
    }

    /// Requests were taken up, and their replies are due.
    pub(crate) fn begin_replies(&mut self)
        ensures { self.new ≡ record self.old { due = min (self.old.due + 1) (2 ^ 64 - 1) } }
    {
        self.due = self.due.saturating_add(1);
    }

    /// Those replies are out, or never will be.
    pub(crate) fn end_replies(&mut self)
        ensures { self.new ≡ record self.old { due = self.old.due - 1 } }
    {
        self.due = self.due.saturating_sub(1);
    }

    /// A receipt covers replies, and they are being sent. Answers whether that may end a wait.
    pub(crate) fn begin_sending(&mut self) -> bool
        ensures counted { self.new
            ≡ record self.old { sending = min (self.old.sending + 1) (2 ^ 64 - 1) } }
        ensures news { result ≡ is_stopped self.old.stopped_by self.old.has_ended }
    {
        self.sending = self.sending.saturating_add(1);
        self.is_stopping()
    }

    /// They are out, or will never be.
    pub(crate) fn end_sending(&mut self)
        ensures { self.new ≡ record self.old { sending = self.old.sending - 1 } }
    {
        self.sending = self.sending.saturating_sub(1);
    }

    /// No request is to be taken up from now on, as one asks who may: the first one is noted.
    /// That memory or space is short is announced once more, as it is waited for only so long.
    pub(crate) fn stop(&mut self, by: S)
        ensures { self.new ≡ record self.old {
          stopped_by = first_of self.old.stopped_by by;
          is_short = self.old.is_short && is_stopped self.old.stopped_by self.old.has_ended;
        } }
    {
        self.is_short = self.is_short && self.is_stopping();
        if self.stopped_by.is_none() {
            self.stopped_by = Some(by);
        }
    }

    /// No receipt is given from now on. Answers who asked for the end, or what became of the flush
    /// that failed.
    pub(crate) fn end(&mut self) -> Result<S, FlushError>
        requires { may_end self.old.has_failed (is_some self.old.stopped_by) self.old.is_flushing
            self.old.due self.old.sending ≡ true }
        ensures ended { self.new ≡ record self.old { has_ended = true; stopped_by = None } }
        ensures well { IfOk result
            (λ by. (self.old.has_failed ≡ false) × (self.old.stopped_by ≡ Some by)) }
        ensures fault { IfErr result (λ why. (self.old.has_failed ≡ true)
            × (why ≡ if self.old.is_short then FlushError.Short else FlushError.Failed)) }
    {
        self.has_ended = true;
        let by = self.stopped_by.take();
        match (self.has_failed, self.is_short) {
            (true, true) => return Err(FlushError::Short),
            (true, false) => return Err(FlushError::Failed),
            (false, _) => {}
        }
        match by {
            Some(by) => Ok(by),
            None => unreachable!(),
        }
    }

    /// Whether the service has come to its end: a flush has failed; or it is to stop, no reply is
    /// due, and nobody flushes.
    pub(crate) fn is_over(&self) -> bool
        ensures { result ≡ self.now.has_failed
            || (is_stopped self.now.stopped_by self.now.has_ended && (self.now.due == 0) && not self.now.is_flushing) }
    {
        self.has_failed || (self.is_stopping() && self.due == 0 && !self.is_flushing)
    }

    /// Whether it may end though some don't read their replies: a flush has failed; or it is to
    /// stop, nobody flushes, and each reply that is due is being sent.
    pub(crate) fn may_end(&self) -> bool
        ensures { result ≡ may_end self.now.has_failed (is_some self.now.stopped_by)
            self.now.is_flushing self.now.due self.now.sending }
    {
        self.has_failed
            || (self.stopped_by.is_some() && self.due <= self.sending && !self.is_flushing)
    }
}

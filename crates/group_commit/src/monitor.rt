//! The lock of what sessions wait for, and its one condition variable. Each private method is one
//! section of the lock.
ghost use Rattle.std.specs.Prelude.{◌≡◌, IfOk, not, true};
ghost use Rattle.std.specs.Sync.Mutex.{mutex_guard_value};
ghost use Rattle.group_commit.specs.Commit.{Covers};
ghost use Rattle.group_commit.specs.private.Last.{may_end_by};
ghost use Rattle.group_commit.specs.private.Given.{IsGiven};

use crate::flush::{CommitStep, Flush, FlushError, LastFlush, NotKept, Receipt, Steps};
use crate::over::{Ended, Over};
use crate::progress::{Progress, Shortage, Turn};
use std::sync::{Condvar, CondvarTimeouts, Mutex, MutexGuard, Wait};
use std::thread::sleep;
use std::time::{Clock, Duration};

/// How long a flush is put off that lacked memory or space, in seconds.
const PAUSE_SECONDS: u64 = 1;

/// How long a flush waits at most for sessions that waited for the one before, in milliseconds:
/// these were just answered, and would else come too late for it.
const GATHERING_MILLISECONDS: u64 = 2;

/// How long the end of the service waits for replies that are due, in seconds: a client may never
/// read its own.
const DUE_SECONDS: u64 = 1;

/// What a session was given that asked.
enum Given<T> {
    /// What covers it.
    Receipt(T),
    /// Nothing: a flush has failed, or the service has ended.
    NotKept,
    /// It is to flush.
    ToFlush,
}

/// What sessions wait at until their changes are kept. A `Q` shows that whoever asks for the end
/// may.
#[derive(Drop)]
pub struct Monitor<T, Q> {
    progress: Mutex<Progress<T, Q>>,
    /// Whoever waits is woken by this.
    news: Condvar,
}

impl<T: Receipt + Drop, Q: Drop> Monitor<T, Q> {
    /// A monitor where this is kept, and no request was taken up. Once the service is to stop, a
    /// flush that lacks memory or space is tried again for `patience`, in seconds, and a little
    /// longer as flushes take time.
    pub fn new(kept: T, patience: u64) -> Self {
        Monitor {
            progress: Mutex::new(Progress::new(kept, patience / PAUSE_SECONDS)),
            news: Condvar::new(),
        }
    }

    /// Waits until this number of changes is kept, and what is kept has this clock at least: by
    /// flushing, where nobody does. No lock is held during a flush. One that lacks memory or space
    /// is tried again each second. Once the service has ended it answers NotKept, whatever is kept.
    pub fn await_kept<R: Wait + Clock, F: Flush<T>, S: Steps>(
        &self,
        rt: &R,
        flusher: &mut F,
        steps: &S,
        number: u64,
        clock: u64,
    ) -> Result<T, NotKept>
        ensures covered { IfOk result (λ receipt. Covers T.number T.reach receipt number clock) }
    {
        for _ in rt.forever() {
            steps.before(CommitStep::Asks);
            match self.ask(rt, number, clock) {
                Given::Receipt(receipt) => {
                    steps.before(CommitStep::GoesOn);
                    return Ok(receipt);
                }
                Given::NotKept => return Err(NotKept),
                Given::ToFlush => self.flush_for_all(rt, flusher, steps),
            }
        }
        unreachable!()
    }

    /// Waits while somebody flushes and what is kept doesn't do.
    fn ask(&self, rt: &impl Wait, number: u64, clock: u64) -> Given<T>
        ensures { IsGiven T.number T.reach result number clock }
    {
        let mut progress = self.progress.lock(rt);
        for _ in rt.forever() {
            match progress.turn(number, clock) {
                Turn::Covered => return Given::Receipt(progress.kept.again()),
                Turn::Failed => return Given::NotKept,
                Turn::Flushes => {
                    progress.begin_flush();
                    return Given::ToFlush;
                }
                Turn::Waits => progress = self.await_turn(rt, progress, number, clock),
            }
        }
        unreachable!()
    }

    /// Waits, as one of those that whoever flushes may wait for, until it needn't any more.
    fn await_turn<'a>(
        &'a self,
        rt: &impl Wait,
        progress: MutexGuard<'a, Progress<T, Q>>,
        number: u64,
        clock: u64,
    ) -> MutexGuard<'a, Progress<T, Q>> {
        let mut counted = None;
        let mut progress = self.news.wait_while(rt, progress, |progress| {
            let waits = progress.turn(number, clock) == Turn::Waits;
            if waits && progress.count_wait(&mut counted) {
                self.news.notify_all();
            }
            waits
        });
        progress.end_wait(counted);
        progress
    }

    /// Waits until as many sessions wait as did when the last flush ended, a moment at most. So
    /// those that it answered share the next one, where two groups would else take turns.
    fn gather<R: Wait + Clock>(&self, rt: &R) {
        let progress = self.progress.lock(rt);
        let most = Duration::from_millis(GATHERING_MILLISECONDS);
        let _ = self
            .news
            .wait_timeout_while(rt, progress, most, |progress| !progress.is_gathered());
    }

    /// Gathers others, and flushes until a flush ends well, fails, or is given up.
    fn flush_for_all<R: Wait + Clock, F: Flush<T>, S: Steps>(
        &self,
        rt: &R,
        flusher: &mut F,
        steps: &S,
    ) {
        steps.before(CommitStep::Gathers);
        self.gather(rt);
        for _ in rt.forever() {
            steps.before(CommitStep::Flushes);
            match flusher.flush() {
                Ok(receipt) => {
                    steps.before(CommitStep::Keeps);
                    self.keep(rt, receipt);
                    return;
                }
                Err(FlushError::Failed) => {
                    steps.before(CommitStep::Fails);
                    self.fail(rt);
                    return;
                }
                Err(FlushError::Short) => {
                    steps.before(CommitStep::PutsOff);
                    match self.put_off(rt) {
                        Shortage::IsOver => return,
                        Shortage::Begins(left) => flusher.announce_shortage(left),
                        Shortage::GoesOn => {}
                    }
                    sleep(rt, Duration::from_secs(PAUSE_SECONDS));
                }
            }
        }
    }

    /// A flush has ended well.
    fn keep(&self, rt: &impl Wait, receipt: T) {
        self.progress.lock(rt).keep(receipt);
        self.news.notify_all();
    }

    /// A flush has failed.
    fn fail(&self, rt: &impl Wait) {
        self.progress.lock(rt).fail();
        self.news.notify_all();
    }

    /// A flush lacked memory or space. Answers what is to be done for that.
    fn put_off(&self, rt: &impl Wait) -> Shortage {
        let shortage = self.progress.lock(rt).put_off();
        if shortage == Shortage::IsOver {
            self.news.notify_all();
        }
        shortage
    }

    /// Whether another request may be taken up: not where the service is to stop, or a flush has
    /// failed.
    pub fn goes_on(&self, rt: &impl Wait) -> bool {
        self.progress.lock(rt).goes_on()
    }

    /// How many sessions wait for the one that flushes.
    pub fn waiting(&self, rt: &impl Wait) -> u64 {
        self.progress.lock(rt).waiting
    }

    /// Requests were taken up, and their replies are due.
    pub fn begin_replies(&self, rt: &impl Wait) {
        self.progress.lock(rt).begin_replies();
    }

    /// Those replies are out, or never will be.
    pub fn end_replies(&self, rt: &impl Wait) {
        self.progress.lock(rt).end_replies();
        self.news.notify_all();
    }

    /// Replies that are due are being sent, which a receipt covers.
    pub fn begin_sending(&self, rt: &impl Wait) {
        let is_news = self.progress.lock(rt).begin_sending();
        if is_news {
            self.news.notify_all();
        }
    }

    /// They are out, or never will be.
    pub fn end_sending(&self, rt: &impl Wait) {
        self.progress.lock(rt).end_sending();
    }

    /// No request is to be taken up from now on, as one asks who may. One that was may still be
    /// answered.
    pub fn stop(&self, rt: &impl Wait, by: Q) {
        self.progress.lock(rt).stop(by);
        self.news.notify_all();
    }

    /// Waits until a flush has failed; or the service is to stop, nobody flushes, and each reply
    /// that is due is out, or is being sent to who doesn't read it soon. Then no session is given a
    /// receipt any more, and after that all is flushed a last time: again each second where memory
    /// or space is short, as long as the service has patience.
    ///
    /// Gives what that flush gave, which shows that all is kept, and who asked for the end. It is
    /// called once. `Short`
    /// where the service has no patience left, now or in a flush of before; `Failed` where a flush
    /// failed.
    pub fn end<R: Wait + Clock, U: Drop, F: LastFlush<T, U>>(
        &self,
        rt: &R,
        last: &mut F,
    ) -> Result<Ended<U, Q>, FlushError> {
        let (by, over) = self.await_over(rt)?;
        for _ in rt.forever() {
            match last.flush_last(&over) {
                Ok(kept) => return Ok(Ended::new(kept, by)),
                Err(FlushError::Failed) => return Err(FlushError::Failed),
                Err(FlushError::Short) => {}
            }
            match self.put_off(rt) {
                Shortage::IsOver => return Err(FlushError::Short),
                Shortage::Begins(left) => last.announce_shortage(left),
                Shortage::GoesOn => {}
            }
            sleep(rt, Duration::from_secs(PAUSE_SECONDS));
        }
        unreachable!()
    }

    /// Waits until the service has come to its end, from which on no receipt is given. Answers who
    /// asked for that, or what became of the flush that failed, where one has.
    fn await_over<R: Wait + Clock>(&self, rt: &R) -> Result<(Q, Over<T>), FlushError> {
        let outcome = {
            let mut progress = self.await_last(rt);
            progress.end()
        };
        self.news.notify_all();
        match outcome {
            Ok(by) => Ok((by, Over::new())),
            Err(error) => Err(error),
        }
    }

    /// The struct once nothing more is waited for at the end of the service: for a reply that is
    /// being sent no longer than a moment, for all else as long as it takes.
    fn await_last<R: Wait + Clock>(&self, rt: &R) -> MutexGuard<'_, Progress<T, Q>>
        ensures { may_end_by (mutex_guard_value result) ≡ true }
    {
        let progress = self.progress.lock(rt);
        let progress = self
            .news
            .wait_while(rt, progress, |progress| progress.goes_on());
        let most = Duration::from_secs(DUE_SECONDS);
        let (progress, _) = self
            .news
            .wait_timeout_while(rt, progress, most, |progress| !progress.is_over());
        self.news.wait_while(
            rt,
            progress,
            |progress| -> bool
                ensures answer { result ≡ not (may_end_by progress.old) }
                ensures same { progress.new ≡ progress.old }
            { !progress.may_end() },
        )
    }
}

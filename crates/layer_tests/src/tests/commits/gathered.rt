//! Sessions that share their flushes, by a clock that stops: what is waited for comes, however long
//! that takes, and nobody waits for what doesn't come.
ghost use Rattle.std.specs.Prelude.{◌≡◌};

use crate::tests::commits::{Anyone, Kept, NOTHING, PATIENCE, Store, is_kept};
use group_commit::{CommitStep, Monitor, Open, Steps};
use std::io;
use std::process::Abort;
use std::sync::atomic::{AtomicBool, AtomicU64, Ordering};
use std::sync::{Mutex, Wait};
use std::thread::{Threads, join, yield_now};
use std::time::{Clock, Duration};

/// The changes of each session, each of which waits until the one before is kept.
const CHANGES: u64 = 20;

/// One flush may cover the first change of one session alone, and another the last of the other.
const FLUSHES: u64 = CHANGES + 1;

/// What a session waits by, and a clock that stops until a session has ended, and then is a second
/// ahead at each look.
#[derive(Drop)]
struct Stopped<'a, R: Wait> {
    rt: &'a R,
    has_ended: &'a AtomicBool,
    seconds: AtomicU64,
}

impl<R: Wait> Wait for Stopped<'_, R> {}

impl<R: Wait> Clock for Stopped<'_, R> {
    fn monotonic(&self) -> io::Result<Duration> {
        let more = u64::from(self.has_ended.load(Ordering::SeqCst));
        let seconds = self.seconds.fetch_add(more, Ordering::SeqCst);
        Ok(Duration::from_secs(seconds))
    }

    fn since_1970(&self) -> io::Result<Duration> {
        self.monotonic()
    }
}

impl<'a, R: Wait> Stopped<'a, R> {
    fn new(rt: &'a R, has_ended: &'a AtomicBool) -> Self {
        Stopped {
            rt,
            has_ended,
            seconds: AtomicU64::new(0),
        }
    }
}

/// The steps of one of two sessions. Whoever has flushed is held until the other one waits, or has
/// ended.
#[derive(Drop)]
struct Beside<'a, R: Wait> {
    rt: &'a R,
    monitor: &'a Monitor<Kept, Anyone>,
    has_ended: &'a AtomicBool,
}

impl<R: Wait> Steps for Beside<'_, R> {
    fn before(&self, step: CommitStep) {
        if step == CommitStep::Keeps {
            self.await_other();
        }
    }
}

impl<R: Wait> Beside<'_, R> {
    fn await_other(&self) {
        for _ in self.rt.forever() {
            let waits = self.monitor.waiting(self.rt) > 0;
            if waits || self.has_ended.load(Ordering::SeqCst) {
                break;
            }
            yield_now();
        }
    }
}

/// A session of changes. Answers whether each is kept.
fn are_kept<R: Wait + Clock, S: Steps>(
    rt: &R,
    monitor: &Monitor<Kept, Anyone>,
    store: &Mutex<Store>,
    steps: &S,
    has_ended: &AtomicBool,
) -> bool {
    let mut are_kept = true;
    for _ in 0..CHANGES {
        are_kept &= is_kept(rt, monitor, store, steps);
    }
    has_ended.store(true, Ordering::SeqCst);
    are_kept
}

/// What two sessions share.
#[derive(Drop)]
struct Pair {
    monitor: Monitor<Kept, Anyone>,
    store: Mutex<Store>,
    has_ended: AtomicBool,
}

impl Pair {
    fn new() -> Self {
        Pair {
            monitor: Monitor::new(NOTHING, PATIENCE),
            store: Mutex::new(Store::new(0, false)),
            has_ended: AtomicBool::new(false),
        }
    }

    /// One of the two, beside the other.
    fn play<R: Wait>(&self, rt: &R) -> bool {
        let has_ended = &self.has_ended;
        let timed = Stopped::new(rt, has_ended);
        let steps = Beside {
            rt,
            monitor: &self.monitor,
            has_ended,
        };
        are_kept(&timed, &self.monitor, &self.store, &steps, has_ended)
    }
}

/// Two sessions beside each other. Answers whether each change is kept, and by how many flushes.
fn play_two<R: Threads + Wait + Sync>(rt: &R) -> (bool, u64) {
    let pair = Pair::new();
    let (first, second) = join(rt, || pair.play(rt), || pair.play(rt));
    let flushes = pair.store.lock(rt).flushes;
    drop(pair);
    (first && second, flushes)
}

/// One session alone. Answers the same.
fn play_alone<R: Wait>(rt: &R) -> (bool, u64) {
    let pair = Pair::new();
    let has_ended = &pair.has_ended;
    let timed = Stopped::new(rt, has_ended);
    let are_kept = are_kept(&timed, &pair.monitor, &pair.store, &Open, has_ended);
    drop(timed);
    let flushes = pair.store.lock(rt).flushes;
    drop(pair);
    (are_kept, flushes)
}

#[test]
fn whoever_comes_again_shares_the_next_flush(rt: HostRuntime) {
    let (are_kept, flushes) = play_two(&rt);
    assert!(rt; are_kept);
    assert!(rt; flushes <= FLUSHES, "{flushes} flushes");
}

#[test]
fn who_is_alone_waits_for_nobody(rt: HostRuntime) {
    let (are_kept, flushes) = play_alone(&rt);
    assert!(rt; are_kept);
    assert!(rt; flushes == CHANGES, "{flushes} flushes");
}

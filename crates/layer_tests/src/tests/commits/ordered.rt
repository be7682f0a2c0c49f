//! Two sessions that wait, one of which is held before a step until the other has come to another:
//! every run ends, in whichever order they come.
use crate::tests::commits::{Anyone, NOTHING, PATIENCE, Store, is_kept};
use group_commit::{CommitStep, Monitor, Steps};
use std::process::Abort;
use std::sync::{Condvar, CondvarTimeouts, Mutex, Wait};
use std::thread::{Threads, join};
use std::time::{Clock, Duration};

/// The steps of a session whose flush ends well.
static STEPS: [CommitStep; 5] = [
    CommitStep::Asks,
    CommitStep::Gathers,
    CommitStep::Flushes,
    CommitStep::Keeps,
    CommitStep::GoesOn,
];

/// How long a thread is held at most, in milliseconds: some orders can't come.
const MOST_MILLISECONDS: u64 = 200;

/// What came so far.
#[derive(Clone, Copy)]
struct Seen {
    was_held: bool,
    has_come: bool,
}

impl Seen {
    /// Whether the thread that has come to one of the two steps, or to another, is the first at the
    /// one where it is held.
    fn note(&mut self, is_held: bool, is_until: bool) -> bool {
        if is_held && !self.was_held {
            self.was_held = true;
            return true;
        }
        self.has_come |= self.was_held && is_until;
        false
    }
}

/// Nothing came yet.
const NOTHING_SEEN: Seen = Seen {
    was_held: false,
    has_come: false,
};

/// Steps at which whoever comes first to the one is held until somebody else has come to the
/// other.
#[derive(Drop)]
struct Order<'a, R: Wait + Clock> {
    rt: &'a R,
    held: CommitStep,
    until: CommitStep,
    seen: Mutex<Seen>,
    news: Condvar,
}

impl<R: Wait + Clock> Order<'_, R> {
    /// Whether the thread that has come to this step is the one that is held.
    fn note(&self, step: CommitStep) -> bool {
        let is_held = self
            .seen
            .lock(self.rt)
            .note(step == self.held, step == self.until);
        self.news.notify_all();
        is_held
    }
}

impl<R: Wait + Clock> Steps for Order<'_, R> {
    fn before(&self, step: CommitStep) {
        if !self.note(step) {
            return;
        }
        let seen = self.seen.lock(self.rt);
        let most = Duration::from_millis(MOST_MILLISECONDS);
        let (_seen, _) = self
            .news
            .wait_timeout_while(self.rt, seen, most, |seen| !seen.has_come);
    }
}

/// Two sessions over one store, in this order. Answers whether each was given a receipt, and what
/// is in the store then.
fn play<R: Threads + Wait + Clock + Sync>(
    rt: &R,
    store: Store,
    held: CommitStep,
    until: CommitStep,
) -> (bool, bool, Store) {
    let monitor = Monitor::<_, Anyone>::new(NOTHING, PATIENCE);
    let store = Mutex::new(store);
    let order = Order {
        rt,
        held,
        until,
        seen: Mutex::new(NOTHING_SEEN),
        news: Condvar::new(),
    };
    let (first, second) = join(
        rt,
        || is_kept(rt, &monitor, &store, &order),
        || is_kept(rt, &monitor, &store, &order),
    );
    drop(order);
    drop(monitor);
    let left = *store.lock(rt);
    drop(store);
    (first, second, left)
}

/// Two sessions in this order of two steps at these places of the list, both of which are given a
/// receipt, by two flushes at most.
fn check_order<R: Abort + Threads + Wait + Clock + Sync>(
    rt: &R,
    steps: (CommitStep, CommitStep),
    places: (usize, usize),
) {
    let (first, second, left) = play(rt, Store::new(0, false), steps.0, steps.1);
    let (held, until) = places;
    let rows = [
        (first && second, "both are kept"),
        (left.flushes <= 2, "flushes"),
    ];
    for (is_so, what) in &rows {
        assert!(rt; *is_so, "step {held} until step {until}: {what}");
    }
}

#[test]
fn sessions_go_on_in_whichever_order_they_come(rt: HostRuntime) {
    for held in 0..STEPS.len() {
        for until in 0..STEPS.len() {
            check_order(&rt, (STEPS[held], STEPS[until]), (held, until));
        }
    }
}

#[test]
fn a_flush_that_lacks_room_is_tried_again(rt: HostRuntime) {
    let store = Store::new(2, false);
    let (first, second, left) = play(&rt, store, CommitStep::PutsOff, CommitStep::Asks);
    assert!(rt; first && second);
    assert!(rt; left.short == 0);
    assert!(rt; left.announced == 1);
}

#[test]
fn a_failed_flush_is_nobodys_receipt(rt: HostRuntime) {
    for until in &[CommitStep::Asks, CommitStep::Flushes] {
        let (first, second, left) = play(&rt, Store::new(0, true), CommitStep::Fails, *until);
        assert!(rt; !first && !second);
        assert!(rt; left.flushes == 0);
    }
}

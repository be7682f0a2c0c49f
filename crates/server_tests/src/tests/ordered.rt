//! Cleaner, copier and sessions, each held before one of its steps until another has come to one of
//! its own: every run ends, in whichever order they come.
ghost use Rattle.std.specs.Prelude.{◌≡◌, ◌<◌, true};

use crate::tests::{Came, Scene, Stage, play, serve_beside};
use s4_types::{Refusal, Role};
use server::{Gate, Part, Running, UpkeepStep};
use serving::Clock;
use std::process::Abort;
use std::sync::{Condvar, CondvarTimeouts, Mutex, Wait};
use std::thread::Threads;
use std::time;

/// Steps of the cleaner, of the copier and of the sessions: those of one row are taken by one
/// thread.
static STEPS: [&[UpkeepStep]; 3] = [
    &[
        UpkeepStep::RoundBegins,
        UpkeepStep::FirstTurn,
        UpkeepStep::RoundEnds,
        UpkeepStep::CleanerRests,
    ],
    &[
        UpkeepStep::StepBegins,
        UpkeepStep::CopierRests,
        UpkeepStep::CopierEnds,
        UpkeepStep::CopierReturns,
    ],
    &[UpkeepStep::SessionsEnd, UpkeepStep::SessionsReturn],
];

/// How long a thread is held at most, in milliseconds: where the order can come, and where it
/// can't.
const MOST_MILLISECONDS: u64 = 20_000;

const FORBIDDEN_MILLISECONDS: u64 = 300;

/// The frames of a Create, a Write of a byte to object 1, and a Flush of all moments.
static REQUESTS: [u8; 49] = *b"\
    \0\0\0\x02\x01\0\
    \0\0\0\x12\x04\0\0\0\0\0\0\0\x01\0\0\0\0\0\0\0\0a\
    \0\0\0\x11\x0a\0\0\0\0\0\0\0\0\0\0\0\0\0\0\0\0";

/// Whether an order can't come: the copier ends only once the sessions have.
fn is_forbidden(held: UpkeepStep, until: UpkeepStep) -> bool {
    held == UpkeepStep::SessionsEnd
        && matches!(until, UpkeepStep::CopierEnds | UpkeepStep::CopierReturns)
}

/// What came so far.
#[derive(Clone, Copy)]
struct Seen {
    /// The thread that is to be held has come to its step.
    was_held: bool,
    /// The other one has come to its own.
    has_come: bool,
    /// The cleaner has begun its first round.
    has_begun: bool,
    /// The first was held for too long.
    gave_up: bool,
}

impl Seen {
    /// Somebody has come to a step.
    fn note(&mut self, step: UpkeepStep, until: UpkeepStep) {
        self.has_come |= step == until;
        self.has_begun |= step == UpkeepStep::FirstTurn;
    }

    /// Somebody is to be held, unless another one was. Answers whether that is so.
    fn begin(&mut self) -> bool {
        let is_first = !self.was_held;
        self.was_held = true;
        is_first
    }
}

/// A gate at which whoever comes first to the one step is held until somebody has come to the
/// other.
#[derive(Drop)]
struct Order<'a, R: Wait + time::Clock> {
    rt: &'a R,
    held: UpkeepStep,
    until: UpkeepStep,
    seen: Mutex<Seen>,
    news: Condvar,
}

impl<'a, R: Wait + time::Clock> Order<'a, R> {
    fn new(rt: &'a R, held: UpkeepStep, until: UpkeepStep) -> Self {
        Order {
            rt,
            held,
            until,
            seen: Mutex::new(Seen {
                was_held: false,
                has_come: false,
                has_begun: false,
                gave_up: false,
            }),
            news: Condvar::new(),
        }
    }

    /// How long the thread is held at most.
    fn bound(&self) -> time::Duration {
        let most = if is_forbidden(self.held, self.until) {
            FORBIDDEN_MILLISECONDS
        } else {
            MOST_MILLISECONDS
        };
        time::Duration::from_millis(most)
    }

    /// Holds the thread that is here until the other one has come, or gives up.
    fn hold(&self) {
        let is_first = self.seen.lock(self.rt).begin();
        if !is_first {
            return;
        }
        let seen = self.seen.lock(self.rt);
        let (mut seen, _) = self
            .news
            .wait_timeout_while(self.rt, seen, self.bound(), |seen| !seen.has_come);
        seen.gave_up = !seen.has_come;
    }

    /// Sessions that have ended wait for the cleaner's first round, so that it isn't the last: on a
    /// busy machine they may have begun without a cleaner. Not where that round is held for them.
    fn await_round(&self) {
        if self.held == UpkeepStep::RoundBegins {
            return;
        }
        let seen = self.seen.lock(self.rt);
        let most = time::Duration::from_millis(MOST_MILLISECONDS);
        let (_seen, _) = self
            .news
            .wait_timeout_while(self.rt, seen, most, |seen| !seen.has_begun);
    }

    /// Notes who has come to which step.
    fn note(&self, step: UpkeepStep) {
        self.seen.lock(self.rt).note(step, self.until);
        self.news.notify_all();
    }
}

impl<R: Wait + time::Clock> Gate for Order<'_, R> {
    fn between(&self, _session: usize, _call: u64) {}

    fn answered(&self, _session: usize, _call: u64) {}

    fn upkeep(&self, step: UpkeepStep) {
        self.note(step);
        if step == UpkeepStep::SessionsEnd {
            self.await_round();
        }
        if step == self.held {
            self.hold();
        }
    }
}

/// One session beside upkeep in this order: it is served to its end, and the order came unless it
/// can't.
pub(super) fn run_ordered<
    J: Running + Send + Sync,
    C: Clock + Send,
    R: Abort + Threads + Wait + time::Clock + Sync,
>(
    stage: &Stage<'_, J, C, R>,
    rest: &mut Part<J>,
    held: UpkeepStep,
    until: UpkeepStep,
) -> Result<(), Refusal>
    requires upkeep { J.has_upkeep ≡ true }
    requires part { 1 < rest.old.parts }
{
    let gate = Order::new(stage.rt, held, until);
    let came = serve_beside(stage, rest, &gate, Role::Admin, &REQUESTS, b"");
    let seen = *gate.seen.lock(stage.rt);
    drop(gate);
    check(stage.rt, came?, seen, held, until);
    Ok(())
}

/// What is so at the end of each run.
fn check(rt: &impl Abort, came: Came, seen: Seen, held: UpkeepStep, until: UpkeepStep) {
    let is_as_listed = seen.gave_up == is_forbidden(held, until);
    let rows = [
        (came.is_served, "served to its end"),
        (came.has_last_round, "a last round"),
        (seen.was_held, "the one has come"),
        (is_as_listed, "given up after a bound, or not"),
    ];
    for (is_so, what) in &rows {
        assert!(rt; *is_so, "{held:?} until {until:?}: {what}");
    }
}

/// Each step of one of the threads before each of another.
#[test]
fn runs_end_in_whichever_order_threads_come(rt: HostRuntime) -> Result<(), Refusal> {
    for ours in 0..STEPS.len() {
        for theirs in 0..STEPS.len() {
            for held in STEPS[ours] {
                for until in STEPS[theirs] {
                    if ours != theirs {
                        play(&rt, rt.alloc(), Scene::Ordered(*held, *until))?;
                    }
                }
            }
        }
    }
    Ok(())
}

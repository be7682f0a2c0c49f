//! How soon a full drive accepts again once its history has aged, where the window is long.
ghost use Rattle.std.specs.Prelude.{◌≡◌, ◌<◌, true};

use crate::tests::{
    CREATE, Came, Listed, SEALED, Scene, Stage, WRITE_ALL, append, await_flag, play_over,
    serve_beside,
};
use s4_types::{Refusal, Role};
use server::{Gate, Part, Running, UpkeepStep};
use serving::Clock;
use std::alloc::{AllocError, Global};
use std::process::Abort;
use std::sync::Wait;
use std::sync::atomic::{AtomicBool, Ordering};
use std::thread::Threads;
use std::time;

/// Forty minutes in microseconds, so that a quarter of it is ten.
const WINDOW: u64 = 2_400_000_000;

/// The Writes that fill the drive, and more.
const WRITES: usize = 40;

/// Moments after the requests that fill the drive: just before the first of its history has aged,
/// and two minutes later. Until then the clock ticks by one.
const LATER: [u64; 4] = [2_399_000_000, 2_399_000_001, 2_519_000_000, 2_519_000_001];

/// The frame of a Read of one byte of object 1.
static READ: [u8; 26] = *b"\0\0\0\x16\x03\0\0\0\0\0\0\0\x01\0\0\0\0\0\0\0\0\0\0\0\x01\0";

/// The frames of the last replies: to a Read, to a Write for which there is no room, to a Read, and
/// to a Write at the last of the moments.
static REPLIES: [u8; 31] =
    *b"\0\0\0\x02\x03a\0\0\0\x02\0\x09\0\0\0\x02\x03a\0\0\0\x09\x01\0\0\0\0\x96\x24\xe3\xc1";

/// After the first reply the session is held until the cleaner is at work.
#[derive(Drop)]
struct Begins {
    has_begun: AtomicBool,
    given_up: AtomicBool,
}

impl Gate for Begins {
    fn between(&self, _session: usize, _call: u64) {}

    fn answered(&self, _session: usize, call: u64) {
        if call == 1 {
            await_flag(&self.has_begun, &self.given_up);
        }
    }

    fn upkeep(&self, step: UpkeepStep) {
        if step == UpkeepStep::FirstTurn {
            self.has_begun.store(true, Ordering::SeqCst);
        }
    }
}

/// What the session asks.
fn requests(alloc: Global) -> Result<Vec<u8>, AllocError> {
    let mut all = Vec::new(alloc);
    append(&mut all, 1, &[&CREATE])?;
    append(&mut all, WRITES, &[&WRITE_ALL, &SEALED])?;
    append(&mut all, 2, &[&READ, &WRITE_ALL, &SEALED])?;
    Ok(all)
}

/// The drive is full, and stays so until its history has aged. A minute after the round that found
/// nothing to free another one is gone, though a quarter of the window isn't over.
pub(super) fn age<
    J: Running + Send + Sync,
    C: Clock + Send,
    R: Abort + Threads + Wait + time::Clock + Sync,
>(stage: &Stage<'_, J, C, R>, rest: &mut Part<J>) -> Result<(), Refusal>
    requires upkeep { J.has_upkeep ≡ true }
    requires part { 1 < rest.old.parts }
{
    let asked = requests(stage.alloc)?;
    let gate = Begins {
        has_begun: AtomicBool::new(false),
        given_up: AtomicBool::new(false),
    };
    let came = serve_beside(stage, rest, &gate, Role::Client, asked.as_slice(), &REPLIES);
    let was_given_up = gate.given_up.load(Ordering::SeqCst);
    drop(gate);
    drop(asked);
    check(stage.rt, came?, was_given_up);
    Ok(())
}

/// The session came so far, and its last replies are those.
fn check(rt: &impl Abort, came: Came, was_given_up: bool) {
    assert!(rt; !was_given_up, "the cleaner began");
    assert!(rt; came.is_served);
    assert!(rt;
        came.has_written,
        "refused before, and accepted a minute after"
    );
}

#[test]
fn a_full_drive_accepts_a_minute_after_its_history_aged(rt: HostRuntime) -> Result<(), Refusal> {
    let clock = Listed::new(WRITES + 1, LATER);
    play_over(&rt, rt.alloc(), clock, WINDOW, Scene::Paced)
}

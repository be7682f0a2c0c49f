//! Numbers of accepted changes, in two threads.
ghost use Rattle.std.specs.Prelude.{◌≡◌};

use s4_types::Refusal;
use segment_word::Naming;
use segment_word::accepts::{Accepts, HistorySeat, SessionSeat, Sessions};
use std::marker::Brand;
use std::process::Abort;
use std::sync::{Mutex, Wait};
use std::thread::{Threads, join};

const EACH: usize = 100;

// The number of a change accepted for the session, or 0 where no number is left.
fn accept_next<J: Naming>(drive: &mut HistorySeat<J>, session: &mut SessionSeat<J>) -> u64 {
    if drive.count() == u64::MAX {
        return 0;
    }
    drive.accept::<Brand>(session)
}

#[test]
fn two_threads(rt: HostRuntime) -> Result<(), Refusal> {
    share_a_lock::<Brand, _>(&rt, Accepts::new(rt.alloc())?)
}

// Each session accepts its changes, under the lock one by one, and then meets the drive.
fn accept_all<J: Naming>(
    rt: &impl Wait,
    drive: &Mutex<HistorySeat<J>>,
    mut session: SessionSeat<J>,
) -> [u64; EACH] {
    let mut numbers = [0; EACH];
    for number in numbers.iter_mut() {
        *number = accept_next(&mut *drive.lock(rt), &mut session);
    }
    drive.lock(rt).meet(&mut session);
    drop(session);
    numbers
}

fn ascend(numbers: &[u64]) -> bool {
    for i in 1..numbers.len() {
        if numbers[i - 1] >= numbers[i] {
            return false;
        }
    }
    true
}

fn share_a_lock<J: Naming + Send + Sync, R: Threads + Wait + Abort + Sync>(
    rt: &R,
    accepts: Accepts,
) -> Result<(), Refusal>
    requires { accepts ≡ J.accepts }
{
    let (sessions, drive) = accepts.named::<J>();
    let drive = Mutex::new(drive);
    let shared = share(rt, &sessions, &drive);
    drop(sessions);
    drop(drive);
    shared
}

// Two sessions share the drive.
fn share<J: Naming + Send + Sync, R: Threads + Wait + Abort + Sync>(
    rt: &R,
    sessions: &Sessions<J>,
    drive: &Mutex<HistorySeat<J>>,
) -> Result<(), Refusal> {
    let one = sessions.seat()?;
    let two = sessions.seat()?;
    let (one, two) = join(
        rt,
        || accept_all(rt, drive, one),
        || accept_all(rt, drive, two),
    );
    let count = drive.lock(rt).count();
    check(rt, &one, &two, count);
    Ok(())
}

// Each number was given to one of the two, and to each of them in ascending order.
fn check(rt: &impl Abort, one: &[u64], two: &[u64], count: u64) {
    assert!(rt; count == 200);
    assert!(rt; ascend(one) && ascend(two));
    for number in 1..=2 * EACH as u64 {
        assert!(rt; one.contains(&number) != two.contains(&number));
    }
}

//! How the drive's lock is had, by sessions and by upkeep.
use crate::accounts::Running;
use crate::effects::Effect;
use crate::pace::Pace;
use crate::progress::Lack;
use crate::shared::SharedDrive;
use drive::Drive;
use segment_word::Naming;
use serving::Clock;
use std::hint::spin_loop;
use std::sync::{Mutex, MutexGuard, Wait};

/// How often one tries the lock before it sleeps: a small request holds it for some microseconds,
/// which is less than it takes to wake.
const LOOKS: usize = 300;

/// Whether cleaner or copier waits for the drive's lock.
fn is_wanted(pace: Option<&Pace>) -> bool {
    match pace {
        Some(pace) => pace.is_drive_wanted(),
        None => false,
    }
}

/// The drive, where its lock is had without a sleep. While cleaner or copier waits for it, it is
/// left to that one.
fn try_hold<'a, J: Running, C: Clock>(
    drive: &'a Mutex<SharedDrive<J, C>>,
    pace: Option<&Pace>,
) -> Option<MutexGuard<'a, SharedDrive<J, C>>> {
    for _ in 0..LOOKS {
        if !is_wanted(pace) {
            if let Some(held) = drive.try_lock() {
                return Some(held);
            }
        }
        spin_loop();
    }
    None
}

/// The drive for a session, once the lock is had.
pub(crate) fn hold<'a, J: Running, C: Clock>(
    rt: &impl Wait,
    drive: &'a Mutex<SharedDrive<J, C>>,
    pace: Option<&Pace>,
) -> MutexGuard<'a, SharedDrive<J, C>> {
    if let Some(held) = try_hold(drive, pace) {
        return held;
    }
    let Some(waits) = pace else {
        return drive.lock(rt);
    };
    waits.ask_drive(rt);
    let held = drive.lock(rt);
    waits.enter_drive(rt);
    held
}

/// The drive for cleaner or copier, once the lock is had. A session that waits for it has it first.
pub(crate) fn hold_next<'a, J: Running, C: Clock>(
    rt: &impl Wait,
    drive: &'a Mutex<SharedDrive<J, C>>,
    pace: &Pace,
) -> MutexGuard<'a, SharedDrive<J, C>> {
    pace.want_drive(rt);
    let held = match try_hold(drive, None) {
        Some(held) => held,
        None => drive.lock(rt),
    };
    pace.take_drive(rt);
    held
}

/// A request is asked: what it lacks, where it is a change that is to wait for the cleaner.
fn lack_of<J: Naming>(
    rt: &impl Wait,
    drive: &Drive<J>,
    pace: &Pace,
    effect: &Effect,
) -> Option<Lack> {
    match effect {
        Effect::Changes(object) | Effect::Deletes(object) => pace.count(rt, drive, *object),
        Effect::Hides(..) | Effect::Reads => None,
    }
}

/// The drive for a request, once the lock is had. A change for which there may be too little room,
/// or whose object's chain is nearly full, lets the cleaner go a round first.
pub(crate) fn hold_for<'a, J: Running, C: Clock>(
    rt: &impl Wait,
    drive: &'a Mutex<SharedDrive<J, C>>,
    pace: Option<&Pace>,
    effect: &Effect,
) -> MutexGuard<'a, SharedDrive<J, C>> {
    let held = hold(rt, drive, pace);
    let Some(waits) = pace else {
        return held;
    };
    let Some(lack) = lack_of(rt, &held.drive, waits, effect) else {
        return held;
    };
    drop(held);
    waits.await_round(rt, lack);
    hold(rt, drive, pace)
}

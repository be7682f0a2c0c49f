//! How a session's source ends, how long a service that is to stop waits for its replies, and what
//! becomes of those that wait then.
use crate::tests::commits::{
    ANYONE, Anyone, Flusher, Kept, Last, NOTHING, PATIENCE, Store, is_kept,
};
use batch_serving::DueSource;
use group_commit::{FlushError, Monitor, Open};
use serving::{MemorySource, Source};
use std::sync::atomic::{AtomicBool, Ordering};
use std::sync::{Mutex, Wait};
use std::thread::{Threads, join, sleep};
use std::time::{Clock, Duration};

/// For this long replies that are due are waited for at least.
const SOON_MILLISECONDS: u128 = 900;

/// Ends a service, with a last flush of this store.
fn end<R: Wait + Clock>(
    rt: &R,
    monitor: &Monitor<Kept, Anyone>,
    store: &Mutex<Store>,
) -> Result<(), FlushError> {
    let mut last = Last { rt, store };
    match monitor.end(rt, &mut last) {
        Ok(ended) => {
            drop(ended);
            Ok(())
        }
        Err(error) => Err(error),
    }
}

/// How long the service takes to end that is to stop, in milliseconds, where it ends well.
fn milliseconds_to_the_end<R: Wait + Clock>(rt: &R, monitor: &Monitor<Kept, Anyone>) -> u128 {
    let store = Mutex::new(Store::new(0, false));
    let before = rt.monotonic();
    let ended = end(rt, monitor, &store);
    drop(store);
    match (ended, before, rt.monotonic()) {
        (Ok(()), Ok(before), Ok(after)) => after.saturating_sub(before).as_millis(),
        _ => 0,
    }
}

/// What a source gives before its service is to stop and after that, and how long the service
/// takes to end then, in milliseconds.
fn read_and_stop<R: Wait + Clock>(
    rt: &R,
    monitor: &Monitor<Kept, Anyone>,
) -> (Option<usize>, Option<usize>, u128) {
    let mut source = DueSource::new(MemorySource::new(b"requests", 4), rt, monitor);
    let mut piece = [0; 8];
    let before = source.read(&mut piece).ok();
    monitor.begin_sending(rt);
    monitor.stop(rt, ANYONE);
    let milliseconds = milliseconds_to_the_end(rt, monitor);
    let after = source.read(&mut piece).ok();
    drop(source);
    (before, after, milliseconds)
}

#[test]
fn nothing_is_read_after_stop(rt: HostRuntime) {
    let monitor = Monitor::new(NOTHING, PATIENCE);
    let (before, after, milliseconds) = read_and_stop(&rt, &monitor);
    drop(monitor);
    assert!(rt; before == Some(4) && after.is_none());
    assert!(rt; milliseconds >= SOON_MILLISECONDS, "replies are due");
}

#[test]
fn a_reply_that_nobody_reads_does_not_hold_back_the_end(rt: HostRuntime) {
    let monitor = Monitor::new(NOTHING, PATIENCE);
    monitor.begin_replies(&rt);
    monitor.begin_sending(&rt);
    monitor.stop(&rt, ANYONE);
    let milliseconds = milliseconds_to_the_end(&rt, &monitor);
    drop(monitor);
    assert!(rt; milliseconds >= SOON_MILLISECONDS, "a reply is due");
}

/// Whether what was kept before is answered before a service ends, and after that.
fn ask_and_end<R: Wait + Clock>(rt: &R, store: &Mutex<Store>) -> (bool, bool) {
    let monitor = Monitor::new(NOTHING, PATIENCE);
    let before = is_kept(rt, &monitor, store, &Open);
    monitor.stop(rt, ANYONE);
    let ended = end(rt, &monitor, store).is_ok();
    let mut last = Flusher { rt, store };
    let after = monitor.await_kept(rt, &mut last, &Open, 0, 0).is_ok();
    drop(last);
    drop(monitor);
    (before && ended, after)
}

#[test]
fn no_receipt_is_given_after_the_end(rt: HostRuntime) {
    let store = Mutex::new(Store::new(0, false));
    let (before, after) = ask_and_end(&rt, &store);
    drop(store);
    assert!(rt; before && !after);
}

/// Whether a service that is to stop gives up a session's flush, and then its own last one, where
/// each lacks room.
fn give_up<R: Wait + Clock>(rt: &R, store: &Mutex<Store>) -> (bool, bool) {
    let asked = Monitor::new(NOTHING, PATIENCE);
    asked.stop(rt, ANYONE);
    let is_kept = is_kept(rt, &asked, store, &Open);
    drop(asked);
    let unasked = Monitor::new(NOTHING, PATIENCE);
    unasked.stop(rt, ANYONE);
    let is_short = matches!(end(rt, &unasked, store), Err(FlushError::Short));
    drop(unasked);
    (!is_kept, is_short)
}

#[test]
fn a_service_that_is_to_stop_gives_up(rt: HostRuntime) {
    let store = Mutex::new(Store::new(u64::MAX, false));
    let (session, last) = give_up(&rt, &store);
    let announced = store.lock(&rt).announced;
    drop(store);
    assert!(rt; session && last);
    assert!(rt; announced == 2);
}

/// How long after the end has begun a reply begins to go out, in milliseconds: longer than a reader
/// is waited for.
const LATER_MILLISECONDS: u64 = 2000;

/// Whether a service that is to stop ends well, and after a reply that isn't kept at first has begun
/// to go out.
fn ends_after_a_reply<R: Threads + Wait + Clock + Sync>(rt: &R) -> bool {
    let monitor = Monitor::<_, Anyone>::new(NOTHING, PATIENCE);
    let store = Mutex::new(Store::new(0, false));
    let is_going = AtomicBool::new(false);
    monitor.begin_replies(rt);
    monitor.stop(rt, ANYONE);
    let (is_so, ()) = join(
        rt,
        || end(rt, &monitor, &store).is_ok() && is_going.load(Ordering::SeqCst),
        || {
            sleep(rt, Duration::from_millis(LATER_MILLISECONDS));
            is_going.store(true, Ordering::SeqCst);
            monitor.begin_sending(rt);
        },
    );
    drop(monitor);
    drop(store);
    is_so
}

#[test]
fn a_reply_that_can_be_kept_holds_back_the_end(rt: HostRuntime) {
    assert!(rt; ends_after_a_reply(&rt));
}

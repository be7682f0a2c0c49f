//! Sessions on threads, held at a gate until others have come so far.
ghost use Rattle.std.specs.Prelude.{◌≡◌, ◌+◌, ◌^◌, ◌<◌, ◌≤◌, All, IfOk, OnOk, length, vec_len};

use crate::tests::{
    SEALED, Scene, Stage, TURNS, WRITE_ALL, append, ask, await_flag, client_of, create,
    has_written, play, sit,
};
use s4_types::{Bytes, ObjectId, ObjectRequest, Refusal, Request, Role};
use server::{
    Client, Gate, Locked, Open, Outcome, Part, Running, UpkeepStep, give_parts, run_sessions,
};
use serving::{Backend, Clock, MemorySink, MemorySource, ServeEnd};
use std::alloc::{AllocError, Global};
use std::process::Abort;
use std::sync::Wait;
use std::sync::atomic::{AtomicBool, AtomicUsize, Ordering};
use std::thread::{Threads, yield_now};

/// What the sealed bytes are replaced by.
static OTHERS: [u8; 6656] = [b'b'; 6656];

/// The frame of a Read of all of them, of object 1.
static READ_ALL: [u8; 26] = *b"\0\0\0\x16\x03\0\0\0\0\0\0\0\x01\0\0\0\0\0\0\0\0\0\0\x1a\0\0";

/// The frame of the reply to the Read, up to its bytes.
static DATA: [u8; 5] = *b"\0\0\x1a\x01\x03";

/// The frame of the reply to the Write, at moment 5.
static CHANGED: [u8; 13] = *b"\0\0\0\x09\x01\0\0\0\0\0\0\0\x05";

/// The first session's read is held once it is planned, until the second's change is answered; the
/// second session's first read is held until then.
#[derive(Drop)]
struct Turns {
    planned: AtomicBool,
    changed: AtomicBool,
    given_up: AtomicBool,
}

impl Gate for Turns {
    fn between(&self, session: usize, _call: u64) {
        if session == 1 {
            self.planned.store(true, Ordering::SeqCst);
            await_flag(&self.changed, &self.given_up);
        } else {
            await_flag(&self.planned, &self.given_up);
        }
    }

    fn answered(&self, session: usize, call: u64) {
        if session == 2 && call == 2 {
            self.changed.store(true, Ordering::SeqCst);
        }
    }

    fn upkeep(&self, _step: UpkeepStep) {}
}

/// Each session is held in its read until 16 are there. It counts the replies too.
#[derive(Drop)]
struct Crowd {
    there: AtomicUsize,
    answered: AtomicUsize,
    given_up: AtomicBool,
}

impl Crowd {
    /// All have come, and each has passed the gate once and was answered once.
    fn check(&self, rt: &impl Abort) {
        let was_given_up = self.given_up.load(Ordering::SeqCst);
        assert!(rt; !was_given_up, "all came");
        let there = self.there.load(Ordering::SeqCst);
        assert!(rt; there == 16, "each passed the gate once");
        let answered = self.answered.load(Ordering::SeqCst);
        assert!(rt; answered == 16, "and answered once");
    }
}

impl Gate for Crowd {
    fn between(&self, _session: usize, _call: u64) {
        self.there.fetch_add(1, Ordering::SeqCst);
        for _ in 0..TURNS {
            if self.there.load(Ordering::SeqCst) >= 16 {
                return;
            }
            yield_now();
        }
        self.given_up.store(true, Ordering::SeqCst);
    }

    fn answered(&self, _session: usize, _call: u64) {
        self.answered.fetch_add(1, Ordering::SeqCst);
    }

    fn upkeep(&self, _step: UpkeepStep) {}
}

/// The sealed bytes are made.
fn make<B: Backend>(alloc: Global, writer: &mut B) -> Result<(), AllocError> {
    ask(writer, create(alloc));
    let bytes = Bytes::from_slice(alloc, &SEALED)?;
    let write = ObjectRequest::Write {
        object: ObjectId::new(1),
        offset: 0,
        bytes,
    };
    ask(writer, Request::Update(write));
    Ok(())
}

/// The sealed bytes are made, by a session at which nobody waits.
fn fill<J: Running, C: Clock, R: Wait>(
    stage: &Stage<'_, J, C, R>,
    rest: &mut Part<J>,
) -> Result<(), Refusal>
    requires { 1 < rest.old.parts }
    ensures { rest.new.parts + 1 ≡ rest.old.parts }
{
    let mut writer = sit(stage, rest, Role::Client, &Open, 1)?;
    let made = make(stage.alloc, &mut writer);
    drop(writer);
    made?;
    Ok(())
}

/// Serves sessions that have no part of the books yet.
fn serve_all<J: Running + Send + Sync, C: Clock + Send, R: Threads + Wait + Sync, G: Gate + Sync>(
    stage: &Stage<'_, J, C, R>,
    rest: &mut Part<J>,
    gate: &G,
    clients: &mut [Client<J, MemorySource<'_>, MemorySink>],
)
    requires count { length clients.old ≤ 16 }
    requires parts { length clients.old < rest.old.parts }
    requires readers { All (λ c. c.reader.failures + 1 < 2 ^ 64) clients.old }
    requires writers { All (λ c. c.writer.failures + 1 < 2 ^ 64) clients.old }
    ensures rest { rest.new.parts + length clients.old ≡ rest.old.parts }
{
    give_parts(rest, clients);
    run_sessions(stage.rt, stage.alloc, stage.drive, gate, clients);
}

/// Clients that read all bytes, as many as that.
fn readers<J: Running>(
    alloc: Global,
    count: usize,
) -> Result<Vec<Client<J, MemorySource<'static>, MemorySink>>, Refusal>
    ensures count { IfOk result (λ clients. vec_len clients ≡ count) }
    ensures readers { IfOk result
        (λ clients. All (λ c. c.reader.failures + 1 < 2 ^ 64) clients.items) }
    ensures writers { IfOk result
        (λ clients. All (λ c. c.writer.failures + 1 < 2 ^ 64) clients.items) }
{
    let mut clients = Vec::new(alloc);
    for _ in 0..count {
        clients.push(client_of(alloc, Role::Client, &READ_ALL))?;
    }
    Ok(clients)
}

/// Clients that read all bytes, served at once.
fn read_at_once<
    J: Running + Send + Sync,
    C: Clock + Send,
    R: Threads + Wait + Sync,
    G: Gate + Sync,
>(
    stage: &Stage<'_, J, C, R>,
    rest: &mut Part<J>,
    gate: &G,
    count: usize,
) -> Result<Vec<Client<J, MemorySource<'static>, MemorySink>>, Refusal>
    requires count { count ≤ 16 }
    requires parts { count < rest.old.parts }
    ensures { OnOk result (rest.new.parts + count ≡ rest.old.parts) }
{
    let mut clients = readers(stage.alloc, count)?;
    serve_all(stage, rest, gate, clients.as_mut_slice());
    Ok(clients)
}

/// A reader and a writer at once: the one is held until the other is answered. Answers whether the
/// reader had the old bytes, and the writer these and its change.
fn serve_held<J: Running + Send + Sync, C: Clock + Send, R: Threads + Wait + Sync>(
    stage: &Stage<'_, J, C, R>,
    rest: &mut Part<J>,
    turns: &Turns,
) -> Result<bool, Refusal>
    requires { 2 < rest.old.parts }
{
    let mut both = Vec::new(stage.alloc);
    append(&mut both, 1, &[&READ_ALL, &WRITE_ALL, &OTHERS])?;
    let mut clients = [
        client_of(stage.alloc, Role::Client, &READ_ALL),
        client_of(stage.alloc, Role::Client, both.as_slice()),
    ];
    serve_all(stage, rest, turns, &mut clients);
    let is_old = has_written(&clients[0], &[&DATA, &SEALED]);
    let is_changed = has_written(&clients[1], &[&DATA, &SEALED, &CHANGED]);
    drop(clients);
    drop(both);
    Ok(is_old && is_changed)
}

/// A read of sealed bytes is held until another session has changed them, and gives what was there.
pub(super) fn hold<J: Running + Send + Sync, C: Clock + Send, R: Abort + Threads + Wait + Sync>(
    stage: &Stage<'_, J, C, R>,
    rest: &mut Part<J>,
) -> Result<(), Refusal>
    requires { 90 < rest.old.parts }
{
    fill(stage, rest)?;
    let turns = Turns {
        planned: AtomicBool::new(false),
        changed: AtomicBool::new(false),
        given_up: AtomicBool::new(false),
    };
    let had_the_old = serve_held(stage, rest, &turns);
    let was_given_up = turns.given_up.load(Ordering::SeqCst);
    drop(turns);
    assert!(stage.rt; !was_given_up, "both came so far");
    assert!(stage.rt; had_the_old?, "as it was planned, and changed meanwhile");
    Ok(())
}

#[test]
fn a_read_is_fetched_after_its_bytes_were_changed(rt: HostRuntime) -> Result<(), Refusal> {
    play(&rt, rt.alloc(), Scene::Held)
}

/// 16 sessions at once, each held in its first read until all are there, and asked once. Answers
/// whether each had all bytes.
fn have_all_read<J: Running + Send + Sync, C: Clock + Send, R: Abort + Threads + Wait + Sync>(
    stage: &Stage<'_, J, C, R>,
    rest: &mut Part<J>,
    crowd: &Crowd,
) -> Result<bool, Refusal>
    requires { 16 < rest.old.parts }
{
    let clients = read_at_once(stage, rest, crowd, 16)?;
    crowd.check(stage.rt);
    let mut have_read = true;
    for client in clients.as_slice() {
        have_read &= has_written(client, &[&DATA, &SEALED]);
    }
    drop(clients);
    Ok(have_read)
}

/// Sixteen sessions at once, each held in its first read until all of them are there.
pub(super) fn gather<J: Running + Send + Sync, C: Clock + Send, R: Abort + Threads + Wait + Sync>(
    stage: &Stage<'_, J, C, R>,
    rest: &mut Part<J>,
) -> Result<(), Refusal>
    requires { 90 < rest.old.parts }
{
    fill(stage, rest)?;
    let crowd = Crowd {
        there: AtomicUsize::new(0),
        answered: AtomicUsize::new(0),
        given_up: AtomicBool::new(false),
    };
    let have_read = have_all_read(stage, rest, &crowd);
    drop(crowd);
    assert!(stage.rt; have_read?);
    Ok(())
}

#[test]
fn sixteen_sessions_are_held_at_once(rt: HostRuntime) -> Result<(), Refusal> {
    play(&rt, rt.alloc(), Scene::Sixteen)
}

/// One more session has a seat of the drive.
fn keep_seat<'a, J: Running, C: Clock, R: Wait>(
    stage: &Stage<'a, J, C, R>,
    rest: &mut Part<J>,
    seats: &mut Vec<Locked<'a, J, C, R, Open>>,
    number: usize,
) -> Result<(), Refusal>
    requires { 1 < rest.old.parts }
    ensures { rest.new.parts + 1 ≡ rest.old.parts }
{
    let session = sit(stage, rest, Role::Client, &Open, number)?;
    seats.push(session)?;
    Ok(())
}

/// Sessions that keep all seats of a drive.
fn all_seats<'a, J: Running, C: Clock, R: Wait>(
    stage: &Stage<'a, J, C, R>,
    rest: &mut Part<J>,
) -> Result<Vec<Locked<'a, J, C, R, Open>>, Refusal>
    requires { 90 < rest.old.parts }
    ensures { OnOk result (rest.new.parts + 64 ≡ rest.old.parts) }
{
    let mut seats = Vec::new(stage.alloc);
    for number in 0..64 {
        keep_seat(stage, rest, &mut seats, number + 1)?;
    }
    Ok(seats)
}

/// Whether two sessions that read all bytes have this outcome, and were told something or nothing.
fn end_with<J: Running + Send + Sync, C: Clock + Send, R: Threads + Wait + Sync>(
    stage: &Stage<'_, J, C, R>,
    rest: &mut Part<J>,
    outcome: Outcome,
    is_told: bool,
) -> Result<bool, Refusal>
    requires { 2 < rest.old.parts }
    ensures { OnOk result (rest.new.parts + 2 ≡ rest.old.parts) }
{
    let clients = read_at_once(stage, rest, &Open, 2)?;
    let mut are_so = true;
    for client in clients.as_slice() {
        let has_written = !client.writer.as_slice().is_empty();
        are_so &= client.outcome == outcome && has_written == is_told;
    }
    drop(clients);
    Ok(are_so)
}

/// A session that the drive refuses is told so, and nothing of it is read or written.
pub(super) fn crowd_out<
    J: Running + Send + Sync,
    C: Clock + Send,
    R: Abort + Threads + Wait + Sync,
>(stage: &Stage<'_, J, C, R>, rest: &mut Part<J>) -> Result<(), Refusal>
    requires { 90 < rest.old.parts }
{
    let seats = all_seats(stage, rest)?;
    let are_refused = end_with(stage, rest, Outcome::Refused(Refusal::Busy), false);
    drop(seats);
    assert!(stage.rt; are_refused?, "no seat is free");
    let ended = Outcome::Served(ServeEnd::Ended);
    assert!(stage.rt; end_with(stage, rest, ended, true)?, "all seats are free");
    Ok(())
}

#[test]
fn a_session_without_a_seat_is_refused(rt: HostRuntime) -> Result<(), Refusal> {
    play(&rt, rt.alloc(), Scene::Crowded)
}

//! Scenes with one new drive each, and what they have in common.
ghost use Rattle.std.specs.Prelude.{◌≡◌, ◌+◌, ◌<◌, ℕ, List, true};
ghost use Rattle.s4_model.specs.State.{new_base};
ghost use Rattle.serving.specs.Drawing.{Drawn};

mod clocks;
mod failing;
mod held;
mod ordered;
mod paced;
mod places;

use drive::NewDrive;
use s4_types::limits::FEWEST_FRAMES;
use s4_types::{Bytes, Moment, ObjectRequest, Refusal, Request, Role};
use server::{
    Blanks, Client, Gate, Locked, Outcome, Part, Running, SharedDrive, UpkeepStep, give_parts,
    run_with_upkeep,
};
use serving::{Backend, Clock, MemorySink, MemorySource, ServeEnd, Ticking};
use std::alloc::{AllocError, Global};
use std::marker::Brand;
use std::process::Abort;
use std::sync::atomic::{AtomicBool, Ordering};
use std::sync::{Mutex, Wait};
use std::thread::{Threads, yield_now};
use std::time;

/// What a test does with a new drive of `FEWEST_FRAMES` frames, with a window of 100 moments where
/// nothing else is said.
#[derive(Clone, Copy)]
enum Scene {
    /// Four changes of two sessions in turn, and the moments at which they are accepted.
    InTurn([Option<Moment>; 4]),
    Held,
    Sixteen,
    Crowded,
    /// A session's writer fails after this many bytes.
    FailsAbove(usize),
    /// So does what is below it.
    FailsBelow(usize),
    /// Whoever comes to the first step is held until somebody has come to the second.
    Ordered(UpkeepStep, UpkeepStep),
    /// What a session knows of where the drive has come to.
    Places,
    /// A full drive whose history ages, with a window of forty minutes in microseconds.
    Paced,
}

/// Parts of a run's books that there are: each session has one.
const PARTS: u64 = 100;

/// What a scene is played over: a drive that sessions share.
#[derive(Drop)]
struct Stage<'a, J: Running, C: Clock, R> {
    rt: &'a R,
    alloc: Global,
    drive: &'a Mutex<SharedDrive<J, C>>,
}

/// A session of that number, with a part of the books.
fn sit<'a, J: Running, C: Clock, R: Wait, G: Gate>(
    stage: &Stage<'a, J, C, R>,
    rest: &mut Part<J>,
    role: Role,
    gate: &'a G,
    number: usize,
) -> Result<Locked<'a, J, C, R, G>, Refusal>
    requires { 1 < rest.old.parts }
    ensures { rest.new.parts + 1 ≡ rest.old.parts }
{
    let part = rest.split();
    Locked::new(stage.rt, stage.alloc, stage.drive, role, part, gate, number)
}

/// Plays a scene over a drive that sessions share.
fn play_over_drive<
    J: Running + Send + Sync,
    C: Clock + Send,
    R: Abort + Threads + Wait + time::Clock + Sync,
>(stage: &Stage<'_, J, C, R>, rest: &mut Part<J>, scene: Scene) -> Result<(), Refusal>
    requires upkeep { J.has_upkeep ≡ true }
    requires parts { 90 < rest.old.parts }
{
    match scene {
        Scene::InTurn(wanted) => clocks::change_in_turn(stage, rest, wanted),
        Scene::Held => held::hold(stage, rest),
        Scene::Sixteen => held::gather(stage, rest),
        Scene::Crowded => held::crowd_out(stage, rest),
        Scene::FailsAbove(room) => failing::fail_above(stage, rest, room),
        Scene::FailsBelow(room) => failing::fail_below(stage, rest, room),
        Scene::Ordered(held, until) => ordered::run_ordered(stage, rest, held, until),
        Scene::Places => places::go(stage, rest),
        Scene::Paced => paced::age(stage, rest),
    }
}

/// Plays a scene over a new drive. That is let go here alone, since what a function owns is proved
/// to be let go at each of its ends.
fn play_named<
    J: Running + Send + Sync,
    C: Clock + Send + Drop,
    R: Abort + Threads + Wait + time::Clock + Sync,
>(
    rt: &R,
    alloc: Global,
    made: NewDrive,
    blanks: Blanks,
    clock: C,
    scene: Scene,
) -> Result<(), Refusal>
    requires frames { made.store.table.seat.table ≡ J.frames }
    requires accepts { made.accepts ≡ J.accepts }
    requires base { new_base made.window ≡ J.base }
    requires begins { (d : _) → J.begins d }
    requires moments { (moments : List ℕ) (later : _) → Drawn C.draws clock moments later
        → J.moments moments }
    requires upkeep { J.has_upkeep ≡ true }
    requires ledgers { (blanks.requests ≡ J.asked) × (blanks.changes ≡ J.name) }
    requires parts { (blanks.parts ≡ J.parts) × (J.parts ≡ 100) }
    requires reserve { J.reserve ≡ 0 }
{
    let drive = made.named::<J>();
    let (shared, mut rest) = SharedDrive::new(drive, clock, blanks, 0);
    let shared = Mutex::new(shared);
    let drive = &shared;
    let played = play_over_drive(&Stage { rt, alloc, drive }, &mut rest, scene);
    drop(rest);
    drop(shared);
    played
}

/// Plays a scene over a clock, and a drive with a window.
fn play_over<C: Clock + Send + Drop, R: Abort + Threads + Wait + time::Clock + Sync>(
    rt: &R,
    alloc: Global,
    clock: C,
    window: u64,
    scene: Scene,
) -> Result<(), Refusal> {
    let made = NewDrive::new(alloc, FEWEST_FRAMES, window)?;
    let blanks = Blanks::new(PARTS);
    play_named::<Brand, C, R>(rt, alloc, made, blanks, clock, scene)
}

/// Plays a scene over a clock that ticks by one.
fn play<R: Abort + Threads + Wait + time::Clock + Sync>(
    rt: &R,
    alloc: Global,
    scene: Scene,
) -> Result<(), Refusal> {
    play_over(rt, alloc, Ticking::new(Moment::new(0), 1), 100, scene)
}

/// A clock that ticks by one at first, and then has the moments of a list.
#[derive(Drop)]
struct Listed {
    drawn: usize,
    /// Which of its moments is the first of the list.
    first: usize,
    list: [u64; 4],
}

impl Listed {
    fn new(first: usize, list: [u64; 4]) -> Self {
        Listed {
            drawn: 0,
            first,
            list,
        }
    }
}

impl Clock for Listed {
    ghost use Rattle.std.specs.Prelude.{⊤};

    ghost draws = { λ _ _ _. ⊤ };

    fn draw(&mut self) -> Moment {
        let drawn = self.drawn;
        self.drawn = drawn.saturating_add(1);
        let place = drawn.saturating_sub(self.first);
        if drawn < self.first || place >= self.list.len() {
            return Moment::new(drawn as u64);
        }
        Moment::new(self.list[place])
    }
}

/// A client that reads these bytes.
fn client_of<'a, J: Running>(
    alloc: Global,
    role: Role,
    input: &'a [u8],
) -> Client<J, MemorySource<'a>, MemorySink>
    ensures reader { result.reader.failures ≡ 0 }
    ensures writer { result.writer.failures ≡ 0 }
{
    Client {
        role,
        reader: MemorySource::new(input, 65_536),
        writer: MemorySink::new(alloc),
        outcome: Outcome::Waiting,
        session: None,
        part: None,
    }
}

/// Asks, and lets the reply go.
fn ask<B: Backend>(session: &mut B, request: Request) {
    drop(session.request(request, Moment::new(0)));
}

/// A Create.
fn create(alloc: Global) -> Request {
    let attribute = Bytes::empty(alloc);
    Request::Update(ObjectRequest::Create { attribute })
}

/// The frame of a Create.
static CREATE: [u8; 6] = *b"\0\0\0\x02\x01\0";

/// Bytes of 13 blocks: with the creation's and one of the journal they fill a frame, which is
/// sealed then.
static SEALED: [u8; 6656] = [b'a'; 6656];

/// The frame of a Write of as many bytes to object 1, up to those.
static WRITE_ALL: [u8; 21] = *b"\0\0\x1a\x11\x04\0\0\0\0\0\0\0\x01\0\0\0\0\0\0\0\0";

/// Appends these parts, one after the other, that many times.
fn append(all: &mut Vec<u8>, times: usize, parts: &[&[u8]]) -> Result<(), AllocError> {
    for _ in 0..times {
        for part in parts {
            all.extend_from_slice(part)?;
        }
    }
    Ok(())
}

/// Whether bytes are these parts, one after the other.
fn are_joined(bytes: &[u8], parts: &[&[u8]]) -> bool {
    let mut rest = bytes;
    for part in parts {
        match rest.strip_prefix(*part) {
            Some(after) => rest = after,
            None => return false,
        }
    }
    rest.is_empty()
}

/// Whether a session was served to its end and wrote these parts.
fn has_written<J: Running>(
    client: &Client<J, MemorySource<'_>, MemorySink>,
    parts: &[&[u8]],
) -> bool {
    client.outcome == Outcome::Served(ServeEnd::Ended)
        && are_joined(client.writer.as_slice(), parts)
}

/// What came of a session beside upkeep.
#[derive(Clone, Copy)]
struct Came {
    /// It was served to its end.
    is_served: bool,
    /// What it wrote ends with the bytes that were wanted.
    has_written: bool,
    /// The last round of upkeep is known to be the last.
    has_last_round: bool,
}

/// Serves a session that asks this beside upkeep; what it writes is wanted to end with `last`.
fn serve_beside<
    J: Running + Send + Sync,
    C: Clock + Send,
    R: Threads + Wait + time::Clock + Sync,
    G: Gate + Sync,
>(
    stage: &Stage<'_, J, C, R>,
    rest: &mut Part<J>,
    gate: &G,
    role: Role,
    asked: &[u8],
    last: &[u8],
) -> Result<Came, AllocError>
    requires upkeep { J.has_upkeep ≡ true }
    requires part { 1 < rest.old.parts }
{
    let mut clients = Vec::with_capacity(stage.alloc, 1)?;
    clients.push_reserved(client_of(stage.alloc, role, asked));
    give_parts(rest, clients.as_mut_slice());
    let (clients, upkeep) = run_with_upkeep(stage.rt, stage.alloc, stage.drive, gate, clients);
    let is_served = clients[0].outcome == Outcome::Served(ServeEnd::Ended);
    let has_written = clients[0].writer.as_slice().ends_with(last);
    drop(clients);
    Ok(Came {
        is_served,
        has_written,
        has_last_round: upkeep.round.is_last,
    })
}

/// How often a session looks whether it may go on, before the test is given up.
const TURNS: usize = 10_000_000;

/// Waits until a flag is set, or gives up.
fn await_flag(flag: &AtomicBool, given_up: &AtomicBool) {
    for _ in 0..TURNS {
        if flag.load(Ordering::SeqCst) {
            return;
        }
        yield_now();
    }
    given_up.store(true, Ordering::SeqCst);
}

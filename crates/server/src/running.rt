//! Sessions that are served at once, each from its own reader to its own writer, over one drive.
ghost use Rattle.std.specs.Prelude.{◌≡◌, ℕ, ◌+◌, ◌-◌, ◌^◌, ◌<◌, ◌≤◌, All, Some, length};
ghost use Rattle.std.specs.Prelude.{slice_index_or};
ghost use Rattle.server.specs.Accounts.{one_part};
ghost use Rattle.server.specs.Attending.{IsAttendedClient, with_part};

use crate::accounts::{Part, Running};
use crate::clocks::Undrawn;
use crate::gate::Gate;
use crate::locked::{Locked, sit};
use crate::pace::Pace;
use crate::shared::SharedDrive;
use drive::Session;
use own_stacks::for_each_mut_with_stack;
use s4_model::laws::histories_go_on_record_by_record;
use s4_types::{Refusal, Role};
use serving::{Clock, ServeEnd, Sink, Source, serve};
use std::alloc::Global;
use std::sync::{Mutex, Wait};
use std::thread::Threads;

/// Sessions that are served at once, at most.
pub const MOST_SESSIONS: usize = 16;

/// How many bytes of stack each thread has that serves, cleans or copies. None was seen to use more
/// than 139,264, what the system keeps there included.
pub(crate) const STACK_BYTES: usize = 512 << 10;

/// What became of a session.
#[derive(Clone, Copy, PartialEq, Eq)]
pub enum Outcome {
    /// It was not begun yet.
    Waiting,
    /// It was served, and ended so.
    Served(ServeEnd),
    /// The drive gave it no seat, for this reason. Nothing was read or written.
    Refused(Refusal),
}

/// A session to be served: what it may do, where its requests come from and where its replies go.
#[derive(Drop)]
pub struct Client<J: Running, S: Source, W: Sink> {
    pub role: Role,
    pub reader: S,
    pub writer: W,
    pub outcome: Outcome,
    /// The drive's session, once it was served: what it was told of the drive's history, so that
    /// this can be compared with the drive that all sessions leave.
    pub session: Option<Session<J>>,
    /// Its part of the run's books, once it was served: what it asked is counted on it.
    pub part: Option<Part<J>>,
}

/// Serves one session of that number, from 1 on.
fn attend<J: Running, C: Clock, R: Wait, G: Gate, S: Source, W: Sink>(
    rt: &R,
    alloc: Global,
    drive: &Mutex<SharedDrive<J, C>>,
    pace: Option<&Pace>,
    gate: &G,
    number: usize,
    client: &mut Client<J, S, W>,
)
    requires part { client.old.part ≡ Some one_part }
    requires reader { S.failures client.old.reader + 1 < 2 ^ 64 }
    requires writer { W.failures client.old.writer + 1 < 2 ^ 64 }
    ensures attended { IsAttendedClient S.remaining W.passed S.failures W.failures J.base J.reserve J.moments
        client.old client.new }
{
    histories_go_on_record_by_record();
    let had = match sit(rt, drive, pace, client.role) {
        Ok(had) => had,
        Err(refusal) => {
            client.outcome = Outcome::Refused(refusal);
            client.session = None;
            return;
        }
    };
    let Some(part) = client.part.take() else {
        unreachable!()
    };
    let mut session = Locked::seated(rt, alloc, drive, pace, had, part, gate, number);
    let end = serve(
        alloc,
        &mut client.reader,
        &mut client.writer,
        &mut session,
        &mut Undrawn,
    );
    client.outcome = Outcome::Served(end);
    let (session, part) = session.into_parts();
    client.session = Some(session);
    client.part = Some(part);
}

/// Gives each client a part of a run's books, out of all that are left.
pub fn give_parts<J: Running, S: Source, W: Sink>(
    rest: &mut Part<J>,
    clients: &mut [Client<J, S, W>],
)
    requires { length clients.old < rest.old.parts }
    ensures rest { rest.new ≡ record rest.old { parts = rest.old.parts - length clients.old } }
    ensures given { (i : ℕ) (d : _) → i < length clients.old
        → slice_index_or clients.new i d ≡ with_part (slice_index_or clients.old i d) }
{
    for client in clients.iter_mut() {
        client.part = Some(rest.split());
    }
}

/// Serves sessions of one drive at once, each on a thread of its own and with its own reader and
/// writer, until each has ended, and says of each what became of it. The sessions have the numbers
/// from 1 on, by their order.
///
/// A Read holds the lock while it is planned and not while it is fetched, and passes the gate
/// between the two; each other request is one call under the lock, under which its moment is drawn.
/// A session for which the drive has no seat is refused with Busy, and the others go on. Where the system gives no thread for a session, it is served after another one.
pub fn run_sessions<
    J: Running + Send + Sync,
    C: Clock + Send,
    R: Threads + Wait + Sync,
    G: Gate + Sync,
    S: Source + Send,
    W: Sink + Send,
>(
    rt: &R,
    alloc: Global,
    drive: &Mutex<SharedDrive<J, C>>,
    gate: &G,
    clients: &mut [Client<J, S, W>],
)
    requires count { length clients.old ≤ 16 }
    requires parts { All (λ c. c.part ≡ Some one_part) clients.old }
    requires readers { All (λ c. S.failures c.reader + 1 < 2 ^ 64) clients.old }
    requires writers { All (λ c. W.failures c.writer + 1 < 2 ^ 64) clients.old }
    // Each session was answered by steps of histories that begin with the drive's base, each after
    // all that the session had seen; or the drive had no seat for it.
    ensures attended { (i : ℕ) (d : _) → i < length clients.old
        → IsAttendedClient S.remaining W.passed S.failures W.failures J.base J.reserve J.moments
        (slice_index_or clients.old i d) (slice_index_or clients.new i d) }
{
    run_beside(rt, alloc, drive, None, gate, clients)
}

/// Serves clients that have their parts, with upkeep beside them where there is its pace.
pub(crate) fn run_beside<
    J: Running + Send + Sync,
    C: Clock + Send,
    R: Threads + Wait + Sync,
    G: Gate + Sync,
    S: Source + Send,
    W: Sink + Send,
>(
    rt: &R,
    alloc: Global,
    drive: &Mutex<SharedDrive<J, C>>,
    pace: Option<&Pace>,
    gate: &G,
    clients: &mut [Client<J, S, W>],
)
    requires count { length clients.old ≤ 16 }
    requires parts { All (λ c. c.part ≡ Some one_part) clients.old }
    requires readers { All (λ c. S.failures c.reader + 1 < 2 ^ 64) clients.old }
    requires writers { All (λ c. W.failures c.writer + 1 < 2 ^ 64) clients.old }
    // Each session was answered by steps of histories that begin with the drive's base, each after
    // all that the session had seen; or the drive had no seat for it.
    ensures attended { (i : ℕ) (d : _) → i < length clients.old
        → IsAttendedClient S.remaining W.passed S.failures W.failures J.base J.reserve J.moments
        (slice_index_or clients.old i d) (slice_index_or clients.new i d) }
{
    let serve_one = |index: usize, client: &mut Client<J, S, W>|
        requires { (client.now.part ≡ Some one_part)
            × (S.failures client.now.reader + 1 < 2 ^ 64)
            × (W.failures client.now.writer + 1 < 2 ^ 64) }
        ensures attended { IsAttendedClient S.remaining W.passed S.failures W.failures J.base J.reserve
            J.moments client.entry.now client.exit.now }
    {
        attend(
            rt,
            alloc,
            drive,
            pace,
            gate,
            index.saturating_add(1),
            client,
        );
    };
    for_each_mut_with_stack(rt, STACK_BYTES, clients, &serve_one);
}

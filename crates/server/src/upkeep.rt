//! Sessions with the history cleaner and the segment copier beside them. The cleaner has the lock
//! for one object at a time.
ghost use Rattle.std.specs.Prelude.{◌≡◌, ℕ, ◌+◌, ◌^◌, ◌<◌, ◌≤◌, All, MatchResult, Some, length};
ghost use Rattle.std.specs.Prelude.{IfSome, IfNone};
ghost use Rattle.std.specs.Prelude.{slice_index_or, true, vec_len};
ghost use Rattle.s4_types.specs.declared.refusals.Refusal.TheVariants.{Busy};
ghost use Rattle.server.specs.Accounts.{one_part};
ghost use Rattle.server.specs.Attending.{IsAttendedClient};
ghost use Rattle.server.specs.Moving.{IsMoving};
ghost use Rattle.server.specs.Upkeep.{IsRound, IsLastRound, IsRoundOver, SharedVisit, SharedSweep};
ghost use Rattle.server.specs.Upkeep.{ends_round};

use crate::accounts::Running;
use crate::gate::{Gate, UpkeepStep};
use crate::gathering::{gather_all, gather_between};
use crate::locked::{enter, take_sweep, take_turn, take_visit};
use crate::moving::{Moves, keep_moving};
use crate::pace::Pace;
use crate::progress::Begun;
use crate::running::{Client, STACK_BYTES, run_beside};
use crate::shared::SharedDrive;
use drive::Session;
use history_cleaner::{Rounds, Turn};
use own_stacks::join_with_stack;
use s4_types::{ObjectId, Refusal, Role};
use serving::{Clock, Sink, Source};
use std::alloc::Global;
use std::sync::{Mutex, Wait};
use std::thread::Threads;
use std::time;

/// A whole round of the cleaner over all objects of a drive, by ascending number.
#[derive(Clone, Copy)]
pub struct Round {
    /// All sessions had ended when it began, and the copier too.
    pub is_last: bool,
    /// How many objects had their turn.
    pub turns: u64,
}

/// What was done for a drive beside its sessions.
#[derive(Clone, Copy)]
pub struct Upkeep {
    /// The cleaner's last round.
    pub round: Round,
    /// What the copier did; Busy where the drive had no seat for its session.
    pub moves: Result<Moves, Refusal>,
}

/// Turns of a walk over all objects that one round takes: a change that waits for a round waits for
/// no more of them.
const WALK_TURNS: u64 = 64;

/// Whether a turn ended its round.
fn is_end(turn: Turn) -> bool
    ensures { result ≡ ends_round turn }
{
    matches!(turn, Turn::Ended)
}

/// One whole round. Between its turns sessions may have the lock. Where the cleaner has a seat, it
/// gathers between some turns, and after the last.
#[tactic(auto, using(crate::proofs::Rounding::underway_first, crate::proofs::Rounding::underway_more, crate::proofs::Rounding::underway_rises, crate::proofs::Rounding::underway_ends))]
fn go_round<J: Running, C: Clock>(
    rt: &impl Wait,
    alloc: Global,
    drive: &Mutex<SharedDrive<J, C>>,
    pace: &Pace,
    seat: &mut Option<Session<J>>,
    is_last: bool,
) -> Round
    requires { J.has_upkeep ≡ true }
    ensures round { IsRound J.base result }
    ensures last { result.is_last ≡ is_last }
{
    let mut rounds = Rounds::new();
    let mut turns = 0;
    while !is_end(take_turn(rt, alloc, drive, pace, &mut rounds, is_last)) {
        turns += 1;
        gather_between(rt, alloc, drive, pace, seat, turns);
    }
    gather_all(rt, alloc, drive, pace, seat);
    Round { is_last, turns }
}

/// Some turns more of a walk over all objects, in the same way.
fn go_on<J: Running, C: Clock>(
    rt: &impl Wait,
    alloc: Global,
    drive: &Mutex<SharedDrive<J, C>>,
    pace: &Pace,
    seat: &mut Option<Session<J>>,
    walk: &mut Rounds,
)
    requires { J.has_upkeep ≡ true }
{
    for turn in 0..WALK_TURNS {
        if is_end(take_turn(rt, alloc, drive, pace, walk, false)) {
            return;
        }
        gather_between(rt, alloc, drive, pace, seat, turn + 1);
    }
}

/// A round over these objects alone, in the same way.
fn go_over<J: Running, C: Clock>(
    rt: &impl Wait,
    alloc: Global,
    drive: &Mutex<SharedDrive<J, C>>,
    pace: &Pace,
    seat: &mut Option<Session<J>>,
    objects: &[ObjectId],
)
    requires { J.has_upkeep ≡ true }
    ensures visited { (i : ℕ) (d : _) → i < length objects.now
        → SharedVisit J.base (slice_index_or objects.now i d) }
    ensures swept { SharedSweep J.base }
{
    let mut turns: u64 = 0;
    for object in objects {
        take_visit(rt, alloc, drive, pace, *object);
        turns = turns.saturating_add(1);
        gather_between(rt, alloc, drive, pace, seat, turns);
    }
    take_sweep(rt, drive, pace);
    gather_all(rt, alloc, drive, pace, seat);
}

/// A round that has begun, in the same way: over the objects that are due, after some turns more of
/// a walk where it is to go on with one; or over all, which ends a walk.
fn go_as_begun<J: Running, C: Clock>(
    rt: &impl Wait,
    alloc: Global,
    drive: &Mutex<SharedDrive<J, C>>,
    pace: &Pace,
    seat: &mut Option<Session<J>>,
    walk: &mut Rounds,
    begun: Begun,
) -> Round
    requires { J.has_upkeep ≡ true }
    ensures due { IfSome begun.objects (λ objects. IsRoundOver J.base objects.items result) }
    ensures all { IfNone begun.objects
        (IsRound J.base result × (result.is_last ≡ begun.is_last)) }
    ensures last { result.is_last ≡ true → IsLastRound J.base result }
{
    let Begun {
        is_last,
        objects,
        walks,
    } = begun;
    let Some(objects) = objects else {
        *walk = Rounds::new();
        return go_round(rt, alloc, drive, pace, seat, is_last);
    };
    if walks {
        go_on(rt, alloc, drive, pace, seat, walk);
    }
    go_over(rt, alloc, drive, pace, seat, objects.as_slice());
    Round {
        is_last: false,
        turns: objects.len() as u64,
    }
}

/// The cleaner beside sessions, on a thread of its own: it goes round again and again, over the
/// objects of which a turn may free something. While some of these are unknown, each round takes
/// some turns more of a walk over all objects. Ends with a whole round that began when all others
/// had ended.
pub fn keep_up<J: Running, C: Clock, R: Wait, G: Gate>(
    rt: &R,
    alloc: Global,
    drive: &Mutex<SharedDrive<J, C>>,
    pace: &Pace,
    gate: &G,
) -> Round
    requires { J.has_upkeep ≡ true }
    ensures { IsLastRound J.base result }
{
    // Without a seat it cleans all the same.
    let mut seat = enter(rt, drive, Some(pace), Role::Client).ok();
    let mut walk = Rounds::new();
    for _ in rt.forever() {
        gate.upkeep(UpkeepStep::RoundBegins);
        let begun = pace.begin_round(rt);
        gate.upkeep(UpkeepStep::FirstTurn);
        let round = go_as_begun(rt, alloc, drive, pace, &mut seat, &mut walk, begun);
        gate.upkeep(UpkeepStep::RoundEnds);
        pace.end_round(rt, round.turns, round.is_last);
        if round.is_last {
            return round;
        }
        gate.upkeep(UpkeepStep::CleanerRests);
        pace.await_call(rt);
    }
    unreachable!()
}

/// The cleaner and the copier beside sessions. The copier ends once all sessions have ended, and
/// the cleaner with a whole round after that.
fn keep_beside<J: Running + Send + Sync, C: Clock + Send, R: Threads + Wait + Sync, G: Gate + Sync>(
    rt: &R,
    alloc: Global,
    drive: &Mutex<SharedDrive<J, C>>,
    pace: &Pace,
    gate: &G,
) -> Upkeep
    requires { J.has_upkeep ≡ true }
    ensures round { IsLastRound J.base result.round }
    ensures moves { MatchResult result.moves (IsMoving J.base) (λ e. e ≡ Busy) }
{
    let clean = || -> Round
        requires { J.has_upkeep ≡ true }
        ensures { IsLastRound J.base result }
    { keep_up(rt, alloc, drive, pace, gate) };
    let copy = || -> Result<Moves, Refusal>
        requires { J.has_upkeep ≡ true }
        ensures moves { MatchResult result (IsMoving J.base) (λ e. e ≡ Busy) }
    { keep_moving(rt, alloc, drive, pace, gate) };
    // Where there is no thread for the first, it is called after the second.
    let (round, moves) = join_with_stack(rt, STACK_BYTES, clean, copy);
    Upkeep { round, moves }
}

/// Serves sessions of one drive at once, as [`run_sessions`] does, and beside them keeps the drive
/// up, on two threads more: one cleans, the other moves blocks.
///
/// The cleaner has the lock for one object at a time, by ascending number and round again. It frees
/// the frames that hold nothing after each round, and after each turn while little room is left.
/// Its last round is over all objects, those before over the ones that have history to free. At
/// first these are unknown: each round takes some turns more of a walk over all objects then, which
/// a change waits for only where too little room is left for a move. It rests until a flush or
/// another window hides moments, or until room is short or a chain nearly full, and enough has aged
/// since its last round. Where that is so, a change waits for a round before it is asked, or until
/// there is room for a move and room isn't short; a Read never waits, and no request where no
/// cleaner is at work. The copier takes step after step while room is short: it has the lock while
/// it plans the next move and while it puts it in place, and copies without it. It takes one step
/// at least, and ends once all sessions have ended. Then the cleaner goes round a last time. Where
/// the system gives no thread for one of the two, it goes round once, or takes one step, after the
/// sessions.
///
/// Answers the clients, the cleaner's last round, and what the copier did.
pub fn run_with_upkeep<
    J: Running + Send + Sync,
    C: Clock + Send,
    R: Threads + Wait + time::Clock + Sync,
    G: Gate + Sync,
    S: Source + Send + Drop,
    W: Sink + Send + Drop,
>(
    rt: &R,
    alloc: Global,
    drive: &Mutex<SharedDrive<J, C>>,
    gate: &G,
    clients: Vec<Client<J, S, W>>,
) -> (Vec<Client<J, S, W>>, Upkeep)
    requires upkeep { J.has_upkeep ≡ true }
    requires count { vec_len clients ≤ 16 }
    requires parts { All (λ c. c.part ≡ Some one_part) clients.items }
    requires readers { All (λ c. S.failures c.reader + 1 < 2 ^ 64) clients.items }
    requires writers { All (λ c. W.failures c.writer + 1 < 2 ^ 64) clients.items }
    ensures round { IsLastRound J.base result.1.round }
    ensures moves { MatchResult result.1.moves (IsMoving J.base) (λ e. e ≡ Busy) }
    ensures count { vec_len result.0 ≡ vec_len clients }
    // Each session was answered by steps of histories that begin with the drive's base, each after
    // all that the session had seen; or the drive had no seat for it.
    ensures attended { (i : ℕ) (d : _) → i < vec_len clients
        → IsAttendedClient S.remaining W.passed S.failures W.failures J.base J.reserve J.moments
        (slice_index_or clients.items i d) (slice_index_or result.0.items i d) }
{
    let pace = Pace::new(rt, alloc, drive);
    let keep = || -> Upkeep
        requires { J.has_upkeep ≡ true }
        ensures round { IsLastRound J.base result.round }
        ensures moves { MatchResult result.moves (IsMoving J.base) (λ e. e ≡ Busy) }
    { keep_beside(rt, alloc, drive, &pace, gate) };
    let attend = || -> Vec<Client<J, S, W>>
        requires count { vec_len clients ≤ 16 }
        requires parts { All (λ c. c.part ≡ Some one_part) clients.items }
        requires readers { All (λ c. S.failures c.reader + 1 < 2 ^ 64) clients.items }
        requires writers { All (λ c. W.failures c.writer + 1 < 2 ^ 64) clients.items }
        ensures count { vec_len result ≡ vec_len clients }
        ensures attended { (i : ℕ) (d : _) → i < vec_len clients
            → IsAttendedClient S.remaining W.passed S.failures W.failures J.base J.reserve J.moments
            (slice_index_or clients.items i d) (slice_index_or result.items i d) }
    {
        let mut clients = clients;
        pace.await_start(rt);
        run_beside(rt, alloc, drive, Some(&pace), gate, clients.as_mut_slice());
        gate.upkeep(UpkeepStep::SessionsEnd);
        pace.end_sessions(rt);
        gate.upkeep(UpkeepStep::SessionsReturn);
        clients
    };
    // Where there is no thread for the first, it is called after the second.
    let (upkeep, clients) = join_with_stack(rt, STACK_BYTES, keep, attend);
    (clients, upkeep)
}

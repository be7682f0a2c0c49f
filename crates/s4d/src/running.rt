//! `run`: sessions of a drive that an image is read from, and its image written anew.
ghost use Rattle.std.specs.Prelude.{◌≡◌, ◌≢◌, ℕ, ◌+◌, ◌-◌, ◌^◌, ◌<◌, ◌≤◌, All, AllPairs, Bool, List};
ghost use Rattle.std.specs.Prelude.{MatchResult, Option, Some, length, slice_index_or, vec_len};
ghost use Rattle.std.specs.Prelude.{true, false, IfErr, IfOk, IsTrue, OnErr, OnOk, ◌↔◌};
ghost use Rattle.std.specs.Io.KnownBytes.{Keeps};
ghost use Rattle.s4_types.specs.declared.refusals.Refusal.TheVariants.{NoMemory};
ghost use Rattle.segment_table.specs.Room.{log_of};
ghost use Rattle.version_store.specs.Store.{fields_of};
ghost use Rattle.drive.specs.Opened.{base_of};
ghost use Rattle.server.specs.Accounts.{one_part};
ghost use Rattle.server.specs.Attending.{AreServed, IsAttendedClient, with_part};
ghost use Rattle.server.specs.Drawing.{AreTicks};
ghost use Rattle.verifier.specs.Saved.{SpellsSaved};
ghost use Rattle.image_commands.specs.Files.{AreKnown};
ghost use Rattle.image_commands.specs.Leaving.{IsBeside, IsKeptOrLeft};
ghost use Rattle.s4d_command.specs.declared.sessions.RunSession.{RunSession as Session};
ghost use Rattle.s4d.specs.Opening.{HoldsAt};
ghost use Rattle.s4d.specs.Promised.{KeepsItsPromise};
ghost use Rattle.s4d.specs.Running.{IsSavedIn, IsUnasked, IsUnserved, IsUnwritten, LeavesDrive};
ghost use Rattle.s4d.specs.Running.{RunsImage, RunsSessions, SaysNotRun, SaysUnrun, SaysUnserved};

use crate::faults::RunFault;
use crate::session_files::{are_apart, finish_all, open_clients};
use drive::OpenedDrive;
use image_commands::{
    Fault, Files, Place, Placed, longest_image, read_image, remove_leftovers, writing,
};
use s4_types::{Moment, Refusal};
use s4d_command::{Run, RunSession};
use server::laws::a_run_is_what_was_asked;
use server::{
    Blanks, Client, MOST_SESSIONS, Open, Outcome, Part, Running, SharedDrive, give_parts,
    run_sessions, run_with_upkeep, settle,
};
use serving::{ReadSource, ServeEnd, Sink, Source, Ticking, WriteSink};
use std::alloc::Global;
use std::io::Write;
use std::marker::Brand;
use std::sync::{Mutex, Wait};
use std::thread::Threads;
use std::time::Clock;
use verifier::opening_laws::what_is_saved_goes_on;
use verifier::{open, save};

/// How sessions are served.
#[derive(Clone, Copy)]
struct Manner {
    /// The drive's clock before the first session.
    start: Moment,
    /// How far the clock moves for each request, in moments.
    tick: u64,
    /// Whether the history cleaner and the segment copier are beside the sessions.
    upkeep: bool,
}

/// A run that is over, and its image in its place.
#[derive(Clone, Copy)]
pub struct Ran {
    /// Whether each session ended at the end of its input, and the path of its output led to its
    /// replies then.
    pub is_ended: bool,
    pub placed: Placed,
}

/// A drive that was just opened from an image, and what is known before its sessions run.
#[derive(Drop)]
struct Begun<'a, F: Files> {
    /// The image's path.
    path: &'a str,
    claim: F::Claim,
    /// How many bytes the image of what the sessions leave has at most, but for its audit rows.
    length: usize,
    manner: Manner,
    opened: OpenedDrive,
    /// The books of the run.
    blanks: Blanks,
}

/// Serves the sessions of a drive that an image is read from, and writes its image anew. Says
/// whether each session ended at the end of its input and its output's path led to its replies
/// then; each other one has a line on `errors`.
///
/// Where the image or a file fails, no session is served, and each file that was there has its
/// bytes; an output that wasn't there may be left, empty. That the image can be replaced is known
/// before, but for the room of its audit rows: another program that serves it, a file that can't be
/// made beside it, or a disk without room for the longest image that has none is a fault then. So
/// is a session that is to write over the image, over what a session reads or another one writes,
/// or that is to use a file beside the image; and then no output is made. What was left beside the
/// image and is none itself is removed.
pub fn run_file<'a, T: Threads + Wait + Clock + Sync, F: Files, E: Write>(
    rt: &T,
    alloc: Global,
    files: &mut F,
    asked: &Run<'a>,
    errors: &mut E,
) -> Result<Ran, RunFault<'a>>
    requires sessions { vec_len asked.now.sessions ≤ 16 }
    ensures image { IfOk result
        (λ ran. RunsImage (HoldsAt F.writes F.Writer.contents) asked.now (F.contents files.old)
        (F.contents files.new) (F.contents files.new asked.now.image.now) ran.is_ended) }
    // The same in the words of the model.
    ensures promise { IfOk result
        (λ ran. KeepsItsPromise (HoldsAt F.writes F.Writer.contents) asked.now
        (F.contents files.old) (F.contents files.new) ran.is_ended) }
    ensures apart { OnOk result
        (All
        (λ written. All (λ read. F.apart read.input.now written.output.now)
        asked.now.sessions.items) asked.now.sessions.items) }
    // What no session writes stays, but for what was left beside the image and is no image.
    ensures others { OnOk result ((path : List ℕ) → F.apart asked.now.image.now path → IsUnwritten F.apart asked.now.sessions.items path
        → IsKeptOrLeft (IsBeside F.leads F.reserves asked.now.image.now path) (F.contents files.old path) (F.contents files.new path)) }
    // So does the image, where the sessions weren't served or not saved; and in the first case each
    // output.
    ensures unsaved { OnErr result ((path : List ℕ) → IsUnwritten F.apart asked.now.sessions.items path
        → IsKeptOrLeft (IsBeside F.leads F.reserves asked.now.image.now path) (F.contents files.old path) (F.contents files.new path)) }
    ensures unserved { IfErr result (λ fault. IsUnserved fault → (path : List ℕ)
        → IsKeptOrLeft (IsBeside F.leads F.reserves asked.now.image.now path) (F.contents files.old path) (F.contents files.new path)) }
    ensures fault { IfErr result
        (SaysNotRun (HoldsAt F.writes F.Writer.contents) asked.now (F.contents files.old)
        (F.contents files.new)) }
{
    what_is_saved_goes_on();
    // The claim comes first, so that nobody replaces what is read; what can't be read is the first
    // fault all the same.
    let claim = files.claim(alloc, asked.image);
    let image = match read_image(rt, alloc, files, asked.image) {
        Ok(image) => image,
        Err(fault) => return Err(RunFault::Unserved(fault)),
    };
    let claim = match claim {
        Ok(claim) => claim,
        Err(obstacle) => {
            drop(image);
            return Err(RunFault::Unserved(writing(obstacle, asked.image)));
        }
    };
    let length = longest_image(image.frames());
    let manner = Manner {
        start: image.clock(),
        tick: asked.tick,
        upkeep: asked.upkeep,
    };
    match open(alloc, image) {
        Ok(opened) => {
            let begun = Begun {
                path: asked.image,
                claim,
                length,
                manner,
                opened,
                blanks: Blanks::new(MOST_SESSIONS as u64 + 1),
            };
            run_begun::<Brand, T, F, E>(rt, alloc, files, begun, asked.sessions.as_slice(), errors)
        }
        Err(refusal) => Err(RunFault::Unserved(Fault::Refused(refusal))),
    }
}

// Serves the sessions of a drive that was just opened, and puts its image in its place.
#[tactic(auto, using(crate::proofs::Settled::served_begun))]
fn run_begun<'a, J: Running + Send + Sync, T: Threads + Wait + Clock + Sync, F: Files, E: Write>(
    rt: &T,
    alloc: Global,
    files: &mut F,
    begun: Begun<'a, F>,
    sessions: &[RunSession<'a>],
    errors: &mut E,
) -> Result<Ran, RunFault<'a>>
    requires accepts { begun.opened.accepts ≡ J.accepts }
    requires frames { begun.opened.store.table.seat.table ≡ J.frames }
    requires base { base_of (fields_of log_of begun.opened.store) begun.opened.timeline
        begun.opened.next begun.opened.audit ≡ J.base }
    requires sessions { length sessions.now ≤ 16 }
    requires unasked { (d : _) → IsUnasked J.base d → J.begins d }
    requires begins { (d : _) → J.begins d → IsUnasked J.base d }
    requires ticks { (moments : List ℕ)
        → AreTicks (record { start = begun.manner.start; tick = begun.manner.tick }) moments
        → J.moments moments }
    requires moments { (moments : List ℕ) → J.moments moments
        → AreTicks (record { start = begun.manner.start; tick = begun.manner.tick }) moments }
    requires upkeep { J.has_upkeep ≡ begun.manner.upkeep }
    // Clients leave no room to administrators.
    requires reserve { J.reserve ≡ 0 }
    requires ledgers { (begun.blanks.requests ≡ J.asked) × (begun.blanks.changes ≡ J.name) }
    requires parts { (begun.blanks.parts ≡ J.parts) × (J.parts ≡ 17) }
    requires start { begun.opened.timeline.clock ≡ begun.manner.start }
    requires claimed { F.leads begun.claim begun.path.now }
    ensures left { IfOk result (λ ran. LeavesDrive J.base
        (RunsSessions J.base J.reserve J.moments (record { start = begun.entry.manner.start; tick = begun.entry.manner.tick }) begun.entry.manner.upkeep (HoldsAt F.writes F.Writer.contents) (F.contents files.old) (F.contents files.new) sessions.now ran.is_ended)
        (IsSavedIn (F.contents files.new begun.entry.path.now))) }
    ensures apart { OnOk result
        (All (λ written. All (λ read. F.apart read.input.now written.output.now) sessions.now)
        sessions.now) }
    ensures others { OnOk result ((path : List ℕ) → F.apart begun.entry.path.now path → IsUnwritten F.apart sessions.now path
        → IsKeptOrLeft (IsBeside F.leads F.reserves begun.entry.path.now path) (F.contents files.old path) (F.contents files.new path)) }
    ensures unsaved { OnErr result ((path : List ℕ) → IsUnwritten F.apart sessions.now path
        → IsKeptOrLeft (IsBeside F.leads F.reserves begun.entry.path.now path) (F.contents files.old path) (F.contents files.new path)) }
    ensures unserved { IfErr result (λ fault. IsUnserved fault → (path : List ℕ)
        → IsKeptOrLeft (IsBeside F.leads F.reserves begun.entry.path.now path) (F.contents files.old path) (F.contents files.new path)) }
    ensures fault { IfErr result (λ fault. (known : Option (List ℕ)) → SaysUnrun known begun.entry.path.now sessions.now (λ saved. (ended : Bool) × LeavesDrive J.base
        (RunsSessions J.base J.reserve J.moments (record { start = begun.entry.manner.start; tick = begun.entry.manner.tick }) begun.entry.manner.upkeep (HoldsAt F.writes F.Writer.contents) (F.contents files.old) (F.contents files.new) sessions.now ended)
        (IsSavedIn saved)) (F.contents files.new) fault) }
{
    a_run_is_what_was_asked();
    let Begun {
        path,
        claim,
        length,
        manner,
        opened,
        blanks,
    } = begun;
    let place = match place_apart(rt, alloc, files, path, claim, length, sessions) {
        Ok(place) => place,
        Err(fault) => return Err(RunFault::Unserved(fault)),
    };
    let clients = match open_clients::<J, F>(alloc, files, sessions) {
        Ok(clients) => clients,
        Err(fault) => {
            place.leave(files);
            return Err(RunFault::Unserved(fault));
        }
    };
    let (served, saved) = serve_named::<J, T, ReadSource<F::Reader>, WriteSink<F::Writer>>(
        rt, alloc, opened, manner, blanks, clients,
    );
    let are_ended = tell_sessions(errors, served.as_slice());
    let are_there = finish_all(errors, files, sessions, served.as_slice());
    put_saved(files, place, saved, are_ended & are_there)
}

// Puts what was saved in its place, and says that the sessions ended so. Nothing is put there where
// it wasn't saved.
fn put_saved<'a, F: Files>(
    files: &mut F,
    place: Place<'a, F>,
    saved: Result<Vec<u8>, Refusal>,
    is_ended: bool,
) -> Result<Ran, RunFault<'a>>
    requires claimed { F.leads place.claim place.path.now }
    requires refusal { IfErr saved (λ e. e ≡ NoMemory) }
    ensures saved { IfOk result
        (λ ran. (ran.is_ended ≡ is_ended)
        × MatchResult saved
        (λ bytes. AreKnown (F.contents files.new place.entry.path.now) bytes.items)
        (λ _. ⊥)) }
    ensures elsewhere { OnOk result
        ((other : List ℕ)
        → F.apart place.entry.path.now other
        → F.is_beside place.entry.beside other ≡ false
        → Keeps (F.contents files.old other) (F.contents files.new other)) }
    ensures others { OnErr result
        ((other : List ℕ)
        → F.is_beside place.entry.beside other ≡ false
        → Keeps (F.contents files.old other) (F.contents files.new other)) }
    ensures unsaved { IfErr result (λ fault. IsUnserved fault → ⊥) }
    ensures fault { IfErr result
        (λ fault. (known : Option (List ℕ)) (sessions : List Session)
        → SaysUnrun known place.entry.path.now sessions
        (λ has. MatchResult saved (λ bytes. AreKnown has bytes.items) (λ _. ⊥))
        (F.contents files.new) fault) }
{
    let bytes = match saved {
        Ok(bytes) => bytes,
        Err(refusal) => {
            place.leave(files);
            return Err(RunFault::Unsaved(Fault::Refused(refusal)));
        }
    };
    match place.put(files, bytes.as_slice()) {
        Ok(placed) => Ok(Ran { is_ended, placed }),
        Err(fault) => Err(RunFault::Unsaved(fault)),
    }
}

// Makes the file beside an image, once what was left there is removed. Not so where a session is to
// use the image or such a file.
fn place_apart<'a, T: Threads, F: Files>(
    rt: &T,
    alloc: Global,
    files: &mut F,
    path: &'a str,
    claim: F::Claim,
    length: usize,
    sessions: &[RunSession<'a>],
) -> Result<Place<'a, F>, Fault<'a>>
    requires claimed { F.leads claim path.now }
    ensures path { IfOk result (λ place. place.path.now ≡ path.now) }
    ensures claimed { IfOk result (λ place. F.leads place.claim place.path.now) }
    ensures apart { OnOk result
        (All (λ written. All (λ read. F.apart read.input.now written.output.now) sessions.now)
        sessions.now) }
    ensures written { OnOk result
        (AllPairs (λ first second. F.apart first.output.now second.output.now) sessions.now) }
    ensures image { OnOk result (All (λ s. F.apart path.now s.output.now) sessions.now) }
    ensures beside { IfOk result
        (λ place. All (λ s. F.is_beside place.beside s.output.now ≡ false) sessions.now) }
    ensures inputs { OnOk result
        (All (λ s. Keeps (F.contents files.old s.input.now) (F.contents files.new s.input.now))
        sessions.now) }
    // What was left beside the image and is no image is removed, and nothing else is known of it in
    // the place of what was made.
    ensures kept { (other : List ℕ)
        → IsKeptOrLeft (IsBeside F.leads F.reserves path.now other) (F.contents files.old other)
        (F.contents files.new other) }
    ensures anew { IfOk result (λ place. (other : List ℕ) → F.is_beside place.beside other ≡ true
        → (known : Option (List ℕ)) → IsKeptOrLeft (IsBeside F.leads F.reserves path.now other) (F.contents files.old other) known) }
    ensures fault { IfErr result
        (λ fault. (known : Option (List ℕ)) → SaysUnserved known path.now sessions.now fault) }
{
    match are_apart(files, &claim, path, sessions) {
        Ok(()) => {}
        Err(fault) => return Err(fault),
    }
    remove_leftovers(rt, alloc, files, &claim);
    Place::beside(alloc, files, path, claim, length)
}

// Serves the sessions of a drive that was just opened, and gives what it is saved as then.
fn serve_named<
    J: Running + Send + Sync,
    T: Threads + Wait + Clock + Sync,
    S: Source + Send + Drop,
    W: Sink + Send + Drop,
>(
    rt: &T,
    alloc: Global,
    opened: OpenedDrive,
    manner: Manner,
    blanks: Blanks,
    clients: Vec<Client<J, S, W>>,
) -> (Vec<Client<J, S, W>>, Result<Vec<u8>, Refusal>)
    requires accepts { opened.accepts ≡ J.accepts }
    requires frames { opened.store.table.seat.table ≡ J.frames }
    requires base { base_of (fields_of log_of opened.store) opened.timeline opened.next opened.audit ≡ J.base }
    requires unasked { (d : _) → IsUnasked J.base d → J.begins d }
    requires ticks { (moments : List ℕ)
        → AreTicks (record { start = manner.start; tick = manner.tick }) moments
        → J.moments moments }
    requires upkeep { J.has_upkeep ≡ manner.upkeep }
    requires reserve { J.reserve ≡ 0 }
    requires ledgers { (blanks.requests ≡ J.asked) × (blanks.changes ≡ J.name) }
    requires parts { (blanks.parts ≡ J.parts) × (J.parts ≡ 17) }
    requires count { vec_len clients ≤ 16 }
    requires readers { All (λ c. S.failures c.reader + 1 < 2 ^ 64) clients.items }
    requires writers { All (λ c. W.failures c.writer + 1 < 2 ^ 64) clients.items }
    ensures count { vec_len result.0 ≡ vec_len clients }
    // A drive with this base is left, and bytes that are answered are what it is saved as. It is
    // what the sessions' requests have made of the one that was opened, and nobody else's. Its
    // history begins with all that a session had seen, and has the session's own changes at their
    // numbers; or there was no seat for the session.
    ensures left { LeavesDrive J.base
        (AreServed S.remaining W.passed S.failures W.failures J.base J.reserve J.begins J.moments J.has_upkeep
        clients.items result.0.items)
        (λ drive. IfOk result.1 (λ bytes. SpellsSaved drive bytes.items)) }
    ensures refusal { IfErr result.1 (λ e. e ≡ NoMemory) }
{
    let drive = opened.named::<J>();
    let clock = Ticking::new(manner.start, manner.tick);
    let (shared, mut rest) = SharedDrive::new(drive, clock, blanks, 0);
    let clients = with_parts(&mut rest, clients);
    let shared = Mutex::new(shared);
    let mut served = serve_all(rt, alloc, &shared, manner.upkeep, clients);
    let mut drive = settle(shared.into_inner(), rest, served.as_mut_slice());
    let saved = save(alloc, &mut drive);
    drive.rules();
    (served, saved)
}

// The clients, each with a part of a run's books, out of all that are left.
fn with_parts<J: Running, S: Source, W: Sink>(
    rest: &mut Part<J>,
    mut clients: Vec<Client<J, S, W>>,
) -> Vec<Client<J, S, W>>
    requires { vec_len clients < rest.old.parts }
    ensures count { vec_len result ≡ vec_len clients }
    ensures rest { rest.new ≡ record rest.old { parts = rest.old.parts - vec_len clients } }
    ensures given { (i : ℕ) (d : _) → i < length clients.items
        → slice_index_or result.items i d ≡ with_part (slice_index_or clients.items i d) }
{
    give_parts(rest, clients.as_mut_slice());
    clients
}

// Serves the sessions, with upkeep or without it.
fn serve_all<
    J: Running + Send + Sync,
    T: Threads + Wait + Clock + Sync,
    S: Source + Send + Drop,
    W: Sink + Send + Drop,
>(
    rt: &T,
    alloc: Global,
    drive: &Mutex<SharedDrive<J, Ticking>>,
    upkeep: bool,
    clients: Vec<Client<J, S, W>>,
) -> Vec<Client<J, S, W>>
    requires upkeep { J.has_upkeep ≡ upkeep }
    requires count { vec_len clients ≤ 16 }
    requires parts { All (λ c. c.part ≡ Some one_part) clients.items }
    requires readers { All (λ c. S.failures c.reader + 1 < 2 ^ 64) clients.items }
    requires writers { All (λ c. W.failures c.writer + 1 < 2 ^ 64) clients.items }
    ensures count { vec_len result ≡ vec_len clients }
    // Each session was answered by steps of the shared drive, or the drive had no seat for it.
    ensures attended { (i : ℕ) (d : _) → i < vec_len clients
        → IsAttendedClient S.remaining W.passed S.failures W.failures J.base J.reserve J.moments
        (slice_index_or clients.items i d) (slice_index_or result.items i d) }
{
    if upkeep {
        let (served, _) = run_with_upkeep(rt, alloc, drive, &Open, clients);
        return served;
    }
    let mut served = clients;
    run_sessions(rt, alloc, drive, &Open, served.as_mut_slice());
    served
}

// Writes a line for each session that didn't come to the end of its input, and says whether there
// is none.
fn tell_sessions<J: Running, S: Source, W: Sink, E: Write>(
    errors: &mut E,
    served: &[Client<J, S, W>],
) -> bool
    requires over { (i : ℕ) (d : _) → i < length served.now
        → (slice_index_or served.now i d).outcome ≢ Outcome.Waiting }
    ensures ended { IsTrue result
        ↔ All (λ c. c.outcome ≡ Outcome.Served ServeEnd.Ended) served.now }
{
    let mut is_ended = true;
    for (place, client) in served.iter().enumerate() {
        is_ended &= tell_session(errors, place.saturating_add(1), client.outcome);
    }
    is_ended
}

// Writes a line for a session that didn't come to the end of its input, and says whether it did.
fn tell_session<E: Write>(errors: &mut E, number: usize, outcome: Outcome) -> bool
    requires { outcome ≢ Outcome.Waiting }
    ensures { IsTrue result ↔ (outcome ≡ Outcome.Served ServeEnd.Ended) }
{
    // There is nobody to tell where such a line can't be written.
    let _ = match outcome {
        Outcome::Served(ServeEnd::Ended) => return true,
        Outcome::Served(end) => writeln!(errors, "s4d: session {number}: {end}"),
        Outcome::Refused(refusal) => writeln!(errors, "s4d: session {number}: {refusal}"),
        Outcome::Waiting => unreachable!(),
    };
    false
}

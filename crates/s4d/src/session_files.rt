//! The files of sessions: which they may be, how they are opened, and what is looked at once all is
//! written.
ghost use Rattle.std.specs.Prelude.{◌≡◌, ℕ, ◌+◌, ◌^◌, ◌<◌, All, AllPairs, List, [], length};
ghost use Rattle.std.specs.Prelude.{vec_len, false, IfErr, IfOk, IsFalse, IsTrue, OnErr, OnOk};
ghost use Rattle.std.specs.Io.KnownBytes.{Keeps};
ghost use Rattle.std.specs.List.{AllZip};
ghost use Rattle.image_commands.specs.Files.{AreKnown};
ghost use Rattle.s4d.specs.Opening.{HoldsAt, SaysSessionUnopened, SaysUnopened};
ghost use Rattle.s4d.specs.Running.{HasFiles};

use image_commands::{Fault, Files, Obstacle, reading, writing};
use s4_types::Refusal;
use s4d_command::RunSession;
use server::{Client, Outcome, Running};
use serving::{ReadSource, WriteSink};
use std::alloc::{AllocError, Global};
use std::io::{self, Write};

/// A session over the files that it reads and writes.
pub type FileClient<J, F> = Client<
    J,
    ReadSource<<F as Files>::Reader>,
    WriteSink<<F as Files>::Writer>,
>;

/// A session with its files opened: what it writes has its bytes still.
#[derive(Drop)]
struct OpenedSession<'a, F: Files> {
    session: RunSession<'a>,
    reader: F::Reader,
    opened: F::Opened,
}

/// Whether no session is to write over the image, over what a session reads, or over what another
/// one writes, and none is to use a file beside the image: where one did, what was there would be
/// lost. The first file that isn't so is a fault.
pub fn are_apart<'a, F: Files>(
    files: &F,
    claim: &F::Claim,
    image: &str,
    sessions: &[RunSession<'a>],
) -> Result<(), Fault<'a>>
    ensures apart { OnOk result
        (All (λ written. All (λ read. F.apart read.input.now written.output.now) sessions.now)
        sessions.now) }
    ensures written { OnOk result
        (AllPairs (λ first second. F.apart first.output.now second.output.now) sessions.now) }
    ensures image { OnOk result (All (λ s. F.apart image.now s.output.now) sessions.now) }
    ensures inputs { OnOk result
        (All (λ s. F.reserves claim.now s.input.now ≡ false) sessions.now) }
    ensures outputs { OnOk result
        (All (λ s. F.reserves claim.now s.output.now ≡ false) sessions.now) }
    ensures fault { IfErr result (SaysUnopened sessions.now) }
{
    for (number, session) in sessions.iter().enumerate() {
        match is_apart(files, claim, image, sessions, &sessions[..number], *session) {
            Ok(()) => {}
            Err(fault) => return Err(fault),
        }
    }
    Ok(())
}

// The same of one session, with the ones before it.
fn is_apart<'a, F: Files>(
    files: &F,
    claim: &F::Claim,
    image: &str,
    sessions: &[RunSession<'a>],
    earlier: &[RunSession<'a>],
    session: RunSession<'a>,
) -> Result<(), Fault<'a>>
    ensures apart { OnOk result
        (All (λ read. F.apart read.input.now session.entry.output.now) sessions.now) }
    ensures written { OnOk result
        (All (λ s. F.apart s.output.now session.entry.output.now) earlier.now) }
    ensures image { OnOk result (F.apart image.now session.entry.output.now) }
    ensures input { OnOk result (F.reserves claim.now session.entry.input.now ≡ false) }
    ensures output { OnOk result (F.reserves claim.now session.entry.output.now ≡ false) }
    ensures fault { IfErr result (SaysSessionUnopened session.entry) }
{
    match files.is_reserved(claim, session.input) {
        Ok(false) => {}
        Ok(true) => return Err(Fault::CannotRead(session.input, Obstacle::Shared)),
        Err(error) => return Err(reading(error.kind(), session.input)),
    }
    match is_taken(files, claim, image, sessions, earlier, session.output) {
        Ok(false) => Ok(()),
        Ok(true) => Err(Fault::CannotWrite(session.output, Obstacle::Shared)),
        Err(error) => Err(writing(Obstacle::of(error.kind()), session.output)),
    }
}

// Whether an output is the image, a file beside it, one that a session reads, or one that an
// earlier session writes.
fn is_taken<F: Files>(
    files: &F,
    claim: &F::Claim,
    image: &str,
    sessions: &[RunSession<'_>],
    earlier: &[RunSession<'_>],
    output: &str,
) -> io::Result<bool>
    ensures image { IfOk result (λ is. IsFalse is → F.apart image.now output.now) }
    ensures apart { IfOk result
        (λ is. IsFalse is → All (λ read. F.apart read.input.now output.now) sessions.now) }
    ensures written { IfOk result
        (λ is. IsFalse is → All (λ s. F.apart s.output.now output.now) earlier.now) }
    ensures reserved { IfOk result (λ is. IsFalse is → F.reserves claim.now output.now ≡ false) }
{
    if files.are_same(image, output)? || files.is_reserved(claim, output)? {
        return Ok(true);
    }
    if is_one_written(files, earlier, output)? {
        return Ok(true);
    }
    is_one_read(files, sessions, output)
}

// Whether an output is one of the files that sessions read.
fn is_one_read<F: Files>(files: &F, sessions: &[RunSession<'_>], output: &str) -> io::Result<bool>
    ensures apart { IfOk result
        (λ is. IsFalse is → All (λ read. F.apart read.input.now output.now) sessions.now) }
{
    for session in sessions {
        if files.are_same(session.input, output)? {
            return Ok(true);
        }
    }
    Ok(false)
}

// Whether an output is one of the files that sessions write.
fn is_one_written<F: Files>(
    files: &F,
    sessions: &[RunSession<'_>],
    output: &str,
) -> io::Result<bool>
    ensures apart { IfOk result
        (λ is. IsFalse is → All (λ s. F.apart s.output.now output.now) sessions.now) }
{
    for session in sessions {
        if files.are_same(session.output, output)? {
            return Ok(true);
        }
    }
    Ok(false)
}

/// Opens the files of each session in turn, and then empties those that are to be written. Where
/// one can't be opened none is emptied.
pub fn open_clients<'a, J: Running, F: Files>(
    alloc: Global,
    files: &mut F,
    sessions: &[RunSession<'a>],
) -> Result<Vec<FileClient<J, F>>, Fault<'a>>
    ensures count { IfOk result (λ clients. vec_len clients ≡ length sessions.now) }
    ensures asked { IfOk result (λ clients. AllZip (λ s c. (c.role ≡ s.role)
        × HasFiles (HoldsAt F.writes F.Writer.contents) (F.contents files.old) s (F.Reader.remaining c.reader.reader) (F.Writer.contents c.writer.writer)) sessions.now clients.items) }
    ensures readers { IfOk result
        (λ clients. All (λ c. c.reader.failures + 1 < 2 ^ 64) clients.items) }
    ensures writers { IfOk result
        (λ clients. All (λ c. c.writer.failures + 1 < 2 ^ 64) clients.items) }
    ensures others { OnOk result
        ((other : List ℕ)
        → All (λ s. F.apart other s.output.now) sessions.now
        → Keeps (F.contents files.old other) (F.contents files.new other)) }
    ensures kept { OnErr result
        ((other : List ℕ) → Keeps (F.contents files.old other) (F.contents files.new other)) }
    ensures fault { IfErr result (SaysUnopened sessions.now) }
{
    let opened = match open_all(alloc, files, sessions) {
        Ok(opened) => opened,
        Err(fault) => return Err(fault),
    };
    match clients_of::<J, F>(alloc, files, opened) {
        Ok(clients) => Ok(clients),
        Err(_) => Err(Fault::Refused(Refusal::NoMemory)),
    }
}

// Opens what each session reads, and what it writes.
fn open_all<'a, F: Files>(
    alloc: Global,
    files: &mut F,
    sessions: &[RunSession<'a>],
) -> Result<Vec<OpenedSession<'a, F>>, Fault<'a>>
    ensures opened { IfOk result
        (λ opened. AllZip
        (λ s o. (o.session ≡ s)
        × F.opens o.opened s.output.now
        × Keeps (F.contents files.old s.input.now) (F.Reader.remaining o.reader))
        sessions.now opened.items) }
    ensures kept { (other : List ℕ)
        → Keeps (F.contents files.old other) (F.contents files.new other) }
    ensures fault { IfErr result (SaysUnopened sessions.now) }
{
    let mut all = Vec::new(alloc);
    for session in sessions {
        let opened = match open_one(files, *session) {
            Ok(opened) => opened,
            Err(fault) => return Err(fault),
        };
        match all.push(opened) {
            Ok(()) => {}
            Err(_) => return Err(Fault::Refused(Refusal::NoMemory)),
        }
    }
    Ok(all)
}

// Opens what a session reads, and what it writes.
fn open_one<'a, F: Files>(
    files: &mut F,
    session: RunSession<'a>,
) -> Result<OpenedSession<'a, F>, Fault<'a>>
    ensures session { IfOk result (λ o. o.session ≡ session.entry) }
    ensures opened { IfOk result (λ o. F.opens o.opened session.entry.output.now) }
    ensures read { IfOk result
        (λ o. F.Reader.remaining o.reader ≡ F.contents files.old session.entry.input.now) }
    ensures kept { (other : List ℕ)
        → Keeps (F.contents files.old other) (F.contents files.new other) }
    ensures fault { IfErr result (SaysSessionUnopened session.entry) }
{
    let reader = match files.open(session.input) {
        Ok(reader) => reader,
        Err(error) => return Err(reading(error.kind(), session.input)),
    };
    match files.open_output(session.output) {
        Ok(opened) => Ok(OpenedSession {
            session,
            reader,
            opened,
        }),
        Err(error) => Err(writing(Obstacle::of(error.kind()), session.output)),
    }
}

// The clients of sessions, with their outputs emptied. None is emptied where memory is short.
fn clients_of<'a, J: Running, F: Files>(
    alloc: Global,
    files: &mut F,
    sessions: Vec<OpenedSession<'a, F>>,
) -> Result<Vec<FileClient<J, F>>, AllocError>
    requires opened { All (λ o. F.opens o.opened o.session.output.now) sessions.items }
    ensures asked { IfOk result (λ clients. AllZip (λ o c. (c.role ≡ o.session.role) × (F.Reader.remaining c.reader.reader ≡ F.Reader.remaining o.reader)
        × AreKnown (F.Writer.contents c.writer.writer) [] × F.writes c.writer.writer o.session.output.now) sessions.entry.items clients.items) }
    ensures readers { IfOk result
        (λ clients. All (λ c. c.reader.failures + 1 < 2 ^ 64) clients.items) }
    ensures writers { IfOk result
        (λ clients. All (λ c. c.writer.failures + 1 < 2 ^ 64) clients.items) }
    ensures others { OnOk result
        ((other : List ℕ)
        → All (λ o. F.apart other o.session.output.now) sessions.entry.items
        → Keeps (F.contents files.old other) (F.contents files.new other)) }
    ensures kept { OnErr result
        ((other : List ℕ) → Keeps (F.contents files.old other) (F.contents files.new other)) }
{
    // All room is had before the first is emptied.
    let mut clients = Vec::with_capacity(alloc, sessions.len())?;
    for session in sessions {
        let client = client_of::<J, F>(files, session);
        match clients.push(client) {
            Ok(()) => {}
            Err(_) => unreachable!(),
        }
    }
    Ok(clients)
}

// The client of a session, with its output emptied.
fn client_of<'a, J: Running, F: Files>(
    files: &mut F,
    session: OpenedSession<'a, F>,
) -> FileClient<J, F>
    requires opened { F.opens session.opened session.session.output.now }
    ensures role { result.role ≡ session.entry.session.role }
    ensures read { F.Reader.remaining result.reader.reader
        ≡ F.Reader.remaining session.entry.reader }
    ensures empty { AreKnown (F.Writer.contents result.writer.writer) [] }
    ensures writes { F.writes result.writer.writer session.entry.session.output.now }
    ensures others { (other : List ℕ)
        → F.apart other session.entry.session.output.now
        → Keeps (F.contents files.old other) (F.contents files.new other) }
    ensures reader { result.reader.failures + 1 < 2 ^ 64 }
    ensures writer { result.writer.failures + 1 < 2 ^ 64 }
{
    let OpenedSession {
        session,
        reader,
        opened,
    } = session;
    let writer = files.empty(opened);
    Client {
        role: session.role,
        reader: ReadSource::new(reader),
        writer: WriteSink::new(writer),
        outcome: Outcome::Waiting,
        session: None,
        part: None,
    }
}

/// Whether the path of each output still refers to what its session wrote, once all is written: the
/// file has that then. Each one that doesn't has a line.
pub fn finish_all<J: Running, F: Files, E: Write>(
    errors: &mut E,
    files: &mut F,
    sessions: &[RunSession<'_>],
    served: &[FileClient<J, F>],
) -> bool
    requires count { length served.now ≡ length sessions.now }
    requires apart { AllPairs (λ first second. F.apart first.output.now second.output.now)
        sessions.now }
    ensures left { IsTrue result
        → AllZip
        (λ s c. Keeps (F.Writer.contents c.writer.writer) (F.contents files.new s.output.now))
        sessions.now served.now }
    ensures others { (other : List ℕ)
        → All (λ s. F.apart other s.output.now) sessions.now
        → Keeps (F.contents files.old other) (F.contents files.new other) }
{
    let mut are_there = true;
    for (number, session) in sessions.iter().enumerate() {
        are_there &= finish_one(
            errors,
            files,
            session.output,
            served[number].writer.writer(),
        );
    }
    are_there
}

// Whether a path still refers to what was written. Where it doesn't, there is a line.
fn finish_one<F: Files, E: Write>(
    errors: &mut E,
    files: &mut F,
    path: &str,
    writer: &F::Writer,
) -> bool
    ensures written { IsTrue result
        → Keeps (F.Writer.contents writer.now) (F.contents files.new path.now) }
    ensures others { (other : List ℕ) → F.apart other path.now
        → Keeps (F.contents files.old other) (F.contents files.new other) }
{
    if files.finish(path, writer) {
        return true;
    }
    // There is nobody to tell where such a line can't be written.
    let _ = writeln!(errors, "s4d: {}", Fault::CannotWrite(path, Obstacle::Moved));
    false
}

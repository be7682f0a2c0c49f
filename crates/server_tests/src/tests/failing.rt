//! Sessions whose writer fails: what it has, how much was asked, and what stays in the drive.
ghost use Rattle.std.specs.Prelude.{◌≡◌, ◌+◌, ◌^◌, ◌<◌, ◌≤◌, None, length};

use crate::tests::{Scene, Stage, play, sit};
use s4_types::{Moment, ObjectId, Question, Refusal, Reply, Request, Role};
use server::{Gate, Part, Running, Undrawn, UpkeepStep};
use serving::{Backend, Clock, MemorySource, ServeEnd, Sink, StreamFailed, WriteSink, serve};
use std::alloc::Global;
use std::io::{self, ErrorKind, Write};
use std::process::Abort;
use std::sync::Wait;
use std::sync::atomic::{AtomicUsize, Ordering};

/// The frames of a Create, of a Write of "abc" to object 1, and of two Reads of it, now and at the
/// first moment.
static REQUESTS: [u8; 90] = *b"\
    \0\0\0\x02\x01\0\
    \0\0\0\x14\x04\0\0\0\0\0\0\0\x01\0\0\0\0\0\0\0\0abc\
    \0\0\0\x16\x03\0\0\0\0\0\0\0\x01\0\0\0\0\0\0\0\0\0\0\0\x03\0\
    \0\0\0\x1e\x03\0\0\0\0\0\0\0\x01\0\0\0\0\0\0\0\0\0\0\0\x03\x01\0\0\0\0\0\0\0\x01";

/// The frames of their replies.
static REPLIES: [u8; 47] = *b"\
    \0\0\0\x11\x02\0\0\0\0\0\0\0\x01\0\0\0\0\0\0\0\x01\
    \0\0\0\x09\x01\0\0\0\0\0\0\0\x02\
    \0\0\0\x04\x03abc\
    \0\0\0\x01\x03";

/// Where each of the replies ends.
const ENDS: [usize; 4] = [21, 34, 42, 47];

/// A stream that takes this many bytes more, and then fails.
#[derive(Drop)]
struct FailAfter {
    taken: Vec<u8>,
    room: usize,
    failures: u64,
}

impl FailAfter {
    fn new(alloc: Global, room: usize) -> Self
        ensures { result.failures ≡ 0 }
    {
        FailAfter {
            taken: Vec::new(alloc),
            room,
            failures: 0,
        }
    }

    fn take(&mut self, bytes: &[u8]) -> usize
        ensures count { result ≤ length bytes.now }
        ensures failures { self.new.failures ≡ self.old.failures }
    {
        let count = bytes.len().min(self.room);
        if self.taken.extend_from_slice(&bytes[..count]).is_err() {
            return 0;
        }
        self.room -= count;
        count
    }

    /// Whether it took what it had room for of the replies.
    fn has_taken(&self, room: usize) -> bool {
        self.taken.as_slice() == &REPLIES[..room.min(REPLIES.len())]
    }
}

impl Sink for FailAfter {
    ghost passed = { λ _. None };

    ghost failures = { λ s. s.failures };

    fn put(&mut self, bytes: &[u8]) -> Result<(), StreamFailed> {
        if self.take(bytes) < bytes.len() {
            self.failures += 1;
            return Err(StreamFailed);
        }
        Ok(())
    }
}

impl Write for FailAfter {
    fn write(&mut self, buf: &[u8]) -> io::Result<usize> {
        match self.take(buf) {
            0 => Err(io::Error::from(ErrorKind::StorageFull)),
            count => Ok(count),
        }
    }

    fn flush(&mut self) -> io::Result<()> {
        Ok(())
    }
}

/// It counts the requests that were answered.
#[derive(Drop)]
struct Asked {
    count: AtomicUsize,
}

impl Gate for Asked {
    fn between(&self, _session: usize, _call: u64) {}

    fn answered(&self, _session: usize, _call: u64) {
        self.count.fetch_add(1, Ordering::SeqCst);
    }

    fn upkeep(&self, _step: UpkeepStep) {}
}

/// What came of the session.
#[derive(Clone, Copy)]
struct Came {
    end: ServeEnd,
    /// The object has what is wanted.
    has_stayed: bool,
}

/// Serves the four requests, and then reads the object: it has the bytes of the Write once that was
/// asked.
fn serve_four<B: Backend, W: Sink>(
    alloc: Global,
    session: &mut B,
    writer: &mut W,
    wanted: &[u8],
) -> Came
    requires writer { W.failures writer.old + 1 < 2 ^ 64 }
{
    let mut reader = MemorySource::new(&REQUESTS, 65_536);
    let end = serve(alloc, &mut reader, writer, session, &mut Undrawn);
    let read = Request::Query(Question::Read {
        object: ObjectId::new(1),
        offset: 0,
        length: 3,
        at: None,
    });
    let has_stayed = match session.request(read, Moment::new(0)) {
        Reply::Data(bytes) => bytes.as_slice() == wanted,
        _ => false,
    };
    Came { end, has_stayed }
}

/// The same by a session of its own, which counts what is asked.
fn serve_counted<J: Running, C: Clock, R: Wait, W: Sink>(
    stage: &Stage<'_, J, C, R>,
    rest: &mut Part<J>,
    asked: &Asked,
    writer: &mut W,
    wanted: &[u8],
) -> Result<Came, Refusal>
    requires writer { W.failures writer.old + 1 < 2 ^ 64 }
    requires part { 1 < rest.old.parts }
{
    let mut session = sit(stage, rest, Role::Client, asked, 1)?;
    let came = serve_four(stage.alloc, &mut session, writer, wanted);
    drop(session);
    Ok(came)
}

/// Serves the four requests to a writer that takes `room` bytes of the replies, fewer than there
/// are. Of each request that was asked a byte was still to be written, and the Write stays once it
/// was asked.
fn serve_failing<J: Running, C: Clock, R: Abort + Wait, W: Sink>(
    stage: &Stage<'_, J, C, R>,
    rest: &mut Part<J>,
    room: usize,
    writer: &mut W,
) -> Result<(), Refusal>
    requires writer { W.failures writer.old + 1 < 2 ^ 64 }
    requires part { 1 < rest.old.parts }
{
    let whole = ENDS.iter().filter(|end| **end <= room).count();
    let wanted: &[u8] = if whole == 0 { b"" } else { b"abc" };
    let asked = Asked {
        count: AtomicUsize::new(0),
    };
    let came = serve_counted(stage, rest, &asked, writer, wanted);
    let count = asked.count.load(Ordering::SeqCst);
    drop(asked);
    check(stage.rt, came?, count, whole);
    Ok(())
}

/// The session ended at the write that failed, and so many of its replies were whole.
fn check(rt: &impl Abort, came: Came, asked: usize, whole: usize) {
    assert!(rt; came.end == ServeEnd::WriteFailed);
    // (the Read after the session is asked, too)
    assert!(rt; asked == whole.saturating_add(2), "asked once more");
    assert!(rt; came.has_stayed, "the Write stays");
}

/// The writer is a sink of its own.
pub(super) fn fail_above<J: Running, C: Clock, R: Abort + Wait>(
    stage: &Stage<'_, J, C, R>,
    rest: &mut Part<J>,
    room: usize,
) -> Result<(), Refusal>
    requires { 1 < rest.old.parts }
{
    let mut writer = FailAfter::new(stage.alloc, room);
    let served = serve_failing(stage, rest, room, &mut writer);
    let has_taken = writer.has_taken(room);
    drop(writer);
    served?;
    assert!(stage.rt; has_taken);
    Ok(())
}

/// The program's sink is over it.
pub(super) fn fail_below<J: Running, C: Clock, R: Abort + Wait>(
    stage: &Stage<'_, J, C, R>,
    rest: &mut Part<J>,
    room: usize,
) -> Result<(), Refusal>
    requires { 1 < rest.old.parts }
{
    let mut writer = WriteSink::new(FailAfter::new(stage.alloc, room));
    let served = serve_failing(stage, rest, room, &mut writer);
    let has_taken = writer.writer().has_taken(room);
    drop(writer);
    served?;
    assert!(stage.rt; has_taken);
    Ok(())
}

#[test]
fn nothing_is_asked_after_a_write_that_failed(rt: HostRuntime) -> Result<(), Refusal> {
    for room in 0..47 {
        play(&rt, rt.alloc(), Scene::FailsAbove(room))?;
        play(&rt, rt.alloc(), Scene::FailsBelow(room))?;
    }
    Ok(())
}

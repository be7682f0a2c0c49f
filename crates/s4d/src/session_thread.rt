//! What the program's line asks for, on a thread of its own, so that its stack is had before
//! anything is read.
ghost use Rattle.std.specs.Prelude.{◌≡◌, ◌≢◌, ◌+◌, ◌^◌, ◌<◌, ◌≤◌, map, IfOk};
ghost use Rattle.s4d.specs.Performing.{IsDone, IsUndone, IsUsage, any_writer, unknown};

use crate::performing::perform;
use own_stacks::call_with_stack;
use serving::{Sink, Source};
use std::alloc::AllocError;
use std::convert::AsStr;
use std::io::Write;
use std::marker::Send;
use std::sync::Wait;
use std::thread::Threads;
use std::time::Clock;

/// How many bytes of stack a run has. None was seen to touch more than 204,800, what the system
/// keeps there included.
const STACK_BYTES: usize = 1 << 20;

/// A run that is over: its status, and the streams as it left them.
#[derive(Drop)]
pub struct Ran<R, W> {
    pub status: u8,
    pub reader: R,
    pub writer: W,
}

/// Does what the words ask for, as `perform` does, on a thread with a stack of its own.
///
/// AllocError where the system has no such thread or stack: nothing was read or written then.
pub fn perform_apart<
    H: Threads + Wait + Clock + Copy + Send + Sync + Drop + 'static,
    S: AsStr + Send + Drop + 'static,
    R: Source + Send + Drop + 'static,
    W: Sink + Send + Drop + 'static,
    E: Write + Send + Drop + 'static,
>(
    threads: &H,
    files: HostRuntime,
    words: Vec<S>,
    reader: R,
    writer: W,
    errors: E,
) -> Result<Ran<R, W>, AllocError>
    requires reader { R.failures reader + 1 < 2 ^ 64 }
    requires writer { W.failures writer + 1 < 2 ^ 64 }
    ensures status { IfOk result (λ run. run.status ≤ 2) }
    ensures done { IfOk result (λ run. run.status ≡ 0 → IsDone (map S.text words.items) any_writer unknown unknown
        (R.remaining reader) (W.passed writer)
        (R.remaining run.reader) (W.passed run.writer)) }
    ensures usage { IfOk result (λ run. run.status ≡ 2 → IsUsage (map S.text words.items)) }
    ensures undone { IfOk result (λ run. run.status ≢ 0 → IsUndone any_writer unknown unknown
        (R.remaining reader) (W.passed writer)
        (R.remaining run.reader) (W.passed run.writer)
        (W.failures writer) (W.failures run.writer) (map S.text words.items) run.status) }
{
    let own = *threads;
    call_with_stack(
        threads,
        STACK_BYTES,
        move || -> Ran<R, W>
            requires reader { R.failures reader + 1 < 2 ^ 64 }
            requires writer { W.failures writer + 1 < 2 ^ 64 }
            ensures status { result.status ≤ 2 }
            ensures done { result.status ≡ 0 → IsDone (map S.text words.items) any_writer unknown unknown
                (R.remaining reader) (W.passed writer)
                (R.remaining result.reader) (W.passed result.writer) }
            ensures usage { result.status ≡ 2 → IsUsage (map S.text words.items) }
            ensures undone { result.status ≢ 0 → IsUndone any_writer unknown unknown
                (R.remaining reader) (W.passed writer)
                (R.remaining result.reader) (W.passed result.writer)
                (W.failures writer) (W.failures result.writer) (map S.text words.items)
                result.status }
        { run(own, files, words, reader, writer, errors) },
    )
}

/// Does what the words ask for, over files and streams of its own.
fn run<
    H: Threads + Wait + Clock + Sync + Drop,
    S: AsStr + Drop,
    R: Source,
    W: Sink,
    E: Write + Drop,
>(threads: H, files: HostRuntime, words: Vec<S>, reader: R, writer: W, errors: E) -> Ran<R, W>
    requires reader { R.failures reader + 1 < 2 ^ 64 }
    requires writer { W.failures writer + 1 < 2 ^ 64 }
    ensures status { result.status ≤ 2 }
    ensures done { result.status ≡ 0 → IsDone (map S.text words.items) any_writer unknown unknown
        (R.remaining reader) (W.passed writer)
        (R.remaining result.reader) (W.passed result.writer) }
    ensures usage { result.status ≡ 2 → IsUsage (map S.text words.items) }
    ensures undone { result.status ≢ 0 → IsUndone any_writer unknown unknown
        (R.remaining reader) (W.passed writer)
        (R.remaining result.reader) (W.passed result.writer)
        (W.failures writer) (W.failures result.writer) (map S.text words.items) result.status }
{
    let alloc = files.alloc();
    let (mut files, mut reader, mut writer, mut errors) = (files, reader, writer, errors);
    let status = perform(
        &threads,
        alloc,
        &mut files,
        words.as_slice(),
        &mut reader,
        &mut writer,
        &mut errors,
    );
    Ran {
        status,
        reader,
        writer,
    }
}

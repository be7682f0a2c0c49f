//! What the program's line asks for, on a thread of its own, so that its stack is had before
//! anything is read.
ghost use Rattle.std.specs.Prelude.{◌+◌, ◌^◌, ◌<◌, ◌≤◌, IfOk};

use crate::performing::perform;
use crate::terminal::ProgramOutput;
use own_stacks::call_with_stack;
use service_time::system_time;
use std::alloc::AllocError;
use std::convert::AsStr;
use std::io::Write;
use std::marker::Send;
use std::thread::Threads;

/// How many bytes of stack a run has. None was seen to touch more than 126,976, what the system
/// keeps there included.
const STACK_BYTES: usize = 1 << 20;

/// Does what the words ask for over the system's files, as `perform` does, on a thread with a stack
/// of its own, and answers the program's status.
///
/// AllocError where the system has no such thread or stack: nothing was read or written then.
pub fn perform_apart<
    T: Threads + Copy + Send + Sync + Drop + 'static,
    S: AsStr + Send + Drop + 'static,
    W: ProgramOutput + Send + Drop + 'static,
    E: Write + Send + Drop + 'static,
>(threads: &T, system: HostRuntime, words: Vec<S>, writer: W, errors: E) -> Result<u8, AllocError>
    requires writer { W.failures writer + 1 < 2 ^ 64 }
    ensures { IfOk result (λ status. status ≤ 2) }
{
    let own = *threads;
    call_with_stack(
        threads,
        STACK_BYTES,
        move || -> u8
            requires { W.failures writer + 1 < 2 ^ 64 }
            ensures { result ≤ 2 }
        { run(own, system, words, writer, errors) },
    )
}

/// Does what the words ask for, over a copy of the system's handle and streams of its own. Where the
/// machine's time can't be read, it is taken for 0, and no age is one of a time then.
fn run<T: Threads + Drop, S: AsStr + Drop, W: ProgramOutput + Drop, E: Write + Drop>(
    threads: T,
    system: HostRuntime,
    words: Vec<S>,
    writer: W,
    errors: E,
) -> u8
    requires writer { W.failures writer + 1 < 2 ^ 64 }
    ensures { result ≤ 2 }
{
    let (mut files, mut writer, mut errors) = (system, writer, errors);
    let now = system_time(&system).unwrap_or(0);
    perform(
        &threads,
        now,
        system.alloc(),
        &mut files,
        &system,
        words.as_slice(),
        &mut writer,
        &mut errors,
    )
}

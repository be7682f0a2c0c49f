//! What the program's line asks for, on a thread of its own, so that its stack is had before
//! anything is read.
ghost use Rattle.std.specs.Prelude.{◌+◌, ◌^◌, ◌<◌, ◌≤◌, IfOk};

use crate::machine::Machine;
use crate::performing::perform;
use own_stacks::call_with_stack;
use serving::Sink;
use std::alloc::AllocError;
use std::convert::AsStr;
use std::io::Write;
use std::marker::Send;
use std::sync::Wait;
use std::thread::Threads;

/// How many bytes of stack the thread has that opens the image.
const STACK_BYTES: usize = 1 << 20;

/// Does what the words ask for over the system's files, as `perform` does, on a thread with a stack
/// of its own, and answers the program's status.
///
/// AllocError where the system has no such thread or stack: nothing was read or written then.
pub fn perform_apart<
    H: Threads + Wait + Machine + Copy + Send + Sync + Drop + 'static,
    S: AsStr + Send + Drop + 'static,
    W: Sink + Send + Drop + 'static,
    E: Write + Send + Drop + 'static,
>(threads: &H, system: HostRuntime, words: Vec<S>, writer: W, errors: E) -> Result<u8, AllocError>
    requires writer { W.failures writer + 1 < 2 ^ 64 }
    ensures { IfOk result (λ status. status ≤ 2) }
{
    let own = *threads;
    call_with_stack(
        threads,
        STACK_BYTES,
        move || -> u8
            requires { W.failures writer + 1 < 2 ^ 64 }
            ensures { result ≤ 2 }
        { run(own, system, words, writer, errors) },
    )
}

/// Does what the words ask for, over a copy of the system's handle and streams of its own.
fn run<
    H: Threads + Wait + Machine + Copy + Send + Sync + Drop + 'static,
    S: AsStr + Drop,
    W: Sink + Drop,
    E: Write + Drop,
>(threads: H, system: HostRuntime, words: Vec<S>, writer: W, errors: E) -> u8
    requires writer { W.failures writer + 1 < 2 ^ 64 }
    ensures { result ≤ 2 }
{
    let (mut writer, mut errors) = (writer, errors);
    perform(
        &threads,
        system.alloc(),
        system,
        system,
        words.as_slice(),
        &mut writer,
        &mut errors,
    )
}

//! A closure that owns all that it uses, on a thread of a stack of its own. No scope is waited for,
//! only the thread itself.
ghost use Rattle.std.specs.Prelude.{IfOk};

use crate::task::{Called, Given, Task};
use core::thread::Stack;
use std::alloc::AllocError;
use std::marker::Send;
use std::snapshot::Snapshot;
use std::thread::Threads;

/// Calls f on a thread with a stack of that many bytes, and returns what it returned.
///
/// AllocError where the system has no such thread or stack: nothing was called then.
pub fn call_with_stack<
    R: Threads,
    F: FnOnce() -> A + Send + Drop + 'static,
    A: Send + Drop + 'static,
>(rt: &R, stack_bytes: usize, f: F) -> Result<A, AllocError>
    requires { F.pre f }
    ensures { IfOk result (F.post f) }
{
    run_apart(rt, stack_bytes, Called { f })
}

/// Calls f on a thread with a stack of that many bytes, or last where there is no such thread, and
/// g on this one.
pub fn join_owned_with_stack<
    R: Threads,
    F: FnOnce() -> A + Send + Drop + 'static,
    G: FnOnce() -> B,
    A: Send + Drop + 'static,
    B,
>(rt: &R, stack_bytes: usize, f: F, g: G) -> (A, B)
    requires { F.pre f × G.pre g }
    ensures first { F.post f result.0 }
    ensures second { G.post g result.1 }
{
    run_beside(rt, stack_bytes, Called { f }, g)
}

fn run_apart<R: Threads, S: Task<Output = A> + Send + Drop + 'static, A: Send + Drop + 'static>(
    rt: &R,
    stack_bytes: usize,
    task: S,
) -> Result<A, AllocError>
    requires { S.can_run task }
    ensures { IfOk result (S.run_gives task) }
{
    let given = Given {
        task: Snapshot::of(&task),
    };
    let started = Stack::new().stack_size(stack_bytes).spawn_with(
        rt,
        given,
        move || -> A
            requires { S.can_run task }
            ensures { S.run_gives task result }
        { task.run() },
    )?;
    Ok(started.join(rt))
}

fn run_beside<
    R: Threads,
    S: Task<Output = A> + Send + Drop + 'static,
    G: FnOnce() -> B,
    A: Send + Drop + 'static,
    B,
>(rt: &R, stack_bytes: usize, task: S, g: G) -> (A, B)
    requires { S.can_run task × G.pre g }
    ensures { S.run_gives task result.0 × G.post g result.1 }
{
    let given = Given {
        task: Snapshot::of(&task),
    };
    let started = Stack::new().stack_size(stack_bytes).spawn_with(
        rt,
        given,
        move || -> A
            requires { S.can_run task }
            ensures { S.run_gives task result }
        { task.run() },
    );
    match started {
        Ok(thread) => {
            let second = g();
            (thread.join(rt), second)
        }
        Err(refused) => {
            let second = g();
            ((refused.value)(), second)
        }
    }
}

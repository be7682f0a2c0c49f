//! Threads that go on by themselves.
use crate::task::{Called, Task};
use core::thread::{Anything, Stack};
use std::alloc::AllocError;
use std::marker::Send;
use std::thread::Threads;

/// Calls f on a thread with a stack of that many bytes, which goes on by itself: nobody waits for
/// it. It ends with the program at the latest.
///
/// AllocError where the system has no such thread or stack: nothing was called then, and f is let
/// go.
pub fn spawn_with_stack<R: Threads, F: FnOnce() + Send + Drop + 'static>(
    rt: &R,
    stack_bytes: usize,
    f: F,
) -> Result<(), AllocError>
    requires { F.pre f }
{
    run_alone(rt, stack_bytes, Called { f })
}

fn run_alone<R: Threads, S: Task<Output = ()> + Send + Drop + 'static>(
    rt: &R,
    stack_bytes: usize,
    task: S,
) -> Result<(), AllocError>
    requires { S.can_run task }
{
    let _ = Stack::new().stack_size(stack_bytes).spawn_with(
        rt,
        Anything,
        move ||
            requires { S.can_run task }
        { task.run() },
    )?;
    Ok(())
}

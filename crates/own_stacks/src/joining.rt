//! Two closures at once, the first on a thread of a stack of its own. Both may borrow.
ghost use Rattle.std.specs.Prelude.{◌≡◌};

use crate::task::{Called, Given, Task};
use core::thread::Stack;
use std::marker::Send;
use std::snapshot::Snapshot;
use std::sync::Wait;
use std::thread::{Threads, scope, scope_env};

/// A closure that is lent.
#[derive(Drop)]
struct Lent<'a, F> {
    f: &'a mut F,
}

impl<'a, F: FnMut() -> A, A> Task for Lent<'a, F> {
    type Output = (&'a mut F, A);

    ghost can_run = { λ t. F.pre t.f.now };

    ghost run_gives = { λ t r. (r.0.ghost_name ≡ t.f.ghost_name) × F.step t.f.now r.1 r.0.now };

    fn run(self) -> (&'a mut F, A) {
        let Lent { f } = self;
        let a = f();
        (f, a)
    }
}

// Does nothing. The use of a returned reference ties it, for the borrow checker, to the parameter
// that lent it.
fn take_back<T>(x: &mut T)
    ensures { x.new ≡ x.old }
{}

/// As [`join_with_stack`], with closures that are lent, so that the caller knows what each leaves
/// in what it captured.
pub(crate) fn join_mut_with_stack<
    R: Threads + Wait,
    F: FnMut() -> A + Send,
    G: FnMut() -> B,
    A: Send + Drop,
    B,
>(rt: &R, stack_bytes: usize, f: &mut F, g: &mut G) -> (A, B)
    requires { F.pre f.old × G.pre g.old }
    ensures { F.step f.old result.0 f.new × G.step g.old result.1 g.new }
{
    let ((f, a), (g, b)) = run_both(rt, stack_bytes, Lent { f }, Lent { f: g });
    take_back(f);
    take_back(g);
    (a, b)
}

/// Calls f on a thread with a stack of that many bytes, or last where there is no such thread, and
/// g on this one.
pub fn join_with_stack<
    R: Threads + Wait,
    F: FnOnce() -> A + Send + Drop,
    G: FnOnce() -> B + Drop,
    A: Send + Drop,
    B,
>(rt: &R, stack_bytes: usize, f: F, g: G) -> (A, B)
    requires { F.pre f × G.pre g }
    ensures first { F.post f result.0 }
    ensures second { G.post g result.1 }
{
    run_both(rt, stack_bytes, Called { f }, Called { f: g })
}

fn run_both<
    R: Threads + Wait,
    S: Task<Output = A> + Send + Drop,
    T: Task<Output = B> + Drop,
    A: Send + Drop,
    B,
>(rt: &R, stack_bytes: usize, s: S, t: T) -> (A, B)
    requires { S.can_run s × T.can_run t }
    ensures { S.run_gives s result.0 × T.run_gives t result.1 }
{
    scope(
        scope_env(),
        rt,
        move |scope| -> (A, B)
            requires { S.can_run s × T.can_run t }
            ensures { S.run_gives s result.0 × T.run_gives t result.1 }
        {
            let given = Given {
                task: Snapshot::of(&s),
            };
            let stack = Stack::new().stack_size(stack_bytes);
            let started = stack.spawn_scoped_with(
                scope,
                given,
                move || -> A
                    requires { S.can_run s }
                    ensures { S.run_gives s result }
                { s.run() },
            );
            match started {
                Ok(handle) => {
                    let second = t.run();
                    (handle.join(rt), second)
                }
                Err(refused) => {
                    let second = t.run();
                    ((refused.value)(), second)
                }
            }
        },
    )
}

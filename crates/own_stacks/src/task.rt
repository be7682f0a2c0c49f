//! Work that a thread does once, and what is promised of its result.
use std::snapshot::Snapshot;
use std::thread::Promise;

/// Work that is done once. A thread gets no closure that is itself a type parameter, but it may own
/// a value of one that has the closure in it.
pub(crate) trait Task {
    type Output;

    ghost can_run: { Self → Type 0 };

    ghost run_gives: { Self → Self.Output → Type 0 };

    fn run(self) -> Self::Output
        requires { can_run self }
        ensures { run_gives self result };
}

/// A closure that is called once.
#[derive(Drop)]
pub(crate) struct Called<F> {
    pub f: F,
}

impl<F: FnOnce() -> A, A> Task for Called<F> {
    type Output = A;

    ghost can_run = { λ task. F.pre task.f };

    ghost run_gives = { λ task result. F.post task.f result };

    fn run(self) -> A {
        let Called { f } = self;
        f()
    }
}

/// What a task that is done elsewhere gives.
#[derive(Drop)]
pub(crate) struct Given<S> {
    pub task: Snapshot<S>,
}

impl<S: Task> Promise<S::Output> for Given<S> {
    ghost kept_by = { λ given result. S.run_gives given.task.value result };
}

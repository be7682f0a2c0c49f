//! Threads whose stacks have a size that the caller names.
//!
//! What std starts in `join` and `for_each_mut` has the stack that the system gives by default,
//! which a limit of the process makes as small as it likes. Here the size is asked for with the
//! thread, and a thread that can't have it isn't started. The clauses say of the calls and results
//! what std's say. That a thread has its stack is the system's part, and no clause's.
#![tactic(auto)]

mod each;
mod joining;
mod owned;
mod spawned;
mod task;

pub use each::for_each_mut_with_stack;
pub use joining::join_with_stack;
pub use owned::{call_with_stack, join_owned_with_stack};
pub use spawned::spawn_with_stack;

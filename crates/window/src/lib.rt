//! The window of a drive: its clock, how far back its history reaches, the floor below which
//! moments are lost, and the runs of hidden moments.
//!
//! The layer above may rely on this: where a [`Window`] represents the state of a history, it is
//! after each call for that state with the call's record; a span is refused exactly where the model
//! refuses it, or for lack of memory; and `visible` and `sees` answer exactly what can be read. A
//! span is hidden in two calls, so that all that may be refused comes before anything changes:
//! `plan_flush` judges and takes the memory, `flush` can't fail.
//!
//! A window that is saved tells its spans: in order, from the floor on and before the clock, at
//! most `RUNS_IN_A_LIST` of a list and `RUNS_IN_ALL` in all, and hiding from the floor on what the
//! window hides. Such spans and the three numbers make a window again, which represents every state
//! that has them and tells the same spans.
//!
//! Nothing here says which objects there are, who may ask, or how long a call takes.
#![tactic(auto)]

mod chunks;
pub mod laws;
mod runs;
mod window;

pub use runs::of_list;
pub use window::{FlushPlan, Window};

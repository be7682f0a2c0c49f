//! Any interleaving of requests with the upkeep of a drive, replayed from a list.
//!
//! The layers above may rely on this: whatever the list of steps that [`run`] is given, over any
//! [`Cleans`] and [`Moves`], each step is answered exactly as its own call answers over the drive
//! as the steps before left it, a request by the model's step on the drive's history; and after
//! each of them, every object's blocks decode at each moment that can be read to exactly the
//! version that the history tells then. A read that was resolved is answered, whenever it is
//! fetched, with the bytes that the history told when it was resolved.
#![tactic(auto)]

mod acting;
mod actors;
mod acts;
mod answers;
mod moves;
mod replay;
mod steps;

pub use actors::Actor;
pub use acts::{Act, Reading};
pub use answers::Answer;
pub use moves::{Cleans, Moves};
pub use replay::run;
pub use steps::Step;

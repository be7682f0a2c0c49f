//! Sessions that share one drive under a lock.
//!
//! The layer above may rely on this: each request is answered as [`drive::Drive::request_leaving`]
//! answers it over a drive whose history begins with all that the session had seen before: by a step
//! of the model, and with a refusal exactly where that drive has one. What is left of its room is the
//! run's reserve for a client, half of it for a Delete and a Truncate to less, and nothing for an
//! administrator. What was accepted in that history is what the session has seen afterwards. A read
//! holds the lock while it is planned, and not while its bytes are fetched.
//!
//! The drive that all sessions leave is what their requests have made of the one before, and nobody
//! else's: [`SharedDrive`] keeps books of them, whose parts the sessions have, and [`settle`] puts
//! these together again. Each request has the moment that was drawn for it under the lock, from the
//! clock of the shared drive: a run says which moments these may be, in their order. After each the
//! session knows where the drive's history has come to ([`Locked::place`]). [`run_with_upkeep`] has
//! the history cleaner and the segment copier beside the sessions, and [`keep_up`] and
//! [`keep_moving`] are these two for threads of a caller's own; the history and every version that
//! can be read stay, whatever the two do. Without upkeep neither takes a step. [`show`] leaves the
//! drive as it is. In which order sessions that told each other nothing come is not said here.
#![tactic(auto)]

mod accounts;
mod agenda;
mod clocks;
mod effects;
mod gate;
mod gathering;
mod holding;
pub mod laws;
mod locked;
mod moving;
mod pace;
mod progress;
mod reserves;
mod running;
mod settling;
mod shared;
mod showing;
mod tending;
mod upkeep;

pub use accounts::{Asked, Blanks, Part, Running};
pub use clocks::Undrawn;
pub use gate::{Gate, Open, UpkeepStep};
pub use locked::{Locked, enter, show};
pub use moving::{MoveStep, Moves, keep_moving};
pub use pace::Pace;
pub use running::{Client, MOST_SESSIONS, Outcome, give_parts, run_sessions};
pub use settling::settle;
pub use shared::SharedDrive;
pub use showing::Visit;
pub use upkeep::{Round, Upkeep, keep_up, run_with_upkeep};

//! The segment copier: the held blocks of one object leave one sealed frame, in three steps.
//!
//! The layers above may rely on this: [`plan_move`] notes what there is to move and pins the frame,
//! [`MovePlan::copy`] reads the object's data blocks there without the drive, whatever other
//! threads do meanwhile, and [`commit`] puts copies in place, where the object wasn't changed
//! since. History and every version stay at every moment, whatever they answer; after Ok of a move
//! that isn't empty the object holds no block in the frame. [`Copier`] is these three for a run of
//! interleaved steps. Which object leaves which frame is the caller's choice, and [`candidate`]
//! makes it. [`move_now`] takes the three steps at once, and [`gather`] does so within the reserve,
//! where there is no room for the copier's moves. [`count_frame`] counts what emptying a frame writes.
#![tactic(auto)]

mod candidates;
mod choices;
mod commits;
mod copier;
mod counting;
mod gathering;
mod held;
pub mod laws;
mod plans;
mod rewriting;
mod states;

pub use candidates::Candidate;
pub use choices::{MOST_HELD, candidate};
pub use commits::commit;
pub use copier::Copier;
pub use counting::{Counted, count_frame, is_among};
pub use gathering::{free_frames, gather, move_now};
pub use held::is_of_data;
pub use plans::{MovePlan, Moved, plan_move};
pub use rewriting::{MOST_REWRITTEN, Rewrites, checkpoint_size};
pub use states::is_sealed_now;

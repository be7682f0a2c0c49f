//! How much has to be hidden, and what has to be left out, so that objects of a drive can be
//! restored: what a search learns from trials.
//!
//! The layers above may rely on this: `learn` takes what one trial showed. Of an object whose
//! journal was full with the room that was tried it is known then that one version more has to be
//! hidden at least, where any may be. Nothing is left out but what the trial found lacking, or
//! whose room was searched for, and what was left out stays so.
#![tactic(auto)]

mod learning;
mod rooms;
mod searches;
mod surveys;
mod turning;

pub use learning::learn;
pub use rooms::Room;
pub use searches::{Hiding, Search, ascending, numbers_of, rooms_found, rooms_tried};
pub use surveys::{Lack, Lacking, Survey};

//! What objects were at a moment, made their present again by requests of a session.
//!
//! The layers above may rely on this: a plan says what has to be done to an object, by what it was
//! and what it is. It writes each run of neighbouring blocks that differ, and no other block, of an
//! object that is made anew each that isn't all zeros, and `laws` says that it turns the object
//! back. `restore_object` does what `plan_object` plans; where the object's journal is too full for
//! a write of each run, it joins those that one block lies between, before it finds the journal
//! full. Afterwards the object has exactly the bytes and the attribute that it had, under its own
//! number, or under the next one where it was deleted since. `restore_these` does so with objects,
//! one after the other. Whatever these answer, every other object is what it was, every version up to
//! the clock stays, and no moment is hidden.
//! `make_room` alone hides moments, of the one object that it is asked for, and then cleans that
//! object's chain; `newest_versions` says which moments are those of its newest versions. A refusal
//! for a full journal comes only where one of the plan's changes would make it too long.
//!
//! An object that an earlier restore made anew may be restored under the number that it got: then
//! that is what is compared with what the object was, and turned back. `laws` says that a second
//! restore has nothing to do, where nothing was changed since.
//!
//! `all_aims` has every object that has a row, `asked_aims` those of them that are asked for, and
//! `aims_without` leaves numbers out. `plan_each` says before anything is changed what is done to
//! each of these, and `count_changes` by how many changes. Each change moves the clock on, and the
//! floor with it, so that the moment may fall below the floor while objects are restored;
//! that is refused then, and what was done before stays. `widen_window` keeps it in reach until
//! that many changes are made: `laws` says so. Whoever saves the drive saves it only where all was
//! done. All changes are asked for at one moment of another clock: the first has the greater of that
//! and of the first moment after the drive's clock, and each further one the next. `has_object` says
//! whether anything is left.
#![tactic(auto)]

mod aims;
mod asking;
mod changing;
mod choosing;
mod comparing;
mod costs;
mod failures;
pub mod laws;
mod planning;
mod plans;
mod presence;
mod restoring;
mod room;
mod whole;
mod widening;

pub use aims::{Aim, StandIn, aim_at, aims_without, all_aims, asked_aims, own_aim};
pub use failures::{Failure, between};
pub use planning::{ObjectPlan, chosen_plans, count_changes, plan_each, planned_aims};
pub use plans::{Changes, Plan};
pub use presence::has_object;
pub use restoring::{Restored, plan_object, restore_object};
pub use room::{make_room, newest_versions};
pub use whole::restore_these;
pub use widening::widen_window;

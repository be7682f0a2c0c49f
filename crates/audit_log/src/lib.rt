//! The rows of an audit in memory, by ascending moments.
//!
//! The layers above may rely on this: a row is added behind all others, in room that was made
//! before, so that adding can't fail; the rows below a moment are dropped without memory; and the
//! first rows from a moment on are found by a binary search. A row takes 40 bytes, up to twice as
//! many where room was made, and three times while it is. Which rows there have to be, the drive
//! says.
#![tactic(auto)]

mod log;

pub use log::AuditLog;

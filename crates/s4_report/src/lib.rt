//! `s4 report`: the page about the drive of an image.
//!
//! The layer above may rely on this: where `Reporting` gives a verdict over a drive, the output has
//! the page of `history_report` after it, about that drive, with what differs since the moment that
//! is asked for. The text of a failure is tested through the program.
#![tactic(auto)]

mod reporting;

pub use reporting::Reporting;

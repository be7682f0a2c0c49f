//! Which versions of a drive age where its floor rises.
//!
//! The layers above may rely on this: nothing here changes a drive or its clock. `ended_versions`
//! has one moment for each version of each object that can be read and that a later change ended:
//! that of the change. A version can be read where some moment of it can. `aged_count` says how
//! many of these versions ended by a floor, so that nobody can read them from that floor on, as
//! `laws` says.
#![tactic(auto)]

mod ends;
pub mod laws;

pub use ends::{aged_count, ended_versions};

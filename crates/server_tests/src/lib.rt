//! Tests of sessions that share one drive under a lock: in turn, and on threads with gates.
//!
//! What a reply may be is proved in `server`. What no clause says is that sessions come so far,
//! that none waits for another one, and what is told in these orders. So this crate is on `server`
//! and has nothing but tests, which need only what is public there: a crate with tests of its own
//! is proved twice.
#![tactic(auto)]

#[cfg(test)]
mod tests;

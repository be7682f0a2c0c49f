//! Tests of layers by what is public there.
//!
//! What a layer's clauses say is proved in its crate. What no clause says is how many readers a
//! frame's word counts, what several threads come to, that whoever waits for a flush goes on, that
//! a call succeeds at all, and that a record, a date or an image is the one that was worked by
//! hand. So this crate is on the layers and has nothing but tests, which need only what is public
//! there: a crate with tests of its own is proved twice.
#![tactic(auto)]

#[cfg(test)]
mod tests;

//! Lemmas that the proofs of several crates cite: about lists, options, results, tests and numbers.
//!
//! There is no code here and no type of the drive's. A lemma about places or kinds of blocks is in
//! `block_log`, one about entries in `codec`, and each other one beside the type that it is about.
#![tactic(auto)]

//! What the drive means: versions of objects, the history of a drive, which moments can be read,
//! and what each request may be answered. `docs/DEFINITIONS.md` goes through the files of `specs/`
//! in reading order.
//!
//! The layers above may rely on the definitions, on the laws in [`laws`], and on [`PlainDrive`], a
//! slow and plain drive whose every answer is the step of the definitions. It keeps a list of
//! accepted changes and serves as the reference for tests. Nothing here speaks of blocks, pointers,
//! frames or threads, nor of the time that a call takes.
#![tactic(auto)]

mod audit;
mod effects;
mod hidden;
pub mod laws;
mod plain;
mod replay;
mod runs;

pub use audit::row_of;
pub use plain::PlainDrive;
pub use replay::version_at;

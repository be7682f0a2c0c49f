//! Serves one session: requests come in as a stream of frames, a backend answers each, and the
//! replies go out.
//!
//! The layer above may rely on this: what `serve` writes is exactly the frames of the backend's
//! replies, in order, to the items that the wire's grammar reads from the bytes that came, however
//! they were cut. Each reply is written whole before the next item is taken up: where writing
//! fails, a beginning of the last reply is written, and where memory is short, the replies to the
//! items that were taken up, all or all but the last. The backend is asked nothing else, and what
//! was answered stays done. An end comes only where its name says, or where memory is short.
//! What the backend answers, and when reading or writing fails, is said elsewhere; where the bytes
//! of a reader or a writer aren't known, as for a file, nothing is said of these bytes.
#![tactic(auto)]

mod backend;
mod clock;
mod ends;
mod memory;
mod serving;
mod std_streams;
mod streams;

pub use backend::Backend;
pub use clock::{Clock, Ticking};
pub use ends::ServeEnd;
pub use memory::{MemorySink, MemorySource};
pub use serving::{reply_to, serve};
pub use std_streams::{ReadSource, WriteSink};
pub use streams::{Sink, Source, StreamFailed};

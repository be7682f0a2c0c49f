//! Serves one session whose replies go out in batches, each once what it shows is kept.
//!
//! The layer above may rely on this: what `serve_batch` writes is exactly the frames of the
//! backend's replies, in order, to the items that the wire's grammar reads from the bytes that
//! came, however they were cut. They go out in batches, each by one `put`, and only after a wait
//! for the backend as it is once all of the batch was asked. Where writing fails, a wait ends
//! without that, or memory is short, no reply is missing but those of the last batch, of which all
//! but the last have less than `BATCH_BYTES` bytes. The backend is asked nothing else, and what was
//! answered stays done. An end other than `NoMemory` comes only where its name says. What a wait
//! shows is said by what waits. What the replies go out to may require that they are the replies to
//! all that the backend was asked, and that this is kept. How many batches there are is in no
//! clause. A `DueSource` gives bytes
//! only while the service isn't to stop, and has counted that their replies are due.
#![tactic(auto)]

mod batches;
mod due_source;
mod ends;
mod keeping;
mod outlet;
mod serving_batches;

pub use batches::BATCH_BYTES;
pub use due_source::DueSource;
pub use ends::BatchEnd;
pub use keeping::{AtMonitor, Keeping, Step};
pub use outlet::Outlet;
pub use serving_batches::serve_batch;

//! Lines at a door, by which sessions are asked for and a service is ended.
//!
//! A line that is 1 to 64 letters, digits and `-` names a session's two streams, which are in the
//! door's own folder: a name, and no path, so that nobody has a file opened elsewhere. The layer
//! above may rely on this: `next_line` takes exactly the next line of what reads give, and gives
//! exactly what it says. A read that ends within a line goes on in the next one where it gave as
//! many bytes as it could: else somebody wrote half a line, which is dropped, so that it takes
//! nothing away from who writes next. Nothing is allocated, and of a line no more is held than a
//! name has bytes: a longer one is passed over, however long it is.
#![tactic(auto)]

mod line;
mod pieces;
mod reader;

pub use line::{DoorLine, NAME_BYTES, SessionName};
pub use pieces::PieceSource;
pub use reader::{DoorEnd, DoorReader, PIECE_BYTES};

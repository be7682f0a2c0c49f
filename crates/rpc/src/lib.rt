//! The wire: requests and replies as bytes, and streams of them in frames.
//!
//! The layers above may rely on this: each request and each reply has one encoding, encoding gives
//! it, and decoding reads exactly what is an encoding. A stream has one reading as requests (or
//! replies) and bad frames, and a `FrameReader` gives that reading in whatever pieces the stream
//! comes; it holds less than one frame, in memory that it takes once. An oversized length ends a
//! stream. Beside that only lack of memory is told. `specs/Spelling.antt` has the spellings and
//! `specs/Stream.antt` the streams. What a request does, and how long a read or an attribute may be
//! there, the drive says.
#![tactic(auto)]

mod audit_rows;
mod encoding;
mod fields;
mod filling;
mod frames;
mod items;
mod laws;
mod reader;
mod replies;
mod reply_bodies;
mod request_bodies;
mod requests;
mod room;
mod unread;

pub use encoding::{encode_reply, encode_request, push_reply, push_request};
pub use items::{Item, Message};
pub use laws::{one_reading, reading_goes_on};
pub use reader::{FrameReader, read_all};
pub use replies::decode_reply;
pub use requests::decode_request;

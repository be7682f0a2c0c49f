//! The parts of an image, which is a drive saved as one list of bytes: a header, frames, rows,
//! spans, audit rows and a digest.
//!
//! The layers above may rely on this: an image's parts give one list of bytes and a list of bytes
//! gives the parts of at most one image. `split_parts` answers these parts, which stay where the
//! bytes are, or why there are none. Each further test is a function of its own, so that the layer
//! above can make them side by side and build on what one of them read: `has_digest`, `read_frame`
//! of each frame, `spans_keep_rules`, `rows_keep_rules`. Where all hold, the bytes encode the image
//! of the parts; the order in which a failing test is told is that of `FirstCause`.
//!
//! Images of earlier versions have the same parts, but for audit rows. What differs is asked for by
//! the mark that a header begins with, or by the version of the records that follow from it:
//! `split_parts_by`, `longest_with_by`, `read_frame_by`; `images_with_a_mark` says the same laws of
//! each.
//!
//! What rows' chains and checkpoints have to keep isn't told here, nor the rules of audit rows. A
//! row's two pointers and an audit row's kind are kept as their bytes are, since bytes that encode
//! none are no damage of a row's.
#![tactic(auto)]

mod audit;
mod digests;
mod frame_rules;
mod frames;
mod headers;
mod image_writing;
pub mod laws;
mod marks;
mod numbers;
mod parts;
mod reading;
mod row_rules;
mod rows;
mod span_rules;
mod spans;
mod writing;

pub use audit::{AuditPart, AuditParts};
pub use digests::has_digest;
pub use frame_rules::{FrameRead, read_frame, read_frame_by};
pub use frames::{FramePart, Frames};
pub use headers::Header;
pub use image_writing::{
    LONGEST_IMAGE, image_length, push_audit, push_digest, push_frame, push_header, push_row,
    push_span,
};
pub use marks::{ImageMark, earlier_version};
pub use parts::ImageParts;
pub use reading::{longest_with, longest_with_by, split_parts, split_parts_by};
pub use row_rules::rows_keep_rules;
pub use rows::{RowPart, Rows};
pub use span_rules::spans_keep_rules;
pub use spans::Spans;

//! A page about a drive: one HTML file with its timeline, its objects, what administrators hid and
//! which windows they set, and what differs since a moment.
//!
//! The layer above may rely on this: `write_report` writes the parts of one definition, in order. A
//! part is a fixed text of this crate, or data of the drive, which is escaped: its text has none of
//! the bytes that begin or end a tag or an attribute's value. The parts follow the drive's own
//! listing, versions, hidden moments, audit and differences. Nothing here changes what a drive has,
//! and a page is written piece by piece: in memory there is one object at a time, or the audit.
//!
//! How a browser shows the page no clause says.
#![tactic(auto)]

mod differences;
mod escaping;
mod faults;
mod flushes;
pub mod laws;
mod marks;
mod page;
mod parts;
mod scale;
mod strips;
mod table;
mod texts;

pub use faults::ReportFault;
pub use page::write_report;

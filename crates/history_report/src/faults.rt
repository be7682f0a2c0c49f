//! Why a page was not written.
use history_diff::Stop;
use s4_types::Moment;

/// Why a page was not written, or not to its end.
#[derive(Clone, Copy)]
pub enum ReportFault {
    /// The moment can't be read of any object. Nothing was written.
    Unreadable(Moment),
    /// The page ended early. What was written by then is a beginning of it.
    Stopped(Stop),
}

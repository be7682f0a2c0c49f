/// How a session ended.
#[derive(Clone, Copy, PartialEq, Eq)]
pub enum BatchEnd {
    /// The input ended between two frames.
    Ended,
    /// The input ended inside a frame.
    CutFrame,
    /// A length above the limit came. It was answered as a bad frame.
    Oversized,
    /// The reader failed.
    ReadFailed,
    /// The writer failed.
    WriteFailed,
    /// The wait until what was done is kept has failed.
    NotKept,
    /// A growth of memory was refused.
    NoMemory,
}

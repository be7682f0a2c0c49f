//! What is wrong with the words of a line that the parser took.
use thiserror::Error;

/// What is wrong with words that the parser took. Each prints its line.
#[derive(Clone, Copy, Debug, Error)]
pub enum WordFault<'a> {
    /// The word is no number of frames.
    #[error("{word} is no number of frames; give one from 24 to 1024")]
    NoFrames { word: &'a str },
    /// The word for this is no duration.
    #[error("{word} is no duration for {name}; give one as 90s, 15m, 2h, 30d or 4w")]
    NoDuration { name: &'static str, word: &'a str },
    /// The word for this is no number of blocks.
    #[error("{word} is no number of blocks for {name}; give one as 60, or 0 for none")]
    NoBlocks { name: &'static str, word: &'a str },
    /// A drive that keeps nothing.
    #[error("a drive that keeps the past for no time isn't made; give --keep more than 0s")]
    NoWindow,
    /// A window is given, and no drive is to be made.
    #[error("--keep is for a drive that is made; give --create FRAMES too, or neither")]
    KeepAlone,
    /// A drive is to be made, and no window is given.
    #[error("--create needs --keep DURATION, for how long the past is kept")]
    CreateAlone,
    /// The word is no door.
    #[error("{word} is no door; give client=DIR or admin=DIR")]
    NoDoor { word: &'a str },
    /// Two doors have this folder.
    #[error("two doors have the folder {folder}; give each door a folder of its own")]
    DoorTwice { folder: &'a str },
    /// There are more than `MOST_DOORS` doors.
    #[error("there are too many doors; give 4 at most")]
    TooManyDoors,
    /// The words give no service.
    #[error("the words give no service; try --help")]
    Unspelled,
}

//! What is wrong with the words of a line that the parser took.
use std::fmt::{self, Display, Formatter};

/// What may be given for a moment.
const MOMENTS: &str =
    "; give a number, a time as 2026-11-27T13:18:02Z, or an age as 90s, 15m, 2h, 3d or 1w";

/// What may be given for a duration.
const DURATIONS: &str = "; give one as 90s, 15m, 2h, 30d or 4w";

/// What is wrong with words that the parser took.
#[derive(Clone, Copy, Debug)]
pub enum WordFault<'a> {
    /// The word for this is no number.
    NoNumber {
        name: &'static str,
        word: &'a str,
    },
    /// The word for this is no moment.
    NoMoment {
        name: &'static str,
        word: &'a str,
    },
    /// The word for this is no duration.
    NoDuration {
        name: &'static str,
        word: &'a str,
    },
    /// The word is none of these kinds of change.
    NoKind {
        word: &'a str,
        kinds: &'static str,
    },
    /// Both are given, of which one alone may be.
    Both {
        one: &'static str,
        other: &'static str,
    },
    /// Neither is given, of which one has to be.
    Neither {
        one: &'static str,
        other: &'static str,
    },
    /// The one is given without the other.
    Alone {
        one: &'static str,
        other: &'static str,
    },
    /// The words give no command.
    Unspelled,
}

impl<'a> WordFault<'a> {
    // The line for people, in its parts.
    fn parts(&self) -> (&'a str, &'static str, &'a str, &'static str) {
        match *self {
            WordFault::NoNumber { name, word } => {
                (
                    word,
                    " is no number for ",
                    name,
                    "; give one from 0 to 2^64 - 1",
                )
            }
            WordFault::NoMoment { name, word } => { (word, " is no moment for ", name, MOMENTS) }
            WordFault::NoDuration { name, word } => {
                (word, " is no duration for ", name, DURATIONS)
            }
            WordFault::NoKind { word, kinds } => (word, " is no kind of change; give ", kinds, ""),
            WordFault::Both { one, other } => (one, " and ", other, " can't be given together"),
            WordFault::Neither { one, other } => (one, " or ", other, " has to be given"),
            WordFault::Alone { one, other } => (one, " can't be given without ", other, ""),
            WordFault::Unspelled => ("the words spell no command", "; ", "try --help", ""),
        }
    }
}

impl Display for WordFault<'_> {
    fn fmt<W: fmt::Write>(&self, f: &mut Formatter<W>) -> fmt::Result {
        let (one, between, other, end) = self.parts();
        write!(f, "{one}{between}{other}{end}")
    }
}

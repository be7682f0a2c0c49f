//! Positions in two lists of lines at once.

/// A position in the old lines and one in the new lines, each counted from 0.
#[derive(Clone, Copy, PartialEq, Eq)]
pub struct Place {
    pub old: usize,
    pub new: usize,
}

/// The place this many lines further on in both.
pub(crate) fn further(place: Place, lines: usize) -> Place {
    Place {
        old: place.old.saturating_add(lines),
        new: place.new.saturating_add(lines),
    }
}

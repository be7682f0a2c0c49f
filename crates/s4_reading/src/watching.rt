//! How far a check has come, shown to whoever waits for it.
use history_export::{Checked, Progress};
use s4_types::ObjectId;
use std::io::{IsTerminal, Stderr, Write};

/// What shows how far a check has come, and where.
pub trait Screens {
    /// What is told of each object.
    type Meter: Meter;

    /// A meter that shows nothing yet.
    fn meter(&self) -> Self::Meter;
}

/// What is told how far a check has come, and that it has ended.
pub trait Meter: Progress + Copy + Drop {
    /// Takes away what is shown.
    fn end(&mut self);
}

impl Screens for HostRuntime {
    type Meter = TerminalMeter;

    fn meter(&self) -> TerminalMeter {
        let errors = self.stderr();
        TerminalMeter {
            errors,
            is_shown: errors.is_terminal(),
        }
    }
}

/// A line on standard error that each object writes over, where that is a terminal; else nothing.
#[derive(Clone, Copy, Drop)]
pub struct TerminalMeter {
    errors: Stderr,
    is_shown: bool,
}

impl Progress for TerminalMeter {
    ghost use Rattle.std.specs.Prelude.{None};

    ghost told = { λ _. None };

    fn tell(&mut self, object: ObjectId, so_far: Checked) {
        if self.is_shown {
            let (object, versions) = (object.number(), so_far.versions);
            // A line that can't be shown isn't missed.
            let _ = write!(self.errors, "\robject {object}, {versions} versions");
        }
    }
}

impl Meter for TerminalMeter {
    fn end(&mut self) {
        if self.is_shown {
            // To the line's beginning, and nothing after it.
            let _ = write!(self.errors, "\r\x1b[K");
        }
    }
}

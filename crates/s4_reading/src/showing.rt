//! Each command that prints something of a drive, and what it prints.
ghost use Rattle.s4_reading.specs.Showing.{Shows, image_of, with_numbers};

use crate::auditing::write_audit;
use crate::comparing::write_compared;
use crate::listing::write_list;
use crate::logging::write_log;
use crate::reading::write_contents;
use crate::telling::write_numbers;
use drive::Drive;
use s4_command::{AuditAsked, CatAsked, DiffAsked, InfoAsked, ListAsked, LogAsked};
use s4_images::{DriveCommand, Failure, ImageCommand, Verdict};
use segment_word::Naming;
use serving::Sink;
use std::alloc::Global;

/// A command that prints something of the drive of an image, with what its line asks for.
#[derive(Clone, Copy)]
pub enum Showing<'a> {
    /// `list`: the objects of a moment.
    List(&'a ListAsked<'a>),
    /// `log`: what was changed between two moments, and when; or with `--stat` what that comes to,
    /// object by object.
    Log(&'a LogAsked<'a>),
    /// `audit`: what was accepted between two moments, a line for each change.
    Audit(&'a AuditAsked<'a>),
    /// `cat`: the bytes that an object has at a moment.
    Cat(&'a CatAsked<'a>),
    /// `info`: the numbers of the drive.
    Info(&'a InfoAsked<'a>),
    /// `diff`: what differs between two moments. It finds that something `Differs` where that is so.
    Diff(&'a DiffAsked<'a>),
}

impl ImageCommand for Showing<'_> {
    ghost file = { image_of };

    ghost as_numbers = { with_numbers };

    fn image(&self) -> &str {
        match self {
            Showing::List(asked) => asked.image,
            Showing::Log(asked) => asked.image,
            Showing::Audit(asked) => asked.image,
            Showing::Cat(asked) => asked.image,
            Showing::Info(asked) => asked.image,
            Showing::Diff(asked) => asked.image,
        }
    }

    fn has_numbers(&self) -> bool {
        match self {
            Showing::List(asked) => asked.moments,
            Showing::Log(asked) => asked.moments,
            Showing::Audit(asked) => asked.moments,
            Showing::Cat(_) => false,
            Showing::Info(asked) => asked.moments,
            Showing::Diff(asked) => asked.moments,
        }
    }
}

impl DriveCommand for Showing<'_> {
    ghost shows = { λ it d. Shows d it };

    fn perform<J: Naming, W: Sink>(
        &self,
        alloc: Global,
        drive: &mut Drive<J>,
        writer: &mut W,
    ) -> Result<Verdict, Failure> {
        match self {
            Showing::List(asked) => write_list(alloc, drive, asked, writer),
            Showing::Log(asked) => write_log(alloc, drive, asked, writer),
            Showing::Audit(asked) => write_audit(alloc, drive, asked, writer),
            Showing::Cat(asked) => write_contents(alloc, drive, asked, writer),
            Showing::Info(asked) => write_numbers(alloc, drive, asked, writer),
            Showing::Diff(asked) => write_compared(alloc, drive, asked, writer),
        }
    }
}

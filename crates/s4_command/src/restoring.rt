//! What asks for a moment to come back: `restore`.
ghost use Rattle.std.specs.Prelude.{◌≢◌, IfOk, IfErr, Some, codes};
ghost use Rattle.clap.specs.Walk.{rows_of};
ghost use Rattle.clap.specs.Matches.{found_of};
ghost use Rattle.refused_lines.specs.Refusals.{IsOwn};
ghost use Rattle.s4_command.specs.CommandLine.{Spells, SpellsNone};

use crate::choosing::one_at_most;
use crate::reading::{duration_in, needed_moment_in, needed_text_in, numbers_in};
use crate::{Command, NoCommand, WordFault};
use clap::ArgMatches;
use moment_words::MomentWord;
use s4d_command::reading::{is_given, text_in};
use std::alloc::Global;

/// What `restore` asks for. Objects and a name aren't given together.
#[derive(Drop)]
pub struct RestoreAsked<'a> {
    /// The image's file.
    pub image: &'a str,
    /// The moment.
    pub at: MomentWord,
    /// The time when it is asked for, in microseconds since 1970. 0 where it can't be known.
    pub now: u64,
    /// The objects, as often as the line names each and in its order. All objects, where there are
    /// none and no name is given.
    pub objects: Vec<u64>,
    /// The one object, by its attribute at the moment.
    pub name: Option<&'a str>,
    /// The file that has what an earlier restore printed.
    pub map: Option<&'a str>,
    /// Whether it is only printed what would be done.
    pub dry_run: bool,
    /// Whether moments between that one and the present are hidden where an object's journal is
    /// full.
    pub flush: bool,
    /// Whether objects that can't be restored are left out.
    pub skip: bool,
    /// Whether objects that were made since are kept.
    pub keep_newer: bool,
    /// Whether no object may be left, where some are there.
    pub to_nothing: bool,
    /// How far the machine's time may be above the image's clock, in microseconds. None where that
    /// isn't said.
    pub leap: Option<u64>,
    pub json: bool,
}

pub(crate) fn restore_asked<'a>(
    alloc: Global,
    found: &ArgMatches<'a>,
    now: u64,
) -> Result<Command<'a>, NoCommand<WordFault<'a>>>
    ensures spelled { IfOk result (Spells now
        (Some (codes "restore", rows_of (found_of found.now)))) }
    ensures usage { IfErr result (λ e. e ≢ NoCommand.NoMemory
        → SpellsNone now (Some (codes "restore", rows_of (found_of found.now)))) }
    ensures own { IfErr result IsOwn }
{
    let mut fault = None;
    let image = needed_text_in(found, "image", &mut fault);
    one_at_most(found, "object", "name", &mut fault);
    let at = needed_moment_in(found, "at", now, &mut fault);
    let leap = duration_in(found, "leap", &mut fault);
    let objects = numbers_in(alloc, found, "object", &mut fault)?;
    match fault {
        None => Ok(Command::Restore(RestoreAsked {
            image,
            at,
            now,
            objects,
            name: text_in(found, "name"),
            map: text_in(found, "map"),
            dry_run: is_given(found, "dry-run"),
            flush: is_given(found, "flush"),
            skip: is_given(found, "skip"),
            keep_newer: is_given(found, "keep-newer"),
            to_nothing: is_given(found, "to-nothing"),
            leap,
            json: is_given(found, "json"),
        })),
        Some(fault) => Err(NoCommand::Fault(fault)),
    }
}

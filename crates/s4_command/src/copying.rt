//! What asks for a copy of an image: `copy`.
ghost use Rattle.std.specs.Prelude.{◌≢◌, IfOk, IfErr, Some, codes};
ghost use Rattle.clap.specs.Walk.{rows_of};
ghost use Rattle.clap.specs.Matches.{found_of};
ghost use Rattle.refused_lines.specs.Refusals.{IsOwn};
ghost use Rattle.s4_command.specs.CommandLine.{Spells, SpellsNone};

use crate::reading::{moment_in, needed_text_in, number_in, numbers_in};
use crate::{Command, NoCommand, WordFault};
use clap::ArgMatches;
use moment_words::MomentWord;
use s4d_command::reading::is_given;
use std::alloc::Global;

/// What `copy` asks for.
#[derive(Drop)]
pub struct CopyAsked<'a> {
    /// The image's file.
    pub image: &'a str,
    /// The file of the copy.
    pub copy: &'a str,
    /// How many frames the copy has. None where that isn't said.
    pub frames: Option<u64>,
    /// The objects that are left out, as often as the line names each and in its order.
    pub without: Vec<u64>,
    /// The moment from which on what was made is left out. None where that isn't said.
    pub created_since: Option<MomentWord>,
    pub json: bool,
}

pub(crate) fn copy_asked<'a>(
    alloc: Global,
    found: &ArgMatches<'a>,
    now: u64,
) -> Result<Command<'a>, NoCommand<WordFault<'a>>>
    ensures spelled { IfOk result (Spells now
        (Some (codes "copy", rows_of (found_of found.now)))) }
    ensures usage { IfErr result (λ e. e ≢ NoCommand.NoMemory
        → SpellsNone now (Some (codes "copy", rows_of (found_of found.now)))) }
    ensures own { IfErr result IsOwn }
{
    let mut fault = None;
    let image = needed_text_in(found, "image", &mut fault);
    let copy = needed_text_in(found, "copy", &mut fault);
    let frames = number_in(found, "frames", &mut fault);
    let created_since = moment_in(found, "without-created-since", now, &mut fault);
    let without = numbers_in(alloc, found, "without", &mut fault)?;
    match fault {
        None => Ok(Command::Copy(CopyAsked {
            image,
            copy,
            frames,
            without,
            created_since,
            json: is_given(found, "json"),
        })),
        Some(fault) => Err(NoCommand::Fault(fault)),
    }
}

//! What asks for an image as a whole: `info`, `check`, `compact` and `salvage`.
ghost use Rattle.std.specs.Prelude.{ℕ, IfOk, OnErr, Some, codes};
ghost use Rattle.clap.specs.Walk.{rows_of};
ghost use Rattle.clap.specs.Matches.{found_of};
ghost use Rattle.s4_command.specs.CommandLine.{Spells, SpellsNone};

use crate::reading::needed_text_in;
use crate::{Command, WordFault};
use clap::ArgMatches;
use s4d_command::reading::{is_given, text_in};

/// What `info` asks for.
#[derive(Clone, Copy)]
pub struct InfoAsked<'a> {
    /// The image's file.
    pub image: &'a str,
    /// Whether moments are numbers also where they could be dates.
    pub moments: bool,
    pub json: bool,
}

/// What `check` asks for.
#[derive(Clone, Copy)]
pub struct CheckAsked<'a> {
    /// The image's file.
    pub image: &'a str,
    pub json: bool,
}

/// What `compact` asks for.
#[derive(Clone, Copy)]
pub struct CompactAsked<'a> {
    /// The image's file.
    pub image: &'a str,
    pub json: bool,
}

/// What `salvage` asks for.
#[derive(Clone, Copy)]
pub struct SalvageAsked<'a> {
    /// The image's file.
    pub image: &'a str,
    /// The folder that is written into.
    pub folder: &'a str,
    pub json: bool,
}

pub(crate) fn info_asked<'a>(found: &ArgMatches<'a>) -> Result<Command<'a>, WordFault<'a>>
    ensures spelled { (now : ℕ) → IfOk result (Spells now
        (Some (codes "info", rows_of (found_of found.now)))) }
    ensures usage { (now : ℕ) → OnErr result (SpellsNone now
        (Some (codes "info", rows_of (found_of found.now)))) }
{
    let Some(image) = text_in(found, "image") else {
        return Err(WordFault::Unspelled);
    };
    Ok(Command::Info(InfoAsked {
        image,
        moments: is_given(found, "moments"),
        json: is_given(found, "json"),
    }))
}

pub(crate) fn check_asked<'a>(found: &ArgMatches<'a>) -> Result<Command<'a>, WordFault<'a>>
    ensures spelled { (now : ℕ) → IfOk result (Spells now
        (Some (codes "check", rows_of (found_of found.now)))) }
    ensures usage { (now : ℕ) → OnErr result (SpellsNone now
        (Some (codes "check", rows_of (found_of found.now)))) }
{
    let Some(image) = text_in(found, "image") else {
        return Err(WordFault::Unspelled);
    };
    Ok(Command::Check(CheckAsked {
        image,
        json: is_given(found, "json"),
    }))
}

pub(crate) fn compact_asked<'a>(found: &ArgMatches<'a>) -> Result<Command<'a>, WordFault<'a>>
    ensures spelled { (now : ℕ) → IfOk result (Spells now
        (Some (codes "compact", rows_of (found_of found.now)))) }
    ensures usage { (now : ℕ) → OnErr result (SpellsNone now
        (Some (codes "compact", rows_of (found_of found.now)))) }
{
    let Some(image) = text_in(found, "image") else {
        return Err(WordFault::Unspelled);
    };
    Ok(Command::Compact(CompactAsked {
        image,
        json: is_given(found, "json"),
    }))
}

pub(crate) fn salvage_asked<'a>(found: &ArgMatches<'a>) -> Result<Command<'a>, WordFault<'a>>
    ensures spelled { (now : ℕ) → IfOk result (Spells now
        (Some (codes "salvage", rows_of (found_of found.now)))) }
    ensures usage { (now : ℕ) → OnErr result (SpellsNone now
        (Some (codes "salvage", rows_of (found_of found.now)))) }
{
    let mut fault = None;
    let image = needed_text_in(found, "image", &mut fault);
    let folder = needed_text_in(found, "folder", &mut fault);
    match fault {
        None => Ok(Command::Salvage(SalvageAsked {
            image,
            folder,
            json: is_given(found, "json"),
        })),
        Some(fault) => Err(fault),
    }
}

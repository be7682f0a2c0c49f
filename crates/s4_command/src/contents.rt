//! What asks for the objects of one moment: `list`, `cat` and `export`.
ghost use Rattle.std.specs.Prelude.{IfOk, OnErr, Some, codes};
ghost use Rattle.clap.specs.Walk.{rows_of};
ghost use Rattle.clap.specs.Matches.{found_of};
ghost use Rattle.s4_command.specs.CommandLine.{Spells, SpellsNone};

use crate::choosing::{flag_beside, one_at_least, one_at_most};
use crate::reading::{moment_in, needed_text_in, number_in};
use crate::{Command, WordFault};
use clap::ArgMatches;
use moment_words::MomentWord;
use s4d_command::reading::{is_given, text_in};

/// What `list` asks for.
#[derive(Clone, Copy)]
pub struct ListAsked<'a> {
    /// The image's file.
    pub image: &'a str,
    /// The moment, and none for the clock's.
    pub at: Option<MomentWord>,
    /// Whether those that were deleted before are listed too.
    pub deleted: bool,
    /// Whether each has all its versions up to the moment.
    pub versions: bool,
    /// Whether each version has all its bytes.
    pub contents: bool,
    /// Whether moments are numbers also where they could be dates.
    pub moments: bool,
    pub json: bool,
}

/// What `cat` asks for. The object's number or its name is given, and not both.
#[derive(Clone, Copy)]
pub struct CatAsked<'a> {
    /// The image's file.
    pub image: &'a str,
    /// The object's number.
    pub object: Option<u64>,
    /// The object's attribute at the moment.
    pub name: Option<&'a str>,
    /// The moment, and none for the clock's.
    pub at: Option<MomentWord>,
}

/// What `export` asks for.
#[derive(Clone, Copy)]
pub struct ExportAsked<'a> {
    /// The image's file.
    pub image: &'a str,
    /// The folder that is written into.
    pub folder: &'a str,
    /// The moment, and none for the clock's.
    pub at: Option<MomentWord>,
}

pub(crate) fn list_asked<'a>(found: &ArgMatches<'a>, now: u64) -> Result<Command<'a>, WordFault<'a>>
    ensures spelled { IfOk result (Spells now (Some (codes "list", rows_of (found_of found.now)))) }
    ensures usage { OnErr result (SpellsNone now
        (Some (codes "list", rows_of (found_of found.now)))) }
{
    let mut fault = None;
    let image = needed_text_in(found, "image", &mut fault);
    flag_beside(found, "contents", "versions", &mut fault);
    flag_beside(found, "versions", "json", &mut fault);
    let at = moment_in(found, "at", now, &mut fault);
    match fault {
        None => Ok(Command::List(ListAsked {
            image,
            at,
            deleted: is_given(found, "deleted"),
            versions: is_given(found, "versions"),
            contents: is_given(found, "contents"),
            moments: is_given(found, "moments"),
            json: is_given(found, "json"),
        })),
        Some(fault) => Err(fault),
    }
}

pub(crate) fn cat_asked<'a>(found: &ArgMatches<'a>, now: u64) -> Result<Command<'a>, WordFault<'a>>
    ensures spelled { IfOk result (Spells now (Some (codes "cat", rows_of (found_of found.now)))) }
    ensures usage { OnErr result (SpellsNone now
        (Some (codes "cat", rows_of (found_of found.now)))) }
{
    let mut fault = None;
    let image = needed_text_in(found, "image", &mut fault);
    one_at_most(found, "object", "name", &mut fault);
    one_at_least(found, "object", "name", &mut fault);
    let object = number_in(found, "object", &mut fault);
    let at = moment_in(found, "at", now, &mut fault);
    match fault {
        None => Ok(Command::Cat(CatAsked {
            image,
            object,
            name: text_in(found, "name"),
            at,
        })),
        Some(fault) => Err(fault),
    }
}

pub(crate) fn export_asked<'a>(
    found: &ArgMatches<'a>,
    now: u64,
) -> Result<Command<'a>, WordFault<'a>>
    ensures spelled { IfOk result (Spells now
        (Some (codes "export", rows_of (found_of found.now)))) }
    ensures usage { OnErr result (SpellsNone now
        (Some (codes "export", rows_of (found_of found.now)))) }
{
    let mut fault = None;
    let image = needed_text_in(found, "image", &mut fault);
    let folder = needed_text_in(found, "folder", &mut fault);
    let at = moment_in(found, "at", now, &mut fault);
    match fault {
        None => Ok(Command::Export(ExportAsked { image, folder, at })),
        Some(fault) => Err(fault),
    }
}

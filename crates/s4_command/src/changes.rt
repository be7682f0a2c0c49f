//! What asks for what was changed: `log`, `diff` and `report`.
ghost use Rattle.std.specs.Prelude.{IfOk, OnErr, Some, codes};
ghost use Rattle.clap.specs.Walk.{rows_of};
ghost use Rattle.clap.specs.Matches.{found_of};
ghost use Rattle.s4_command.specs.CommandLine.{Spells, SpellsNone};

use crate::choosing::{flags_apart, kind_in, one_at_most};
use crate::reading::{moment_in, needed_moment_in, needed_text_in, number_in};
use crate::{Command, WordFault};
use clap::ArgMatches;
use moment_words::MomentWord;
use s4d_command::reading::{is_given, text_in};

/// The kinds of change that `log` prints.
#[derive(Clone, Copy)]
pub enum ChangeKind {
    Made,
    Deleted,
    Written,
    Cut,
    Lengthened,
    Attribute,
    Touched,
}

/// What `log` asks for. The object's number and its name aren't given together.
#[derive(Clone, Copy)]
pub struct LogAsked<'a> {
    /// The image's file.
    pub image: &'a str,
    /// The one object, by its number. All objects, where its name isn't given either.
    pub object: Option<u64>,
    /// The one object, by its attribute.
    pub name: Option<&'a str>,
    /// The first moment, and none for the first that can be read.
    pub since: Option<MomentWord>,
    /// The last moment, and none for the clock's.
    pub until: Option<MomentWord>,
    /// The one kind of change, and none for all.
    pub kind: Option<ChangeKind>,
    /// How many changes are printed at most.
    pub limit: Option<u64>,
    /// Whether changes are in the order of objects, in place of the order of moments.
    pub by_object: bool,
    /// Whether the order is turned round.
    pub reverse: bool,
    /// Whether each object has one line, with counts.
    pub stat: bool,
    /// Whether moments are numbers also where they could be dates.
    pub moments: bool,
    pub json: bool,
}

/// What `diff` asks for. The object's number and its name aren't given together, and neither are
/// `patch` and `text`.
#[derive(Clone, Copy)]
pub struct DiffAsked<'a> {
    /// The image's file.
    pub image: &'a str,
    /// The one moment.
    pub from: MomentWord,
    /// The other moment, and none for the clock's.
    pub to: Option<MomentWord>,
    /// The one object, by its number. All objects, where its name isn't given either.
    pub object: Option<u64>,
    /// The one object, by its attribute.
    pub name: Option<&'a str>,
    /// Whether the bytes that differ are printed too.
    pub patch: bool,
    /// Whether the lines that differ are printed too, where both versions are text.
    pub text: bool,
    /// Whether these lines are printed as they are, with characters that a terminal obeys.
    pub raw: bool,
    /// Whether moments are numbers also where they could be dates.
    pub moments: bool,
    pub json: bool,
}

/// What `report` asks for.
#[derive(Clone, Copy)]
pub struct ReportAsked<'a> {
    /// The image's file.
    pub image: &'a str,
    /// The moment since which differences are shown, and none for the first that can be read.
    pub since: Option<MomentWord>,
}

pub(crate) fn log_asked<'a>(found: &ArgMatches<'a>, now: u64) -> Result<Command<'a>, WordFault<'a>>
    ensures spelled { IfOk result (Spells now (Some (codes "log", rows_of (found_of found.now)))) }
    ensures usage { OnErr result (SpellsNone now
        (Some (codes "log", rows_of (found_of found.now)))) }
{
    let mut fault = None;
    let image = needed_text_in(found, "image", &mut fault);
    one_at_most(found, "object", "name", &mut fault);
    let object = number_in(found, "object", &mut fault);
    let since = moment_in(found, "since", now, &mut fault);
    let until = moment_in(found, "until", now, &mut fault);
    let kind = kind_in(found, &mut fault);
    let limit = number_in(found, "limit", &mut fault);
    match fault {
        None => Ok(Command::Log(LogAsked {
            image,
            object,
            name: text_in(found, "name"),
            since,
            until,
            kind,
            limit,
            by_object: is_given(found, "by-object"),
            reverse: is_given(found, "reverse"),
            stat: is_given(found, "stat"),
            moments: is_given(found, "moments"),
            json: is_given(found, "json"),
        })),
        Some(fault) => Err(fault),
    }
}

pub(crate) fn diff_asked<'a>(found: &ArgMatches<'a>, now: u64) -> Result<Command<'a>, WordFault<'a>>
    ensures spelled { IfOk result (Spells now (Some (codes "diff", rows_of (found_of found.now)))) }
    ensures usage { OnErr result (SpellsNone now
        (Some (codes "diff", rows_of (found_of found.now)))) }
{
    let mut fault = None;
    let image = needed_text_in(found, "image", &mut fault);
    one_at_most(found, "object", "name", &mut fault);
    flags_apart(found, "patch", "text", &mut fault);
    let from = needed_moment_in(found, "from", now, &mut fault);
    let to = moment_in(found, "to", now, &mut fault);
    let object = number_in(found, "object", &mut fault);
    match fault {
        None => Ok(Command::Diff(DiffAsked {
            image,
            from,
            to,
            object,
            name: text_in(found, "name"),
            patch: is_given(found, "patch"),
            text: is_given(found, "text"),
            raw: is_given(found, "raw"),
            moments: is_given(found, "moments"),
            json: is_given(found, "json"),
        })),
        Some(fault) => Err(fault),
    }
}

pub(crate) fn report_asked<'a>(
    found: &ArgMatches<'a>,
    now: u64,
) -> Result<Command<'a>, WordFault<'a>>
    ensures spelled { IfOk result (Spells now
        (Some (codes "report", rows_of (found_of found.now)))) }
    ensures usage { OnErr result (SpellsNone now
        (Some (codes "report", rows_of (found_of found.now)))) }
{
    let mut fault = None;
    let image = needed_text_in(found, "image", &mut fault);
    let since = moment_in(found, "since", now, &mut fault);
    match fault {
        None => Ok(Command::Report(ReportAsked { image, since })),
        Some(fault) => Err(fault),
    }
}

//! What asks for what was accepted: `audit`.
ghost use Rattle.std.specs.Prelude.{◌≡◌, IfNone, IfOk, IfSome, None, OnErr, Some, codes};
ghost use Rattle.clap.specs.Walk.{rows_of};
ghost use Rattle.clap.specs.Matches.{found_of};
ghost use Rattle.s4_command.specs.CommandLine.{IsAcceptedAsked, Spells, SpellsNone};
ghost use Rattle.s4_command.specs.CommandLine.{accepted_word};

use crate::reading::{moment_in, needed_text_in, note, number_in};
use crate::{Command, WordFault};
use clap::ArgMatches;
use moment_words::MomentWord;
use s4_types::AuditKind;
use s4d_command::reading::{is_given, text_in};

/// The words for the kinds of accepted change.
const KINDS: &str = "create, delete, write, truncate, setattr, setwindow, flush or flusho";

/// What `audit` asks for.
#[derive(Clone, Copy)]
pub struct AuditAsked<'a> {
    /// The image's file.
    pub image: &'a str,
    /// The one object, by its number, 0 for what is of no object. None for all.
    pub object: Option<u64>,
    /// The first moment, and none for the floor.
    pub since: Option<MomentWord>,
    /// The last moment, and none for the clock's.
    pub until: Option<MomentWord>,
    /// The one kind of change, and none for all.
    pub kind: Option<AuditKind>,
    /// How many changes are printed at most.
    pub limit: Option<u64>,
    /// Whether moments are numbers also where they could be dates.
    pub moments: bool,
    pub json: bool,
}

pub(crate) fn audit_asked<'a>(
    found: &ArgMatches<'a>,
    now: u64,
) -> Result<Command<'a>, WordFault<'a>>
    ensures spelled { IfOk result (Spells now
        (Some (codes "audit", rows_of (found_of found.now)))) }
    ensures usage { OnErr result (SpellsNone now
        (Some (codes "audit", rows_of (found_of found.now)))) }
{
    let mut fault = None;
    let image = needed_text_in(found, "image", &mut fault);
    let object = number_in(found, "object", &mut fault);
    let since = moment_in(found, "since", now, &mut fault);
    let until = moment_in(found, "until", now, &mut fault);
    let kind = accepted_in(found, &mut fault);
    let limit = number_in(found, "limit", &mut fault);
    match fault {
        None => Ok(Command::Audit(AuditAsked {
            image,
            object,
            since,
            until,
            kind,
            limit,
            moments: is_given(found, "moments"),
            json: is_given(found, "json"),
        })),
        Some(fault) => Err(fault),
    }
}

// The kind of accepted change that is given, and none where none is.
fn accepted_in<'a>(matches: &ArgMatches<'a>, noted: &mut Option<WordFault<'a>>) -> Option<AuditKind>
    ensures asked { noted.new ≡ None → IsAcceptedAsked (rows_of (found_of matches.now)) result }
    ensures kept { noted.new ≡ None → noted.old ≡ None }
    ensures usage { (kind : _) → IsAcceptedAsked (rows_of (found_of matches.now)) kind
        → noted.old ≡ None → noted.new ≡ None }
{
    let word = text_in(matches, "kind")?;
    let kind = accepted_of(word);
    if kind.is_none() {
        note(noted, WordFault::NoKind { word, kinds: KINDS });
    }
    kind
}

fn accepted_of(word: &str) -> Option<AuditKind>
    ensures some { IfSome result (λ kind. word.now ≡ accepted_word kind) }
    ensures none { IfNone result ((kind : _) → word.now ≡ accepted_word kind → ⊥) }
{
    match word {
        "create" => Some(AuditKind::Create),
        "delete" => Some(AuditKind::Delete),
        "write" => Some(AuditKind::Write),
        "truncate" => Some(AuditKind::Truncate),
        "setattr" => Some(AuditKind::SetAttr),
        "setwindow" => Some(AuditKind::SetWindow),
        "flush" => Some(AuditKind::Flush),
        "flusho" => Some(AuditKind::FlushO),
        _ => None,
    }
}

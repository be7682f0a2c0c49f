//! What the readers of the commands take from the matches: which of two things is given, and a kind
//! of change.
ghost use Rattle.std.specs.Prelude.{◌≡◌, IfNone, IfSome, None};
ghost use Rattle.clap.specs.Walk.{rows_of};
ghost use Rattle.clap.specs.Matches.{found_of};
ghost use Rattle.s4_command.specs.CommandLine.{AreApart, AreFlagsApart, IsKindAsked, IsOneGiven};
ghost use Rattle.s4_command.specs.CommandLine.{IsFlagBeside, kind_word};

use crate::reading::note;
use crate::{ChangeKind, WordFault};
use clap::ArgMatches;
use s4d_command::reading::{is_given, text_in};

/// The words for the kinds of change.
const KINDS: &str = "made, deleted, written, cut, lengthened, attribute or touched";

/// Notes a fault where both are given.
pub(crate) fn one_at_most<'a>(
    matches: &ArgMatches<'a>,
    one: &'static str,
    other: &'static str,
    noted: &mut Option<WordFault<'a>>,
)
    ensures apart { noted.new ≡ None → AreApart one.now other.now (rows_of (found_of matches.now)) }
    ensures kept { noted.new ≡ None → noted.old ≡ None }
    ensures usage { AreApart one.now other.now (rows_of (found_of matches.now))
        → noted.old ≡ None → noted.new ≡ None }
{
    if text_in(matches, one).is_some() && text_in(matches, other).is_some() {
        note(noted, WordFault::Both { one, other });
    }
}

/// Notes a fault where neither is given.
pub(crate) fn one_at_least<'a>(
    matches: &ArgMatches<'a>,
    one: &'static str,
    other: &'static str,
    noted: &mut Option<WordFault<'a>>,
)
    ensures given { noted.new ≡ None
        → IsOneGiven one.now other.now (rows_of (found_of matches.now)) }
    ensures kept { noted.new ≡ None → noted.old ≡ None }
    ensures usage { IsOneGiven one.now other.now (rows_of (found_of matches.now))
        → noted.old ≡ None → noted.new ≡ None }
{
    if text_in(matches, one).is_none() && text_in(matches, other).is_none() {
        note(noted, WordFault::Neither { one, other });
    }
}

/// Notes a fault where both flags are given.
pub(crate) fn flags_apart<'a>(
    matches: &ArgMatches<'a>,
    one: &'static str,
    other: &'static str,
    noted: &mut Option<WordFault<'a>>,
)
    ensures apart { noted.new ≡ None
        → AreFlagsApart one.now other.now (rows_of (found_of matches.now)) }
    ensures kept { noted.new ≡ None → noted.old ≡ None }
    ensures usage { AreFlagsApart one.now other.now (rows_of (found_of matches.now))
        → noted.old ≡ None → noted.new ≡ None }
{
    if is_given(matches, one) && is_given(matches, other) {
        note(noted, WordFault::Both { one, other });
    }
}

/// Notes a fault where the one flag is given without the other.
pub(crate) fn flag_beside<'a>(
    matches: &ArgMatches<'a>,
    one: &'static str,
    other: &'static str,
    noted: &mut Option<WordFault<'a>>,
)
    ensures beside { noted.new ≡ None
        → IsFlagBeside one.now other.now (rows_of (found_of matches.now)) }
    ensures kept { noted.new ≡ None → noted.old ≡ None }
    ensures usage { IsFlagBeside one.now other.now (rows_of (found_of matches.now))
        → noted.old ≡ None → noted.new ≡ None }
{
    if is_given(matches, one) && !is_given(matches, other) {
        note(noted, WordFault::Alone { one, other });
    }
}

/// The kind of change that is given, and none where none is.
pub(crate) fn kind_in<'a>(
    matches: &ArgMatches<'a>,
    noted: &mut Option<WordFault<'a>>,
) -> Option<ChangeKind>
    ensures asked { noted.new ≡ None → IsKindAsked (rows_of (found_of matches.now)) result }
    ensures kept { noted.new ≡ None → noted.old ≡ None }
    ensures usage { (kind : _) → IsKindAsked (rows_of (found_of matches.now)) kind
        → noted.old ≡ None → noted.new ≡ None }
{
    let word = text_in(matches, "kind")?;
    let kind = kind_of(word);
    if kind.is_none() {
        note(noted, WordFault::NoKind { word, kinds: KINDS });
    }
    kind
}

fn kind_of(word: &str) -> Option<ChangeKind>
    ensures some { IfSome result (λ kind. word.now ≡ kind_word kind) }
    ensures none { IfNone result ((kind : _) → word.now ≡ kind_word kind → ⊥) }
{
    match word {
        "made" => Some(ChangeKind::Made),
        "deleted" => Some(ChangeKind::Deleted),
        "written" => Some(ChangeKind::Written),
        "cut" => Some(ChangeKind::Cut),
        "lengthened" => Some(ChangeKind::Lengthened),
        "attribute" => Some(ChangeKind::Attribute),
        "touched" => Some(ChangeKind::Touched),
        _ => None,
    }
}

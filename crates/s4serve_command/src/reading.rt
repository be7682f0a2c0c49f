//! What is taken from the matches beside texts: durations, and numbers that may be missing.
ghost use Rattle.std.specs.Prelude.{IfOk, OnErr};
ghost use Rattle.clap.specs.Walk.{rows_of};
ghost use Rattle.clap.specs.Matches.{found_of};
ghost use Rattle.s4serve_command.specs.CommandLine.{IsDurationAsked, IsNumberAsked};

use crate::WordFault;
use clap::ArgMatches;
use s4d_command::reading::{number_of, text_in};
use service_time::duration_of;

/// The duration that is given, in microseconds, and none where none is. A text that is no duration
/// is refused.
pub(crate) fn duration_in<'a>(
    matches: &ArgMatches<'a>,
    id: &'static str,
) -> Result<Option<u64>, WordFault<'a>>
    ensures asked { IfOk result (IsDurationAsked id.now (rows_of (found_of matches.now))) }
    ensures usage { OnErr result ((duration : _)
        → IsDurationAsked id.now (rows_of (found_of matches.now)) duration → ⊥) }
{
    let Some(word) = text_in(matches, id) else {
        return Ok(None);
    };
    match duration_of(word) {
        Some(micros) => Ok(Some(micros)),
        None => Err(WordFault::NoDuration { name: id, word }),
    }
}

/// The number of blocks that is given, and none where none is. A text that is no number is refused.
pub(crate) fn blocks_in<'a>(
    matches: &ArgMatches<'a>,
    id: &'static str,
) -> Result<Option<u64>, WordFault<'a>>
    ensures asked { IfOk result (IsNumberAsked id.now (rows_of (found_of matches.now))) }
    ensures usage { OnErr result ((number : _)
        → IsNumberAsked id.now (rows_of (found_of matches.now)) number → ⊥) }
{
    let Some(word) = text_in(matches, id) else {
        return Ok(None);
    };
    match number_of(word) {
        Some(number) => Ok(Some(number)),
        None => Err(WordFault::NoBlocks { name: id, word }),
    }
}

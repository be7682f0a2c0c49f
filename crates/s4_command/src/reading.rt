//! What the readers of the commands take from the matches: texts, numbers and moments. Each notes
//! what is wrong with the words where nothing was noted before, and its value is of use only where
//! nothing is noted at the end.
ghost use Rattle.std.specs.Prelude.{◌≡◌, ◌≢◌, IfOk, IsOk, None, Some};
ghost use Rattle.clap.specs.Walk.{first_of, rows_of, texts};
ghost use Rattle.clap.specs.Matches.{found_of};
ghost use Rattle.s4_command.specs.CommandLine.{AreNumbers, IsAsked, IsDurationAsked};
ghost use Rattle.s4_command.specs.CommandLine.{IsMomentAsked};
ghost use Rattle.s4_command.specs.CommandLine.{texts_of};

use crate::WordFault;
use clap::ArgMatches;
use moment_words::{MomentWord, age_of, read};
use s4d_command::reading::{number, number_of, text_in, texts_in};
use std::alloc::{AllocError, Global};

/// Notes a fault, where none is noted.
pub(crate) fn note<'a>(noted: &mut Option<WordFault<'a>>, fault: WordFault<'a>)
    ensures { noted.new ≢ None }
{
    if noted.is_none() {
        *noted = Some(fault);
    }
}

/// The text, where one has to be given.
pub(crate) fn needed_text_in<'a>(
    matches: &ArgMatches<'a>,
    id: &str,
    noted: &mut Option<WordFault<'a>>,
) -> &'a str
    ensures given { noted.new ≡ None
        → first_of id.now (rows_of (found_of matches.now)) ≡ Some result.now }
    ensures kept { noted.new ≡ None → noted.old ≡ None }
    ensures usage { (text : _) → first_of id.now (rows_of (found_of matches.now)) ≡ Some text
        → noted.old ≡ None → noted.new ≡ None }
{
    match text_in(matches, id) {
        Some(text) => text,
        None => {
            note(noted, WordFault::Unspelled);
            ""
        }
    }
}

/// The number that is given, and none where none is.
pub(crate) fn number_in<'a>(
    matches: &ArgMatches<'a>,
    id: &'static str,
    noted: &mut Option<WordFault<'a>>,
) -> Option<u64>
    ensures asked { noted.new ≡ None → IsAsked id.now (rows_of (found_of matches.now)) result }
    ensures kept { noted.new ≡ None → noted.old ≡ None }
    ensures usage { (number : _) → IsAsked id.now (rows_of (found_of matches.now)) number
        → noted.old ≡ None → noted.new ≡ None }
{
    let word = text_in(matches, id)?;
    let number = number(matches, id);
    if number.is_none() {
        note(noted, WordFault::NoNumber { name: id, word });
    }
    number
}

/// The duration that is given, in microseconds, and none where none is.
pub(crate) fn duration_in<'a>(
    matches: &ArgMatches<'a>,
    id: &'static str,
    noted: &mut Option<WordFault<'a>>,
) -> Option<u64>
    ensures asked { noted.new ≡ None
        → IsDurationAsked id.now (rows_of (found_of matches.now)) result }
    ensures kept { noted.new ≡ None → noted.old ≡ None }
    ensures usage { (micros : _) → IsDurationAsked id.now (rows_of (found_of matches.now)) micros
        → noted.old ≡ None → noted.new ≡ None }
{
    let word = text_in(matches, id)?;
    let micros = age_of(word);
    if micros.is_none() {
        note(noted, WordFault::NoDuration { name: id, word });
    }
    micros
}

/// The moment that is given, and none where none is.
pub(crate) fn moment_in<'a>(
    matches: &ArgMatches<'a>,
    id: &'static str,
    now: u64,
    noted: &mut Option<WordFault<'a>>,
) -> Option<MomentWord>
    ensures asked { noted.new ≡ None
        → IsMomentAsked now id.now (rows_of (found_of matches.now)) result }
    ensures kept { noted.new ≡ None → noted.old ≡ None }
    ensures usage { (moment : _) → IsMomentAsked now id.now (rows_of (found_of matches.now)) moment
        → noted.old ≡ None → noted.new ≡ None }
{
    let word = text_in(matches, id)?;
    let moment = read(word, now);
    if moment.is_none() {
        note(noted, WordFault::NoMoment { name: id, word });
    }
    moment
}

/// The moment, where one has to be given.
pub(crate) fn needed_moment_in<'a>(
    matches: &ArgMatches<'a>,
    id: &'static str,
    now: u64,
    noted: &mut Option<WordFault<'a>>,
) -> MomentWord
    ensures asked { noted.new ≡ None
        → IsMomentAsked now id.now (rows_of (found_of matches.now)) (Some result) }
    ensures kept { noted.new ≡ None → noted.old ≡ None }
    ensures usage { (moment : _)
        → IsMomentAsked now id.now (rows_of (found_of matches.now)) (Some moment)
        → noted.old ≡ None → noted.new ≡ None }
{
    match moment_in(matches, id, now, noted) {
        Some(moment) => moment,
        None => {
            note(noted, WordFault::Unspelled);
            MomentWord::Moment(0)
        }
    }
}

/// All numbers that are given, in the order of the words.
pub(crate) fn numbers_in<'a>(
    alloc: Global,
    matches: &ArgMatches<'a>,
    id: &'static str,
    noted: &mut Option<WordFault<'a>>,
) -> Result<Vec<u64>, AllocError>
    ensures asked { IfOk result (λ numbers. noted.new ≡ None → AreNumbers
        (texts_of id.now (rows_of (found_of matches.now))) numbers.items) }
    ensures kept { noted.new ≡ None → noted.old ≡ None }
    ensures usage { IsOk result → (numbers : _)
        → AreNumbers (texts_of id.now (rows_of (found_of matches.now))) numbers
        → noted.old ≡ None → noted.new ≡ None }
{
    match texts_in(matches, id) {
        Some(words) => numbers_of(alloc, id, words, noted),
        None => Ok(Vec::new(alloc)),
    }
}

fn numbers_of<'a>(
    alloc: Global,
    name: &'static str,
    words: &[&'a str],
    noted: &mut Option<WordFault<'a>>,
) -> Result<Vec<u64>, AllocError>
    ensures asked { IfOk result (λ numbers. noted.new ≡ None
        → AreNumbers (texts words.now) numbers.items) }
    ensures kept { noted.new ≡ None → noted.old ≡ None }
    ensures usage { IsOk result → (numbers : _) → AreNumbers (texts words.now) numbers
        → noted.old ≡ None → noted.new ≡ None }
{
    let mut numbers = Vec::new(alloc);
    for word in words {
        let Some(number) = number_of(word) else {
            note(noted, WordFault::NoNumber { name, word });
            return Ok(numbers);
        };
        numbers.push(number)?;
    }
    Ok(numbers)
}

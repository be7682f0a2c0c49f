//! How a moment is printed: as a number, or as a date.
ghost use Rattle.std.specs.Prelude.{◌≡◌, ◌*◌, IfOk, Some, pos, string_bytes};
ghost use Rattle.std.specs.Fmt.{DisplaysOnOk, decimal};
ghost use Rattle.moment_words.specs.Texts as texts;
ghost use Rattle.moment_words.specs.Printed.{IsPrinted};
ghost use Rattle.moment_words.specs.Words.{SaysMoment};

use arrayvec::ArrayString;
use jiff_core::Timestamp;
use jiff_fmt::temporal::DateTimePrinter;
use std::alloc::{AllocError, Global};
use std::fmt;

/// A clock that is at least so high counts the microseconds of Unix time: this is
/// 2001-09-09T01:46:40Z, and more requests than any drive serves.
pub const FIRST_DATED: u64 = 1_000_000_000_000_000;

/// Nanoseconds of a microsecond.
const NANOS: i128 = 1_000;

/// Places of a fraction of a second that are microseconds.
const PLACES: u8 = 6;

/// How moments are printed.
#[derive(Clone, Copy, Debug)]
pub enum MomentStyle {
    /// As numbers.
    Number,
    /// As dates and times in UTC.
    Date,
}

/// A moment as it is printed. It displays as the text that `moment_text` gives, and takes no memory
/// for it.
#[derive(Clone, Copy, Debug)]
pub struct ShownMoment {
    pub moment: u64,
    pub style: MomentStyle,
}

impl fmt::Display for ShownMoment {
    ghost output = { λ shown. Some (texts.moment_text shown.moment shown.style) };

    fn fmt<W: fmt::Write>(&self, f: &mut fmt::Formatter<W>) -> fmt::Result {
        let moment = self.moment;
        match self.style {
            MomentStyle::Number => write!(f, "{moment}"),
            MomentStyle::Date => write_date(moment, f),
        }
    }
}

// Writes the date of a moment, and its number where it is past the last that is a date.
fn write_date<W: fmt::Write>(moment: u64, f: &mut fmt::Formatter<W>) -> fmt::Result
    ensures { DisplaysOnOk W.write_str_gives f.old result (Some (texts.dated_text moment)) f.new }
{
    match Timestamp::from_nanosecond(nanosecond_of(moment)) {
        Ok(instant) => f.write_str(printed(instant).as_str()),
        Err(_) => write!(f, "{moment}"),
    }
}

/// The style for the moments of a drive whose clock is there: dates where it is at least
/// `FIRST_DATED` and numbers weren't asked for.
pub fn style_of(clock: u64, as_numbers: bool) -> MomentStyle
    ensures { result ≡ texts.style_of clock as_numbers }
{
    if as_numbers || clock < FIRST_DATED {
        MomentStyle::Number
    } else {
        MomentStyle::Date
    }
}

/// The text of a moment: as a number, or as RFC 3339 has it, in UTC and to the microsecond
/// (`2026-11-27T13:18:02.000123Z`). A moment past the years that have four digits is a number.
/// `read` gives the moment back.
pub fn moment_text(alloc: Global, moment: u64, style: MomentStyle) -> Result<String, AllocError>
    ensures text { IfOk result (λ text. string_bytes text ≡ texts.moment_text moment style) }
    ensures read { IfOk result (λ text. SaysMoment (string_bytes text) moment) }
{
    match style {
        MomentStyle::Number => number_text(alloc, moment),
        MomentStyle::Date => dated_text(alloc, moment),
    }
}

fn number_text(alloc: Global, moment: u64) -> Result<String, AllocError>
    ensures text { IfOk result (λ text. string_bytes text ≡ decimal moment) }
    ensures read { IfOk result (λ text. SaysMoment (string_bytes text) moment) }
{
    format!(in alloc; "{moment}")
}

fn dated_text(alloc: Global, moment: u64) -> Result<String, AllocError>
    ensures text { IfOk result (λ text. string_bytes text ≡ texts.dated_text moment) }
    ensures read { IfOk result (λ text. SaysMoment (string_bytes text) moment) }
{
    match Timestamp::from_nanosecond(nanosecond_of(moment)) {
        Ok(instant) => instant_text(alloc, instant),
        Err(_) => number_text(alloc, moment),
    }
}

fn nanosecond_of(moment: u64) -> i128
    ensures { result ≡ pos (moment * 1_000) }
{
    moment as i128 * NANOS
}

fn instant_text(alloc: Global, instant: Timestamp) -> Result<String, AllocError>
    ensures { IfOk result (λ text. IsPrinted instant (string_bytes text)) }
{
    let text = printed(instant);
    String::from_str(alloc, text.as_str())
}

// An instant in UTC, with the six places of its microseconds.
fn printed(instant: Timestamp) -> ArrayString<33>
    ensures { IsPrinted instant result.bytes }
{
    let printer = DateTimePrinter::new().precision(Some(PLACES));
    printer.timestamp_text(instant)
}

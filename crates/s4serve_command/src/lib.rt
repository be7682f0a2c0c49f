//! What a line of words asks of the program `s4serve`, read with `clap`.
//!
//! The layer above may rely on this: what `service_of` gives has the texts, durations and doors of
//! the matches that `clap` states for the words; a line is refused only where `clap` refuses it, or
//! its matches say no service. Help and the version come as such, and a refusal of memory is one of
//! its own. What a service does is said elsewhere.
#![tactic(auto)]

ghost use Rattle.std.specs.Prelude.{◌≡◌, ◌≢◌, IfOk, IfErr, IsErrAnd, OnErr, Some, [], codes, map, true};
ghost use Rattle.clap.specs.Walk.{first_of, rows_of};
ghost use Rattle.clap.specs.Takes.{takes};
ghost use Rattle.clap.specs.Faults.{fault_of};
ghost use Rattle.clap.specs.Matches.{found_of};
ghost use Rattle.clap.specs.Simple.{matches_of};
ghost use Rattle.refused_lines.specs.Refusals.{IsAskedAmong, IsOwn, IsRefusedBy};
ghost use Rattle.s4serve_command.specs.CommandLine.{line, IsCreatedAt, IsDurationAsked};
ghost use Rattle.s4serve_command.specs.CommandLine.{IsNumberAsked, Spells};
ghost use Rattle.s4serve_command.specs.CommandLine.{SpellsNone};

mod creating;
mod doors;
mod faults;
mod line;
mod reading;

use clap::ArgMatches;
pub use creating::Creation;
use creating::creation_in;
use doors::doors_in;
pub use doors::{Door, MOST_DOORS};
pub use faults::WordFault;
use line::command_line;
use reading::{blocks_in, duration_in};
pub use refused_lines::NoCommand;
use refused_lines::refused;
use s4d_command::reading::text_in;
use std::alloc::Global;
use std::convert::AsStr;

/// What a service is to do. Its texts are words of the line.
#[derive(Drop)]
pub struct ServiceAsked<'a> {
    /// The image's file.
    pub image: &'a str,
    /// The drive that is made. None where the image is there.
    pub create: Option<Creation>,
    /// How long after the image's clock the service may begin, in microseconds. None where that
    /// isn't said.
    pub leap: Option<u64>,
    /// How long it tries to keep its drive, once it is stopped, where memory or room is short, in
    /// microseconds. None where that isn't said.
    pub patience: Option<u64>,
    /// How many blocks of the drive's room clients leave to administrators. None where that isn't
    /// said.
    pub reserve: Option<u64>,
    /// Where sessions are asked for, in the order of the words: one door at least, and `MOST_DOORS`
    /// at most, each with a folder of its own. That two folders with different names are two isn't
    /// known.
    pub doors: Vec<Door<'a>>,
}

/// The service that the words ask for, the program's name first among them. At `--help` and
/// `--version` it is `Asked`, with the text.
pub fn service_of<'a, S: AsStr>(
    alloc: Global,
    words: &'a [S],
) -> Result<ServiceAsked<'a>, NoCommand<WordFault<'a>>>
    ensures spelled { IfOk result (Spells (matches_of line (map S.text words.entry.now))) }
    ensures usage { IfErr result (λ e. e ≢ NoCommand.NoMemory
        → takes line (map S.text words.entry.now) ≡ true
        → SpellsNone (matches_of line (map S.text words.entry.now))) }
    ensures refused { fault_of line (map S.text words.entry.now) ≢ []
        → IsErrAnd result (IsRefusedBy (fault_of line (map S.text words.entry.now))) }
    ensures asked { IfErr result (IsAskedAmong (fault_of line (map S.text words.entry.now))) }
{
    let parser = command_line(alloc)?;
    match parser.try_get_matches_from(words) {
        Ok(matches) => asked_in(alloc, &matches),
        Err(error) => Err(refused(error)),
    }
}

fn asked_in<'a>(
    alloc: Global,
    matches: &ArgMatches<'a>,
) -> Result<ServiceAsked<'a>, NoCommand<WordFault<'a>>>
    ensures spelled { IfOk result (Spells (rows_of (found_of matches.now))) }
    ensures usage { IfErr result (λ e. e ≢ NoCommand.NoMemory
        → SpellsNone (rows_of (found_of matches.now))) }
    ensures own { IfErr result IsOwn }
{
    let (image, create, leap, patience, reserve) = match words_in(matches) {
        Ok(words) => words,
        Err(fault) => return Err(NoCommand::Fault(fault)),
    };
    let doors = doors_in(alloc, matches)?;
    Ok(ServiceAsked {
        image,
        create,
        leap,
        patience,
        reserve,
        doors,
    })
}

// What is asked for beside doors: the image, the drive that is made, the leap, the patience, and
// the reserve.
fn words_in<'a>(
    matches: &ArgMatches<'a>,
) -> Result<
    (
        &'a str,
        Option<Creation>,
        Option<u64>,
        Option<u64>,
        Option<u64>,
    ),
    WordFault<'a>,
>
    ensures image { IfOk result
        (λ words. first_of (codes "image") (rows_of (found_of matches.now)) ≡ Some words.0.now) }
    ensures create { IfOk result (λ words. IsCreatedAt
        (first_of (codes "create") (rows_of (found_of matches.now)))
        (first_of (codes "keep") (rows_of (found_of matches.now))) words.1) }
    ensures leap { IfOk result
        (λ words. IsDurationAsked (codes "leap") (rows_of (found_of matches.now)) words.2) }
    ensures patience { IfOk result
        (λ words. IsDurationAsked (codes "patience") (rows_of (found_of matches.now)) words.3) }
    ensures reserve { IfOk result
        (λ words. IsNumberAsked (codes "reserve") (rows_of (found_of matches.now)) words.4) }
    ensures usage { OnErr result (SpellsNone (rows_of (found_of matches.now))) }
{
    let image = text_in(matches, "image").ok_or(WordFault::Unspelled)?;
    let create = creation_in(matches)?;
    let leap = duration_in(matches, "leap")?;
    let patience = duration_in(matches, "patience")?;
    let reserve = blocks_in(matches, "reserve")?;
    Ok((image, create, leap, patience, reserve))
}

//! What a line of words asks of the program `s4`, read with `clap`.
//!
//! The layer above may rely on this: a command that `command_of` gives has the numbers, moments and
//! texts of the matches that `clap` states for the words; a line is refused only where `clap`
//! refuses it, or its matches give no command. Help and the version come as such, and a refusal of
//! memory is one of its own. What a command does is said elsewhere.
#![tactic(auto)]

ghost use Rattle.std.specs.Prelude.{◌≡◌, ◌≢◌, IfOk, IfErr, IsErrAnd, OnErr, Some, [], codes, map};
ghost use Rattle.std.specs.Prelude.{true};
ghost use Rattle.clap.specs.Walk.{rows_of};
ghost use Rattle.clap.specs.Takes.{takes};
ghost use Rattle.clap.specs.Faults.{fault_of};
ghost use Rattle.clap.specs.Matches.{found_of};
ghost use Rattle.clap.specs.Simple.{subcommand_of, subcommand_rows_of};
ghost use Rattle.refused_lines.specs.Refusals.{IsAskedAmong, IsOwn, IsRefusedBy};
ghost use Rattle.s4_command.specs.CommandLine.{line, Spells, SpellsNone};

mod auditing;
mod changes;
mod choosing;
mod contents;
mod copying;
mod faults;
mod line;
mod reading;
mod restoring;
mod rows;
mod whole;

pub use auditing::AuditAsked;
use auditing::audit_asked;
pub use changes::{ChangeKind, DiffAsked, LogAsked, ReportAsked};
use changes::{diff_asked, log_asked, report_asked};
use clap::ArgMatches;
pub use contents::{CatAsked, ExportAsked, ListAsked};
use contents::{cat_asked, export_asked, list_asked};
pub use copying::CopyAsked;
use copying::copy_asked;
pub use faults::WordFault;
use line::command_line;
pub use refused_lines::NoCommand;
use refused_lines::refused;
pub use restoring::RestoreAsked;
use restoring::restore_asked;
use std::alloc::Global;
use std::convert::AsStr;
pub use whole::{CheckAsked, CompactAsked, InfoAsked, SalvageAsked};
use whole::{check_asked, compact_asked, info_asked, salvage_asked};

/// What the program is to do. Its texts are words of the line.
#[derive(Drop)]
pub enum Command<'a> {
    /// Prints the objects of a moment.
    List(ListAsked<'a>),
    /// Prints what was changed.
    Log(LogAsked<'a>),
    /// Prints what was accepted.
    Audit(AuditAsked<'a>),
    /// Prints an object's bytes at a moment.
    Cat(CatAsked<'a>),
    /// Prints the numbers of an image.
    Info(InfoAsked<'a>),
    /// Prints what differs between two moments.
    Diff(DiffAsked<'a>),
    /// Writes the bytes of each object into a folder.
    Export(ExportAsked<'a>),
    /// Makes the present what it was at a moment.
    Restore(RestoreAsked<'a>),
    /// Reads every version that can be read.
    Check(CheckAsked<'a>),
    /// Cleans a drive, and gathers what is scattered.
    Compact(CompactAsked<'a>),
    /// Makes another image of the same versions.
    Copy(CopyAsked<'a>),
    /// Writes what a damaged image still has of each object into a folder.
    Salvage(SalvageAsked<'a>),
    /// Prints a page that shows a drive and what was changed.
    Report(ReportAsked<'a>),
}

/// The command that the words give, the program's name first among them, at the time `now`, in
/// microseconds since 1970, from which ages count. At `help`, `--help` and `--version` it is
/// `Asked`, with the text.
pub fn command_of<'a, S: AsStr>(
    alloc: Global,
    words: &'a [S],
    now: u64,
) -> Result<Command<'a>, NoCommand<WordFault<'a>>>
    ensures spelled { IfOk result (Spells now (subcommand_of line (map S.text words.entry.now))) }
    ensures usage { IfErr result (λ e. e ≢ NoCommand.NoMemory
        → takes line (map S.text words.entry.now) ≡ true
        → SpellsNone now (subcommand_of line (map S.text words.entry.now))) }
    ensures refused { fault_of line (map S.text words.entry.now) ≢ []
        → IsErrAnd result (IsRefusedBy (fault_of line (map S.text words.entry.now))) }
    ensures asked { IfErr result (IsAskedAmong (fault_of line (map S.text words.entry.now))) }
{
    let parser = command_line(alloc)?;
    match parser.try_get_matches_from(words) {
        Ok(matches) => command_in(alloc, &matches, now),
        Err(error) => Err(refused(error)),
    }
}

fn command_in<'a>(
    alloc: Global,
    matches: &ArgMatches<'a>,
    now: u64,
) -> Result<Command<'a>, NoCommand<WordFault<'a>>>
    ensures spelled { IfOk result (Spells now (subcommand_rows_of matches.now)) }
    ensures usage { IfErr result (λ e. e ≢ NoCommand.NoMemory
        → SpellsNone now (subcommand_rows_of matches.now)) }
    ensures own { IfErr result IsOwn }
{
    match matches.subcommand() {
        Some((name, found)) => named_command(alloc, name, found, now),
        None => Err(NoCommand::Fault(WordFault::Unspelled)),
    }
}

fn named_command<'a>(
    alloc: Global,
    name: &str,
    found: &ArgMatches<'a>,
    now: u64,
) -> Result<Command<'a>, NoCommand<WordFault<'a>>>
    ensures spelled { IfOk result (Spells now (Some (name.now, rows_of (found_of found.now)))) }
    ensures usage { IfErr result (λ e. e ≢ NoCommand.NoMemory
        → SpellsNone now (Some (name.now, rows_of (found_of found.now)))) }
    ensures own { IfErr result IsOwn }
{
    if name == "restore" {
        return restore_asked(alloc, found, now);
    }
    if name == "copy" {
        return copy_asked(alloc, found, now);
    }
    match shorter_command(name, found, now) {
        Ok(command) => Ok(command),
        Err(fault) => Err(NoCommand::Fault(fault)),
    }
}

// A command that takes no memory: neither `restore` nor `copy`.
fn shorter_command<'a>(
    name: &str,
    found: &ArgMatches<'a>,
    now: u64,
) -> Result<Command<'a>, WordFault<'a>>
    ensures spelled { IfOk result (Spells now (Some (name.now, rows_of (found_of found.now)))) }
    ensures usage { OnErr result (name.now ≢ codes "restore"
        → name.now ≢ codes "copy"
        → SpellsNone now (Some (name.now, rows_of (found_of found.now)))) }
{
    match name {
        "list" => list_asked(found, now),
        "log" => log_asked(found, now),
        "audit" => audit_asked(found, now),
        "cat" => cat_asked(found, now),
        "info" => info_asked(found),
        "diff" => diff_asked(found, now),
        "export" => export_asked(found, now),
        "check" => check_asked(found),
        "compact" => compact_asked(found),
        "salvage" => salvage_asked(found),
        "report" => report_asked(found, now),
        _ => Err(WordFault::Unspelled),
    }
}

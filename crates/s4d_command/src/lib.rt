//! What a line of words asks of the program, read with `clap`.
//!
//! The layer above may rely on this: a command that `command_of` gives has the numbers, texts and
//! defaults of the matches that `clap` states for the words, and its numbers are in range; a line
//! is refused only where `clap` refuses it or its matches give no command, and lack of memory is
//! told apart. What a command does is said elsewhere.
#![tactic(auto)]

ghost use Rattle.std.specs.Prelude.{◌≡◌, ◌≤◌, ℕ, IfOk, IfSome, IfNone, IsErrOf, Some};
ghost use Rattle.std.specs.Prelude.{codes, map, true};
ghost use Rattle.clap.specs.Walk.{first_of, one_of, rows_of};
ghost use Rattle.clap.specs.Takes.{takes};
ghost use Rattle.clap.specs.Values.{kind_of};
ghost use Rattle.clap.specs.Matches.{found_of};
ghost use Rattle.clap.specs.Simple.{subcommand_of, subcommand_rows_of};
ghost use Rattle.s4d_command.specs.CommandLine.{line, IsNumber, role_word};
ghost use Rattle.s4d_command.specs.CommandLine.{Spells, SpellsNone, SpellsPipe, SpellsNew};
ghost use Rattle.s4d_command.specs.CommandLine.{SpellsVerify, SpellsRun, SpellsAt, SpellsMigrate};

pub mod arguments;
mod line;
pub mod reading;
mod sessions;

use clap::ArgMatches;
use clap::error::ErrorKind;
use line::command_line;
use reading::{is_given, number, text_in, texts_in};
use s4_types::Role;
use s4_types::limits::{FEWEST_FRAMES, MOST_FRAMES};
use sessions::sessions_in;
pub use sessions::{MOST_SESSIONS, RunSession};
use std::alloc::{AllocError, Global};
use std::convert::AsStr;
use thiserror::Error;

/// What the program is to do. Its texts are words of the line.
#[derive(Drop)]
pub enum Command<'a> {
    /// Serves one session of a new drive, from standard input to standard output.
    Pipe(Pipe),
    /// Writes the image of a new drive.
    New(New<'a>),
    /// Says what is wrong with an image.
    Verify(Verify<'a>),
    /// Serves sessions of a drive that an image is read from, and writes its image anew.
    Run(Run<'a>),
    /// Gives what an object was at a moment.
    At(At<'a>),
    /// Makes a new image of one of an earlier version.
    Migrate(Migrate<'a>),
}

/// What `new` makes.
#[derive(Clone, Copy)]
pub struct New<'a> {
    /// The image's file.
    pub image: &'a str,
    /// How many frames the drive has, `FEWEST_FRAMES` to `MOST_FRAMES`.
    pub frames: u64,
    /// The detection window, in moments.
    pub window: u64,
}

/// What `verify` reads.
#[derive(Clone, Copy)]
pub struct Verify<'a> {
    /// The image's file.
    pub image: &'a str,
}

/// The sessions that `run` serves, and over what drive.
#[derive(Drop)]
pub struct Run<'a> {
    /// The image's file.
    pub image: &'a str,
    /// How far the clock moves for each request, in moments.
    pub tick: u64,
    /// Whether the history cleaner and the segment copier are beside the sessions.
    pub upkeep: bool,
    /// 1 to 16 sessions.
    pub sessions: Vec<RunSession<'a>>,
}

/// What `at` asks for.
#[derive(Clone, Copy)]
pub struct At<'a> {
    /// The image's file.
    pub image: &'a str,
    pub object: u64,
    pub moment: u64,
}

/// What `migrate` reads and what it makes.
#[derive(Clone, Copy)]
pub struct Migrate<'a> {
    /// The earlier image's file.
    pub earlier: &'a str,
    /// The new image's file.
    pub image: &'a str,
}

/// The options of `pipe`.
#[derive(Clone, Copy)]
pub struct Pipe {
    /// How many frames the drive has, `FEWEST_FRAMES` to `MOST_FRAMES`.
    pub frames: u64,
    /// The detection window, in moments.
    pub window: u64,
    /// How far the clock moves for each request, in moments.
    pub tick: u64,
    /// What the session may do.
    pub role: Role,
}

/// Why a line of words gave no command.
#[derive(Clone, Copy, Debug, PartialEq, Eq, Error)]
pub enum CommandError {
    /// The words give no command.
    #[error("usage")]
    Usage,
    /// A growth of memory was refused.
    #[error("NoMemory")]
    NoMemory,
}

impl From<AllocError> for CommandError {
    ghost use Rattle.std.specs.Prelude.{◌≡◌};
    ghost use Rattle.s4d_command.specs.declared.CommandError.TheVariants.{NoMemory};

    ghost from_gives = { λ _ e. e ≡ NoMemory };

    fn from(_error: AllocError) -> CommandError {
        CommandError::NoMemory
    }
}

/// The command that the words give, the program's name first among them.
pub fn command_of<'a, S: AsStr>(alloc: Global, words: &'a [S]) -> Result<Command<'a>, CommandError>
    ensures spelled { IfOk result (Spells (subcommand_of line (map S.text words.entry.now))) }
    ensures usage { IsErrOf result CommandError.Usage → takes line (map S.text words.entry.now) ≡ true
        → SpellsNone (subcommand_of line (map S.text words.entry.now)) }
{
    let parser = command_line(alloc)?;
    match parser.try_get_matches_from(words) {
        Ok(matches) => command_in(alloc, &matches),
        Err(error) => Err(refused(&error)),
    }
}

// What a refusal of the parser means.
fn refused(error: &clap::Error) -> CommandError
    ensures { kind_of error.now ≡ ErrorKind.OutOfMemory → result ≡ CommandError.NoMemory }
{
    match error.kind() {
        ErrorKind::OutOfMemory => CommandError::NoMemory,
        _ => CommandError::Usage,
    }
}

fn command_in<'a>(alloc: Global, matches: &ArgMatches<'a>) -> Result<Command<'a>, CommandError>
    ensures spelled { IfOk result (Spells (subcommand_rows_of matches.now)) }
    ensures usage { IsErrOf result CommandError.Usage
        → SpellsNone (subcommand_rows_of matches.now) }
{
    match matches.subcommand() {
        Some((name, found)) => named_command(alloc, name, found),
        None => Err(CommandError::Usage),
    }
}

fn named_command<'a>(
    alloc: Global,
    name: &str,
    found: &ArgMatches<'a>,
) -> Result<Command<'a>, CommandError>
    ensures spelled { IfOk result (Spells (Some (name.now, rows_of (found_of found.now)))) }
    ensures usage { IsErrOf result CommandError.Usage
        → SpellsNone (Some (name.now, rows_of (found_of found.now))) }
{
    match name {
        "pipe" => pipe_asked(found),
        "new" => new_asked(found),
        "verify" => verify_asked(found),
        "run" => run_asked(alloc, found),
        "at" => at_asked(found),
        "migrate" => migrate_asked(found),
        _ => Err(CommandError::Usage),
    }
}

fn pipe_asked<'a>(found: &ArgMatches<'a>) -> Result<Command<'a>, CommandError>
    ensures spelled { IfOk result (Spells (Some (codes "pipe", rows_of (found_of found.now)))) }
    ensures usage { IsErrOf result CommandError.Usage
        → SpellsNone (Some (codes "pipe", rows_of (found_of found.now))) }
{
    match pipe_in(found) {
        Some(pipe) => Ok(Command::Pipe(pipe)),
        None => Err(CommandError::Usage),
    }
}

fn new_asked<'a>(found: &ArgMatches<'a>) -> Result<Command<'a>, CommandError>
    ensures spelled { IfOk result (Spells (Some (codes "new", rows_of (found_of found.now)))) }
    ensures usage { IsErrOf result CommandError.Usage
        → SpellsNone (Some (codes "new", rows_of (found_of found.now))) }
{
    match new_in(found) {
        Some(new) => Ok(Command::New(new)),
        None => Err(CommandError::Usage),
    }
}

fn verify_asked<'a>(found: &ArgMatches<'a>) -> Result<Command<'a>, CommandError>
    ensures spelled { IfOk result (Spells (Some (codes "verify", rows_of (found_of found.now)))) }
    ensures usage { IsErrOf result CommandError.Usage
        → SpellsNone (Some (codes "verify", rows_of (found_of found.now))) }
{
    match verify_in(found) {
        Some(verify) => Ok(Command::Verify(verify)),
        None => Err(CommandError::Usage),
    }
}

fn at_asked<'a>(found: &ArgMatches<'a>) -> Result<Command<'a>, CommandError>
    ensures spelled { IfOk result (Spells (Some (codes "at", rows_of (found_of found.now)))) }
    ensures usage { IsErrOf result CommandError.Usage
        → SpellsNone (Some (codes "at", rows_of (found_of found.now))) }
{
    match at_in(found) {
        Some(at) => Ok(Command::At(at)),
        None => Err(CommandError::Usage),
    }
}

fn migrate_asked<'a>(found: &ArgMatches<'a>) -> Result<Command<'a>, CommandError>
    ensures spelled { IfOk result (Spells (Some (codes "migrate", rows_of (found_of found.now)))) }
    ensures usage { IsErrOf result CommandError.Usage
        → SpellsNone (Some (codes "migrate", rows_of (found_of found.now))) }
{
    match migrate_in(found) {
        Some(migrate) => Ok(Command::Migrate(migrate)),
        None => Err(CommandError::Usage),
    }
}

fn run_asked<'a>(alloc: Global, found: &ArgMatches<'a>) -> Result<Command<'a>, CommandError>
    ensures spelled { IfOk result (Spells (Some (codes "run", rows_of (found_of found.now)))) }
    ensures usage { IsErrOf result CommandError.Usage
        → SpellsNone (Some (codes "run", rows_of (found_of found.now))) }
{
    match run_in(alloc, found) {
        Ok(run) => Ok(Command::Run(run)),
        Err(error) => Err(error),
    }
}

fn pipe_in(matches: &ArgMatches<'_>) -> Option<Pipe>
    ensures none { IfNone result
        ((pipe : _) → SpellsPipe (rows_of (found_of matches.now)) pipe → ⊥) }
    ensures some { IfSome result (SpellsPipe (rows_of (found_of matches.now))) }
{
    Some(Pipe {
        frames: frame_count(matches)?,
        window: number(matches, "window")?,
        tick: number(matches, "tick")?,
        role: role_in(matches)?,
    })
}

fn new_in<'a>(matches: &ArgMatches<'a>) -> Option<New<'a>>
    ensures none { IfNone result ((new : _) → SpellsNew (rows_of (found_of matches.now)) new → ⊥) }
    ensures some { IfSome result (SpellsNew (rows_of (found_of matches.now))) }
{
    let window = number(matches, "window")?;
    Some(New {
        image: text_in(matches, "image")?,
        frames: frame_count(matches)?,
        window,
    })
}

fn verify_in<'a>(matches: &ArgMatches<'a>) -> Option<Verify<'a>>
    ensures none { IfNone result
        ((verify : _) → SpellsVerify (rows_of (found_of matches.now)) verify → ⊥) }
    ensures some { IfSome result (SpellsVerify (rows_of (found_of matches.now))) }
{
    Some(Verify {
        image: text_in(matches, "image")?,
    })
}

fn at_in<'a>(matches: &ArgMatches<'a>) -> Option<At<'a>>
    ensures none { IfNone result ((at : _) → SpellsAt (rows_of (found_of matches.now)) at → ⊥) }
    ensures some { IfSome result (SpellsAt (rows_of (found_of matches.now))) }
{
    Some(At {
        image: text_in(matches, "image")?,
        object: number(matches, "object")?,
        moment: number(matches, "moment")?,
    })
}

fn migrate_in<'a>(matches: &ArgMatches<'a>) -> Option<Migrate<'a>>
    ensures none { IfNone result
        ((migrate : _) → SpellsMigrate (rows_of (found_of matches.now)) migrate → ⊥) }
    ensures some { IfSome result (SpellsMigrate (rows_of (found_of matches.now))) }
{
    Some(Migrate {
        earlier: text_in(matches, "earlier")?,
        image: text_in(matches, "image")?,
    })
}

fn run_in<'a>(alloc: Global, matches: &ArgMatches<'a>) -> Result<Run<'a>, CommandError>
    ensures spelled { IfOk result (SpellsRun (rows_of (found_of matches.now))) }
    ensures usage { IsErrOf result CommandError.Usage → (run : _)
        → SpellsRun (rows_of (found_of matches.now)) run → ⊥ }
{
    let image = text_in(matches, "image").ok_or(CommandError::Usage)?;
    let tick = number(matches, "tick").ok_or(CommandError::Usage)?;
    let words = texts_in(matches, "sessions").ok_or(CommandError::Usage)?;
    let sessions = sessions_in(alloc, words)?;
    Ok(Run {
        image,
        tick,
        upkeep: !is_given(matches, "no-upkeep"),
        sessions,
    })
}

fn frame_count(matches: &ArgMatches<'_>) -> Option<u64>
    ensures none { IfNone result ((n : ℕ) → IsNumber (one_of (codes "frames") (rows_of (found_of matches.now))) n
        → FEWEST_FRAMES ≤ n → n ≤ MOST_FRAMES → ⊥) }
    ensures some { IfSome result
        (IsNumber (one_of (codes "frames") (rows_of (found_of matches.now)))) }
    ensures fewest { IfSome result (λ n. FEWEST_FRAMES ≤ n) }
    ensures most { IfSome result (λ n. n ≤ MOST_FRAMES) }
{
    let frames = number(matches, "frames")?;
    if frames < FEWEST_FRAMES as u64 || frames > MOST_FRAMES as u64 {
        return None;
    }
    Some(frames)
}

fn role_in(matches: &ArgMatches<'_>) -> Option<Role>
    ensures none { IfNone result ((role : _) →
        first_of (codes "role") (rows_of (found_of matches.now)) ≡ Some (role_word role) → ⊥) }
    ensures some { IfSome result (λ role.
        first_of (codes "role") (rows_of (found_of matches.now)) ≡ Some (role_word role)) }
{
    role_of(matches.get_str("role")?)
}

fn role_of(word: &str) -> Option<Role>
    ensures none { IfNone result ((role : _) → word.now ≡ role_word role → ⊥) }
    ensures some { IfSome result (λ role. word.now ≡ role_word role) }
{
    match word {
        "client" => Some(Role::Client),
        "admin" => Some(Role::Admin),
        _ => None,
    }
}

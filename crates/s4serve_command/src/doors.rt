//! The doors at which sessions are asked for, each a word of the line.
ghost use Rattle.std.specs.Prelude.{◌≡◌, ◌≢◌, ◌<◌, ◌++◌, IfOk, IfErr, IfSome, IfNone, IsFalse, IsTrue, codes, length};
ghost use Rattle.clap.specs.Walk.{Text, rows_of, texts};
ghost use Rattle.clap.specs.Matches.{found_of};
ghost use Rattle.refused_lines.specs.Refusals.{IsOwn};
ghost use Rattle.s4serve_command.specs.CommandLine.{AreDoors, IsDoor, IsNoneOf, folders_of, texts_of};

use crate::{NoCommand, WordFault};
use clap::ArgMatches;
use s4_types::Role;
use s4d_command::reading::texts_in;
use std::alloc::Global;

/// Doors that a service has at most: each is read by a thread of its own.
pub const MOST_DOORS: usize = 4;

/// A door: ROLE=DIR.
#[derive(Clone, Copy)]
pub struct Door<'a> {
    /// What whoever comes by it may do.
    pub role: Role,
    /// Its folder, which has a name.
    pub folder: &'a str,
}

pub(crate) fn doors_in<'a>(
    alloc: Global,
    matches: &ArgMatches<'a>,
) -> Result<Vec<Door<'a>>, NoCommand<WordFault<'a>>>
    ensures asked { IfOk result (λ doors. AreDoors
        (texts_of (codes "door") (rows_of (found_of matches.now))) doors.items) }
    ensures usage { IfErr result (λ e. e ≢ NoCommand.NoMemory → (doors : _) → AreDoors
        (texts_of (codes "door") (rows_of (found_of matches.now))) doors → ⊥) }
    ensures own { IfErr result IsOwn }
{
    match texts_in(matches, "door") {
        Some(words) => doors_of(alloc, words),
        None => Err(NoCommand::Fault(WordFault::Unspelled)),
    }
}

fn doors_of<'a>(alloc: Global, words: &[&'a str]) -> Result<Vec<Door<'a>>, NoCommand<WordFault<'a>>>
    ensures asked { IfOk result (λ doors. AreDoors (texts words.now) doors.items) }
    ensures usage { IfErr result (λ e. e ≢ NoCommand.NoMemory → (doors : _)
        → AreDoors (texts words.now) doors → ⊥) }
    ensures own { IfErr result IsOwn }
{
    if words.is_empty() {
        return Err(NoCommand::Fault(WordFault::Unspelled));
    }
    if words.len() > MOST_DOORS {
        return Err(NoCommand::Fault(WordFault::TooManyDoors));
    }
    let mut doors = Vec::new(alloc);
    for word in words {
        let Some(door) = door_of(word) else {
            return Err(NoCommand::Fault(WordFault::NoDoor { word }));
        };
        if has_folder(doors.as_slice(), door.folder) {
            return Err(NoCommand::Fault(WordFault::DoorTwice {
                folder: door.folder,
            }));
        }
        if doors.push(door).is_err() {
            return Err(NoCommand::NoMemory);
        }
    }
    Ok(doors)
}

fn door_of<'a>(word: &'a str) -> Option<Door<'a>>
    ensures none { IfNone result ((door : _) → IsDoor word.entry.now door → ⊥) }
    ensures some { IfSome result (IsDoor word.entry.now) }
{
    match after(word, "client=") {
        Some(folder) => Some(Door {
            role: Role::Client,
            folder,
        }),
        None => administrators_door(word),
    }
}

// Whether one of the doors has this folder.
fn has_folder<'a>(doors: &[Door<'a>], folder: &str) -> bool
    ensures no { IsFalse result → IsNoneOf (folders_of doors.now) folder.now }
    ensures yes { IsTrue result → IsNoneOf (folders_of doors.now) folder.now → ⊥ }
{
    for door in doors {
        if door.folder == folder {
            return true;
        }
    }
    false
}

// The same of a word that is no client's door.
fn administrators_door<'a>(word: &'a str) -> Option<Door<'a>>
    ensures none { IfNone result ((folder : Text) → word.entry.now ≡ codes "admin=" ++ folder
        → 0 < length folder → ⊥) }
    ensures some { IfSome result (IsDoor word.entry.now) }
{
    match after(word, "admin=") {
        Some(folder) => Some(Door {
            role: Role::Admin,
            folder,
        }),
        None => None,
    }
}

// What comes after this beginning of a word, where something does.
fn after<'a>(word: &'a str, front: &str) -> Option<&'a str>
    ensures none { IfNone result ((rest : Text) → word.entry.now ≡ front.now ++ rest
        → 0 < length rest → ⊥) }
    ensures some { IfSome result (λ rest. word.entry.now ≡ front.now ++ rest.now) }
    ensures named { IfSome result (λ rest. 0 < length rest.now) }
{
    match word.strip_prefix(front) {
        Some(rest) if !rest.is_empty() => Some(rest),
        _ => None,
    }
}

//! The names of files beside an image.
ghost use Rattle.std.specs.Prelude.{◌≡◌, ◌≤◌, Decides, IfOk, option_map, string_bytes};
ghost use Rattle.image_commands.specs.Beside.{IsBesideName, IsEnding, IsNumbered, IsOfService};
ghost use Rattle.image_commands.specs.Beside.{command_path, made_path, part_path, path_left};
ghost use Rattle.image_commands.specs.Beside.{whole_path};

use crate::paths::path_beside;
use std::alloc::{AllocError, Global};

/// How many names of each kind there are for a file beside an image: one without a number, and
/// those with a number from 1 to 99.
pub const MOST_BESIDE: u32 = 100;

/// How many files a service may have left beside an image: by each of these numbers below
/// `MOST_BESIDE` a whole one, and by each further number a part of one.
pub const MOST_LEFT: u32 = 200;

/// The name of the file that a command writes in the folder of an image.
const OF_COMMANDS: &str = "s4d.new";

/// That of a service, before its files had the image's name. Nothing looks for those any more.
const OF_EARLIER_SERVICES: &str = "s4serve.new";

/// By which names files beside an image go.
#[derive(Clone, Copy)]
pub enum Names {
    /// `s4d.new` in the image's folder, since somebody is told of them while they are there.
    OfCommands,
    /// The image's name and `.s4serve.new`; and that with `.part`, before one is whole.
    OfServices,
}

/// Whether a file of this name, in the folder of the image of that name, is one beside it.
pub fn is_beside_name(name: &str, image: &str) -> bool
    ensures { Decides result (IsBesideName image.now name.now) }
{
    is_numbered(name, OF_COMMANDS)
        || is_numbered(name, OF_EARLIER_SERVICES)
        || is_of_service(name, image)
}

// Whether it is one that a service writes beside the image of that name.
fn is_of_service(name: &str, image: &str) -> bool
    ensures { Decides result (IsOfService image.now name.now) }
{
    match name.strip_prefix(image) {
        Some(ending) => {
            is_numbered(ending, ".s4serve.new") || is_numbered(ending, ".s4serve.new.part")
        }
        None => false,
    }
}

// Whether a name is this one, alone or with a number from 1 to 99 after it.
fn is_numbered(name: &str, front: &str) -> bool
    ensures { Decides result (IsNumbered front.now name.now) }
{
    match name.strip_prefix(front) {
        Some(ending) => is_ending(ending.as_bytes()),
        None => false,
    }
}

// Whether it is what a number below `MOST_BESIDE` adds to a name.
fn is_ending(ending: &[u8]) -> bool
    ensures { Decides result (IsEnding ending.now) }
{
    match ending.len() {
        0 => true,
        2 => ending[0] == b'.' && is_digit(ending[1], b'1'),
        3 => ending[0] == b'.' && is_digit(ending[1], b'1') && is_digit(ending[2], b'0'),
        _ => false,
    }
}

// Whether a byte is a digit from this one on.
fn is_digit(byte: u8, least: u8) -> bool
    ensures { Decides result ((least ≤ byte) × (byte ≤ 57)) }
{
    least <= byte && byte <= b'9'
}

/// The path of that number at which a file is made that is to take the place of the image at a
/// path.
pub fn beside_path(
    alloc: Global,
    image: &str,
    names: Names,
    number: u32,
) -> Result<String, AllocError>
    ensures { IfOk result (λ path. string_bytes path ≡ made_path names image.now number) }
{
    match names {
        Names::OfCommands => command_path(alloc, image, number),
        Names::OfServices => part_path(alloc, image, number),
    }
}

/// The path of that number at which one may have been left. None where there are fewer names.
pub fn left_path(
    alloc: Global,
    image: &str,
    names: Names,
    number: u32,
) -> Result<Option<String>, AllocError>
    ensures { IfOk result
        (λ path. option_map string_bytes path ≡ path_left names image.now number) }
{
    let path = match names {
        Names::OfCommands if number >= MOST_BESIDE => return Ok(None),
        Names::OfCommands => command_path(alloc, image, number)?,
        Names::OfServices if number >= MOST_BESIDE => {
            part_path(alloc, image, number - MOST_BESIDE)?
        }
        Names::OfServices => whole_path(alloc, image, number)?,
    };
    Ok(Some(path))
}

// The path of that number for the file that a command writes.
fn command_path(alloc: Global, image: &str, number: u32) -> Result<String, AllocError>
    ensures { IfOk result (λ path. string_bytes path ≡ command_path image.now number) }
{
    match number {
        0 => path_beside(alloc, image, OF_COMMANDS),
        _ => {
            let name = format!(in alloc; "{OF_COMMANDS}.{number}")?;
            path_beside(alloc, image, name.as_str())
        }
    }
}

/// The path of that number for a whole file that a service leaves beside the image at a path.
pub fn whole_path(alloc: Global, image: &str, number: u32) -> Result<String, AllocError>
    ensures { IfOk result (λ path. string_bytes path ≡ whole_path image.now number) }
{
    match number {
        0 => format!(in alloc; "{image}.s4serve.new"),
        _ => format!(in alloc; "{image}.s4serve.new.{number}"),
    }
}

/// The same of a file that a service writes, before it is whole.
pub fn part_path(alloc: Global, image: &str, number: u32) -> Result<String, AllocError>
    ensures { IfOk result (λ path. string_bytes path ≡ part_path image.now number) }
{
    match number {
        0 => format!(in alloc; "{image}.s4serve.new.part"),
        _ => format!(in alloc; "{image}.s4serve.new.part.{number}"),
    }
}

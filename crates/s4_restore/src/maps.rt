//! What an earlier restore printed of objects that it made anew: which numbers are their stand-ins.
ghost use Rattle.std.specs.Prelude.{◌≡◌, ◌≢◌, ◌++◌, ◌∷◌, [], false, codes, string_bytes, IfOk};
ghost use Rattle.std.specs.Prelude.{IsTrue, OnOk};
ghost use Rattle.serde_json.specs.View.{view};
ghost use Rattle.history_restore.specs.Aims.{has_stand_in};
ghost use Rattle.restore_orders.specs.Lines.{remade_data};
ghost use Rattle.s4_restore.specs.Maps.{AreApart, AreSaid, IsMapIn, IsMapOf, IsMapText, IsSaidBy};
ghost use Rattle.s4_restore.specs.Maps.{Takes, anew_json, anew_line, is_given_to, last_said};
ghost use Rattle.s4_restore.specs.Maps.{lines_of};

use history_restore::StandIn;
use image_commands::{Fault, Files, read_bytes};
use restore_orders::remade_value;
use s4_types::{ObjectId, Refusal};
use std::alloc::{AllocError, Global};
use std::str;
use thiserror::Error;

/// Why what an earlier restore printed can't be taken. Each prints what is wrong and what can be
/// done, on one line.
#[derive(Debug, Drop, Error)]
pub enum MapFault {
    /// The file can't be read, or is longer than any restore's output.
    #[error("cannot be read; give the path of a file that has what an earlier restore printed")]
    CannotRead,
    /// The file is no text in UTF-8.
    #[error("is no text; give a file that has what an earlier restore printed")]
    NoText,
    /// A line, counted from 1 on, is of an object that was made anew, and isn't as a restore prints
    /// it.
    #[error("line {line} is not as a restore prints it of an object that was made anew")]
    BadLine {
        line: u64,
    },
    /// An object would be its own stand-in.
    #[error("object {object} cannot be made anew as itself")]
    Itself {
        object: u64,
    },
    /// Two objects would have one stand-in.
    #[error("objects {first} and {second} cannot both be made anew as {number}")]
    Shared {
        first: u64,
        second: u64,
        number: u64,
    },
    /// A growth of memory was refused.
    #[error("a growth of memory was refused; try again with more memory")]
    NoMemory,
}

impl From<AllocError> for MapFault {
    fn from(_error: AllocError) -> Self {
        MapFault::NoMemory
    }
}

/// The stand-ins that the file has which is named, those of none where none is named. Of each
/// object the last line counts; lines that aren't of objects that were made anew are passed over.
pub fn read_map<F: Files>(
    alloc: Global,
    files: &F,
    path: Option<&str>,
) -> Result<Vec<StandIn>, MapFault>
    ensures map { IfOk result
        (λ stand_ins. IsMapIn (F.contents files.now) path.entry stand_ins.items) }
{
    match path {
        None => Ok(Vec::new(alloc)),
        Some(path) => map_in(alloc, files, path),
    }
}

fn map_in<F: Files>(alloc: Global, files: &F, path: &str) -> Result<Vec<StandIn>, MapFault>
    ensures map { IfOk result
        (λ stand_ins. IsMapOf (F.contents files.now path.now) stand_ins.items) }
{
    let bytes = match read_bytes(alloc, files, path) {
        Ok(bytes) => bytes,
        Err(fault) => return Err(cause_of(&fault)),
    };
    match str::from_utf8(bytes.as_slice()) {
        Ok(text) => map_of(alloc, text),
        Err(_) => Err(MapFault::NoText),
    }
}

fn cause_of(fault: &Fault<'_>) -> MapFault {
    match fault {
        Fault::Refused(Refusal::NoMemory) => MapFault::NoMemory,
        _ => MapFault::CannotRead,
    }
}

// The stand-ins that a text has.
fn map_of(alloc: Global, text: &str) -> Result<Vec<StandIn>, MapFault>
    ensures map { IfOk result (λ stand_ins. IsMapText text.now stand_ins.items) }
{
    let said = said_in(alloc, text)?;
    let stand_ins = last_said(alloc, said.as_slice())?;
    check_apart(stand_ins.as_slice())?;
    Ok(stand_ins)
}

// What the lines of a text say of objects that were made anew, in order.
fn said_in(alloc: Global, text: &str) -> Result<Vec<StandIn>, MapFault>
    ensures said { IfOk result (λ said. AreSaid (lines_of text.now) said.items) }
{
    let mut said = Vec::new(alloc);
    let mut rest = text;
    let mut line_number: u64 = 1;
    while let Some((line, after)) = rest.split_once('\n') {
        take_line(alloc, line, line_number, &mut said)?;
        line_number = line_number.saturating_add(1);
        rest = after;
    }
    take_line(alloc, rest, line_number, &mut said)?;
    Ok(said)
}

// Adds what a line says, if it is of an object that was made anew.
fn take_line(
    alloc: Global,
    line: &str,
    line_number: u64,
    said: &mut Vec<StandIn>,
) -> Result<(), MapFault>
    ensures takes { OnOk result (Takes line.now said.old.items said.new.items) }
{
    match said_by(alloc, line, line_number)? {
        None => Ok(()),
        Some(stand_in) => match said.push(stand_in) {
            Ok(()) => Ok(()),
            Err(_) => Err(MapFault::NoMemory),
        },
    }
}

// What a line says, if it is of an object that was made anew.
fn said_by(alloc: Global, line: &str, line_number: u64) -> Result<Option<StandIn>, MapFault>
    ensures said { IfOk result (IsSaidBy line.now) }
{
    if !line.contains("made anew") {
        return Ok(None);
    }
    let (first, second) = numbers_in(line);
    if is_line_of(alloc, line, first, second)? {
        return Ok(Some(stand_in(first, second)));
    }
    if is_json_of(alloc, line, second, first)? {
        return Ok(Some(stand_in(second, first)));
    }
    Err(MapFault::BadLine { line: line_number })
}

fn stand_in(object: u64, number: u64) -> StandIn
    ensures { result ≡ record { object = object; number = number } }
{
    StandIn {
        object: ObjectId::new(object),
        number: ObjectId::new(number),
    }
}

// The line of an object that was made anew.
fn anew_text(alloc: Global, object: u64, number: u64) -> Result<String, AllocError>
    ensures { IfOk result (λ text. string_bytes text ≡ anew_line (record { object = object; number = number })) }
{
    format!(in alloc; "{object:10}  made anew as {number}")
}

// Whether this is that line.
fn is_line_of(alloc: Global, line: &str, object: u64, number: u64) -> Result<bool, AllocError>
    ensures { IfOk result (λ is. IsTrue is → line.now ≡ anew_line (record { object = object; number = number })) }
{
    let printed = anew_text(alloc, object, number)?;
    Ok(printed.as_str() == line)
}

// Whether this is its line for programs.
fn is_json_of(alloc: Global, line: &str, object: u64, number: u64) -> Result<bool, AllocError>
    ensures { IfOk result (λ is. IsTrue is → line.now ≡ anew_json (record { object = object; number = number })) }
{
    let value = remade_value(alloc, object, number)?;
    let printed = value.to_string(alloc)?;
    Ok(printed.as_str() == line)
}

// The first two numbers in a line. What is made of them is compared with the line: so it doesn't
// matter what they are where there are none, or where one is too great.
fn numbers_in(line: &str) -> (u64, u64) {
    let (mut first, mut second) = (0, 0);
    let mut runs: u8 = 0;
    let mut is_within = false;
    for byte in line.as_bytes() {
        if !byte.is_ascii_digit() {
            is_within = false;
            continue;
        }
        if !is_within {
            runs = runs.saturating_add(1);
        }
        is_within = true;
        match runs {
            1 => first = with_digit(first, *byte),
            2 => second = with_digit(second, *byte),
            _ => {}
        }
    }
    (first, second)
}

fn with_digit(number: u64, digit: u8) -> u64 {
    number
        .wrapping_mul(10)
        .wrapping_add(u64::from(digit.wrapping_sub(b'0')))
}

// Whether something is said of an object.
fn is_said_of(said: &[StandIn], object: ObjectId) -> bool
    ensures { result ≡ has_stand_in said.now object }
{
    said.iter().any(|one| one.object == object)
}

// Whether a number is that of a stand-in.
fn is_given_to(stand_ins: &[StandIn], number: ObjectId) -> bool
    ensures { result ≡ is_given_to stand_ins.now number }
{
    stand_ins.iter().any(|one| one.number == number)
}

// The last that is said of each object.
fn last_said(alloc: Global, said: &[StandIn]) -> Result<Vec<StandIn>, AllocError>
    ensures { IfOk result (λ last. last.items ≡ last_said said.now) }
{
    let mut last = Vec::new(alloc);
    let mut left = said;
    while let [one, rest @ ..] = left {
        if !is_said_of(rest, one.object) {
            last.push(*one)?;
        }
        left = rest;
    }
    Ok(last)
}

// An error where an object would be its own stand-in, or two would have one.
fn check_apart(stand_ins: &[StandIn]) -> Result<(), MapFault>
    ensures apart { OnOk result (AreApart stand_ins.now) }
{
    let mut left = stand_ins;
    while let [one, rest @ ..] = left {
        if one.object == one.number {
            let object = one.object.number();
            return Err(MapFault::Itself { object });
        }
        if is_given_to(rest, one.number) {
            return Err(shared(one, rest));
        }
        left = rest;
    }
    Ok(())
}

// The fault of two objects that would have one stand-in.
fn shared(one: &StandIn, rest: &[StandIn]) -> MapFault {
    let second = match rest.iter().find(|other| other.number == one.number) {
        Some(other) => other.object.number(),
        None => 0,
    };
    MapFault::Shared {
        first: one.object.number(),
        second,
        number: one.number.number(),
    }
}

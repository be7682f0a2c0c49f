//! `verify`, and how each command reads an image.
ghost use Rattle.std.specs.Prelude.{◌≡◌, ℕ, ◌+◌, ◌++◌, ◌^◌, ◌<◌, ◌≤◌, List, Option, Some};
ghost use Rattle.std.specs.Prelude.{IfOk, IfSome, IfNone, IfErr, IsFalse, IsTrue, OnOk, [], length};
ghost use Rattle.std.specs.Prelude.{string_bytes};
ghost use Rattle.std.specs.Io.{StartsWith};
ghost use Rattle.std.specs.Io.KnownBytes.{Appends, Consumes, IsAtEnd};
ghost use Rattle.s4_types.specs.declared.limits.TheConstants.{MOST_FRAMES};
ghost use Rattle.s4_types.specs.declared.refusals.Cause.{Cause as Found};
ghost use Rattle.image_parts.specs.Causes.{FirstSplitCause};
ghost use Rattle.image_commands.specs.Faults.{SaysOverlong, SaysUnread, SaysUnreadable};
ghost use Rattle.image_commands.specs.Faults.{SaysUnsplit, SaysUnverified, SaysUnwritten};
ghost use Rattle.image_commands.specs.Files.{AreKnown};
ghost use Rattle.image_commands.specs.Leaving.{HasClock, IsNoImage};
ghost use Rattle.image_commands.specs.Verifying.{number_line, image_line, IsUnsplit, IsVerified};
ghost use Rattle.image_commands.specs.Verifying.{IsOverlong, TellsImage};
ghost use Rattle.image_commands.specs.Verifying.{longest_without_audit, mark_asked};

use crate::faults::{Fault, reading};
use crate::files::Files;
use crate::obstacles::Obstacle;
use crate::saving::longest_image;
use image_parts::{ImageMark, LONGEST_IMAGE, earlier_version, longest_with, longest_with_by};
use s4_types::limits::MOST_FRAMES;
use s4_types::{Cause, Moment, Refusal};
use s4d_command::Verify;
use serving::Sink;
use std::alloc::{AllocError, Global};
use std::io::{self, Read};
use std::thread::Threads;
use verifier::{Image, verify};

/// How much of a file is looked at first: as many bytes as a header and a digest have, and fewer
/// than any image has.
const FRONT_BYTES: usize = 544;

/// How many bytes are asked for at once.
const PIECE_BYTES: usize = 4096;

/// Which images a command reads.
#[derive(Clone, Copy)]
pub enum Asked {
    /// Those that are written now.
    Present,
    /// Those of earlier versions, by the mark that they begin with.
    Earlier,
}

impl Asked {
    /// The mark that such an image has which begins with these bytes.
    fn mark(self, front: &[u8]) -> ImageMark
        requires { 8 ≤ length front.now }
        ensures { result ≡ mark_asked self front.now }
    {
        match self {
            Asked::Present => ImageMark::Third,
            Asked::Earlier => ImageMark::Earlier(earlier_version(front)),
        }
    }
}

/// The image in a file, which was verified. What is damaged by the length that its front gives
/// isn't read further.
pub fn read_image<'a, T: Threads, F: Files>(
    rt: &T,
    alloc: Global,
    files: &F,
    path: &'a str,
) -> Result<Image, Fault<'a>>
    ensures verified { IfOk result (IsVerified (F.contents files.now path.now)) }
    ensures fault { IfErr result (SaysUnread (F.contents files.now path.now) path.now) }
{
    let bytes = match read_whole(alloc, files, Asked::Present, path) {
        Ok(bytes) => bytes,
        Err(fault) => return Err(fault),
    };
    match verify(rt, alloc, bytes.as_slice()) {
        Ok(image) => Ok(image),
        Err(refusal) => Err(Fault::Refused(refusal)),
    }
}

/// Whether what a reader gives was read, and is no image.
pub fn is_damaged<T: Threads, R: Read>(rt: &T, alloc: Global, reader: &mut R) -> bool
    ensures damaged { IsTrue result → IsNoImage (R.remaining reader.old) }
{
    match clock_in(rt, alloc, reader) {
        Ok(None) => true,
        Ok(Some(_)) => false,
        Err(_) => false,
    }
}

/// The clock of the image that a reader gives; none where it gives no image. An obstacle where that
/// isn't known: it can't be read, or memory is short.
pub fn clock_in<T: Threads, R: Read>(
    rt: &T,
    alloc: Global,
    reader: &mut R,
) -> Result<Option<Moment>, Obstacle>
    ensures clock { IfOk result (λ clock. HasClock (R.remaining reader.old) clock) }
{
    match read_bounded(alloc, Asked::Present, reader) {
        Ok(Ok(bytes)) => clock_of(rt, alloc, bytes.as_slice()),
        Ok(Err(_)) => Ok(None),
        Err(error) => Err(Obstacle::of_reading(error.kind())),
    }
}

// The clock of the image that these bytes are.
fn clock_of<T: Threads>(rt: &T, alloc: Global, bytes: &[u8]) -> Result<Option<Moment>, Obstacle>
    ensures clock { IfOk result
        (λ clock. (known : Option (List ℕ)) → AreKnown known bytes.now → HasClock known clock) }
{
    match verify(rt, alloc, bytes) {
        Ok(image) => {
            let clock = image.clock();
            drop(image);
            Ok(Some(clock))
        }
        Err(Refusal::Damaged(_)) => Ok(None),
        Err(_) => Err(Obstacle::NoMemory),
    }
}

/// All bytes of a file, which may be an image that is asked for. What is damaged by the length that
/// its front gives isn't read further.
pub fn read_whole<'a, F: Files>(
    alloc: Global,
    files: &F,
    asked: Asked,
    path: &'a str,
) -> Result<Vec<u8>, Fault<'a>>
    ensures bytes { IfOk result (λ bytes. AreKnown (F.contents files.now path.now) bytes.items) }
    ensures fault { IfErr result
        (SaysUnsplit asked (F.contents files.now path.now) path.now) }
{
    let mut reader = match files.open(path) {
        Ok(reader) => reader,
        Err(error) => return Err(unread(error, path)),
    };
    match read_bounded(alloc, asked, &mut reader) {
        Ok(Ok(bytes)) => Ok(bytes),
        Ok(Err(cause)) => Err(Fault::Refused(Refusal::Damaged(cause))),
        Err(error) => Err(unread(error, path)),
    }
}

/// All bytes of a file, whatever they are. Damaged by its length where it has more than the longest
/// image has that begins as it does, and more than any image without audit rows: it isn't read to
/// its end then, and is no image.
pub fn read_bytes<'a, F: Files>(
    alloc: Global,
    files: &F,
    path: &'a str,
) -> Result<Vec<u8>, Fault<'a>>
    ensures bytes { IfOk result (λ bytes. AreKnown (F.contents files.now path.now) bytes.items) }
    ensures fault { IfErr result (SaysOverlong (F.contents files.now path.now) path.now) }
{
    let mut reader = match files.open(path) {
        Ok(reader) => reader,
        Err(error) => return Err(unread(error, path)),
    };
    match read_shorter(alloc, &mut reader) {
        Ok(Some(bytes)) => Ok(bytes),
        Ok(None) => Err(Fault::Refused(Refusal::Damaged(Cause::Length))),
        Err(error) => Err(unread(error, path)),
    }
}

// Why a file can't be read whose reader failed, or that was not opened.
fn unread<'a>(error: io::Error, path: &'a str) -> Fault<'a>
    ensures { SaysUnreadable path.now result }
{
    reading(error.kind(), path)
}

// All bytes of a reader; none where they are more than `most_with` gives of their front: then one
// more than that is read.
fn read_shorter<R: Read>(alloc: Global, reader: &mut R) -> io::Result<Option<Vec<u8>>>
    ensures bytes { IfOk result
        (λ read. IfSome read (λ bytes. AreKnown (R.remaining reader.old) bytes.items)) }
    ensures overlong { IfOk result (λ read. IfNone read (IsOverlong (R.remaining reader.old))) }
{
    let mut bytes = Vec::new(alloc);
    match add_shorter(reader, &mut bytes)? {
        true => Ok(Some(bytes)),
        false => Ok(None),
    }
}

// Adds them to none. Whether they are all.
fn add_shorter<R: Read>(reader: &mut R, bytes: &mut Vec<u8>) -> io::Result<bool>
    requires none { bytes.old.items ≡ [] }
    ensures bytes { IfOk result
        (λ all. IsTrue all → AreKnown (R.remaining reader.old) bytes.new.items) }
    ensures overlong { IfOk result (λ all. IsFalse all → IsOverlong (R.remaining reader.old)) }
{
    read_until(reader, bytes, FRONT_BYTES)?;
    if bytes.len() < FRONT_BYTES {
        return Ok(true);
    }
    let most = most_with(bytes.as_slice());
    read_to_end(reader, bytes, most)
}

// The most bytes that are read: as many as the longest image without audit rows has, or as one with
// this header may have where that is more.
fn most_with(front: &[u8]) -> usize
    requires long { 544 ≤ length front.now }
    ensures below { result ≤ 2 ^ 62 }
    ensures least { longest_without_audit MOST_FRAMES ≤ result }
    ensures longer { result < 2 ^ 62 → (rest : List ℕ)
        → result < length (front.now ++ rest)
        → ((cause : Found) × FirstSplitCause (front.now ++ rest) (Some cause)) }
{
    let least = longest_image(MOST_FRAMES as u16);
    match longest_with(front) {
        Some(longest) if longest > least => longest,
        _ => least,
    }
}

// All bytes of a reader. Where they are too few or have no header that is asked for in front, or
// are more than an image with that header can have, why they are no such image: then no more of
// them is read, since they may be many.
fn read_bounded<R: Read>(
    alloc: Global,
    asked: Asked,
    reader: &mut R,
) -> io::Result<Result<Vec<u8>, Cause>>
    ensures bytes { IfOk result
        (λ read. IfOk read (λ bytes. AreKnown (R.remaining reader.old) bytes.items)) }
    ensures damaged { IfOk result
        (λ read. IfErr read (IsUnsplit asked (R.remaining reader.old))) }
{
    let mut bytes = Vec::new(alloc);
    match add_bounded(asked, reader, &mut bytes)? {
        None => Ok(Ok(bytes)),
        Some(cause) => Ok(Err(cause)),
    }
}

// Adds them to none. The cause where they are no such image.
fn add_bounded<R: Read>(
    asked: Asked,
    reader: &mut R,
    bytes: &mut Vec<u8>,
) -> io::Result<Option<Cause>>
    requires none { bytes.old.items ≡ [] }
    ensures bytes { IfOk result
        (λ why. IfNone why (AreKnown (R.remaining reader.old) bytes.new.items)) }
    ensures damaged { IfOk result
        (λ why. IfSome why (IsUnsplit asked (R.remaining reader.old))) }
{
    read_until(reader, bytes, FRONT_BYTES)?;
    if bytes.len() < FRONT_BYTES {
        return Ok(Some(Cause::Length));
    }
    let mark = asked.mark(bytes.as_slice());
    let Some(longest) = longest_with_by(mark, bytes.as_slice()) else {
        return Ok(Some(Cause::Header));
    };
    let is_all = read_to_end(reader, bytes, longest)?;
    if !is_all {
        return Ok(Some(Cause::Length));
    }
    Ok(None)
}

// Adds what a reader gives, and says whether that is all. Not so where there are more bytes than
// the most: then one more than that is read.
fn read_to_end<R: Read>(reader: &mut R, bytes: &mut Vec<u8>, most: usize) -> io::Result<bool>
    requires { most ≤ 2 ^ 62 }
    ensures read { OnOk result
        ((known : Option (List ℕ))
        → Consumes known (R.remaining reader.old) bytes.old.items
        → Consumes known (R.remaining reader.new) bytes.new.items) }
    ensures front { OnOk result (StartsWith bytes.new.items bytes.old.items) }
    ensures whole { IfOk result (λ all. IsTrue all → IsAtEnd (R.remaining reader.new)) }
    ensures more { IfOk result
        (λ all. IsFalse all → (most < 2 ^ 62) × (most < length bytes.new.items)) }
{
    read_until(reader, bytes, most + 1)?;
    if bytes.len() <= most {
        return Ok(true);
    }
    // No memory has so many bytes; a length that is told is less.
    match most == LONGEST_IMAGE {
        true => Err(io::Error::from(io::ErrorKind::OutOfMemory)),
        false => Ok(false),
    }
}

// Adds what a reader gives until there are this many bytes, or it has no more.
fn read_until<R: Read>(reader: &mut R, bytes: &mut Vec<u8>, most: usize) -> io::Result<()>
    ensures read { OnOk result
        ((known : Option (List ℕ))
        → Consumes known (R.remaining reader.old) bytes.old.items
        → Consumes known (R.remaining reader.new) bytes.new.items) }
    ensures front { OnOk result (StartsWith bytes.new.items bytes.old.items) }
    ensures whole { OnOk result (length bytes.new.items < most → IsAtEnd (R.remaining reader.new)) }
{
    let mut piece = [0; PIECE_BYTES];
    for _ in 0..u64::MAX {
        let wanted = PIECE_BYTES.min(most.saturating_sub(bytes.len()));
        if wanted == 0 {
            return Ok(());
        }
        let part = &mut piece[..wanted];
        match reader.read(part) {
            Ok(0) => return Ok(()),
            Ok(count) => bytes.extend_from_slice(&part[..count])?,
            Err(error) if error.kind() == io::ErrorKind::Interrupted => {}
            Err(error) => return Err(error),
        }
    }
    Err(io::Error::from(io::ErrorKind::Interrupted))
}

/// Writes the line of an image's numbers, where the file has one.
pub fn verify_file<'a, T: Threads, F: Files, W: Sink>(
    rt: &T,
    alloc: Global,
    files: &F,
    asked: Verify<'a>,
    writer: &mut W,
) -> Result<(), Fault<'a>>
    requires writer { W.failures writer.old + 1 < 2 ^ 64 }
    ensures line { OnOk result
        (TellsImage (F.contents files.now asked.entry.image.now) (W.passed writer.old)
        (W.passed writer.new)) }
    ensures fault { IfErr result
        (SaysUnverified (F.contents files.now asked.entry.image.now) asked.entry.image.now
        (W.failures writer.old) (W.failures writer.new)) }
{
    match read_image(rt, alloc, files, asked.image) {
        Ok(verified) => {
            let written = write_image_numbers(alloc, &verified, writer);
            drop(verified);
            written
        }
        Err(fault) => Err(fault),
    }
}

// Writes the line of an image's numbers.
fn write_image_numbers<'a, W: Sink>(
    alloc: Global,
    image: &Image,
    writer: &mut W,
) -> Result<(), Fault<'a>>
    requires writer { W.failures writer.old + 1 < 2 ^ 64 }
    ensures line { OnOk result
        (Appends (W.passed writer.old) (W.passed writer.new) (image_line image.now)) }
    ensures fault { IfErr result
        (λ fault. (known : Option (List ℕ)) (path : List ℕ)
        → SaysUnverified known path (W.failures writer.old) (W.failures writer.new) fault) }
{
    let line = number_line(
        alloc,
        image.frames(),
        image.objects(),
        image.clock(),
        image.window(),
        image.floor(),
    );
    match line {
        Ok(line) => write_out(writer, line.as_bytes()),
        Err(_) => Err(Fault::Refused(Refusal::NoMemory)),
    }
}

/// The line of the numbers of an image.
pub fn number_line(
    alloc: Global,
    frames: u16,
    objects: usize,
    clock: Moment,
    window: u64,
    floor: Moment,
) -> Result<String, AllocError>
    ensures { IfOk result
        (λ line. string_bytes line ≡ number_line frames objects clock window floor) }
{
    let (clock, floor) = (clock.number(), floor.number());
    format!(in alloc;
        "ok frames={frames} objects={objects} clock={clock} window={window} floor={floor}\n"
    )
}

/// Writes the bytes.
pub fn write_out<'a, W: Sink>(writer: &mut W, bytes: &[u8]) -> Result<(), Fault<'a>>
    requires writer { W.failures writer.old + 1 < 2 ^ 64 }
    ensures bytes { OnOk result (Appends (W.passed writer.old) (W.passed writer.new) bytes.now) }
    ensures failures { OnOk result (W.failures writer.new ≡ W.failures writer.old) }
    ensures fault { IfErr result (SaysUnwritten (W.failures writer.old) (W.failures writer.new)) }
{
    match writer.put(bytes) {
        Ok(()) => Ok(()),
        Err(_) => Err(Fault::WriteFailed),
    }
}

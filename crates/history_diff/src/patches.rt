//! The bytes that differ, before and after, as lines of hex.
ghost use Rattle.std.specs.Prelude.{◌≡◌, ◌+◌, ◌*◌, ◌^◌, ◌<◌, ◌≤◌, length, IfOk, OnOk, string_bytes};
ghost use Rattle.std.specs.List.{flat_map};
ghost use Rattle.std.specs.Io.KnownBytes.{Appends};
ghost use Rattle.history_diff.specs.Patches.{sign_text, bytes_in, piece_at, piece_line, side_lines};
ghost use Rattle.history_diff.specs.Patches.{range_lines, patch_lines};

use crate::faults::Stop;
use crate::output::write_out;
use crate::ranges::ByteRange;
use serving::Sink;
use std::alloc::{AllocError, Global};

/// Bytes on a line of a patch, at most.
pub const PATCH_LINE_BYTES: usize = 32;

/// Whose bytes a line has.
#[derive(Clone, Copy)]
pub enum Side {
    Before,
    After,
}

fn sign_text(side: Side) -> &'static str
    ensures { result.now ≡ sign_text side }
{
    match side {
        Side::Before => "-",
        Side::After => "+",
    }
}

// Where a range ends in a list of this many bytes.
fn end_in(range: ByteRange, count: usize) -> usize
    ensures short { range.last < count → result ≡ range.last + 1 }
    ensures whole { count ≤ range.last → result ≡ count }
    ensures bound { result ≤ count }
{
    if range.last < count {
        return range.last + 1;
    }
    count
}

/// The bytes that a list has in a range.
pub(crate) fn bytes_in(range: ByteRange, bytes: &[u8]) -> &[u8]
    ensures { result.now ≡ bytes_in range bytes.now }
{
    let end = end_in(range, bytes.len());
    let start = range.first.min(end);
    &bytes[start..end]
}

// The bytes of a line, of those that a range has.
fn piece_at(bytes: &[u8], index: usize) -> &[u8]
    requires { PATCH_LINE_BYTES * index < length bytes.now }
    ensures { result.now ≡ piece_at bytes.now index }
{
    let start = PATCH_LINE_BYTES * index;
    let end = bytes.len().min(start + PATCH_LINE_BYTES);
    &bytes[start..end]
}

fn piece_line(
    alloc: Global,
    side: Side,
    position: usize,
    piece: &[u8],
) -> Result<String, AllocError>
    ensures { IfOk result (λ line. string_bytes line ≡ piece_line side position piece.now) }
{
    let sign = sign_text(side);
    let digits = hex::encode(alloc, piece)?;
    format!(in alloc; "{sign} {position} {digits}\n")
}

// Writes the line of some bytes.
fn write_piece<W: Sink>(
    alloc: Global,
    side: Side,
    position: usize,
    piece: &[u8],
    writer: &mut W,
) -> Result<(), Stop>
    requires writer { W.failures writer.old + 1 < 2 ^ 64 }
    ensures line { OnOk result
        (Appends (W.passed writer.old) (W.passed writer.new) (piece_line side position piece.now)) }
    ensures failures { OnOk result (W.failures writer.new ≡ W.failures writer.old) }
{
    let line = match piece_line(alloc, side, position, piece) {
        Ok(line) => line,
        Err(_) => return Err(Stop::NoMemory),
    };
    write_out(writer, line.as_bytes())
}

// Writes the lines of bytes that are from a position on.
fn write_pieces<W: Sink>(
    alloc: Global,
    side: Side,
    first: usize,
    bytes: &[u8],
    writer: &mut W,
) -> Result<(), Stop>
    requires room { first + length bytes.now < 2 ^ 64 }
    requires writer { W.failures writer.old + 1 < 2 ^ 64 }
    ensures lines { OnOk result
        (Appends (W.passed writer.old) (W.passed writer.new) (side_lines side first bytes.now)) }
    ensures failures { OnOk result (W.failures writer.new ≡ W.failures writer.old) }
{
    for index in 0..bytes.len().div_ceil(PATCH_LINE_BYTES) {
        let piece = piece_at(bytes, index);
        let position = first + PATCH_LINE_BYTES * index;
        write_piece(alloc, side, position, piece, writer)?;
    }
    Ok(())
}

// Writes the lines of the bytes that a version has in a range.
fn write_side<W: Sink>(
    alloc: Global,
    side: Side,
    range: ByteRange,
    bytes: &[u8],
    writer: &mut W,
) -> Result<(), Stop>
    requires writer { W.failures writer.old + 1 < 2 ^ 64 }
    ensures lines { OnOk result
        (Appends (W.passed writer.old) (W.passed writer.new)
        (side_lines side range.first (bytes_in range bytes.now))) }
    ensures failures { OnOk result (W.failures writer.new ≡ W.failures writer.old) }
{
    let own = bytes_in(range, bytes);
    write_pieces(alloc, side, range.first, own, writer)
}

// Writes the lines of a range: of the bytes before, and then of those after.
fn write_range<W: Sink>(
    alloc: Global,
    before: &[u8],
    after: &[u8],
    range: ByteRange,
    writer: &mut W,
) -> Result<(), Stop>
    requires writer { W.failures writer.old + 1 < 2 ^ 64 }
    ensures lines { OnOk result
        (Appends (W.passed writer.old) (W.passed writer.new)
        (range_lines before.now after.now range)) }
    ensures failures { OnOk result (W.failures writer.new ≡ W.failures writer.old) }
{
    match write_side(alloc, Side::Before, range, before, writer) {
        Ok(()) => write_side(alloc, Side::After, range, after, writer),
        Err(stop) => Err(stop),
    }
}

/// Writes the bytes of each range, as two lists of bytes have them: in lines of `PATCH_LINE_BYTES`
/// at most, each with the position of its first byte, those before after a `-` and those after
/// after a `+`.
pub fn write_patch<W: Sink>(
    alloc: Global,
    before: &[u8],
    after: &[u8],
    ranges: &[ByteRange],
    writer: &mut W,
) -> Result<(), Stop>
    requires writer { W.failures writer.old + 1 < 2 ^ 64 }
    ensures lines { OnOk result
        (Appends (W.passed writer.old) (W.passed writer.new)
        (patch_lines before.now after.now ranges.now)) }
    ensures failures { OnOk result (W.failures writer.new ≡ W.failures writer.old) }
{
    for range in ranges {
        write_range(alloc, before, after, *range, writer)?;
    }
    Ok(())
}

//! Words of a script: numbers and bytes.
use crate::text::{Text, is_text};
use s4_types::Refusal;
use std::alloc::Global;

/// The parts of bytes between the separators that stand outside of quotes, but for those that are
/// empty.
pub(crate) fn parts_of<'a>(
    alloc: Global,
    bytes: &'a [u8],
    separator: u8,
) -> Result<Vec<&'a [u8]>, Refusal> {
    let mut parts = Vec::new(alloc);
    let mut begin = 0;
    let mut is_quoted = false;
    for place in 0..bytes.len() {
        let byte = bytes[place];
        is_quoted = is_quoted != (byte == b'"');
        if byte == separator && !is_quoted {
            push_part(&mut parts, piece(bytes, begin, place))?;
            begin = place + 1;
        }
    }
    push_part(&mut parts, piece(bytes, begin, bytes.len()))?;
    Ok(parts)
}

fn push_part<'a>(parts: &mut Vec<&'a [u8]>, part: &'a [u8]) -> Result<(), Refusal> {
    if !part.is_empty() {
        parts.push(part)?;
    }
    Ok(())
}

/// The bytes from a place to before another; none where these are no places.
pub(crate) fn piece(bytes: &[u8], begin: usize, end: usize) -> &[u8] {
    bytes.get(begin..end).unwrap_or(&[])
}

/// The byte at a place; 0 where there is none.
pub(crate) fn byte_at(bytes: &[u8], place: usize) -> u8 {
    if place < bytes.len() { bytes[place] } else { 0 }
}

/// The decimal number that a word encodes.
pub(crate) fn count_of(word: &[u8]) -> Option<u64> {
    count_from(word, 0)
}

/// The decimal number that a word encodes from a place on.
pub(crate) fn count_from(word: &[u8], begin: usize) -> Option<u64> {
    if begin >= word.len() {
        return None;
    }
    let mut number = 0u64;
    for place in begin..word.len() {
        let byte = word[place];
        if !byte.is_ascii_digit() {
            return None;
        }
        number = number
            .checked_mul(10)?
            .checked_add(byte.wrapping_sub(b'0') as u64)?;
    }
    Some(number)
}

/// The number of a frame; of one that isn't there where the number is greater than any.
pub(crate) fn frame_of(number: u64) -> u16 {
    u16::try_from(number).unwrap_or(u16::MAX)
}

/// The number of a block; one that is too great is that of no payload block.
pub(crate) fn block_of(number: u64) -> u8 {
    u8::try_from(number).unwrap_or(u8::MAX)
}

/// A place in a list; after all where the number is greater than any.
pub(crate) fn place_of(number: u64) -> usize {
    usize::try_from(number).unwrap_or(usize::MAX)
}

/// What a hex digit tells.
fn digit_of(sign: u8) -> Option<u8> {
    let digit = char::from(sign).to_digit(16)?;
    u8::try_from(digit).ok()
}

/// The byte that the two hex digits at a place tell.
fn byte_told(part: &[u8], place: usize) -> Option<u8> {
    let high = digit_of(byte_at(part, place))?;
    let low = digit_of(byte_at(part, place.saturating_add(1)))?;
    Some(high.wrapping_mul(16).wrapping_add(low))
}

/// Puts the bytes of hex digits after others. Whether they are ones.
fn put_hex(bytes: &mut Vec<u8>, part: &[u8]) -> Result<bool, Refusal> {
    for pair in 0..part.len() / 2 {
        match byte_told(part, pair.saturating_mul(2)) {
            Some(byte) => bytes.push(byte)?,
            None => return Ok(false),
        }
    }
    Ok(part.len() % 2 == 0)
}

/// Puts this many bytes after others, each greater by one than the one before, and 0 after the
/// last.
fn put_ascending(bytes: &mut Vec<u8>, first: u8, last: u8, count: u64) -> Result<bool, Refusal> {
    let mut byte = first;
    for _ in 0..count {
        bytes.push(byte)?;
        byte = if byte >= last { 0 } else { byte + 1 };
    }
    Ok(true)
}

/// Puts a byte so often after others.
fn put_times(bytes: &mut Vec<u8>, byte: u8, count: u64) -> Result<bool, Refusal> {
    for _ in 0..count {
        bytes.push(byte)?;
    }
    Ok(true)
}

/// Puts the bytes between quotes after others. Whether they are text.
fn put_text(bytes: &mut Vec<u8>, part: &[u8]) -> Result<bool, Refusal> {
    let last = part.len().saturating_sub(1);
    for place in 1..last {
        let sign = byte_at(part, place);
        if !is_text(sign) {
            return Ok(false);
        }
        bytes.push(sign)?;
    }
    Ok(last > 0 && byte_at(part, last) == b'"')
}

/// Puts the bytes that a part encodes after others. Whether it encodes any.
fn put_part(bytes: &mut Vec<u8>, part: &[u8]) -> Result<bool, Refusal> {
    if byte_at(part, 0) == b'"' {
        return put_text(bytes, part);
    }
    match byte_at(part, 2) {
        b'.' => put_from(bytes, part),
        b'*' => put_many(bytes, part),
        _ => put_hex(bytes, part),
    }
}

/// The last byte before those that ascend begin anew, where one is told, and how many they are.
fn last_of(part: &[u8]) -> (Option<u8>, Option<u64>) {
    if byte_at(part, 4) == b'*' {
        return (Some(u8::MAX), count_from(part, 5));
    }
    if byte_at(part, 6) == b'*' {
        return (byte_told(part, 4), count_from(part, 7));
    }
    (None, None)
}

fn put_from(bytes: &mut Vec<u8>, part: &[u8]) -> Result<bool, Refusal> {
    if byte_at(part, 3) != b'.' {
        return Ok(false);
    }
    let (last, count) = last_of(part);
    match (byte_told(part, 0), last, count) {
        (Some(first), Some(last), Some(count)) => put_ascending(bytes, first, last, count),
        _ => Ok(false),
    }
}

fn put_many(bytes: &mut Vec<u8>, part: &[u8]) -> Result<bool, Refusal> {
    match (byte_told(part, 0), count_from(part, 3)) {
        (Some(byte), Some(count)) => put_times(bytes, byte, count),
        _ => Ok(false),
    }
}

/// Puts the bytes that a word encodes after others. Whether it encodes any.
fn put_word(alloc: Global, bytes: &mut Vec<u8>, word: &[u8]) -> Result<bool, Refusal> {
    let parts = parts_of(alloc, word, b'+')?;
    for part in parts.as_slice() {
        if !put_part(bytes, part)? {
            return Ok(false);
        }
    }
    Ok(true)
}

/// The bytes that a word encodes, if it encodes any.
pub(crate) fn bytes_of(alloc: Global, word: &[u8]) -> Result<Option<Vec<u8>>, Refusal> {
    let mut bytes = Vec::new(alloc);
    if put_word(alloc, &mut bytes, word)? {
        Ok(Some(bytes))
    } else {
        Ok(None)
    }
}

/// Tells a word, or the bytes that it encodes as they are told.
fn respell(alloc: Global, text: &mut Text, word: &[u8]) -> Result<(), Refusal> {
    let mut bytes = Vec::new(alloc);
    if put_word(alloc, &mut bytes, word)? {
        text.bytes(bytes.as_slice());
    } else {
        text.signs(word);
    }
    Ok(())
}

/// Words, in which bytes are encoded as they are told.
fn respell_all(alloc: Global, text: &mut Text, words: &[u8]) -> Result<(), Refusal> {
    let words = parts_of(alloc, words, b' ')?;
    for word in words.as_slice() {
        respell(alloc, text, word)?;
    }
    Ok(())
}

/// Whether what is told is what is expected, word by word: `any` is everything.
pub(crate) fn is_said(alloc: Global, told: &str, expected: &[u8]) -> Result<bool, Refusal> {
    if told.as_bytes() == expected || "any".as_bytes() == expected {
        return Ok(true);
    }
    let mut given = Text::new(alloc);
    respell_all(alloc, &mut given, told.as_bytes())?;
    let mut awaited = Text::new(alloc);
    respell_all(alloc, &mut awaited, expected)?;
    given.is_same(&awaited)
}

//! The image that is kept.
use crate::commands::{Asked, Imaging};
use crate::party::Played;
use crate::stage::Stage;
use crate::text::Text;
use crate::words::{byte_at, piece, place_of};
use s4_types::Refusal;
use sha2::{Digest, Sha256};
use std::alloc::Global;
use std::thread::Threads;
use verifier::{Image, verify};

/// Bytes of a digest.
const DIGEST_BYTES: usize = 32;

/// Where the frames of an image begin.
const FRAMES: usize = 512;

/// Bytes of a frame's word, and of its blocks.
const WORD_BYTES: usize = 8;

const CONTENTS_BYTES: usize = 8192;

/// Where the digest of a summary begins, and where the blocks after it do.
const SUMMARY_DIGEST: usize = 480;

const PAYLOAD: usize = 512;

/// Puts bytes at a place. Whether they are within the image.
fn put(image: &mut [u8], place: usize, new: &[u8]) -> bool {
    let Some(end) = place.checked_add(new.len()) else {
        return false;
    };
    if end > image.len() {
        return false;
    }
    for offset in 0..new.len() {
        if let Some(old) = image.get_mut(place.saturating_add(offset)) {
            *old = new[offset];
        }
    }
    true
}

/// The image of a new drive with this window. The last frames, this many, are free in the last of
/// their lives: they are never opened.
pub(crate) fn new_image(
    alloc: Global,
    frames: usize,
    window: u64,
    retired: usize,
) -> Result<Vec<u8>, Refusal> {
    let words = frames.saturating_mul(WORD_BYTES);
    let length = FRAMES.saturating_add(words).saturating_add(DIGEST_BYTES);
    let mut image = Vec::from_elem(alloc, 0, length)?;
    let number = u16::try_from(frames).unwrap_or(u16::MAX);
    put(image.as_mut_slice(), 0, b"S4IMAGE3");
    put(image.as_mut_slice(), 8, &number.to_be_bytes());
    put(image.as_mut_slice(), 24, &window.to_be_bytes());
    put(image.as_mut_slice(), 40, &1u64.to_be_bytes());
    for frame in 0..frames {
        let is_used = frame.saturating_add(retired) < frames;
        let generation = if is_used { 1u32 } else { u32::MAX };
        let place = FRAMES.saturating_add(frame.saturating_mul(WORD_BYTES));
        put(image.as_mut_slice(), place, &generation.to_be_bytes());
    }
    sign(image.as_mut_slice());
    Ok(image)
}

/// Makes the digest of the whole image anew.
fn sign(image: &mut [u8]) {
    let end = image.len().saturating_sub(DIGEST_BYTES);
    let digest = Sha256::digest(piece(image, 0, end));
    put(image, end, &digest);
}

/// Makes the digest of the summary anew of the frame whose blocks begin here.
fn sign_frame(image: &mut [u8], begin: usize) {
    let end = begin.saturating_add(CONTENTS_BYTES);
    if end > image.len() {
        return;
    }
    let mut hasher = Sha256::new();
    hasher.update(piece(image, begin, begin.saturating_add(SUMMARY_DIGEST)));
    hasher.update(piece(image, begin.saturating_add(PAYLOAD), end));
    let digest = hasher.finalize();
    put(image, begin.saturating_add(SUMMARY_DIGEST), &digest);
}

/// Makes the digests of the summaries of all frames with blocks anew, and then the image's.
fn sign_all(image: &mut [u8]) {
    let count = u16::from_be_bytes([byte_at(image, 8), byte_at(image, 9)]);
    let mut place = FRAMES;
    for _ in 0..count {
        let begin = place.saturating_add(WORD_BYTES);
        place = begin;
        if byte_at(image, begin.saturating_sub(1)) % 4 != 0 {
            sign_frame(image, begin);
            place = begin.saturating_add(CONTENTS_BYTES);
        }
    }
    sign(image);
}

fn tell_image(text: &mut Text, image: &Image) {
    let fields = [
        ("ok frames=", image.frames() as u64),
        ("objects=", image.objects() as u64),
        ("clock=", image.clock().number()),
        ("window=", image.window()),
        ("floor=", image.floor().number()),
    ];
    for (name, number) in &fields {
        text.word(name);
        text.digits(*number);
    }
}

fn tell_verified<R: Threads>(rt: &R, stage: &mut Stage) -> Result<(), Refusal> {
    let image = verify(rt, stage.alloc, stage.image.as_slice())?;
    tell_image(&mut stage.answer, &image);
    drop(image);
    Ok(())
}

/// Turns the lowest bit of a byte. Whether it is there.
fn turn_bit(image: &mut [u8], place: usize) -> bool {
    match image.get_mut(place) {
        Some(byte) => {
            *byte ^= 1;
            true
        }
        None => false,
    }
}

/// Why the image is none where the lowest bit of a byte is turned, and the digest made anew if that
/// is asked for. None where it is one.
fn fault_with<R: Threads>(
    rt: &R,
    alloc: Global,
    image: &[u8],
    place: usize,
    is_signed: bool,
) -> Result<Option<Refusal>, Refusal> {
    let mut turned = Vec::from_slice(alloc, image)?;
    turn_bit(turned.as_mut_slice(), place);
    if is_signed {
        sign(turned.as_mut_slice());
    }
    match verify(rt, alloc, turned.as_slice()) {
        Ok(image) => {
            drop(image);
            Ok(None)
        }
        Err(Refusal::NoMemory) => Err(Refusal::NoMemory),
        Err(refusal) => Ok(Some(refusal)),
    }
}

/// The first of places from one to before another whose byte, once it is turned, makes the image
/// none for another reason than this.
fn find_other<R: Threads>(
    rt: &R,
    alloc: Global,
    image: &[u8],
    begin: usize,
    end: usize,
    is_signed: bool,
    fault: Option<Refusal>,
) -> Result<Option<usize>, Refusal> {
    for place in begin..end {
        if fault_with(rt, alloc, image, place, is_signed)? != fault {
            return Ok(Some(place));
        }
    }
    Ok(None)
}

/// Tells what the image is once each of this many bytes is turned, if that is the same of all.
fn tell_turned<R: Threads>(
    rt: &R,
    stage: &mut Stage,
    asked: &Asked<'_>,
    is_signed: bool,
) -> Result<(), Refusal> {
    let alloc = stage.alloc;
    let (begin, end) = asked.places();
    let image = stage.image.as_slice();
    if begin >= end || end > image.len() {
        stage.answer.done(false);
        return Ok(());
    }
    let fault = fault_with(rt, alloc, image, begin, is_signed)?;
    match (
        find_other(rt, alloc, image, begin, end, is_signed, fault)?,
        fault,
    ) {
        (Some(place), _) => stage.answer.named("differ at", place as u64),
        (None, Some(refusal)) => stage.answer.refusal(refusal),
        (None, None) => stage.answer.word("ok"),
    }
    Ok(())
}

/// This many zeros in place of an image.
fn set_zeros(alloc: Global, image: &mut Vec<u8>, length: usize) -> Result<(), Refusal> {
    *image = Vec::from_elem(alloc, 0, length)?;
    Ok(())
}

/// A second image of these bytes in place of another.
fn copy(alloc: Global, from: &[u8], to: &mut Vec<u8>) -> Result<(), Refusal> {
    *to = Vec::from_slice(alloc, from)?;
    Ok(())
}

/// These bytes after an image.
fn add(image: &mut Vec<u8>, bytes: &[u8]) -> Result<(), Refusal> {
    image.extend_from_slice(bytes)?;
    Ok(())
}

/// Cuts this many bytes off.
fn cut(image: &mut Vec<u8>, count: usize) -> bool {
    match image.len().checked_sub(count) {
        Some(length) => {
            image.truncate(length);
            true
        }
        None => false,
    }
}

/// Changes the image that is kept within its length. Whether that is within it.
fn change_within(image: &mut Vec<u8>, imaging: Imaging, asked: &Asked<'_>) -> bool {
    let place = place_of(asked.numbers[0]);
    match imaging {
        Imaging::Put => put(image.as_mut_slice(), place, asked.bytes),
        Imaging::Cut => cut(image, place),
        Imaging::TurnBit => turn_bit(image.as_mut_slice(), place),
        Imaging::SignAll => {
            sign_all(image.as_mut_slice());
            true
        }
        _ => {
            sign(image.as_mut_slice());
            true
        }
    }
}

/// Takes room for another image that is kept, or for more of it.
fn change_whole(stage: &mut Stage, imaging: Imaging, asked: &Asked<'_>) -> Result<(), Refusal> {
    let alloc = stage.alloc;
    match imaging {
        Imaging::Zeros => set_zeros(alloc, &mut stage.image, place_of(asked.numbers[0])),
        Imaging::Keep => copy(alloc, stage.image.as_slice(), &mut stage.kept),
        Imaging::Back => copy(alloc, stage.kept.as_slice(), &mut stage.image),
        _ => add(&mut stage.image, asked.bytes),
    }
}

fn tell_bytes(stage: &mut Stage, asked: &Asked<'_>) {
    let (begin, end) = asked.places();
    let image = stage.image.as_slice();
    if end > image.len() {
        stage.answer.done(false);
    } else {
        stage.answer.bytes(piece(image, begin, end));
    }
}

fn save<D: Played>(stage: &mut Stage, drive: &mut D) -> Result<(), Refusal> {
    stage.image = drive.save()?;
    stage.answer.named("Saved", stage.image.len() as u64);
    Ok(())
}

fn tell_saved<D: Played>(stage: &mut Stage, drive: &mut D) -> Result<(), Refusal> {
    let saved = drive.save()?;
    let is_same = saved.as_slice() == stage.image.as_slice();
    stage.answer.word(if is_same { "same" } else { "other" });
    Ok(())
}

/// Does what is asked for with the image.
pub(crate) fn perform_imaging<D: Played, R: Threads>(
    rt: &R,
    stage: &mut Stage,
    drive: &mut D,
    imaging: Imaging,
    asked: &Asked<'_>,
) -> Result<(), Refusal> {
    match imaging {
        Imaging::Save => save(stage, drive),
        Imaging::Saved => tell_saved(stage, drive),
        Imaging::Bytes => {
            tell_bytes(stage, asked);
            Ok(())
        }
        Imaging::Verify => tell_verified(rt, stage),
        Imaging::Turned => tell_turned(rt, stage, asked, false),
        Imaging::TurnedSigned => tell_turned(rt, stage, asked, true),
        Imaging::Zeros | Imaging::Keep | Imaging::Back | Imaging::Add => {
            change_whole(stage, imaging, asked)?;
            stage.answer.done(true);
            Ok(())
        }
        _ => {
            let is_done = change_within(&mut stage.image, imaging, asked);
            stage.answer.done(is_done);
            Ok(())
        }
    }
}

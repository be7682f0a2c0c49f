//! An image of the first version, and the one that it becomes, both worked by hand: an object that
//! is made at moment 10, and three bytes that are written in it at 11.

use migration::{migrate, migrated};
use s4_types::{Cause, Refusal};
use std::alloc::{AllocError, Global};
use std::process::Abort;
use std::test::Fail;
use std::thread::Threads;
use verifier::{Image, verify};

/// The header of the earlier image: 16 frames, clock 11, window 100, next 2, and one row.
const OLD_HEADER: [u8; 52] = [
    0x53, 0x34, 0x49, 0x4d, 0x41, 0x47, 0x45, 0x31, 0, 0x10, 0, 0, 0, 0, 0, 0, 0, 0, 0, 0, 0, 0, 0,
    0x0b, 0, 0, 0, 0, 0, 0, 0, 0x64, 0, 0, 0, 0, 0, 0, 0, 0, 0, 0, 0, 0, 0, 0, 0, 2, 0, 0, 0, 1,
];

/// That of the new one: 24 frames.
const NEW_HEADER: [u8; 52] = [
    0x53, 0x34, 0x49, 0x4d, 0x41, 0x47, 0x45, 0x33, 0, 0x18, 0, 0, 0, 0, 0, 0, 0, 0, 0, 0, 0, 0, 0,
    0x0b, 0, 0, 0, 0, 0, 0, 0, 0x64, 0, 0, 0, 0, 0, 0, 0, 0, 0, 0, 0, 0, 0, 0, 0, 2, 0, 0, 0, 1,
];

/// The word of a frame that is open in its first life.
const OPEN: [u8; 8] = [0, 0, 0, 1, 0, 0, 0, 1];

/// The word of one that is free in its first life.
const FREE: [u8; 8] = [0, 0, 0, 1, 0, 0, 0, 0];

/// The front of the earlier summary: a journal block, one of data and a journal block.
const OLD_SUMMARY: [u8; 43] = [
    0x53, 0x34, 0x73, 0x67, 0, 0, 3, 0, 0, 0, 0, 1, 0, 0, 0, 0, 1, 0, 0, 0, 0, 0, 0, 0, 1, 3, 0, 0,
    0, 0, 0, 0, 0, 1, 1, 0, 0, 0, 0, 0, 0, 0, 1,
];

/// Its digest.
const OLD_FRAME_DIGEST: [u8; 32] = [
    0x2e, 0xde, 0x3f, 0x0e, 0x37, 0x57, 0xa6, 0x7a, 0x29, 0x5b, 0x6d, 0x29, 0x3f, 0xa3, 0xbd, 0xbc,
    0x17, 0xbf, 0x6c, 0x66, 0x8d, 0x4a, 0x7f, 0xac, 0x1e, 0xd6, 0x81, 0x54, 0x9f, 0x96, 0xcc, 0xf4,
];

/// The front of the new summary: the data comes first, and then a journal block.
const NEW_SUMMARY: [u8; 34] = [
    0x53, 0x34, 0x73, 0x67, 0, 0, 2, 0, 0, 0, 0, 1, 0, 0, 0, 0, 3, 0, 0, 0, 0, 0, 0, 0, 1, 1, 0, 0,
    0, 0, 0, 0, 0, 1,
];

/// Its digest.
const NEW_FRAME_DIGEST: [u8; 32] = [
    0x60, 0x81, 0x3f, 0xd3, 0xe8, 0x78, 0x95, 0x53, 0xe1, 0xb1, 0x1e, 0x93, 0xb9, 0x5c, 0x38, 0x3d,
    0xce, 0x26, 0x8b, 0xc4, 0xc6, 0x9a, 0xfa, 0xcb, 0xe8, 0xe0, 0xfd, 0x41, 0x9d, 0x8f, 0x5c, 9,
];

/// The first journal block of the earlier image, which nothing names any more.
const UNNAMED: [u8; 58] = [
    1, 1, 0, 0x22, 0, 0, 0, 0, 0, 0, 0, 0, 0, 0, 0, 1, 0, 0, 0, 0, 0, 0, 0, 0, 0, 0, 0, 0, 0, 0, 0,
    0x0a, 2, 0, 0, 0, 0, 0, 0, 0, 0, 0, 0, 0, 0, 0, 0, 0, 0, 0, 0, 0, 0, 0, 0, 0, 0, 0x0a,
];

/// The second one, with 85 bytes of entries.
const OLD_JOURNAL: [u8; 109] = [
    1, 2, 0, 0x55, 0, 0, 0, 0, 0, 0, 0, 0, 0, 0, 0, 1, 0, 0, 0, 0, 0, 0, 0, 0, 0, 0, 0, 0, 0, 0, 0,
    0x0a, 2, 0, 0, 0, 0, 0, 0, 0, 0, 0, 0, 0, 0, 0, 0, 0, 0, 0, 0, 0, 0, 0, 0, 0, 0, 0x0a, 0, 0, 0,
    0, 0, 0, 0, 0x0b, 3, 1, 0, 0, 0, 0, 0, 0, 0, 3, 0, 0, 0, 0, 0, 0, 0, 0x0a, 0, 0, 0, 0, 0, 0, 0,
    0x0b, 0, 0, 0, 0, 0, 0, 0, 0, 0, 0, 0, 2, 0, 0, 0, 0, 1,
];

/// The one of the new image, with 86 bytes of entries.
const NEW_JOURNAL: [u8; 110] = [
    1, 2, 0, 0x56, 0, 0, 0, 0, 0, 0, 0, 0, 0, 0, 0, 1, 0, 0, 0, 0, 0, 0, 0, 0, 0, 0, 0, 0, 0, 0, 0,
    0x0a, 2, 0, 0, 0, 0, 0, 0, 0, 0, 0, 0, 0, 0, 0, 0, 0, 0, 0, 0, 0, 0, 0, 0, 0, 0, 0x0a, 0, 0, 0,
    0, 0, 0, 0, 0x0b, 3, 1, 0, 0, 0, 0, 0, 0, 0, 3, 0, 0, 0, 0, 0, 0, 0, 0x0a, 0, 0, 0, 0, 0, 0, 0,
    0x0b, 0, 0, 0, 0, 0, 0, 0, 0, 0, 0, 0, 0, 1, 0, 0, 0, 0, 1,
];

/// The row of the earlier image: made at 10, no checkpoint, and block 3 is the head.
const OLD_ROW: [u8; 40] = [
    0, 0, 0, 0, 0, 0, 0, 1, 0, 0, 0, 0, 0, 0, 0, 0x0a, 0, 0, 0, 0, 0, 0, 0, 0, 0, 0, 0, 0, 0, 0, 0,
    0, 0, 0, 3, 0, 0, 0, 0, 1,
];

/// That of the new one: block 2 is the head.
const NEW_ROW: [u8; 40] = [
    0, 0, 0, 0, 0, 0, 0, 1, 0, 0, 0, 0, 0, 0, 0, 0x0a, 0, 0, 0, 0, 0, 0, 0, 0, 0, 0, 0, 0, 0, 0, 0,
    0, 0, 0, 2, 0, 0, 0, 0, 1,
];

/// The digest of the earlier image.
const OLD_DIGEST: [u8; 32] = [
    0xdc, 0x4a, 0xeb, 0x91, 0x61, 0xb9, 0xc2, 0xb3, 0x68, 0xe1, 0x5f, 0x70, 0x58, 0xf2, 0xf8, 0xd3,
    0x4c, 0xf6, 0x59, 0x43, 0xe3, 0x38, 0x69, 0x7d, 0xda, 0xfb, 0x69, 0x9e, 0x55, 0x43, 0x97, 0x1c,
];

/// That of the new one.
const NEW_DIGEST: [u8; 32] = [
    0x0d, 0xf5, 0x66, 0x16, 0xdf, 0x1c, 1, 0x75, 0xa1, 0xc5, 0x32, 0x8b, 0xc3, 0xbd, 0x75, 0xa7,
    0xde, 0x6b, 0x6c, 0xd3, 0x38, 0x8b, 9, 7, 0x34, 0x0f, 0x9e, 0x62, 0xde, 0x7a, 0x1e, 0x35,
];

/// The parts of the earlier image: where each begins, how often its bytes are there, and the bytes.
/// Before each are zeros.
static OLD_PARTS: [(usize, usize, &[u8]); 10] = [
    (0, 1, &OLD_HEADER),
    (512, 1, &OPEN),
    (520, 1, &OLD_SUMMARY),
    (1_000, 1, &OLD_FRAME_DIGEST),
    (1_032, 1, &UNNAMED),
    (1_544, 1, b"abc"),
    (2_056, 1, &OLD_JOURNAL),
    (8_712, 15, &FREE),
    (8_832, 1, &OLD_ROW),
    (8_872, 1, &OLD_DIGEST),
];

/// Those of the one that it becomes.
static NEW_PARTS: [(usize, usize, &[u8]); 9] = [
    (0, 1, &NEW_HEADER),
    (512, 1, &OPEN),
    (520, 1, &NEW_SUMMARY),
    (1_000, 1, &NEW_FRAME_DIGEST),
    (1_032, 1, b"abc"),
    (1_544, 1, &NEW_JOURNAL),
    (8_712, 23, &FREE),
    (8_896, 1, &NEW_ROW),
    (8_936, 1, &NEW_DIGEST),
];

/// Bytes from a place on, this often, after zeros.
fn put(out: &mut Vec<u8>, at: usize, times: usize, bytes: &[u8]) -> Result<(), AllocError> {
    out.resize(at, 0)?;
    for _ in 0..times {
        out.extend_from_slice(bytes)?;
    }
    Ok(())
}

/// The image of these parts.
fn image_of(alloc: Global, parts: &[(usize, usize, &[u8])]) -> Result<Vec<u8>, AllocError> {
    let mut out = Vec::new(alloc);
    for (at, times, bytes) in parts {
        put(&mut out, *at, *times, bytes)?;
    }
    Ok(out)
}

/// Whether two images have the same numbers.
fn are_alike(one: &Image, other: &Image) -> bool {
    one.frames() == other.frames()
        && one.objects() == other.objects()
        && one.clock() == other.clock()
        && one.window() == other.window()
        && one.floor() == other.floor()
}

/// Why the image of these parts becomes none, once its last bytes, as many as `cut`, are replaced
/// by `tail`.
fn refusal_of<R: Threads>(
    rt: &R,
    alloc: Global,
    parts: &[(usize, usize, &[u8])],
    cut: usize,
    tail: &[u8],
) -> Result<Option<Refusal>, AllocError> {
    let mut bytes = image_of(alloc, parts)?;
    bytes.truncate(bytes.len().saturating_sub(cut));
    bytes.extend_from_slice(tail)?;
    let refusal = migrate(rt, alloc, bytes.as_slice()).err();
    drop(bytes);
    Ok(refusal)
}

/// Whether an image has the numbers of the earlier one, as its bytes do.
fn is_the_earlier<R: Threads>(rt: &R, alloc: Global, image: &Image, bytes: &[u8]) -> bool {
    let has_numbers = image.frames() == 24
        && image.objects() == 1
        && image.window() == 100
        && image.clock().number() == 11
        && image.floor().number() == 0;
    match verify(rt, alloc, bytes) {
        Ok(verified) => has_numbers && are_alike(image, &verified),
        Err(_) => false,
    }
}

/// The one image becomes the other, whether it is opened or rewritten.
fn check_moved<R: Abort + Threads>(
    rt: &R,
    alloc: Global,
    old: &[u8],
    new: &[u8],
) -> Result<(), Refusal> {
    let bytes = migrated(alloc, old)?;
    let is_new = bytes.as_slice() == new;
    drop(bytes);
    assert!(rt; is_new);
    let image = migrate(rt, alloc, old)?;
    let is_it = is_the_earlier(rt, alloc, &image, new);
    drop(image);
    assert!(rt; is_it);
    Ok(())
}

#[test]
fn an_earlier_image_becomes_another(rt: HostRuntime) -> Result<(), Fail> {
    let old = image_of(rt.alloc(), &OLD_PARTS)?;
    let new = image_of(rt.alloc(), &NEW_PARTS)?;
    assert!(rt; old.len() == 8_904 && new.len() == 8_968);
    let moved = check_moved(&rt, rt.alloc(), old.as_slice(), new.as_slice());
    drop(new);
    drop(old);
    moved?;
    Ok(())
}

#[test]
fn other_bytes_are_refused(rt: HostRuntime) -> Result<(), Fail> {
    let new = refusal_of(&rt, rt.alloc(), &NEW_PARTS, 0, b"")?;
    assert!(rt; new == Some(Refusal::Damaged(Cause::Header)));
    let longer = refusal_of(&rt, rt.alloc(), &OLD_PARTS, 0, b"\0")?;
    assert!(rt; longer == Some(Refusal::Damaged(Cause::Length)));
    let changed = refusal_of(&rt, rt.alloc(), &OLD_PARTS, 1, b"\0")?;
    assert!(rt; changed == Some(Refusal::Damaged(Cause::Digest)));
    Ok(())
}

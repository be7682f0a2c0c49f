//! That differences of fronts are made, encoded, read and applied, and that their encodings have as
//! many bytes as were counted by hand: 8, 24 for each step, and what is put.
use image_update::{decode, difference_between, encode, patched};
use std::alloc::Global;

/// Whether the difference has an encoding of this many bytes, and what is read of that makes the
/// new front of the old one.
fn comes_back(alloc: Global, old: &[u8], new: &[u8], bytes: usize) -> bool {
    let Ok(difference) = difference_between(alloc, old, new) else {
        return false;
    };
    let Ok(encoded) = encode(alloc, &difference) else {
        return false;
    };
    if encoded.len() != bytes {
        return false;
    }
    let Ok(read) = decode(alloc, encoded.as_slice()) else {
        return false;
    };
    match patched(alloc, old, &read) {
        Ok(front) => front.as_slice() == new,
        Err(_) => false,
    }
}

/// 64 bytes of the header differ, and what is behind the first frame's word: 80 bytes and 120.
#[test]
fn two_parts_differ(rt: HostRuntime) {
    let old = [1u8; 600];
    let mut new = [1u8; 640];
    new[70] = 9;
    assert!(rt; comes_back(rt.alloc(), &old, &new, 240));
    assert!(rt; comes_back(rt.alloc(), &new, &old, 200));
}

#[test]
fn nothing_differs(rt: HostRuntime) {
    let front = [1u8; 600];
    assert!(rt; comes_back(rt.alloc(), &front, &front, 32));
}

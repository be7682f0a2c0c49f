//! Which lines of two texts may be the same ones: a guess, which the script checks line by line.
//!
//! Lines that each text has once are anchors. Of them the longest run that ascends in both texts is
//! taken, and the lines between two anchors are compared on their own.

use crate::gaps::push_gap;
use crate::places::{Place, further};
use std::alloc::{AllocError, Global};
use std::collections::BTreeMap;

// The numbers of the hash FNV-1a.
const HASH_BEGIN: u64 = 0xcbf2_9ce4_8422_2325;

const HASH_FACTOR: u64 = 0x0000_0100_0000_01b3;

// A hash of a line. Lines of the same hash are taken for the same until they are compared.
fn key_of(line: &str) -> u64 {
    line.bytes().fold(HASH_BEGIN, |key, byte| {
        (key ^ u64::from(byte)).wrapping_mul(HASH_FACTOR)
    })
}

fn keys_of(alloc: Global, lines: &[String]) -> Result<Vec<u64>, AllocError> {
    let mut keys = Vec::new(alloc);
    for line in lines {
        keys.push(key_of(line.as_str()))?;
    }
    Ok(keys)
}

// Where each key is, or none where it is in several places.
fn places_of(alloc: Global, keys: &[u64]) -> Result<BTreeMap<u64, Option<usize>>, AllocError> {
    let mut places = BTreeMap::new(alloc);
    for (index, key) in keys.iter().enumerate() {
        let place = if places.contains_key(key) {
            None
        } else {
            Some(index)
        };
        places.insert(*key, place)?;
    }
    Ok(places)
}

fn only_place(places: &BTreeMap<u64, Option<usize>>, key: u64) -> Option<usize> {
    places.get(&key).copied().flatten()
}

// The places of the keys that each list has once, in the order of the new list.
fn shared_once(alloc: Global, old: &[u64], new: &[u64]) -> Result<Vec<Place>, AllocError> {
    let old_places = places_of(alloc, old)?;
    let new_places = places_of(alloc, new)?;
    let mut shared = Vec::new(alloc);
    for key in new {
        let here = only_place(&new_places, *key);
        if let (Some(old), Some(new)) = (only_place(&old_places, *key), here) {
            shared.push(Place { old, new })?;
        }
    }
    Ok(shared)
}

/// For each place the one that comes before it in the longest ascending run that it ends, and where
/// the longest of all ends.
#[derive(Drop)]
struct Runs {
    before: Vec<Option<usize>>,
    last: Option<usize>,
}

// How many of the runs end below a place: the ends ascend.
fn runs_below(places: &[Place], ends: &[usize], place: Place) -> usize {
    ends.partition_point(|end| match places.get(*end) {
        Some(other) => other.old < place.old,
        None => false,
    })
}

fn runs_of(alloc: Global, places: &[Place]) -> Result<Runs, AllocError> {
    let mut ends: Vec<usize> = Vec::new(alloc);
    let mut before = Vec::new(alloc);
    for (index, place) in places.iter().enumerate() {
        let length = runs_below(places, ends.as_slice(), *place);
        before.push(length.checked_sub(1).and_then(|at| ends.get(at).copied()))?;
        match ends.get_mut(length) {
            Some(end) => *end = index,
            None => ends.push(index)?,
        }
    }
    let last = ends.last().copied();
    Ok(Runs { before, last })
}

// The longest run of places that ascend in the old list too.
fn longest_run(alloc: Global, places: &[Place]) -> Result<Vec<Place>, AllocError> {
    let runs = runs_of(alloc, places)?;
    let mut run = Vec::new(alloc);
    let mut next = runs.last;
    for _ in 0..places.len() {
        let Some(at) = next else {
            break;
        };
        if let Some(place) = places.get(at) {
            run.push(*place)?;
        }
        next = runs.before.get(at).copied().flatten();
    }
    run.as_mut_slice().reverse();
    Ok(run)
}

/// Places at which two lists of lines may have the same line, in ascending order.
pub(crate) fn matches_of(
    alloc: Global,
    old: &[String],
    new: &[String],
) -> Result<Vec<Place>, AllocError> {
    let old_keys = keys_of(alloc, old)?;
    let new_keys = keys_of(alloc, new)?;
    let (old, new) = (old_keys.as_slice(), new_keys.as_slice());
    let shared = shared_once(alloc, old, new)?;
    let anchors = longest_run(alloc, shared.as_slice())?;
    let mut matches = Vec::new(alloc);
    let mut from = Place { old: 0, new: 0 };
    for anchor in &anchors {
        push_gap(alloc, &mut matches, old, new, from, *anchor)?;
        matches.push(*anchor)?;
        from = further(*anchor, 1);
    }
    let end = Place {
        old: old.len(),
        new: new.len(),
    };
    push_gap(alloc, &mut matches, old, new, from, end)?;
    Ok(matches)
}

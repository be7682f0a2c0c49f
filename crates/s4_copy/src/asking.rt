//! What is asked of a copy, by the words of a line and the image.
ghost use Rattle.std.specs.Prelude.{◌≡◌, ◌==◌, ℕ, not, None, IfErr, IfOk, OnErr, OnOk, option_map};
ghost use Rattle.std.specs.BTreeSet.{contains};
ghost use Rattle.std.specs.List.{find, list_any};
ghost use Rattle.std.specs.Ordering.{nat_cmp};
ghost use Rattle.s4_copy.specs.Asking.{clipped, first_absent, has_row, HasNoMoment, moment_asked};
ghost use Rattle.s4_copy.specs.Failures.{SaysAbsent};

use crate::faults::CopyFailure;
use image_parts::{Header, ImageParts};
use moment_words::{MomentWord, moment_of};
use s4_types::{Moment, ObjectId};
use std::alloc::{AllocError, Global};
use std::collections::BTreeSet;

/// The frames that are asked for. No drive has as many as the most that this gives.
pub(crate) fn frames_asked(frames: Option<u64>) -> Option<u16>
    ensures { result ≡ option_map clipped frames }
{
    let frames = frames?;
    Some(u16::try_from(frames).unwrap_or(u16::MAX))
}

/// The objects of these numbers. NoMemory alone.
pub(crate) fn objects_of(alloc: Global, numbers: &[u64]) -> Result<BTreeSet<ObjectId>, AllocError>
    ensures { IfOk result (λ objects. (o : ℕ)
        → contains nat_cmp objects o ≡ list_any (λ n. n == o) numbers.now) }
{
    let mut objects = BTreeSet::new(alloc);
    for number in numbers {
        objects.insert(ObjectId::new(*number))?;
    }
    Ok(objects)
}

// The objects that have a row in an image. NoMemory alone.
fn objects_in(alloc: Global, parts: &ImageParts<'_>) -> Result<BTreeSet<ObjectId>, AllocError>
    ensures { IfOk result (λ objects. (o : ℕ) → contains nat_cmp objects o ≡ has_row parts.now o) }
{
    let mut objects = BTreeSet::new(alloc);
    for row in parts.rows() {
        objects.insert(row.object)?;
    }
    Ok(objects)
}

// The first of these objects that has no row in an image. NoMemory alone.
fn first_absent(
    alloc: Global,
    parts: &ImageParts<'_>,
    numbers: &[u64],
) -> Result<Option<u64>, AllocError>
    ensures { IfOk result (λ found. found ≡ first_absent parts.now numbers.now) }
{
    let objects = objects_in(alloc, parts)?;
    Ok(absent_from(&objects, numbers))
}

// The first of these numbers that isn't an object's of these.
fn absent_from(objects: &BTreeSet<ObjectId>, numbers: &[u64]) -> Option<u64>
    ensures { result ≡ find (λ o. not (contains nat_cmp objects.now o)) numbers.now }
{
    numbers
        .iter()
        .copied()
        .find(|number| !objects.contains(&ObjectId::new(*number)))
}

/// An error where an object that is to be left out isn't in the image: NoObject with the first of
/// them exactly there; else memory was short.
pub(crate) fn check_named<'a>(
    alloc: Global,
    parts: &ImageParts<'_>,
    numbers: &[u64],
) -> Result<(), CopyFailure<'a>>
    ensures named { OnOk result (first_absent parts.now numbers.now ≡ None) }
    ensures refused { IfErr result (SaysAbsent parts.now numbers.now) }
{
    match first_absent(alloc, parts, numbers)? {
        None => Ok(()),
        Some(number) => Err(CopyFailure::NoObject(ObjectId::new(number))),
    }
}

/// The moment that is asked for, if one is. NoTimes for a time exactly where the image's moments
/// are numbers.
pub(crate) fn moment_asked<'a>(
    header: &Header,
    word: Option<MomentWord>,
) -> Result<Option<Moment>, CopyFailure<'a>>
    ensures moment { IfOk result (λ found. found ≡ moment_asked word header.now.clock) }
    ensures said { OnOk result (HasNoMoment word header.now.clock → ⊥) }
    ensures refused { OnErr result (HasNoMoment word header.now.clock) }
    ensures times { IfErr result
        (λ failure. failure ≡ CopyFailure.NoTimes header.now.floor header.now.clock) }
{
    let Some(word) = word else {
        return Ok(None);
    };
    match moment_of(word, header.clock.number()) {
        Some(moment) => Ok(Some(Moment::new(moment))),
        None => Err(CopyFailure::NoTimes {
            first: header.floor,
            last: header.clock,
        }),
    }
}

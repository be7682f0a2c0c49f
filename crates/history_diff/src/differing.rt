//! Which objects differ between two moments of a drive.
ghost use Rattle.std.specs.Prelude.{◌≡◌, ℕ, ◌<◌, IfOk, IfNone, IfSome};
ghost use Rattle.drive.specs.Fields.{state_in, store_of};
ghost use Rattle.history_diff.specs.Differences.{AreAlike, IsDifferenceOf, told_of};
ghost use Rattle.history_diff.specs.Diffing.{AreVisible, IsDifferenceAt, IsDifferenceNext};
ghost use Rattle.history_diff.specs.Diffing.{IsPassed, IsUnreadable, row_of};

use crate::differences::{Difference, difference_of};
use crate::faults::Stop;
use drive::{Drive, Session};
use history_view::{is_visible, version_at};
use s4_types::{Moment, ObjectId, Version};
use segment_word::Naming;
use std::alloc::{AllocError, Global};

/// An object that differs between two moments: its versions there, and what differs between these.
pub struct DifferingObject {
    pub object: ObjectId,
    pub before: Version,
    pub after: Version,
    pub difference: Difference,
}

// Written by hand, so that an owner lets it go by one call.
impl Drop for DifferingObject {
    fn drop(self) {
        let DifferingObject {
            object: _,
            before: _,
            after: _,
            difference: _,
        } = self;
    }
}

/// The first of two moments of an object that can't be read.
pub(crate) fn first_unreadable<J: Naming>(
    drive: &Drive<J>,
    object: ObjectId,
    before: Moment,
    after: Moment,
) -> Option<Moment>
    ensures none { IfNone result (AreVisible (state_in drive.now) object before after) }
    ensures some { IfSome result (IsUnreadable (state_in drive.now) object before after) }
{
    if !is_visible(drive, object, before) {
        return Some(before);
    }
    if !is_visible(drive, object, after) {
        return Some(after);
    }
    None
}

/// What differs of an object between two moments. None where its versions are alike, or one of the
/// moments of it can't be read.
pub(crate) fn differing_at<J: Naming>(
    alloc: Global,
    drive: &mut Drive<J>,
    session: &mut Session<J>,
    object: ObjectId,
    before: Moment,
    after: Moment,
) -> Result<Option<DifferingObject>, Stop>
    ensures none { IfOk result
        (λ found. IfNone found (IsPassed (state_in drive.old) before after object)) }
    ensures some { IfOk result
        (λ found. IfSome found
        (λ differing. (differing.object ≡ object)
        × IsDifferenceAt (state_in drive.old) before after (row_of differing))) }
    ensures state { state_in drive.new ≡ state_in drive.old }
    ensures store { store_of drive.new ≡ store_of drive.old }
{
    if first_unreadable(drive, object, before, after).is_some() {
        return Ok(None);
    }
    let old = version_at(alloc, drive, session, object, before)?;
    let new = version_at(alloc, drive, session, object, after)?;
    Ok(differing_by(alloc, object, old, new)?)
}

// An object that has these two versions, where they differ.
fn differing_by(
    alloc: Global,
    object: ObjectId,
    before: Version,
    after: Version,
) -> Result<Option<DifferingObject>, AllocError>
    ensures none { IfOk result (λ found. IfNone found (AreAlike before after)) }
    ensures some { IfOk result
        (λ found. IfSome found
        (λ differing. (differing.object ≡ object) × (differing.before ≡ before)
        × (differing.after ≡ after)
        × IsDifferenceOf before after (told_of differing.difference))) }
{
    let Some(difference) = difference_of(alloc, &before, &after)? else {
        return Ok(None);
    };
    Ok(Some(DifferingObject {
        object,
        before,
        after,
        difference,
    }))
}

/// The least object above one that differs between two moments, with what differs of it. An object
/// of which one of the moments can't be read is passed.
pub fn next_differing<J: Naming>(
    alloc: Global,
    drive: &mut Drive<J>,
    session: &mut Session<J>,
    above: ObjectId,
    before: Moment,
    after: Moment,
) -> Result<Option<DifferingObject>, Stop>
    ensures none { IfOk result
        (λ found. IfNone found
        ((o : ℕ) → above < o → IsPassed (state_in drive.old) before after o)) }
    ensures some { IfOk result
        (λ found. IfSome found
        (λ differing. IsDifferenceNext (state_in drive.old) before after above
        (row_of differing))) }
    ensures state { state_in drive.new ≡ state_in drive.old }
    ensures store { store_of drive.new ≡ store_of drive.old }
{
    drive.rules();
    let mut last = above;
    while let Some(object) = drive.next_row(last) {
        let found = differing_at(alloc, drive, session, object, before, after)?;
        if found.is_some() {
            return Ok(found);
        }
        last = object;
    }
    Ok(None)
}

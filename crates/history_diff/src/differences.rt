//! What differs between two versions of an object.
ghost use Rattle.std.specs.Prelude.{◌≡◌, ◌≢◌, ◌&&◌, MatchBool, IfOk, IfSome, IfNone};
ghost use Rattle.s4_model.specs.Refusals.{is_absent};
ghost use Rattle.history_view.specs.Contents.{attribute_of, content_of};
ghost use Rattle.history_diff.specs.Differences.{AreAlike, IsDifferenceOf, TellsAttributes};
ghost use Rattle.history_diff.specs.Differences.{kind_between, told_of};

use crate::ranges::{ByteRange, ranges_of};
use crate::versions::is_absent;
use history_view::{attribute_of, content_of};
use s4_types::{Bytes, Version};
use std::alloc::{AllocError, Global};

/// What was done to an object between two moments.
#[derive(Clone, Copy)]
pub enum DifferenceKind {
    /// It was absent before.
    Made,
    /// It is absent after.
    Deleted,
    /// It is live at both.
    Changed,
}

/// An object's attributes before and after.
#[derive(Drop)]
pub struct AttributePair {
    pub before: Bytes,
    pub after: Bytes,
}

/// What differs between two versions of an object. An absent one counts as empty, with an empty
/// attribute.
pub struct Difference {
    pub kind: DifferenceKind,
    /// In bytes, as are all sizes.
    pub size_before: usize,
    pub size_after: usize,
    /// The attributes, where they differ.
    pub attributes: Option<AttributePair>,
    /// Where the bytes differ. After the end of the shorter version the longer one does.
    pub ranges: Vec<ByteRange>,
}

// Written by hand, so that an owner lets it go by one call.
impl Drop for Difference {
    fn drop(self) {
        let Difference {
            kind: _,
            size_before: _,
            size_after: _,
            attributes: _,
            ranges: _,
        } = self;
    }
}

fn are_same(one: &[u8], other: &[u8]) -> bool
    ensures { MatchBool result (one.now ≡ other.now) (one.now ≢ other.now) }
{
    one == other
}

fn have_same_presence(before: &Version, after: &Version) -> bool
    ensures { MatchBool result (is_absent before.now ≡ is_absent after.now)
        (is_absent before.now ≢ is_absent after.now) }
{
    if is_absent(before) {
        return is_absent(after);
    }
    !is_absent(after)
}

fn have_same_content(before: &Version, after: &Version) -> bool
    ensures { MatchBool result (content_of before.now ≡ content_of after.now)
        (content_of before.now ≢ content_of after.now) }
{
    let old = content_of(before);
    let new = content_of(after);
    are_same(old, new)
}

fn have_same_attribute(before: &Version, after: &Version) -> bool
    ensures { MatchBool result (attribute_of before.now ≡ attribute_of after.now)
        (attribute_of before.now ≢ attribute_of after.now) }
{
    let old = attribute_of(before);
    let new = attribute_of(after);
    are_same(old, new)
}

fn are_all(presence: bool, content: bool, attribute: bool) -> bool
    ensures { result ≡ (presence && content && attribute) }
{
    presence && content && attribute
}

fn are_alike(before: &Version, after: &Version) -> bool
    ensures { MatchBool result (AreAlike before.now after.now) (AreAlike before.now after.now → ⊥) }
{
    let presence = have_same_presence(before, after);
    let content = have_same_content(before, after);
    let attribute = have_same_attribute(before, after);
    are_all(presence, content, attribute)
}

fn kind_between(before: &Version, after: &Version) -> DifferenceKind
    ensures { result ≡ kind_between before.now after.now }
{
    if is_absent(before) {
        DifferenceKind::Made
    } else if is_absent(after) {
        DifferenceKind::Deleted
    } else {
        DifferenceKind::Changed
    }
}

fn attributes_between(
    alloc: Global,
    before: &[u8],
    after: &[u8],
) -> Result<Option<AttributePair>, AllocError>
    ensures { IfOk result (TellsAttributes before.now after.now) }
{
    if are_same(before, after) {
        return Ok(None);
    }
    Ok(Some(AttributePair {
        before: Bytes::from_slice(alloc, before)?,
        after: Bytes::from_slice(alloc, after)?,
    }))
}

fn difference_between(
    alloc: Global,
    before: &Version,
    after: &Version,
) -> Result<Difference, AllocError>
    requires { AreAlike before.now after.now → ⊥ }
    ensures { IfOk result (λ difference. IsDifferenceOf before.now after.now (told_of difference)) }
{
    let (old, new) = (content_of(before), content_of(after));
    let ranges = ranges_of(alloc, old, new)?;
    let attributes = attributes_between(alloc, attribute_of(before), attribute_of(after))?;
    Ok(Difference {
        kind: kind_between(before, after),
        size_before: old.len(),
        size_after: new.len(),
        attributes,
        ranges,
    })
}

/// What differs between two versions of an object. Nothing exactly where they are alike: both
/// absent, or both live with the same bytes and the same attribute. Their moments aren't compared,
/// so an object that was changed to what it was has no difference.
pub fn difference_of(
    alloc: Global,
    before: &Version,
    after: &Version,
) -> Result<Option<Difference>, AllocError>
    ensures none { IfOk result (λ found. IfNone found (AreAlike before.now after.now)) }
    ensures some { IfOk result
        (λ found. IfSome found
        (λ difference. IsDifferenceOf before.now after.now (told_of difference))) }
{
    if are_alike(before, after) {
        return Ok(None);
    }
    let difference = difference_between(alloc, before, after)?;
    Ok(Some(difference))
}

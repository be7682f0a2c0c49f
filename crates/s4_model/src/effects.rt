ghost use Rattle.std.specs.Prelude.{◌≡◌, IfOk, IfErr};
ghost use Rattle.s4_model.specs.Effect.{resized, written, effect, is_change_of};
ghost use Rattle.s4_types.specs.declared.refusals.Refusal.TheVariants.{NoMemory};
ghost use Rattle.s4_types.specs.declared.versions.Version.TheVariants.{Absent, Live};

use s4_types::{Bytes, Change, Moment, ObjectId, Refusal, Version};
use std::alloc::Global;

/// The content cut to a size, or lengthened to it by zeros.
fn resized(content: Vec<u8>, size: u64) -> Result<Vec<u8>, Refusal>
    ensures ok { IfOk result (λ new. new.items ≡ resized size content.items) }
    ensures err { IfErr result (λ refusal. refusal ≡ NoMemory) }
{
    let mut content = content;
    content.resize(size as usize, 0)?;
    Ok(content)
}

/// The content with these bytes placed at an offset.
fn written(content: Vec<u8>, offset: u64, bytes: &[u8]) -> Result<Vec<u8>, Refusal>
    ensures ok { IfOk result (λ new. new.items ≡ written offset bytes.now content.items) }
    ensures err { IfErr result (λ refusal. refusal ≡ NoMemory) }
{
    if bytes.is_empty() {
        return Ok(content);
    }
    let offset = offset as usize;
    // An end past the last address has no place in memory.
    let Some(end) = offset.checked_add(bytes.len()) else {
        return Err(Refusal::NoMemory);
    };
    let mut content = content;
    if end <= content.len() {
        content[offset..end].copy_from_slice(bytes);
    } else {
        content.resize(offset, 0)?;
        content.extend_from_slice(bytes)?;
    }
    Ok(content)
}

/// Whether a change is one of the object's versions.
pub fn is_change_of(object: ObjectId, change: &Change) -> bool
    ensures { result ≡ is_change_of object change.now }
{
    match change {
        Change::Create { object: made, .. } => *made == object,
        Change::Delete { object: deleted } => *deleted == object,
        Change::Write {
            object: written,
            ..
        } => *written == object,
        Change::Truncate { object: cut, .. } => *cut == object,
        Change::SetAttr { object: named, .. } => *named == object,
        Change::SetWindow { .. } | Change::Flush { .. } | Change::FlushO { .. } => false,
    }
}

/// What a live version becomes by a write. Its object, here 0, makes no difference.
fn after_write(
    version: Version,
    offset: u64,
    new_bytes: &[u8],
    moment: Moment,
) -> Result<Version, Refusal>
    ensures ok { IfOk result
        (λ after. after ≡ effect (Change.Write 0 offset new_bytes.now) moment version) }
    ensures err { IfErr result (λ refusal. refusal ≡ NoMemory) }
{
    match version {
        Version::Absent => Ok(Version::Absent),
        Version::Live {
            bytes,
            attribute,
            created,
            ..
        } => {
            let content = written(bytes.into_vec(), offset, new_bytes)?;
            Ok(Version::Live {
                bytes: Bytes::from_vec(content),
                attribute,
                created,
                changed: moment,
            })
        }
    }
}

/// What a live version becomes by a truncation. Its object, here 0, makes no difference.
fn after_truncate(version: Version, size: u64, moment: Moment) -> Result<Version, Refusal>
    ensures ok { IfOk result (λ after. after ≡ effect (Change.Truncate 0 size) moment version) }
    ensures err { IfErr result (λ refusal. refusal ≡ NoMemory) }
{
    match version {
        Version::Absent => Ok(Version::Absent),
        Version::Live {
            bytes,
            attribute,
            created,
            ..
        } => {
            let content = resized(bytes.into_vec(), size)?;
            Ok(Version::Live {
                bytes: Bytes::from_vec(content),
                attribute,
                created,
                changed: moment,
            })
        }
    }
}

/// What a live version becomes by a new attribute. Its object, here 0, makes no difference.
fn after_set_attr(
    version: Version,
    new_attribute: &Bytes,
    moment: Moment,
) -> Result<Version, Refusal>
    ensures ok { IfOk result
        (λ after. after ≡ effect (Change.SetAttr 0 new_attribute.now) moment version) }
    ensures err { IfErr result (λ refusal. refusal ≡ NoMemory) }
{
    match version {
        Version::Absent => Ok(Version::Absent),
        Version::Live { bytes, created, .. } => Ok(Version::Live {
            bytes,
            attribute: new_attribute.copy()?,
            created,
            changed: moment,
        }),
    }
}

/// What a version becomes by a change of its object at a moment.
pub fn after_change(
    alloc: Global,
    version: Version,
    change: &Change,
    moment: Moment,
) -> Result<Version, Refusal>
    ensures ok { IfOk result (λ after. after ≡ effect change.now moment version) }
    ensures err { IfErr result (λ refusal. refusal ≡ NoMemory) }
{
    match change {
        Change::Create { attribute, .. } => Ok(Version::Live {
            bytes: Bytes::empty(alloc),
            attribute: attribute.copy()?,
            created: moment,
            changed: moment,
        }),
        Change::Delete { .. } => Ok(Version::Absent),
        Change::Write { offset, bytes, .. } => {
            after_write(version, *offset, bytes.as_slice(), moment)
        }
        Change::Truncate { size, .. } => after_truncate(version, *size, moment),
        Change::SetAttr { attribute, .. } => after_set_attr(version, attribute, moment),
        Change::SetWindow { .. } | Change::Flush { .. } | Change::FlushO { .. } => Ok(version),
    }
}

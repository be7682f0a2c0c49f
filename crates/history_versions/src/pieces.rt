//! What is printed for one moment at which a version can be read first.
ghost use Rattle.std.specs.Prelude.{◌≡◌, IfErr, IfOk, None, true, false, option_map};
ghost use Rattle.std.specs.Prelude.{string_bytes};
ghost use Rattle.serde_json.specs.Written.{compact_text};
ghost use Rattle.s4_model.specs.VersionAt.{version_of};
ghost use Rattle.s4_model.specs.Visible.{IsVisible};
ghost use Rattle.drive.specs.Fields.{state_in, store_of};
ghost use Rattle.history_versions.specs.Json.{version_data};
ghost use Rattle.history_versions.specs.Lines.{numbers_of, piece_at, version_text};
ghost use Rattle.history_versions.specs.Stops.{IsShort};

use crate::json::{VersionNumbers, version_json};
use crate::lines::VersionsAsked;
use drive::{Drive, Session};
use history_diff::Stop;
use history_view::{Listed, look_at, version_at};
use moment_words::MomentStyle;
use s4_types::{Moment, ObjectId, Version};
use segment_word::Naming;
use std::alloc::{AllocError, Global};

// The text of a version with its contents; nothing where the object isn't there.
fn whole_text(
    alloc: Global,
    version: &Version,
    at: Moment,
    style: MomentStyle,
) -> Result<Option<String>, AllocError>
    ensures { IfOk result
        (λ text. option_map string_bytes text ≡ version_text style true at version.now) }
{
    let Version::Live {
        bytes,
        attribute,
        changed,
        ..
    } = version
    else {
        return Ok(None);
    };
    let numbers = VersionNumbers {
        moment: at,
        changed: *changed,
        size: bytes.as_slice().len() as u64,
    };
    let contents = Some(bytes.as_slice());
    let text = version_json(alloc, numbers, attribute.as_slice(), contents, style)?;
    Ok(Some(text))
}

// What an object was at a moment that can be read.
fn version_seen<J: Naming>(
    alloc: Global,
    drive: &mut Drive<J>,
    session: &mut Session<J>,
    object: ObjectId,
    at: Moment,
) -> Result<Version, Stop>
    requires visible { IsVisible (state_in drive.old) object at }
    ensures version { IfOk result (λ version. version ≡ version_of (state_in drive.old) object at) }
    ensures refusal { IfErr result IsShort }
    ensures state { state_in drive.new ≡ state_in drive.old }
    ensures store { store_of drive.new ≡ store_of drive.old }
{
    match version_at(alloc, drive, session, object, at) {
        Ok(version) => Ok(version),
        Err(refusal) => Err(Stop::Refused(refusal)),
    }
}

// The text of the version that an object has at a moment that can be read, with its contents.
fn read_text<J: Naming>(
    alloc: Global,
    drive: &mut Drive<J>,
    session: &mut Session<J>,
    object: ObjectId,
    at: Moment,
    style: MomentStyle,
) -> Result<Option<String>, Stop>
    requires visible { IsVisible (state_in drive.old) object at }
    ensures text { IfOk result
        (λ text. option_map string_bytes text
        ≡ version_text style true at (version_of (state_in drive.old) object at)) }
    ensures refusal { IfErr result IsShort }
    ensures state { state_in drive.new ≡ state_in drive.old }
    ensures store { store_of drive.new ≡ store_of drive.old }
{
    let version = version_seen(alloc, drive, session, object, at)?;
    let text = whole_text(alloc, &version, at, style);
    drop(version);
    Ok(text?)
}

// The text of a version without its contents, by what is listed of the object then.
fn row_text(
    alloc: Global,
    row: &Listed,
    at: Moment,
    style: MomentStyle,
) -> Result<String, AllocError>
    ensures { IfOk result
        (λ text. string_bytes text ≡ compact_text
        (version_data style (numbers_of at row.now) row.now.attribute None)) }
{
    let numbers = VersionNumbers {
        moment: at,
        changed: row.changed,
        size: u64::from(row.size),
    };
    version_json(alloc, numbers, row.attribute.as_slice(), None, style)
}

// The text of the version that an object has at a moment that can be read, without its contents.
fn seen_text<J: Naming>(
    alloc: Global,
    drive: &mut Drive<J>,
    object: ObjectId,
    at: Moment,
    style: MomentStyle,
) -> Result<Option<String>, Stop>
    requires visible { IsVisible (state_in drive.old) object at }
    ensures text { IfOk result
        (λ text. option_map string_bytes text
        ≡ version_text style false at (version_of (state_in drive.old) object at)) }
    ensures refusal { IfErr result IsShort }
    ensures ledger { drive.new.ledger ≡ drive.old.ledger }
    ensures store { store_of drive.new ≡ store_of drive.old }
{
    match look_at(drive, object, at, false) {
        Some(row) if row.is_live => Ok(Some(row_text(alloc, &row, at, style)?)),
        _ => Ok(None),
    }
}

/// What is printed of an object for a moment at which a version of it can be read first: nothing
/// where it isn't there then, or the moment is later than those that are asked for.
pub(crate) fn piece_at<J: Naming>(
    alloc: Global,
    drive: &mut Drive<J>,
    session: &mut Session<J>,
    object: ObjectId,
    at: Moment,
    asked: &VersionsAsked,
) -> Result<Option<String>, Stop>
    requires visible { IsVisible (state_in drive.old) object at }
    ensures piece { IfOk result
        (λ piece. option_map string_bytes piece ≡ piece_at (state_in drive.old) asked.now object at) }
    ensures refusal { IfErr result IsShort }
    ensures state { state_in drive.new ≡ state_in drive.old }
    ensures store { store_of drive.new ≡ store_of drive.old }
{
    if asked.until.number() < at.number() {
        return Ok(None);
    }
    if asked.contents {
        return read_text(alloc, drive, session, object, at, asked.style);
    }
    seen_text(alloc, drive, object, at, asked.style)
}

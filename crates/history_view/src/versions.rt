//! What objects were.
ghost use Rattle.std.specs.Prelude.{◌≡◌, ◌⊎◌, true, Some, IfOk, IfErr, OnOk};
ghost use Rattle.s4_types.specs.declared.limits.TheConstants.{READ_BYTES};
ghost use Rattle.s4_types.specs.declared.refusals.Refusal.TheVariants.{NoMemory, Busy};
ghost use Rattle.s4_types.specs.declared.replies.Reply.TheVariants.{Data};
ghost use Rattle.s4_types.specs.declared.requests.Request.TheVariants.{Query};
ghost use Rattle.s4_types.specs.declared.requests.Question.TheVariants.{Read};
ghost use Rattle.s4_types.specs.declared.versions.Version.TheVariants.{Live};
ghost use Rattle.s4_model.specs.Refusals.{first_refusal, moment_refusal};
ghost use Rattle.s4_model.specs.Step.{data_of};
ghost use Rattle.s4_model.specs.VersionAt.{version_of};
ghost use Rattle.s4_model.specs.Visible.{IsVisible};
ghost use Rattle.version_store.specs.Versions.{inode_in};
ghost use Rattle.drive.specs.Fields.{state_in, store_of};
ghost use Rattle.history_view.specs.Contents.{attribute_of, content_of};

use crate::moments::is_visible;
use codec::Inode;
use drive::{Drive, Session};
use s4_model::laws::histories_go_on_record_by_record;
use s4_types::limits::READ_BYTES;
use s4_types::{Bytes, Moment, ObjectId, Question, Refusal, Reply, Request, Version};
use segment_word::Naming;
use std::alloc::{AllocError, Global};

/// The bytes of a version; none where the object isn't there.
pub fn content_of(version: &Version) -> &[u8]
    ensures { result.now ≡ content_of version.now }
{
    match version {
        Version::Absent => &[],
        Version::Live { bytes, .. } => bytes.as_slice(),
    }
}

/// The attribute of a version; none where the object isn't there.
pub fn attribute_of(version: &Version) -> &[u8]
    ensures { result.now ≡ attribute_of version.now }
{
    match version {
        Version::Absent => &[],
        Version::Live { attribute, .. } => attribute.as_slice(),
    }
}

/// Why a moment of an object can't be read, if it can't: Future above the clock, Expired below the
/// floor, else Flushed where it is hidden.
pub fn moment_refusal<J: Naming>(drive: &Drive<J>, object: ObjectId, at: Moment) -> Option<Refusal>
    ensures { result ≡ moment_refusal (state_in drive.now) object at }
{
    if is_visible(drive, object, at) {
        None
    } else if drive.clock().number() < at.number() {
        Some(Refusal::Future)
    } else if at.number() < drive.floor().number() {
        Some(Refusal::Expired)
    } else {
        Some(Refusal::Flushed)
    }
}

/// What an object was at a moment, all its bytes: read in pieces of `READ_BYTES`. The drive and its
/// clock stay, whatever is answered.
///
/// Future, Expired or Flushed exactly where the moment of the object can't be read; else NoMemory
/// where memory is refused, and Busy as a read may be.
pub fn version_at<J: Naming>(
    alloc: Global,
    drive: &mut Drive<J>,
    session: &mut Session<J>,
    object: ObjectId,
    at: Moment,
) -> Result<Version, Refusal>
    ensures version { IfOk result (λ version. version ≡ version_of (state_in drive.old) object at) }
    ensures visible { OnOk result (IsVisible (state_in drive.old) object at) }
    ensures refused { IfErr result
        (λ e. (moment_refusal (state_in drive.old) object at ≡ Some e)
        ⊎ ((e ≡ NoMemory) ⊎ (e ≡ Busy))) }
    ensures state { state_in drive.new ≡ state_in drive.old }
    ensures store { store_of drive.new ≡ store_of drive.old }
{
    drive.rules();
    if let Some(refusal) = moment_refusal(drive, object, at) {
        return Err(refusal);
    }
    match drive.inode_at(object, at) {
        Some(inode) if inode.alive => live_version(alloc, drive, session, object, at, &inode),
        _ => Ok(Version::Absent),
    }
}

// The same of an object that is live at the moment, which can be read, by its inode of then.
fn live_version<J: Naming>(
    alloc: Global,
    drive: &mut Drive<J>,
    session: &mut Session<J>,
    object: ObjectId,
    at: Moment,
    inode: &Inode,
) -> Result<Version, Refusal>
    requires visible { IsVisible (state_in drive.old) object at }
    requires there { inode_in (store_of drive.old) object at ≡ Some inode.now }
    requires alive { inode.now.alive ≡ true }
    ensures version { IfOk result (λ version. version ≡ version_of (state_in drive.old) object at) }
    ensures refused { IfErr result (λ e. (e ≡ NoMemory) ⊎ (e ≡ Busy)) }
    ensures state { state_in drive.new ≡ state_in drive.old }
    ensures store { store_of drive.new ≡ store_of drive.old }
{
    let bytes = read_whole(drive, session, object, at, inode)?;
    let Ok(attribute) = Bytes::from_slice(alloc, inode.attribute.as_slice()) else {
        return Err(Refusal::NoMemory);
    };
    Ok(Version::Live {
        bytes,
        attribute,
        created: inode.created,
        changed: inode.changed,
    })
}

// All bytes of it: as many reads as its size takes, one at least.
fn read_whole<J: Naming>(
    drive: &mut Drive<J>,
    session: &mut Session<J>,
    object: ObjectId,
    at: Moment,
    inode: &Inode,
) -> Result<Bytes, Refusal>
    requires visible { IsVisible (state_in drive.old) object at }
    requires there { inode_in (store_of drive.old) object at ≡ Some inode.now }
    requires alive { inode.now.alive ≡ true }
    ensures whole { IfOk result
        (λ bytes. Live bytes inode.now.attribute inode.now.created inode.now.changed
        ≡ version_of (state_in drive.old) object at) }
    ensures refused { IfErr result (λ e. (e ≡ NoMemory) ⊎ (e ≡ Busy)) }
    ensures state { state_in drive.new ≡ state_in drive.old }
    ensures store { store_of drive.new ≡ store_of drive.old }
{
    drive.rules();
    let mut bytes = read_piece(drive, session, object, at, 0)?.into_vec();
    let mut offset = READ_BYTES;
    while offset < u64::from(inode.size) {
        let piece = read_piece(drive, session, object, at, offset)?;
        bytes.extend_from_slice(piece.as_slice())?;
        offset += READ_BYTES;
    }
    Ok(Bytes::from_vec(bytes))
}

// The bytes of an object at a moment from an offset on, as many as one read gives.
fn read_piece<J: Naming>(
    drive: &mut Drive<J>,
    session: &mut Session<J>,
    object: ObjectId,
    at: Moment,
    offset: u64,
) -> Result<Bytes, Refusal>
    ensures read { IfOk result
        (λ bytes. data_of (version_of (state_in drive.old) object at) offset READ_BYTES
        ≡ Some (Data bytes)) }
    ensures refused { IfErr result
        (λ e. (first_refusal (state_in drive.old) session.old.role
        (Query (Read object offset READ_BYTES (Some at))) ≡ Some e) ⊎ ((e ≡ NoMemory) ⊎ (e ≡ Busy))) }
    ensures state { state_in drive.new ≡ state_in drive.old }
    ensures store { store_of drive.new ≡ store_of drive.old }
{
    drive.rules();
    histories_go_on_record_by_record();
    let request = Request::Query(Question::Read {
        object,
        offset,
        length: READ_BYTES as u32,
        at: Some(at),
    });
    match drive.request(session, request, Moment::new(0)) {
        Reply::Data(bytes) => Ok(bytes),
        Reply::Refused(refusal) => Err(refusal),
        _ => unreachable!(),
    }
}

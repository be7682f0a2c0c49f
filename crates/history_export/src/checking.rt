//! `check`: every version that can be read is read once.
ghost use Rattle.std.specs.Prelude.{◌≡◌, ◌⊎◌, ℕ, ◌<◌, List, [], ◌∷◌, All, length, Option, None};
ghost use Rattle.std.specs.Prelude.{IfOk, IfErr, OnOk};
ghost use Rattle.std.specs.Io.KnownBytes.{Appends};
ghost use Rattle.s4_types.specs.declared.refusals.Refusal.TheVariants.{NoMemory, Busy};
ghost use Rattle.s4_model.specs.Visible.{IsVisible};
ghost use Rattle.drive.specs.Fields.{state_in, store_of};
ghost use Rattle.history_export.specs.Versions.{pairs_at, pairs_of};
ghost use Rattle.history_export.specs.Checks.{ChecksAll, HasRead};

use crate::begun::beginnings;
use crate::versions::version_seen;
use drive::{Drive, Session};
use history_view::content_of;
use s4_types::{Moment, ObjectId, Refusal};
use segment_word::Naming;
use sha2::{Digest, Sha256};
use std::alloc::Global;

/// How much was read. Each count stops at 2^64 - 1, far above what a drive can have.
#[derive(Clone, Copy)]
pub struct Checked {
    /// How many versions, those before an object was made and after its deletion among them.
    pub versions: u64,
    /// How many bytes they have together.
    pub bytes: u64,
}

/// What a check has read.
#[derive(Clone, Copy)]
pub struct CheckReport {
    pub checked: Checked,
    /// The SHA-256 of the bytes of all versions, one version after the other.
    pub digest: [u8; 32],
}

// What was read so far, and the hasher that was fed with it.
#[derive(Drop)]
pub(crate) struct Reading {
    pub(crate) checked: Checked,
    pub(crate) hasher: Sha256,
}

/// What is told how far a check has come.
pub trait Progress {
    // The objects that it was told of, where they are known.
    ghost told: { Self → Option (List ℕ) };

    /// All versions of an object were read. With those of the objects before it they are this many.
    fn tell(&mut self, object: ObjectId, so_far: Checked)
        ensures told { Appends (told self.old) (told self.new) (object ∷ []) };
}

/// What shows nothing of how far a check has come.
#[derive(Clone, Copy, Drop)]
pub struct Silent;

impl Progress for Silent {
    ghost told = { λ _. None };

    fn tell(&mut self, _object: ObjectId, _so_far: Checked) {}
}

/// Reads each version that can be read of each object of a drive, once, by ascending object and
/// moment: at the first of the moments from its beginning to the next one's that can be read.
/// Counts these versions and their bytes, and gives the SHA-256 of the latter in that order, which
/// an object that isn't there at a moment adds nothing to.
///
/// NoMemory where a growth is refused, Busy where a block that is needed has no seat left.
pub fn check_all<J: Naming, P: Progress>(
    alloc: Global,
    drive: &mut Drive<J>,
    session: &mut Session<J>,
    progress: &mut P,
) -> Result<CheckReport, Refusal>
    ensures checked { IfOk result
        (λ report. ChecksAll (state_in drive.old) (store_of drive.old) report (P.told progress.old)
        (P.told progress.new)) }
    ensures refused { IfErr result (λ e. (e ≡ NoMemory) ⊎ (e ≡ Busy)) }
    ensures state { state_in drive.new ≡ state_in drive.old }
    ensures store { store_of drive.new ≡ store_of drive.old }
{
    let checked = Checked {
        versions: 0,
        bytes: 0,
    };
    let hasher = Sha256::new();
    let mut reading = Reading { checked, hasher };
    let mut last = ObjectId::new(0);
    while let Some(object) = drive.next_row(last) {
        check_object(alloc, drive, session, object, &mut reading)?;
        progress.tell(object, reading.checked);
        last = object;
    }
    let Reading { checked, hasher } = reading;
    let digest = hasher.finalize();
    Ok(CheckReport { checked, digest })
}

// Reads each version of an object that can be read.
fn check_object<J: Naming>(
    alloc: Global,
    drive: &mut Drive<J>,
    session: &mut Session<J>,
    object: ObjectId,
    reading: &mut Reading,
) -> Result<(), Refusal>
    ensures read { OnOk result
        (HasRead (state_in drive.old) (pairs_of (state_in drive.old) (store_of drive.old) object)
        reading.old reading.new) }
    ensures refused { IfErr result (λ e. (e ≡ NoMemory) ⊎ (e ≡ Busy)) }
    ensures state { state_in drive.new ≡ state_in drive.old }
    ensures store { store_of drive.new ≡ store_of drive.old }
{
    drive.rules();
    let moments = beginnings(alloc, drive, object)?;
    read_versions(alloc, drive, session, object, moments.as_slice(), reading)
}

// Reads the versions of an object at these moments.
fn read_versions<J: Naming>(
    alloc: Global,
    drive: &mut Drive<J>,
    session: &mut Session<J>,
    object: ObjectId,
    moments: &[Moment],
    reading: &mut Reading,
) -> Result<(), Refusal>
    requires some { 0 < length moments.now }
    requires visible { All (IsVisible (state_in drive.old) object) moments.now }
    ensures read { OnOk result
        (HasRead (state_in drive.old) (pairs_at object moments.now) reading.old reading.new) }
    ensures refused { IfErr result (λ e. (e ≡ NoMemory) ⊎ (e ≡ Busy)) }
    ensures state { state_in drive.new ≡ state_in drive.old }
    ensures store { store_of drive.new ≡ store_of drive.old }
{
    for moment in moments {
        read_version(alloc, drive, session, object, *moment, reading)?;
    }
    Ok(())
}

// Reads a version, counts it and hashes its bytes.
fn read_version<J: Naming>(
    alloc: Global,
    drive: &mut Drive<J>,
    session: &mut Session<J>,
    object: ObjectId,
    at: Moment,
    reading: &mut Reading,
) -> Result<(), Refusal>
    requires visible { IsVisible (state_in drive.old) object at }
    ensures read { OnOk result
        (HasRead (state_in drive.old) ((object, at) ∷ []) reading.old reading.new) }
    ensures refused { IfErr result (λ e. (e ≡ NoMemory) ⊎ (e ≡ Busy)) }
    ensures state { state_in drive.new ≡ state_in drive.old }
    ensures store { store_of drive.new ≡ store_of drive.old }
{
    let version = version_seen(alloc, drive, session, object, at)?;
    let content = content_of(&version);
    let (versions, bytes) = (reading.checked.versions, reading.checked.bytes);
    reading.checked.versions = versions.saturating_add(1);
    reading.checked.bytes = bytes.saturating_add(content.len() as u64);
    reading.hasher.update(content);
    Ok(())
}

//! How records are put to a log on a disk.
ghost use Rattle.std.specs.Prelude.{◌≡◌, ◌⊎◌, ◌+◌, ◌^◌, ◌<◌, ◌≤◌, ◌∷◌, [], ℕ, List, length};
ghost use Rattle.std.specs.Prelude.{IfErr, IsTrue, OnOk};
ghost use Rattle.sqlite_disk.specs.Disk.{Mixed, Torn};
ghost use Rattle.update_log.specs.Kept.{Continues, IsAhead, LeavesOneMore, LeavesStored};
ghost use Rattle.update_log.specs.Kept.{LeavesTheSame, Stays, Stores};
ghost use Rattle.update_log.specs.Records.{entry_of};
ghost use Rattle.update_log.specs.Refusals.{IsNoRoom, IsShort};
ghost use Rattle.update_log.specs.Sectors.{size_of, zeros};

use crate::places::Place;
use crate::records::record_of;
use crate::refusals::NotPut;
use crate::sectors::{SECTOR_BYTES, size_of_record};
use sqlite_disk::Disk;
use std::alloc::Global;

/// How many zeros are written ahead at a time, where a record doesn't need more.
pub const AHEAD_BYTES: usize = 1 << 20;

/// The most bytes that a log goes.
pub const LARGEST_LOG: usize = 1 << 40;

/// Writes a record over zeros, and answers once it is on the disk.
fn write_record<D: Disk>(
    alloc: Global,
    disk: &mut D,
    place: &mut Place,
    limit: usize,
    payload: &[u8],
) -> Result<(), NotPut>
    requires usable { IsTrue (D.Disk.is_usable disk.old) }
    requires small { length payload.now ≤ 2 ^ 24 }
    requires number { place.old.number < 2 ^ 62 }
    requires at { place.old.at < 2 ^ 62 }
    ensures stored { OnOk result
        (Continues D.Disk (entry_of limit payload.now) place.old place.new disk.old disk.new) }
    ensures usable { OnOk result (IsTrue (D.Disk.is_usable disk.new)) }
    ensures crash { LeavesOneMore D.Disk (entry_of limit payload.now) place.old disk.old disk.new }
    ensures number { OnOk result (place.new.number ≡ place.old.number + 1) }
    ensures at { OnOk result (place.new.at ≡ place.old.at + size_of (length payload.now)) }
    ensures limit { OnOk result (place.new.limit ≡ limit) }
    ensures same_place { IfErr result (λ why. IsShort why → place.new ≡ place.old) }
    ensures same_disk { IfErr result (λ why. IsShort why → disk.new ≡ disk.old) }
    ensures room { IfErr result (λ why. IsNoRoom why → ⊥) }
{
    if !disk.mixes() {
        return Err(NotPut::MayTear);
    }
    let (record, next) = record_of(alloc, place, limit, payload)?;
    disk.write_at(place.at, &record)?;
    disk.sync()?;
    *place = next;
    Ok(())
}

/// Writes zeros, and answers once they are on the disk.
pub(crate) fn write_zeros<D: Disk>(
    alloc: Global,
    disk: &mut D,
    from: usize,
    count: usize,
) -> Result<(), NotPut>
    requires usable { IsTrue (D.Disk.is_usable disk.old) }
    requires some { 0 < count }
    ensures ahead { OnOk result (IsAhead D.Disk from count disk.old disk.new) }
    ensures usable { OnOk result (IsTrue (D.Disk.is_usable disk.new)) }
    ensures clean { D.Disk.is_clean disk.new ≡ D.Disk.is_clean disk.old }
    ensures crash { (c : List ℕ) → D.Disk.may_leave disk.new c
        → D.Disk.may_leave disk.old c
        ⊎ (d : List ℕ) × (D.Disk.may_leave disk.old d × Torn from count d c) }
    ensures mixed { IsTrue (D.Disk.is_mixing disk.old) → from + count < 2 ^ 64
        → (c : List ℕ) → D.Disk.may_leave disk.new c → D.Disk.may_leave disk.old c
        ⊎ (d : List ℕ) × (D.Disk.may_leave disk.old d × Mixed from (zeros count) d c) }
    ensures same { IfErr result (λ why. IsShort why → disk.new ≡ disk.old) }
{
    let mut blank = Vec::new(alloc);
    blank.resize(count, 0)?;
    if let Err(error) = disk.write_at(from, &blank) {
        return Err(NotPut::NoRoom(error));
    }
    disk.sync()?;
    Ok(())
}

/// Lets the log go farther, by zeros that are on the disk before a record says so.
fn grow<D: Disk>(alloc: Global, disk: &mut D, place: &mut Place, ahead: usize) -> Result<(), NotPut>
    requires usable { IsTrue (D.Disk.is_usable disk.old) }
    requires number { place.old.number < 2 ^ 62 }
    requires at { place.old.at < 2 ^ 62 }
    requires limit { place.old.limit < 2 ^ 62 }
    requires room { place.old.at + 512 ≤ place.old.limit }
    requires some { 0 < ahead }
    requires few { ahead < 2 ^ 62 }
    ensures stored { OnOk result (Stays D.Disk place.old place.new disk.old disk.new) }
    ensures usable { OnOk result (IsTrue (D.Disk.is_usable disk.new)) }
    ensures crash { LeavesTheSame D.Disk place.old disk.old disk.new }
    ensures number { OnOk result (place.new.number ≡ place.old.number + 1) }
    ensures at { OnOk result (place.new.at ≡ place.old.at + 512) }
    ensures limit { OnOk result (place.new.limit ≡ place.old.limit + ahead) }
    ensures again { IfErr result (λ why. IsShort why
        → Stays D.Disk place.old place.new disk.old disk.new) }
    ensures still { IfErr result (λ why. IsShort why → IsTrue (D.Disk.is_usable disk.new)) }
{
    write_zeros(alloc, disk, place.limit, ahead)?;
    write_record(alloc, disk, place, place.limit + ahead, &[])
}

/// Makes room for a record of so many bytes, and for a sector after it.
fn make_room<D: Disk>(
    alloc: Global,
    disk: &mut D,
    place: &mut Place,
    size: usize,
) -> Result<(), NotPut>
    requires usable { IsTrue (D.Disk.is_usable disk.old) }
    requires small { size ≤ 2 ^ 25 }
    ensures stored { OnOk result (Stays D.Disk place.old place.new disk.old disk.new) }
    ensures usable { OnOk result (IsTrue (D.Disk.is_usable disk.new)) }
    ensures crash { LeavesTheSame D.Disk place.old disk.old disk.new }
    ensures number { OnOk result (place.new.number < 2 ^ 62) }
    ensures at { OnOk result (place.new.at < 2 ^ 62) }
    ensures room { OnOk result (place.new.at + size ≤ place.new.limit) }
    ensures limit { OnOk result (place.new.limit < 2 ^ 62) }
    ensures again { IfErr result (λ why. IsShort why
        → Stays D.Disk place.old place.new disk.old disk.new) }
    ensures still { IfErr result (λ why. IsShort why → IsTrue (D.Disk.is_usable disk.new)) }
{
    let is_long = place.at > LARGEST_LOG || place.limit > LARGEST_LOG;
    if is_long || place.number > LARGEST_LOG as u64 {
        return Err(NotPut::Full);
    }
    if place.at + size + SECTOR_BYTES <= place.limit {
        return Ok(());
    }
    if place.at + SECTOR_BYTES > place.limit {
        return Err(NotPut::Full);
    }
    grow(alloc, disk, place, AHEAD_BYTES.max(size + SECTOR_BYTES))
}

/// Puts a payload to the log that goes on at a place, and answers once it is on the disk. After
/// `Failed` the log has to be recovered before it goes on, and after `NoRoom`.
pub fn put<D: Disk>(
    alloc: Global,
    disk: &mut D,
    place: &mut Place,
    payload: &[u8],
) -> Result<(), NotPut>
    requires usable { IsTrue (D.Disk.is_usable disk.old) }
    requires some { 0 < length payload.now }
    requires small { length payload.now ≤ 2 ^ 24 }
    ensures stored { OnOk result (Stores D.Disk payload.now place.old place.new disk.old disk.new) }
    ensures usable { OnOk result (IsTrue (D.Disk.is_usable disk.new)) }
    ensures crash { LeavesStored D.Disk payload.now place.old disk.old disk.new }
    // Where memory was refused, or the log is as long as one may be, it goes on.
    ensures again { IfErr result (λ why. IsShort why
        → Stays D.Disk place.old place.new disk.old disk.new) }
    ensures still { IfErr result (λ why. IsShort why → IsTrue (D.Disk.is_usable disk.new)) }
    // Where there was no room ahead of it, a crash leaves what was put before.
    ensures no_room { IfErr result (λ why. IsNoRoom why
        → LeavesTheSame D.Disk place.old disk.old disk.new) }
{
    make_room(alloc, disk, place, size_of_record(payload.len()))?;
    write_record(alloc, disk, place, place.limit, payload)
}

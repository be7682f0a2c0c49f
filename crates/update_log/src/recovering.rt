//! How a log is taken from a disk after a crash, and how a new one is made.
ghost use Rattle.std.specs.Prelude.{◌≡◌, ◌+◌, ◌^◌, ◌<◌, ◌≤◌, [], length};
ghost use Rattle.std.specs.Prelude.{IfOk, IsTrue, OnOk};
ghost use Rattle.update_log.specs.Kept.{Clears, IsReady, LeavesCleared};

use crate::headers::header_of;
use crate::places::Place;
use crate::putting::write_zeros;
use crate::refusals::NotPut;
use crate::tails::count_nonzeros;
use sqlite_disk::Disk;
use std::alloc::Global;

/// Puts zeros where bytes of a torn record are, and answers once they are on the disk: this comes
/// after `accept`, and before the first `put`. The tail is what `tail` gives of the disk's bytes.
pub fn clear<D: Disk>(alloc: Global, disk: &mut D, place: &Place, tail: &[u8]) -> Result<(), NotPut>
    requires usable { IsTrue (D.Disk.is_usable disk.old) }
    requires at { place.now.at ≤ place.now.limit }
    requires limit { place.now.limit < 2 ^ 63 }
    requires tail { length tail.now + place.now.at ≡ place.now.limit }
    ensures ready { OnOk result (Clears D.Disk tail.now place.now disk.old disk.new) }
    ensures usable { OnOk result (IsTrue (D.Disk.is_usable disk.new)) }
    ensures clean { D.Disk.is_clean disk.new ≡ D.Disk.is_clean disk.old }
    ensures crash { LeavesCleared D.Disk place.now disk.old disk.new }
{
    if count_nonzeros(tail) == 0 {
        disk.sync()?;
        return Ok(());
    }
    if !disk.mixes() {
        return Err(NotPut::MayTear);
    }
    write_zeros(alloc, disk, place.at, tail.len())
}

/// Makes a log of the image whose last 32 bytes are given, without records, over so many bytes, and
/// answers once it is on the disk. A crash may leave no log: only then is it to get the name that
/// it is looked for by.
pub fn create<D: Disk>(
    alloc: Global,
    disk: &mut D,
    image: &[u8],
    limit: usize,
) -> Result<Place, NotPut>
    requires usable { IsTrue (D.Disk.is_usable disk.old) }
    requires image { length image.now ≡ 32 }
    requires limit { 512 ≤ limit }
    ensures ready { IfOk result (λ place. IsReady D.Disk image.now [] place disk.new) }
    ensures usable { OnOk result (IsTrue (D.Disk.is_usable disk.new)) }
{
    let (header, place) = header_of(alloc, image, limit)?;
    write_zeros(alloc, disk, 0, limit)?;
    disk.write_at(0, &header)?;
    disk.sync()?;
    Ok(place)
}

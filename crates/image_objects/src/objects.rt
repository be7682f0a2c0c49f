//! A whole object.
ghost use Rattle.std.specs.Prelude.{◌≡◌, IfSome, IfNone, IfOk, IfErr};
ghost use Rattle.s4_types.specs.declared.refusals.Refusal.TheVariants.{NoMemory};
ghost use Rattle.image_objects.specs.Objects.{ObjectStands};
ghost use Rattle.image_objects.specs.Versions.{ObjectStandsBy};
ghost use Rattle.image_objects.specs.Read.{IsRead, IsReadBy};

use crate::pointers::is_row_led;
use crate::tidiness::are_tidy;
use crate::version_chains::with_chain_bytes;
use crate::{ImageRow, UsedBlocks, VersionChain, VersionsRead, read_version_chain_by};
use codec::ImageVersion;
use s4_types::{Moment, Refusal};
use std::alloc::Global;

/// An object of an image of a version whose clock is at a moment. None exactly where the object
/// isn't there.
///
/// NoMemory alone, where the memory for the entries is refused. Linear in the chain's blocks.
pub fn read_object_by<U: UsedBlocks>(
    alloc: Global,
    version: ImageVersion,
    used: &U,
    row: &ImageRow,
    clock: Moment,
) -> Result<Option<VersionsRead>, Refusal>
    ensures stands { IfOk result
        (λ found. IfSome found
        (λ versions. ObjectStandsBy version (U.used used.now) row.now clock)) }
    ensures only { IfOk result
        (λ found. IfNone found
        (ObjectStandsBy version (U.used used.now) row.now clock → ⊥)) }
    ensures read { IfOk result
        (λ found. IfSome found (IsReadBy version (U.used used.now) row.now)) }
    ensures refusal { IfErr result (λ e. e ≡ NoMemory) }
{
    let Some(versions) = read_version_chain_by(alloc, version, used, row, clock)? else {
        return Ok(None);
    };
    let entries = versions.chain.entries.as_slice();
    if !is_row_led(used, row, entries) {
        return Ok(None);
    }
    if !are_tidy(used, &versions.first, entries) {
        return Ok(None);
    }
    Ok(Some(versions))
}

/// What a drive keeps of an object of an image whose clock is at a moment. None exactly where the
/// object isn't there.
///
/// NoMemory alone, where the memory for the entries is refused. Linear in the chain's blocks.
pub fn read_object<U: UsedBlocks>(
    alloc: Global,
    used: &U,
    row: &ImageRow,
    clock: Moment,
) -> Result<Option<VersionChain>, Refusal>
    ensures stands { IfOk result
        (λ found. IfSome found (λ versions. ObjectStands (U.used used.now) row.now clock)) }
    ensures only { IfOk result
        (λ found. IfNone found (ObjectStands (U.used used.now) row.now clock → ⊥)) }
    ensures read { IfOk result (λ found. IfSome found (IsRead (U.used used.now) row.now)) }
    ensures refusal { IfErr result (λ e. e ≡ NoMemory) }
{
    let Some(versions) = read_object_by(alloc, ImageVersion::Second, used, row, clock)? else {
        return Ok(None);
    };
    let versions = with_chain_bytes(versions);
    Ok(Some(versions))
}

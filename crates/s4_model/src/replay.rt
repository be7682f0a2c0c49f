ghost use Rattle.std.specs.Prelude.{◌≡◌, [], ◌∷◌, IfOk, IfErr};
ghost use Rattle.s4_model.specs.VersionAt.{version_after};
ghost use Rattle.s4_types.specs.declared.refusals.Refusal.TheVariants.{NoMemory};
ghost use Rattle.s4_types.specs.declared.versions.Version.TheVariants.{Absent};

use crate::effects;
use s4_types::{Accepted, Moment, ObjectId, Refusal, Version};
use std::alloc::Global;

/// What a version of the object becomes by one more accepted change, if that is one of the object's
/// and not after the moment.
fn version_with(
    alloc: Global,
    version: Version,
    accepted: &Accepted,
    object: ObjectId,
    at: Moment,
) -> Result<Version, Refusal>
    ensures ok { IfOk result
        (λ after. after ≡ version_after version (accepted.now ∷ []) object at) }
    ensures err { IfErr result (λ refusal. refusal ≡ NoMemory) }
{
    if effects::is_change_of(object, &accepted.change) && accepted.moment <= at {
        return effects::after_change(alloc, version, &accepted.change, accepted.moment);
    }
    Ok(version)
}

/// The version that an object has at a moment by these accepted changes alone, from no version on:
/// the definition, computed plainly, in time linear in the changes and their bytes.
///
/// `NoMemory` where memory for the version was refused.
pub fn version_at(
    alloc: Global,
    changes: &[Accepted],
    object: ObjectId,
    at: Moment,
) -> Result<Version, Refusal>
    ensures ok { IfOk result (λ version. version ≡ version_after Absent changes.now object at) }
    ensures err { IfErr result (λ refusal. refusal ≡ NoMemory) }
{
    let mut version = Version::Absent;
    for accepted in changes {
        version = version_with(alloc, version, accepted, object, at)?;
    }
    Ok(version)
}

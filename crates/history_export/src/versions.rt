//! Versions at moments that can be read.
ghost use Rattle.std.specs.Prelude.{◌≡◌, ◌⊎◌, IfOk, IfErr};
ghost use Rattle.s4_types.specs.declared.refusals.Refusal.TheVariants.{NoMemory, Busy};
ghost use Rattle.s4_model.specs.VersionAt.{version_of};
ghost use Rattle.s4_model.specs.Visible.{IsVisible};
ghost use Rattle.drive.specs.Fields.{state_in, store_of};

use drive::{Drive, Session};
use history_view::version_at;
use s4_types::{Moment, ObjectId, Refusal, Version};
use segment_word::Naming;
use std::alloc::Global;

/// What an object was at a moment that can be read.
pub(crate) fn version_seen<J: Naming>(
    alloc: Global,
    drive: &mut Drive<J>,
    session: &mut Session<J>,
    object: ObjectId,
    at: Moment,
) -> Result<Version, Refusal>
    requires visible { IsVisible (state_in drive.old) object at }
    ensures version { IfOk result (λ version. version ≡ version_of (state_in drive.old) object at) }
    ensures refused { IfErr result (λ e. (e ≡ NoMemory) ⊎ (e ≡ Busy)) }
    ensures state { state_in drive.new ≡ state_in drive.old }
    ensures store { store_of drive.new ≡ store_of drive.old }
{
    version_at(alloc, drive, session, object, at)
}

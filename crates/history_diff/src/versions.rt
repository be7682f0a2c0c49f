//! Whether a version is absent.
ghost use Rattle.std.specs.Prelude.{◌≡◌};
ghost use Rattle.s4_model.specs.Refusals.{is_absent};

use s4_types::Version;

pub(crate) fn is_absent(version: &Version) -> bool
    ensures { result ≡ is_absent version.now }
{
    match version {
        Version::Absent => true,
        Version::Live { .. } => false,
    }
}

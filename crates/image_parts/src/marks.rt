ghost use Rattle.std.specs.Prelude.{◌≡◌, ◌≤◌, MatchBool, length};
ghost use Rattle.image_parts.specs.Marks.{records_of, earlier_in, IsAuditCount};

use codec::ImageVersion;

/// What the header of an image begins with, which says how the image is encoded.
#[derive(Clone, Copy)]
pub enum ImageMark {
    /// That of an earlier version. No image has it that is written now, and none that has it has
    /// audit rows.
    Earlier(ImageVersion),
    /// What is written now: its records are those of the second version.
    Third,
}

impl ImageMark {
    /// The version by which the records of such an image are encoded.
    pub fn records(self) -> ImageVersion
        ensures { result ≡ records_of self }
    {
        match self {
            ImageMark::Earlier(version) => version,
            ImageMark::Third => ImageVersion::Second,
        }
    }

    /// Whether such an image can have this many audit rows.
    pub(crate) fn is_audit_count(self, count: u64) -> bool
        ensures { MatchBool result (IsAuditCount self count) (IsAuditCount self count → ⊥) }
    {
        match self {
            ImageMark::Earlier(_) => count == 0,
            ImageMark::Third => true,
        }
    }
}

/// The earlier version whose mark the bytes begin with; the second, where they begin with neither
/// mark.
pub fn earlier_version(front: &[u8]) -> ImageVersion
    requires { 8 ≤ length front.now }
    ensures { result ≡ earlier_in front.now }
{
    if front[7] == 0x31 {
        ImageVersion::First
    } else {
        ImageVersion::Second
    }
}

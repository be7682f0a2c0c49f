//! Laws of the parts of an image once a moment was seen: each function does nothing, and its
//! contract is the law.
ghost use Rattle.std.specs.Prelude.{◌<◌, ◌^◌, ℕ};
ghost use Rattle.s4_types.specs.History.{Base};
ghost use Rattle.image_parts.specs.Image.{Image as ImageParts, image_bytes};
ghost use Rattle.verifier.specs.Grammar.{SpellsDrive};
ghost use Rattle.verifier.specs.Opened.{IsToldBy};
ghost use Rattle.verifier.specs.Seen.{GoesOnSeen, parts_seen};

use codec::laws::{a_summary_has_one_encoding, one_pointer_a_spelling};

/// Where parts are the image of a drive, they are one too with the clock, floor, spans and audit
/// rows that follow once a moment was seen; and what begins with these goes on where what begins
/// with the parts before has seen the moment.
pub fn an_image_sees_a_moment()
    ensures image { (parts : ImageParts) (moment : ℕ) → moment < 2 ^ 64
        → SpellsDrive (image_bytes parts) parts
        → SpellsDrive (image_bytes (parts_seen parts moment)) (parts_seen parts moment) }
    ensures goes_on { (parts : ImageParts) (moment : ℕ) (base : Base)
        → SpellsDrive (image_bytes parts) parts → IsToldBy (parts_seen parts moment) base
        → GoesOnSeen parts moment base }
{
    a_summary_has_one_encoding();
    one_pointer_a_spelling();
}

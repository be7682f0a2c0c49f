ghost use Rattle.std.specs.Prelude.{◌≡◌, ◌⊎◌, ℕ, ◌+◌, ◌≤◌, ◌<◌, List, [], ◌∷◌, ◌++◌, length, take};
ghost use Rattle.std.specs.Prelude.{drop, vec_capacity};
ghost use Rattle.s4_types.specs.declared.limits.TheConstants.{FRAME_BODY_BYTES};
ghost use Rattle.rpc.specs.Stream.{IsPartial};
ghost use Rattle.rpc.specs.private.Filling.{wanted, HasFrameRoom, IsFilled, IsToppedUp};

use crate::frames::told_length;
use crate::room::put;
use s4_types::limits::FRAME_BODY_BYTES;

/// The length that the held bytes shall get.
#[tactic(auto, unfolding(crate::specs::private::Filling::wanted))]
fn wanted_length(held: &[u8]) -> usize
    ensures length { result ≡ wanted held.now }
    ensures bound { result ≤ 4 + FRAME_BODY_BYTES }
{
    if held.len() < 4 {
        return 4;
    }
    let told = told_length(held) as usize;
    if told > FRAME_BODY_BYTES { 4 } else { 4 + told }
}

/// Moves bytes of the piece after the held ones until these have the wanted length, and gives the
/// rest.
fn fill<'a>(held: &mut Vec<u8>, piece: &'a [u8]) -> &'a [u8]
    requires room { HasFrameRoom held.old }
    requires short { length held.old.items ≤ wanted held.old.items }
    ensures filled { IsFilled held.old.items held.new.items piece.now result.now }
    ensures room { HasFrameRoom held.new }
{
    let missing = wanted_length(held.as_slice()) - held.len();
    let count = missing.min(piece.len());
    let (front, left) = piece.split_at(count);
    put(held, front);
    left
}

/// Moves bytes of the piece after the held ones until these are a whole frame, or have told an
/// oversized length, and gives the rest. Twice, since the first bytes tell how many more there are.
pub(crate) fn top_up<'a>(held: &mut Vec<u8>, piece: &'a [u8]) -> &'a [u8]
    requires room { HasFrameRoom held.old }
    requires partial { IsPartial held.old.items }
    ensures topped_up { IsToppedUp held.old.items held.new.items piece.now result.now }
    ensures room { HasFrameRoom held.new }
{
    let left = fill(held, piece);
    fill(held, left)
}

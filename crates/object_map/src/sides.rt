ghost use Rattle.std.specs.Prelude.{◌≡◌, ◌+◌, ◌-◌, ◌<◌, ◌≤◌, ◌++◌, [], ◌∷◌, length, drop};
ghost use Rattle.std.specs.Prelude.{replicate};
ghost use Rattle.s4_types.specs.declared.limits.TheConstants.{SIDES};
ghost use Rattle.object_map.specs.Sides.{sides_with, side_dropped};
ghost use Rattle.object_map.specs.private.Padding.{no_side, padded_sides};
ghost use Rattle.std.specs.Option.{option_to_list};

use s4_types::limits::SIDES;
use s4_types::{Moment, Ptr};
use std::marker::Model;

/// An older checkpoint of an object.
#[derive(Clone, Copy, PartialEq, Eq)]
pub struct Side {
    /// The moment of its inode.
    pub moment: Moment,
    /// Where it is written.
    pub place: Ptr,
}

/// The older checkpoints of an object, at most `SIDES`, the oldest first. Contracts see their list.
#[derive(Clone, Copy, PartialEq, Eq)]
pub struct Sides {
    count: u8,
    // Blank after those that are counted.
    kept: [Side; SIDES],
}

impl Model for Sides {
    ghost use Rattle.std.specs.Prelude.{◌≡◌, ◌≤◌, List, length, take};
    ghost use Rattle.s4_types.specs.declared.limits.TheConstants.{SIDES};
    ghost use Rattle.object_map.specs.declared.sides.Side.{Side};
    ghost use Rattle.object_map.specs.private.Padding.{padded_sides};
    ghost use Rattle.object_map.specs.private.Cutting.{cut_sides};

    ghost Value = { List Side };

    ghost view = { λ s. take s.count s.kept };

    ghost invariant = { λ s. (s.count ≤ SIDES) × ((length s.kept ≡ SIDES) × (padded_sides (take s.count s.kept) ≡ s.kept)) };

    ghost inverse = { λ sides. record { count = length sides; kept = padded_sides sides } };

    ghost inverse_ok = { λ s h. cut_sides s h };
}

fn blank_side() -> Side
    ensures { result ≡ no_side }
{
    Side {
        moment: Moment::new(0),
        place: Ptr::new(0, 1, 1).unwrap(),
    }
}

fn blank_sides() -> [Side; SIDES]
    ensures { result ≡ replicate SIDES no_side }
{
    let side = blank_side();
    [side; SIDES]
}

/// The sides, and blank ones after them.
#[tactic(auto, using(crate::proofs::Padded::filled))]
fn padded(sides: &[Side]) -> [Side; SIDES]
    requires { length sides.now ≤ SIDES }
    ensures { result ≡ padded_sides sides.now }
{
    let mut padded = blank_sides();
    padded[..sides.len()].copy_from_slice(sides);
    padded
}

/// The sides and this one after them, and blank ones after it.
#[tactic(auto, using(crate::proofs::Padded::padded_more))]
fn padded_with(sides: &[Side], side: Side) -> [Side; SIDES]
    requires { length sides.now < SIDES }
    ensures { result ≡ padded_sides (sides.now ++ side ∷ []) }
{
    let mut padded = padded(sides);
    padded[sides.len()] = side;
    padded
}

/// The sides that stay where one more comes.
fn staying(sides: &[Side]) -> &[Side]
    requires { length sides.now ≤ SIDES }
    ensures { result.now ≡ drop (length sides.now + 1 - SIDES) sides.now }
{
    if sides.len() < SIDES {
        return sides;
    }
    &sides[1..]
}

/// The side that goes where one more comes.
fn going(sides: &[Side]) -> Option<Side>
    ensures { result ≡ side_dropped sides.now }
{
    if sides.len() < SIDES {
        return None;
    }
    sides.first().copied()
}

impl Sides {
    /// No older checkpoints.
    pub fn new() -> Self
        ensures { result ≡ [] }
    {
        Sides {
            count: 0,
            kept: blank_sides(),
        }
    }

    /// The older checkpoints, at most `SIDES`, the oldest first.
    pub fn as_slice(&self) -> &[Side]
        ensures value { result.now ≡ self.now }
        ensures few { length self.now ≤ SIDES }
    {
        &self.kept[..self.count as usize]
    }

    /// Appends an older checkpoint. The first of `SIDES` goes for it, and is answered; of fewer
    /// none goes. So what went and what is kept are all, in order.
    pub fn push(&mut self, side: Side) -> Option<Side>
        ensures sides { self.new ≡ sides_with self.old side }
        ensures dropped { result ≡ side_dropped self.old }
        ensures all { option_to_list result ++ self.new ≡ self.old ++ side ∷ [] }
    {
        let sides = *self;
        let older = sides.as_slice();
        let kept = staying(older);
        *self = Sides {
            count: kept.len() as u8 + 1,
            kept: padded_with(kept, side),
        };
        going(older)
    }
}

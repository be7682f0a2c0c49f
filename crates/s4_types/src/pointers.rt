ghost use Rattle.std.specs.Prelude.{◌≡◌, ◌≤◌, ◌↔◌, IsSome, IfSome};
ghost use Rattle.s4_types.specs.Pointer.{Place, IsPlace};

use std::marker::Model;

/// Where a block lies: a payload block of a frame, at one generation of that frame.
///
/// Contracts see the record of the three numbers. A pointer to a hole is no pointer: what may be a
/// hole is an `Option<Ptr>`.
#[derive(Clone, Copy, PartialEq, Eq, Hash)]
pub struct Ptr {
    frame: u16,
    block: u8,
    generation: u32,
}

impl Model for Ptr {
    ghost Value = { Place };

    ghost view = { λ p. record { frame = p.frame; block = p.block; generation = p.generation } };

    ghost invariant = { λ p. IsPlace (record { frame = p.frame; block = p.block; generation = p.generation }) };

    ghost inverse = { λ p. record { frame = p.frame; block = p.block; generation = p.generation } };
}

impl Ptr {
    /// The pointer to a block, from 1 to 15, of a frame at a generation from 1 to 2^32 - 2. None
    /// where a number is out of its range.
    pub fn new(frame: u16, block: u8, generation: u32) -> Option<Self>
        ensures place { IsSome result ↔ IsPlace (record { frame = frame; block = block; generation = generation }) }
        ensures value { IfSome result (λ p. p ≡ record { frame = frame; block = block; generation = generation }) }
    {
        if block < 1 || block > 15 || generation < 1 || generation == u32::MAX {
            return None;
        }
        Some(Ptr {
            frame,
            block,
            generation,
        })
    }

    pub fn frame(self) -> u16
        ensures { result ≡ self.frame }
    {
        self.frame
    }

    /// The number of the block, from 1 to 15.
    pub fn block(self) -> u8
        ensures block { result ≡ self.block }
        ensures range { IsPlace self }
    {
        self.block
    }

    /// The generation of the frame, from 1 to 2^32 - 2.
    pub fn generation(self) -> u32
        ensures generation { result ≡ self.generation }
        ensures range { IsPlace self }
    {
        self.generation
    }
}

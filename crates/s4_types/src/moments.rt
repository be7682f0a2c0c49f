ghost use Rattle.std.specs.Prelude.{◌≡◌, ℕ};

use std::marker::Model;

/// A moment of the drive's own clock, from 0 to 2^64 - 1. Contracts see its number.
#[derive(Clone, Copy, Debug, PartialEq, Eq, PartialOrd, Ord, Hash)]
pub struct Moment {
    number: u64,
}

impl Model for Moment {
    ghost Value = { ℕ };

    ghost view = { λ m. m.number };

    ghost inverse = { λ n. record { number = n } };
}

impl Moment {
    pub const fn new(number: u64) -> Self
        ensures { result ≡ number }
    {
        Moment { number }
    }

    pub const fn number(self) -> u64
        ensures { result ≡ self }
    {
        self.number
    }
}

/// The number of an object: numbers are given from 1 on, in ascending order, and never again.
/// Contracts see the number.
#[derive(Clone, Copy, Debug, PartialEq, Eq, PartialOrd, Ord, Hash)]
pub struct ObjectId {
    number: u64,
}

impl Model for ObjectId {
    ghost Value = { ℕ };

    ghost view = { λ o. o.number };

    ghost inverse = { λ n. record { number = n } };
}

impl ObjectId {
    pub const fn new(number: u64) -> Self
        ensures { result ≡ number }
    {
        ObjectId { number }
    }

    pub const fn number(self) -> u64
        ensures { result ≡ self }
    {
        self.number
    }
}

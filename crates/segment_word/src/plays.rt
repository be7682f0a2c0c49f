//! What each step on a word tells its seat, and how pins and memories go from one seat to another.
ghost use Rattle.segment_word.specs.Frames.{nothing_known};
ghost use Rattle.segment_word.specs.Steps.{Raises, Stores, Looks, ReadsBlockWord, Frees, Pins};
ghost use Rattle.segment_word.specs.Steps.{Unpins, pins_of, without_pins, memory_of, joined_view};

use crate::rule::Known;
use atomic_table::{Join, Play, Split};

/// Open, seal or mark.
pub struct Raise;

impl Play<(), Known> for Raise {
    ghost then = { Raises };
}

/// Release.
pub struct Free;

impl Play<(), Known> for Free {
    ghost then = { Frees };
}

/// Store of a block word.
pub struct Store;

impl Play<(), Known> for Store {
    ghost then = { Stores };
}

/// Load by the drive's seat.
pub struct Look;

impl Play<(), Known> for Look {
    ghost then = { Looks };
}

/// Load by the seat of a pin.
pub struct Read;

impl Play<(), Known> for Read {
    ghost then = { ReadsBlockWord };
}

/// One reader more.
pub struct Gain;

impl Play<(), Known> for Gain {
    ghost then = { Pins };
}

/// One reader less.
pub struct Lose;

impl Play<(), Known> for Lose {
    ghost then = { Unpins };
}

/// Cuts a view from its pins.
pub struct Hand;

impl Split<Known> for Hand {
    ghost left = { without_pins };

    ghost right = { pins_of };
}

/// Leaves a view as it is. The new seat remembers what that one remembers and counts on.
pub struct Remember;

impl Split<Known> for Remember {
    ghost left = { λ v. v };

    ghost right = { memory_of };
}

/// Puts the pins of another seat, and what it remembers, before a seat's own.
pub struct Receive;

impl Join<Known> for Receive {
    ghost both = { joined_view };

    ghost spent = { nothing_known };
}

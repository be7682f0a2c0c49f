//! Memories: what a pin counted on, after the pin is gone.
use crate::steps::Place;
use std::marker::Model;

/// What a pin counted on when the memory was made. It keeps no frame from being released, is none
/// of the seats that pins have, and lives as long as it likes. `DriveSeat::recall` tells what is
/// still true of it.
#[derive(Drop)]
pub struct Memory {
    pub(crate) seat: Place,
}

impl Model for Memory {
    ghost use Rattle.segment_word.specs.Handles.{Remembered};

    ghost Value = { Remembered };

    ghost view = { λ m. record { table = m.seat.table_id; remembered = m.seat.me.0.remembered } };
}

//! What the drive's seat and all pins share: the table, and a perch for each seat that a pin may
//! have.
ghost use Rattle.std.specs.Prelude.{◌≡◌, All, vec_len};
ghost use Rattle.segment_word.specs.Frames.{nothing_known};
ghost use Rattle.segment_word.specs.Handles.{IsSized};

use crate::rule::{Known, OneRule};
use atomic_table::{Perch, Table};
use std::alloc::Global;
use std::snapshot::Snapshot;

/// The table of a drive's frames.
pub type FrameTable = Table<(), Known, Snapshot<Vec<u64>>, OneRule, Global>;

#[derive(Drop)]
pub struct Board {
    pub table: FrameTable,
    pub perches: Vec<Perch<(), Known>>,
    ghost sized: { IsSized table.shared.table_id },
    ghost rests: { All (λ r. (r.table_id ≡ table.shared.table_id) × (r.view ≡ nothing_known)) perches.items },
}

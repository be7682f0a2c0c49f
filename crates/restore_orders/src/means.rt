//! By which means room is made in a drive before objects are restored.
ghost use Rattle.std.specs.Prelude.{◌≡◌, IfErr, OnOk};
ghost use Rattle.s4_types.specs.declared.refusals.Refusal.TheVariants.{NoRoom};
ghost use Rattle.restore_orders.specs.Means.{HasNoMeans, IsCompactedBy};

use drive::{Drive, Session};
use drive_compaction::{compact, compact_by_moves};
use s4_types::Refusal;
use segment_word::Naming;
use std::alloc::Global;

/// By which means room is made in a drive before objects are restored.
#[derive(Clone, Copy, PartialEq, Eq)]
pub enum Means {
    /// None is made.
    Nothing,
    /// As `compact` does: objects are cleaned, and frames are emptied by moves.
    Cleaning,
    /// Frames are emptied by moves alone.
    Moves,
}

/// Makes room by these means. NoRoom where they cost more blocks than they free; then the drive
/// isn't to be used any more, as with each refusal, which are those of `compact`.
pub fn compact_for<J: Naming>(
    alloc: Global,
    drive: &mut Drive<J>,
    session: &mut Session<J>,
    means: Means,
) -> Result<(), Refusal>
    ensures compacted { OnOk result (IsCompactedBy means drive.old drive.new) }
    ensures refused { IfErr result (λ e. e ≡ NoRoom → HasNoMeans means drive.old) }
{
    match means {
        Means::Nothing => Ok(()),
        Means::Cleaning => {
            let _compaction = compact(alloc, drive, session)?;
            Ok(())
        }
        Means::Moves => {
            let _compaction = compact_by_moves(alloc, drive, session)?;
            Ok(())
        }
    }
}

//! The cleaner's pass over a drive that may have too little room for it.
ghost use Rattle.std.specs.Prelude.{◌≡◌, ◌⊎◌, true, IfOk, IfErr};
ghost use Rattle.s4_types.specs.declared.refusals.Refusal.TheVariants.{NoMemory};
ghost use Rattle.drive_compaction.specs.Emptying.{KeepsAll, FindsReader};
ghost use Rattle.drive_compaction.specs.Cleaning.{Passes};

use drive::Drive;
use history_cleaner::{PassReport, empty_frames, full_pass};
use s4_types::Refusal;
use segment_word::Naming;
use std::alloc::Global;

/// Cleans all objects and frees each frame that holds nothing then. Where that stops for too little
/// room, the frames that hold nothing are freed all the same, and there is no report.
///
/// NoMemory where memory is refused, InUse where a frame that is being emptied has a reader. What
/// was cleaned stays cleaned.
fn clean<J: Naming>(alloc: Global, drive: &mut Drive<J>) -> Result<Option<PassReport>, Refusal>
    ensures passed { IfOk result (λ pass. Passes true drive.old pass drive.new) }
    ensures refusal { IfErr result (λ e. (e ≡ NoMemory) ⊎ FindsReader drive.old drive.new e) }
    ensures keeps { KeepsAll drive.old drive.new }
{
    match full_pass(alloc, drive) {
        Ok(report) => Ok(Some(report)),
        Err(Refusal::NoRoom) => {
            empty_frames(drive)?;
            Ok(None)
        }
        Err(refusal) => Err(refusal),
    }
}

/// Before frames are emptied: all objects are cleaned, or with `cleans` false none is; and each
/// frame that holds nothing then is freed.
///
/// NoMemory where memory is refused, InUse where a frame that is being emptied has a reader. What
/// was cleaned stays cleaned.
pub(crate) fn prepare<J: Naming>(
    alloc: Global,
    drive: &mut Drive<J>,
    cleans: bool,
) -> Result<Option<PassReport>, Refusal>
    ensures passed { IfOk result (λ pass. Passes cleans drive.old pass drive.new) }
    ensures refusal { IfErr result (λ e. (e ≡ NoMemory) ⊎ FindsReader drive.old drive.new e) }
    ensures keeps { KeepsAll drive.old drive.new }
{
    if cleans {
        return clean(alloc, drive);
    }
    empty_frames(drive)?;
    Ok(None)
}

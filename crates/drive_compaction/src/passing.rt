//! A full pass over a drive that was compacted.
ghost use Rattle.std.specs.Prelude.{◌≡◌, ◌⊎◌, IfOk, IfErr};
ghost use Rattle.s4_types.specs.declared.refusals.Refusal.TheVariants.{NoMemory};
ghost use Rattle.drive.specs.Fields.{state_in, store_of};
ghost use Rattle.drive.specs.Keeping.{KeepsVersions};
ghost use Rattle.drive_compaction.specs.Emptying.{FindsReader};
ghost use Rattle.drive_compaction.specs.Passing.{PassesOver};

use crate::left::blocks_left;
use drive::Drive;
use history_cleaner::full_pass;
use s4_types::Refusal;
use segment_word::Naming;
use std::alloc::Global;

/// How a full pass over a drive ended.
#[derive(Clone, Copy)]
pub enum FullPass {
    /// It came to its end, and no fewer blocks are left than before.
    Made,
    /// It came to its end, and fewer are left.
    CostsRoom,
    /// It stopped at an object for too little room.
    Refused,
}

/// Makes a full pass over a drive: all objects are cleaned, and each frame that holds nothing then
/// is freed. Says how it ended. Where it came to its end, of every object exactly those data blocks
/// are held that its readable versions reach, also where that cost room. Where it was refused, what
/// was cleaned before stays so.
///
/// NoMemory where memory is refused, InUse where a frame that is being emptied has a reader. The
/// history and every version that can be read stay, whatever is answered.
#[tactic(auto, using(crate::proofs::LeftAhead::no_less))]
pub fn pass_over<J: Naming>(alloc: Global, drive: &mut Drive<J>) -> Result<FullPass, Refusal>
    ensures passed { IfOk result (λ pass. PassesOver pass drive.old drive.new) }
    ensures refusal { IfErr result (λ e. (e ≡ NoMemory) ⊎ FindsReader drive.old drive.new e) }
    ensures ledger { drive.new.ledger ≡ drive.old.ledger }
    ensures needed { KeepsVersions (state_in drive.old) (store_of drive.old) (store_of drive.new) }
{
    let before = blocks_left(drive);
    match full_pass(alloc, drive) {
        Ok(_) => {
            if blocks_left(drive) < before {
                return Ok(FullPass::CostsRoom);
            }
            Ok(FullPass::Made)
        }
        Err(Refusal::NoRoom) => Ok(FullPass::Refused),
        Err(refusal) => Err(refusal),
    }
}

//! What an object holds in a frame.
ghost use Rattle.std.specs.Prelude.{◌≡◌, ◌<◌, filter, take, IfOk, IfErr, MatchBool};
ghost use Rattle.s4_types.specs.declared.refusals.Refusal.TheVariants.{NoMemory};
ghost use Rattle.block_log.specs.Log.{same_kind};
ghost use Rattle.block_log.specs.declared.kinds.BlockKind.TheVariants.{Data};
ghost use Rattle.segment_table.specs.Table.{held_at};
ghost use Rattle.segment_copier.specs.Moves.{is_data};

use block_log::BlockKind;
use codec::BlockRole;
use drive::Drive;
use s4_types::{Ptr, Refusal};
use segment_table::OverFrames;
use segment_word::Naming;
use std::alloc::Global;

/// Whether a block is of data.
pub fn is_of_data(role: &BlockRole) -> bool
    ensures { result ≡ same_kind Data role.now.kind }
{
    matches!(role.kind, BlockKind::Data)
}

/// Whether a pointer refers to a held data block.
fn leads_to_data<J: Naming>(drive: &mut Drive<J>, place: Ptr) -> bool
    ensures found { result ≡ is_data (held_at drive.old.store.table place) }
    ensures same { drive.new ≡ drive.old }
{
    match drive.role(place) {
        Some(role) => is_of_data(&role),
        None => false,
    }
}

/// Of these pointers those that lead to held data blocks, in their order.
pub(crate) fn data_among<J: Naming>(
    alloc: Global,
    drive: &mut Drive<J>,
    pointers: &[Ptr],
) -> Result<Vec<Ptr>, Refusal>
    ensures found { IfOk result
        (λ places. places.items
        ≡ filter (λ p. is_data (held_at drive.old.store.table p)) pointers.now) }
    ensures refusal { IfErr result (λ e. e ≡ NoMemory) }
    ensures same { drive.new ≡ drive.old }
{
    let mut places = Vec::with_capacity(alloc, pointers.len())?;
    for pointer in pointers {
        if !leads_to_data(drive, *pointer) {
            continue;
        }
        places.push(*pointer)?;
    }
    Ok(places)
}

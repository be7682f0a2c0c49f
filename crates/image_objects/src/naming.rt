//! The places that a row of an image names.
ghost use Rattle.std.specs.Prelude.{◌≡◌, ℕ, ◌+◌, ◌⊎◌, true, ◌++◌, IsSome, IfOk, IfErr};
ghost use Rattle.std.specs.List.{Contains};
ghost use Rattle.std.specs.Option.{option_to_list};
ghost use Rattle.s4_types.specs.Pointer.{Place};
ghost use Rattle.s4_types.specs.declared.refusals.Refusal.TheVariants.{NoMemory};
ghost use Rattle.block_log.specs.Log.{is_data};
ghost use Rattle.block_log.specs.declared.kinds.BlockKind.{BlockKind};
ghost use Rattle.journal_chain.specs.Chain.{times};
ghost use Rattle.version_store.specs.Store.{sides_of, sides_told, pointers_kept, times_led};
ghost use Rattle.image_objects.specs.Chains.{ChainStands, entries_used};
ghost use Rattle.image_objects.specs.Inodes.{checkpoint_used, checkpoint_places_used};
ghost use Rattle.image_objects.specs.Objects.{ObjectStands, pointers_used};
ghost use Rattle.image_objects.specs.Naming.{NamesUsed};
ghost use Rattle.image_objects.specs.private.Places.{places_in, places_of_parts, places_of_chain};
ghost use Rattle.image_objects.specs.private.Places.{places_named};

use crate::checkpoint_blocks::read_first;
use crate::pointers::checkpoint_of;
use crate::{ImageRow, UsedBlocks, VersionChain, read_journal};
use block_log::laws::one_place_has_one_name;
use checkpoint::laws::a_checkpoint_is_in_its_blocks;
use codec::{Entry, FirstBlock, Triple};
use s4_types::limits::CHAIN_BLOCKS;
use s4_types::{Ptr, Refusal};

/// Adds the place that a slot refers to, where it isn't a hole.
fn push_slot(slot: Option<Ptr>, places: &mut Vec<Ptr>) -> Result<(), Refusal>
    ensures places { IfOk result (λ _. places.new.items ≡ places.old.items ++ option_to_list slot) }
    ensures refusal { IfErr result (λ e. e ≡ NoMemory) }
{
    if let Some(place) = slot {
        places.push(place)?;
    }
    Ok(())
}

/// Adds the places that slots refer to.
fn push_slots(slots: &[Option<Ptr>], places: &mut Vec<Ptr>) -> Result<(), Refusal>
    ensures places { IfOk result (λ _. places.new.items ≡ places.old.items ++ places_in slots.now) }
    ensures refusal { IfErr result (λ e. e ≡ NoMemory) }
{
    for slot in slots {
        push_slot(*slot, places)?;
    }
    Ok(())
}

/// Adds the places that both sides of triples refer to.
fn push_triples(triples: &[Triple], places: &mut Vec<Ptr>) -> Result<(), Refusal>
    ensures places { IfOk result
        (λ _. places.new.items ≡ places.old.items ++ places_in (sides_of triples.now)) }
    ensures refusal { IfErr result (λ e. e ≡ NoMemory) }
{
    for triple in triples {
        push_slot(triple.before, places)?;
        push_slot(triple.after, places)?;
    }
    Ok(())
}

/// Adds the places that both sides of the triples of entries lead to.
fn push_entries(entries: &[Entry], places: &mut Vec<Ptr>) -> Result<(), Refusal>
    ensures places { IfOk result
        (λ _. places.new.items ≡ places.old.items ++ places_in (sides_told entries.now)) }
    ensures refusal { IfErr result (λ e. e ≡ NoMemory) }
{
    for entry in entries {
        push_triples(entry.triples(), places)?;
    }
    Ok(())
}

/// Adds the places that the pointers of a row's checkpoint refer to.
fn push_kept<U: UsedBlocks>(used: &U, row: &ImageRow, places: &mut Vec<Ptr>) -> Result<(), Refusal>
    ensures places { IfOk result
        (λ _. places.new.items
        ≡ places.old.items
        ++ places_in (pointers_kept (checkpoint_used (U.used used.now) row.now))) }
    ensures refusal { IfErr result (λ e. e ≡ NoMemory) }
{
    let Some(checkpoint) = checkpoint_of(used, row) else {
        return Ok(());
    };
    push_slots(&checkpoint.inode().pointers, places)
}

/// Adds the places of the parts of a checkpoint, by its first block.
fn push_parts(first: &Option<FirstBlock>, places: &mut Vec<Ptr>) -> Result<(), Refusal>
    ensures places { IfOk result
        (λ _. places.new.items ≡ places.old.items ++ places_of_parts first.now) }
    ensures refusal { IfErr result (λ e. e ≡ NoMemory) }
{
    let Some(first) = first else {
        return Ok(());
    };
    push_slots(&first.parts, places)
}

/// Adds the places of the blocks of a row's checkpoint: its parts, and then its first block.
fn push_checkpoint<U: UsedBlocks>(
    used: &U,
    row: &ImageRow,
    places: &mut Vec<Ptr>,
) -> Result<(), Refusal>
    ensures places { IfOk result
        (λ _. places.new.items
        ≡ places.old.items ++ checkpoint_places_used (U.used used.now) row.now) }
    ensures refusal { IfErr result (λ e. e ≡ NoMemory) }
{
    let Some(place) = row.checkpoint else {
        return Ok(());
    };
    let first = read_first(used, row.object, place);
    push_parts(&first, places)?;
    places.push(place)?;
    Ok(())
}

/// Adds the places of the blocks of a row's chain, the newest first.
fn push_chain<U: UsedBlocks>(used: &U, row: &ImageRow, places: &mut Vec<Ptr>) -> Result<(), Refusal>
    requires { (clock : ℕ) × ChainStands (U.used used.now) row.now clock }
    ensures places { IfOk result
        (λ _. places.new.items ≡ places.old.items ++ places_of_chain (U.used used.now) row.now) }
    ensures refusal { IfErr result (λ e. e ≡ NoMemory) }
{
    let mut next = row.head;
    for _ in 0..CHAIN_BLOCKS {
        let Some(place) = next else {
            return Ok(());
        };
        places.push(place)?;
        let Some(block) = read_journal(used, row.object, place) else {
            unreachable!()
        };
        next = block.previous();
    }
    Ok(())
}

/// Adds the places of all used blocks that a row names, one after another.
fn push_all<U: UsedBlocks>(
    used: &U,
    row: &ImageRow,
    entries: &[Entry],
    places: &mut Vec<Ptr>,
) -> Result<(), Refusal>
    requires chain { (clock : ℕ) × ChainStands (U.used used.now) row.now clock }
    requires entries { entries.now ≡ entries_used (U.used used.now) row.now }
    ensures places { IfOk result
        (λ _. places.new.items ≡ places.old.items ++ places_named (U.used used.now) row.now) }
    ensures refusal { IfErr result (λ e. e ≡ NoMemory) }
{
    push_chain(used, row, places)?;
    push_checkpoint(used, row, places)?;
    push_kept(used, row, places)?;
    push_entries(entries, places)
}

/// Adds the places of all used blocks that a row of an image names: its chain's, those of its
/// checkpoint and the parts of that, and those of its data. The place of a data block is added as
/// often as the row's pointers refer to it.
///
/// NoMemory alone, after which some of them may have been added. Linear in the chain's blocks.
pub fn push_named<U: UsedBlocks>(
    used: &U,
    row: &ImageRow,
    versions: &VersionChain,
    places: &mut Vec<Ptr>,
) -> Result<(), Refusal>
    requires stands { (clock : ℕ) × ObjectStands (U.used used.now) row.now clock }
    requires entries { versions.now.chain.entries.items ≡ entries_used (U.used used.now) row.now }
    ensures only { IfOk result (λ _. (p : Place) → Contains places.new.items p
        → Contains places.old.items p ⊎ ((kind : BlockKind) × NamesUsed (U.used used.now) row.now kind p)) }
    ensures all { IfOk result
        (λ _. (kind : BlockKind) (p : Place)
        → NamesUsed (U.used used.now) row.now kind p → Contains places.new.items p) }
    ensures kept { IfOk result
        (λ _. (p : Place) → Contains places.old.items p → Contains places.new.items p) }
    ensures used { IfOk result
        (λ _. (p : Place) → Contains places.new.items p
        → Contains places.old.items p ⊎ IsSome (U.used used.now p)) }
    ensures counted { IfOk result (λ _. (p : Place) → is_data (U.used used.now p) ≡ true
        → times p places.new.items ≡ times p places.old.items + times_led p (pointers_used (U.used used.now) row.now)) }
    ensures refusal { IfErr result (λ e. e ≡ NoMemory) }
{
    one_place_has_one_name();
    a_checkpoint_is_in_its_blocks();
    push_all(used, row, versions.chain.entries.as_slice(), places)
}

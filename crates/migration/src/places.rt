//! The places of data that an object still has, in the order in which they are copied.
ghost use Rattle.std.specs.Prelude.{◌≡◌, ◌≤◌, length, OnOk, IfOk, IfErr, option_copied};
ghost use Rattle.s4_types.specs.declared.refusals.Refusal.TheVariants.{NoMemory};
ghost use Rattle.block_log.specs.Log.{same_place};
ghost use Rattle.version_store.specs.Store.{sides_of, sides_told};
ghost use Rattle.migration.specs.Places.{is_before, put_place, with_places, data_places};
ghost use Rattle.migration.specs.private.Ranks.{rank_in};

use codec::{Entry, Inode, Triple};
use s4_types::{Ptr, Refusal};
use std::alloc::Global;

/// Whether two places are one.
pub(crate) fn is_same_place(one: Ptr, other: Ptr) -> bool
    ensures { result ≡ same_place one other }
{
    one.frame() == other.frame()
        && one.block() == other.block()
        && one.generation() == other.generation()
}

/// Whether one place comes before another: by its frame, then by its block, and then by its
/// generation.
fn is_before(one: Ptr, other: Ptr) -> bool
    ensures { result ≡ is_before one other }
{
    if one.frame() != other.frame() {
        return one.frame() < other.frame();
    }
    if one.block() != other.block() {
        return one.block() < other.block();
    }
    one.generation() < other.generation()
}

/// How many of these places come before one, up to the first that doesn't.
fn rank_in(places: &[Ptr], place: Ptr) -> usize
    ensures rank { result ≡ rank_in place places.now }
    ensures within { result ≤ length places.now }
{
    for index in 0..places.len() {
        if !is_before(places[index], place) {
            return index;
        }
    }
    places.len()
}

/// Puts a place where it belongs, if it isn't there. NoMemory alone.
fn put_place(places: &mut Vec<Ptr>, place: Ptr) -> Result<(), Refusal>
    ensures places { OnOk result (places.new.items ≡ put_place place places.old.items) }
    ensures refusal { IfErr result (λ e. e ≡ NoMemory) }
{
    let index = rank_in(places.as_slice(), place);
    if index < places.len() && is_same_place(places[index], place) {
        return Ok(());
    }
    places.insert(index, place)?;
    Ok(())
}

/// Puts the places of pointers where they belong; of holes there is none. NoMemory alone.
fn put_slots(places: &mut Vec<Ptr>, slots: &[Option<Ptr>]) -> Result<(), Refusal>
    ensures places { OnOk result (places.new.items ≡ with_places places.old.items slots.now) }
    ensures refusal { IfErr result (λ e. e ≡ NoMemory) }
{
    for slot in slots {
        if let Some(place) = *slot {
            put_place(places, place)?;
        }
    }
    Ok(())
}

/// The same of both sides of triples.
fn put_sides(places: &mut Vec<Ptr>, triples: &[Triple]) -> Result<(), Refusal>
    ensures places { OnOk result
        (places.new.items ≡ with_places places.old.items (sides_of triples.now)) }
    ensures refusal { IfErr result (λ e. e ≡ NoMemory) }
{
    for triple in triples {
        put_slots(places, &[triple.before, triple.after])?;
    }
    Ok(())
}

/// The same of both sides of the triples of entries.
fn put_entries(places: &mut Vec<Ptr>, entries: &[Entry]) -> Result<(), Refusal>
    ensures places { OnOk result
        (places.new.items ≡ with_places places.old.items (sides_told entries.now)) }
    ensures refusal { IfErr result (λ e. e ≡ NoMemory) }
{
    for entry in entries {
        put_sides(places, entry.triples())?;
    }
    Ok(())
}

/// The places of the data of an object with this inode in its checkpoint, if there is one, and
/// these entries: each once, by ascending frames and blocks. NoMemory alone.
pub(crate) fn data_places(
    alloc: Global,
    kept: Option<&Inode>,
    entries: &[Entry],
) -> Result<Vec<Ptr>, Refusal>
    ensures places { IfOk result
        (λ places. places.items ≡ data_places (option_copied kept.entry) entries.now) }
    ensures refusal { IfErr result (λ e. e ≡ NoMemory) }
{
    let mut places = Vec::new(alloc);
    if let Some(inode) = kept {
        put_slots(&mut places, &inode.pointers)?;
    }
    put_entries(&mut places, entries)?;
    Ok(places)
}

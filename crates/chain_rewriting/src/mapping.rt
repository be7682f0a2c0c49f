//! Pointers of an inode and of entries, each to the place to which a map sends its own.
ghost use Rattle.std.specs.Prelude.{◌≡◌, ◌≤◌, length, map};
ghost use Rattle.std.specs.List.{AllByRecursion};
ghost use Rattle.s4_types.specs.Pointer.{Place};
ghost use Rattle.s4_types.specs.declared.limits.TheConstants.{ENTRY_TRIPLES};
ghost use Rattle.chain_rewriting.specs.CleaningLaws.{TellsWithin};
ghost use Rattle.chain_rewriting.specs.Mapping.{mapped_slot, mapped_triple, mapped_entry};
ghost use Rattle.chain_rewriting.specs.Mapping.{mapped_entries, mapped_inode, IsOneToOne};

use codec::{Entry, Inode, Triple, Triples};
use s4_types::Ptr;

/// A map from places to places.
pub trait MapsPlaces {
    // Where each place is mapped to.
    ghost to: { Self → Place → Place };

    // The places on which it is asked to be one to one.
    ghost is_known: { Self → Place → Type 0 };

    /// The place to which a place is mapped.
    fn map_place(&self, place: Ptr) -> Ptr
        ensures { result ≡ to self.now place };
}

/// The pointer to the place to which the pointer's is mapped; a hole stays a hole.
pub fn map_slot<M: MapsPlaces>(by: &M, slot: Option<Ptr>) -> Option<Ptr>
    ensures { result ≡ mapped_slot (M.to by.now) slot }
{
    match slot {
        None => None,
        Some(place) => Some(by.map_place(place)),
    }
}

fn map_slots<M: MapsPlaces>(by: &M, slots: &mut [Option<Ptr>])
    ensures { slots.new ≡ map (mapped_slot (M.to by.now)) slots.old }
{
    for slot in slots.iter_mut() {
        *slot = map_slot(by, *slot);
    }
}

/// Maps all pointers of an inode; all else of it stays.
pub fn map_inode<M: MapsPlaces>(by: &M, inode: &mut Inode)
    ensures { inode.new ≡ mapped_inode (M.to by.now) inode.old }
{
    map_slots(by, &mut inode.pointers);
}

/// Both pointers of a triple mapped.
fn map_triple<M: MapsPlaces>(by: &M, triple: Triple) -> Triple
    ensures { result ≡ mapped_triple (M.to by.now) triple }
{
    Triple {
        index: triple.index,
        before: map_slot(by, triple.before),
        after: map_slot(by, triple.after),
    }
}

fn map_triples<M: MapsPlaces>(by: &M, triples: &[Triple]) -> Triples
    requires { length triples.now ≤ ENTRY_TRIPLES }
    ensures { result.items ≡ map (mapped_triple (M.to by.now)) triples.now }
{
    let mut mapped = Triples::new();
    for triple in triples {
        mapped.push(map_triple(by, *triple));
    }
    mapped
}

/// An entry with both pointers of each triple mapped. The map must be one to one on its places: so
/// the two pointers of a triple, which differ, differ when they are mapped, too.
pub fn map_entry<M: MapsPlaces>(by: &M, entry: &Entry) -> Entry
    requires one { IsOneToOne (M.is_known by.now) (M.to by.now) }
    requires told { TellsWithin (M.is_known by.now) entry.now }
    ensures { result ≡ mapped_entry (M.to by.now) entry.now }
{
    let triples = map_triples(by, entry.triples());
    Entry::new(
        entry.moment(),
        entry.before(),
        entry.after(),
        entry.pair(),
        triples,
    )
    .unwrap()
}

/// Maps both pointers of each triple of each entry, in place. The map must be one to one on the
/// places of which the entries tell. It takes no memory. Linear in the triples.
pub fn map_entries<M: MapsPlaces>(by: &M, entries: &mut [Entry])
    requires one { IsOneToOne (M.is_known by.now) (M.to by.now) }
    requires told { AllByRecursion (TellsWithin (M.is_known by.now)) entries.old }
    ensures { entries.new ≡ mapped_entries (M.to by.now) entries.old }
{
    for entry in entries.iter_mut() {
        *entry = map_entry(by, entry);
    }
}

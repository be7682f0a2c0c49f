//! The places of a chain that is to be dropped, and its dropping.
ghost use Rattle.std.specs.Prelude.{◌≡◌, ℕ, ◌++◌, List, [], map, Option, Some, IsSome};
ghost use Rattle.std.specs.List.{flat_map};
ghost use Rattle.std.specs.Option.{option_to_list};
ghost use Rattle.s4_types.specs.Pointer.{Place};
ghost use Rattle.block_log.specs.Taken.{TakesPlaces};
ghost use Rattle.codec.specs.Entry.{EntryFields};
ghost use Rattle.journal_chain.specs.Chain.{OnlyJournalChanged};
ghost use Rattle.journal_chain.specs.Writing.{Finished};
ghost use Rattle.journal_chain.specs.Back.{links_back, places_back};

use crate::table::open;
use arrayvec::ArrayVec;
use block_log::Blocks;
use s4_types::Ptr;
use s4_types::limits::CHAIN_BLOCKS;

/// Places of a chain's blocks, each of them there.
pub(crate) type Places = ArrayVec<Option<Ptr>, CHAIN_BLOCKS>;

/// The places of a chain's blocks, newest first.
pub(crate) fn places<B: Blocks>(table: &mut B, head: Option<Ptr>) -> Places
    requires { IsSome (links_back (B.log table.old).held head) }
    ensures places { result.items ≡ map Some (places_back (B.log table.old).held head) }
    ensures same { B.log table.new ≡ B.log table.old }
{
    let mut places = Places::new();
    let mut next = head;
    while let Some(place) = next {
        places.push(Some(place));
        next = open(table, place).previous();
    }
    places
}

fn drop_one<B: Blocks>(table: &mut B, place: Option<Ptr>)
    ensures finished { (o : ℕ) (stale : List Place) (head : Option Place) (entries : List EntryFields)
        → Finished (B.log table.old).held o (option_to_list place ++ stale) head entries
        → Finished (B.log table.new).held o stale head entries }
    ensures others { (o : ℕ) (stale : List Place) (head : Option Place) (entries : List EntryFields)
        → Finished (B.log table.old).held o (option_to_list place ++ stale) head entries
        → OnlyJournalChanged o (B.log table.old).held (B.log table.new).held }
    ensures named { (o : ℕ) (stale : List Place) (head : Option Place) (entries : List EntryFields)
        → Finished (B.log table.old).held o (option_to_list place ++ stale) head entries
        → (B.log table.new).named ≡ (B.log table.old).named }
    ensures takes { TakesPlaces 0 (B.log table.old) (B.log table.new) }
{
    match place {
        Some(place) => table.drop_block(place),
        None => {}
    }
}

/// Drops the blocks at all of these places.
pub(crate) fn drop_all<B: Blocks>(table: &mut B, places: &[Option<Ptr>])
    ensures finished { (o : ℕ) (head : Option Place) (entries : List EntryFields)
        → Finished (B.log table.old).held o (flat_map option_to_list places.now) head entries
        → Finished (B.log table.new).held o [] head entries }
    ensures others { (o : ℕ) (head : Option Place) (entries : List EntryFields)
        → Finished (B.log table.old).held o (flat_map option_to_list places.now) head entries
        → OnlyJournalChanged o (B.log table.old).held (B.log table.new).held }
    ensures named { (o : ℕ) (head : Option Place) (entries : List EntryFields)
        → Finished (B.log table.old).held o (flat_map option_to_list places.now) head entries
        → (B.log table.new).named ≡ (B.log table.old).named }
    ensures takes { TakesPlaces 0 (B.log table.old) (B.log table.new) }
{
    for place in places {
        drop_one(table, *place);
    }
}

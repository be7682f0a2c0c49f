//! The new places of the blocks of one frame, and pointers renamed by them.
ghost use Rattle.std.specs.Prelude.{◌≡◌, ◌≤◌, length, MatchResult};
ghost use Rattle.std.specs.List.{AllByRecursion};
ghost use Rattle.s4_types.specs.declared.limits.TheConstants.{PAYLOAD_BLOCKS};
ghost use Rattle.s4_types.specs.declared.refusals.Refusal.TheVariants.{NoMemory};
ghost use Rattle.chain_rewriting.specs.CleaningLaws.{TellsWithin};
ghost use Rattle.chain_rewriting.specs.Renaming.{renaming_of, no_moves, with_move, renamed_slot};
ghost use Rattle.chain_rewriting.specs.Renaming.{renamed_entries, renamed_inode};
ghost use Rattle.chain_rewriting.specs.Apart.{HasDistinctPlaces, IsNotNew};

use crate::mapping::{MapsPlaces, map_entries, map_entry, map_inode, map_slot};
use codec::{Entry, Inode};
use s4_types::limits::PAYLOAD_BLOCKS;
use s4_types::{Ptr, Refusal};
use std::alloc::Global;
use std::marker::Model;

/// The new places of the blocks of one frame at one generation, for those of its blocks that move.
///
/// Contracts see the frame, the generation and a place, or none, for each of the blocks from 1 to
/// 15. It takes no memory.
#[derive(Clone, Copy)]
pub struct Renaming {
    frame: u16,
    generation: u32,
    // The new place of block 1 is first.
    moves: [Option<Ptr>; PAYLOAD_BLOCKS],
}

impl Model for Renaming {
    ghost use Rattle.std.specs.Prelude.{◌≡◌, length};
    ghost use Rattle.s4_types.specs.declared.limits.TheConstants.{PAYLOAD_BLOCKS};
    ghost use Rattle.chain_rewriting.specs.Renaming.{RenamingFields};

    ghost Value = { RenamingFields };

    ghost view = { λ r. record { frame = r.frame; generation = r.generation; moves = r.moves } };

    ghost invariant = { λ r. length r.moves ≡ PAYLOAD_BLOCKS };

    ghost inverse = { λ r. record { frame = r.frame; generation = r.generation; moves = r.moves } };
}

#[tactic(auto, unfolding(crate::specs::Renaming::no_moves))]
fn no_moves() -> [Option<Ptr>; PAYLOAD_BLOCKS]
    ensures moves { result ≡ no_moves }
    ensures count { length result ≡ PAYLOAD_BLOCKS }
{
    [None; PAYLOAD_BLOCKS]
}

impl Renaming {
    /// A renaming of places in a frame at a generation. No block of it moves yet.
    #[tactic(auto, using(crate::proofs::RenamedGrowing::none_distinct))]
    pub fn new(frame: u16, generation: u32) -> Self
        ensures exact { result ≡ renaming_of frame generation }
        ensures count { length result.moves ≡ PAYLOAD_BLOCKS }
        ensures distinct { HasDistinctPlaces result }
    {
        Renaming {
            frame,
            generation,
            moves: no_moves(),
        }
    }

    /// Gives a block of the frame, from 1 to 15, a new place. An earlier one is forgotten. The new
    /// places stay distinct where this one is no other's.
    pub fn insert(&mut self, block: u8, to: Ptr)
        requires lowest { 1 ≤ block }
        requires highest { block ≤ PAYLOAD_BLOCKS }
        ensures exact { self.new ≡ with_move self.old block to }
        ensures count { length self.new.moves ≡ PAYLOAD_BLOCKS }
        ensures distinct { HasDistinctPlaces self.old → IsNotNew self.old to
            → HasDistinctPlaces self.new }
    {
        self.moves[block as usize - 1] = Some(to);
    }

    /// The new places of the blocks from 1 on, where they move.
    pub fn moves(&self) -> &[Option<Ptr>]
        ensures { result.now ≡ self.now.moves }
    {
        &self.moves
    }

    /// The pointer to the new place, where the block that the pointer refers to moves; else the
    /// pointer as it is.
    pub fn rename(&self, slot: Option<Ptr>) -> Option<Ptr>
        ensures exact { result ≡ renamed_slot self.now slot }
    {
        map_slot(self, slot)
    }

    /// Renames all pointers of an inode; all else of it stays.
    pub fn rename_inode(&self, inode: &mut Inode)
        ensures exact { inode.new ≡ renamed_inode self.now inode.old }
    {
        map_inode(self, inode);
    }

    /// Renames both pointers of each triple of each entry, in place. The new places must be
    /// distinct, and none of them one of which the entries tell. It takes no memory. Linear in the
    /// triples.
    #[tactic(auto, using(crate::proofs::Rules::renaming_is))]
    pub fn rename_in_place(&self, entries: &mut [Entry])
        requires distinct { HasDistinctPlaces self.now }
        requires apart { AllByRecursion (TellsWithin (IsNotNew self.now)) entries.old }
        ensures exact { entries.new ≡ renamed_entries self.now entries.old }
    {
        map_entries(self, entries);
    }

    /// The entries with both pointers of each triple renamed. The new places must be distinct, and
    /// none of them one of which the entries tell: so the two pointers of a triple, which differ,
    /// differ when they are renamed, too.
    ///
    /// NoMemory alone, where the memory for the entries is refused: it is asked for once. Linear in
    /// the triples.
    #[tactic(auto, using(crate::proofs::Rules::renaming_is))]
    pub fn rename_entries(&self, alloc: Global, entries: &[Entry]) -> Result<Vec<Entry>, Refusal>
        requires distinct { HasDistinctPlaces self.now }
        requires apart { AllByRecursion (TellsWithin (IsNotNew self.now)) entries.now }
        ensures exact { MatchResult result (λ v. v.items ≡ renamed_entries self.now entries.now)
            (λ e. e ≡ NoMemory) }
    {
        let mut renamed = Vec::with_capacity(alloc, entries.len())?;
        for entry in entries {
            renamed.push(map_entry(self, entry))?;
        }
        Ok(renamed)
    }
}

impl MapsPlaces for Renaming {
    ghost use Rattle.chain_rewriting.specs.Renaming.{renamed};
    ghost use Rattle.chain_rewriting.specs.Apart.{IsNotNew};

    ghost to = { λ r. renamed r };

    ghost is_known = { λ r. IsNotNew r };

    /// The new place, where the block at the place moves; else the place as it is.
    fn map_place(&self, place: Ptr) -> Ptr {
        if place.frame() != self.frame || place.generation() != self.generation {
            return place;
        }
        self.moves[place.block() as usize - 1].unwrap_or(place)
    }
}

//! Pointers as they were before entries.
ghost use Rattle.std.specs.Prelude.{◌≡◌, ◌⊎◌, ℕ, ◌<◌, ◌≤◌, ◌++◌, [], ◌∷◌, length, take, drop};
ghost use Rattle.std.specs.Prelude.{reverse, slice_index_or, slice_set, None, IfErr, OnOk};
ghost use Rattle.std.specs.List.{All};
ghost use Rattle.s4_types.specs.declared.limits.TheConstants.{OBJECT_BLOCKS};
ghost use Rattle.s4_types.specs.declared.refusals.Refusal.TheVariants.{NoMemory};
ghost use Rattle.time_read.specs.Undoings.{Extends, earlier_of, put_back};
ghost use Rattle.time_read.specs.private.EarlierPointers.{joined, first_before};
ghost use Rattle.time_read.specs.Within.{IsIn};

use crate::block_ranges::BlockRange;
use codec::Triple;
use memchr::memchr;
use s4_types::limits::OBJECT_BLOCKS;
use s4_types::{Ptr, Refusal};
use std::alloc::Global;
use std::marker::Model;

/// Puts pointers of these indices back, the last one first.
fn put_all_back(
    indices: &[u8],
    befores: &[Option<Ptr>],
    pointers: &mut [Option<Ptr>; OBJECT_BLOCKS],
)
    requires same { length indices.now ≡ length befores.now }
    requires low { All (λ n. n < OBJECT_BLOCKS) indices.now }
    ensures { pointers.new ≡ put_back (reverse (joined indices.now befores.now)) pointers.old }
{
    let mut place = indices.len();
    while place > 0 {
        place -= 1;
        pointers[indices[place] as usize] = befores[place];
    }
}

/// What was at an index before the first change of it, or what is there where nothing changed it.
#[tactic(auto, using(crate::proofs::Before::search_none, crate::proofs::Before::search_found))]
fn first_before(
    indices: &[u8],
    befores: &[Option<Ptr>],
    index: u8,
    present: Option<Ptr>,
) -> Option<Ptr>
    requires { length indices.now ≡ length befores.now }
    ensures { result ≡ first_before (joined indices.now befores.now) index present }
{
    match memchr(index, indices) {
        Some(place) => befores[place],
        None => present,
    }
}

/// Pointers' indices, and what was there before an entry. Contracts see the list of both.
///
/// The indices are beside one another, a byte each, so that a search for one goes over many at a
/// time.
#[derive(Drop)]
pub(crate) struct EarlierPointers {
    indices: Vec<u8>,
    befores: Vec<Option<Ptr>>,
}

impl Model for EarlierPointers {
    ghost use Rattle.std.specs.Prelude.{◌≡◌, ◌<◌, List, length};
    ghost use Rattle.std.specs.List.{All};
    ghost use Rattle.s4_types.specs.declared.limits.TheConstants.{OBJECT_BLOCKS};
    ghost use Rattle.time_read.specs.Earlier.{Earlier};
    ghost use Rattle.time_read.specs.private.EarlierPointers.{joined};

    ghost Value = { List Earlier };

    ghost view = { λ p. joined p.indices.items p.befores.items };

    ghost invariant = { λ p. (length p.indices.items ≡ length p.befores.items)
        × All (λ n. n < OBJECT_BLOCKS) p.indices.items };
}

impl EarlierPointers {
    /// No pointers. Takes no memory.
    pub(crate) fn new(alloc: Global) -> Self
        ensures { result ≡ [] }
    {
        EarlierPointers {
            indices: Vec::new(alloc),
            befores: Vec::new(alloc),
        }
    }

    #[tactic(auto, using(crate::proofs::Before::joined_length))]
    pub(crate) fn len(&self) -> usize
        ensures { result ≡ length self.now }
    {
        self.indices.len()
    }

    /// Adds what was there before an entry with this triple. Where memory is refused, nothing has
    /// changed.
    #[tactic(auto, using(crate::proofs::Before::joined_push, crate::proofs::Undone::extends_none, crate::proofs::Undone::extends_push))]
    pub(crate) fn push(&mut self, triple: &Triple) -> Result<(), Refusal>
        requires { triple.now.index < OBJECT_BLOCKS }
        ensures pushed { OnOk result (self.new ≡ self.old ++ earlier_of triple.now ∷ []) }
        ensures extends { Extends self.old self.new }
        ensures refusal { IfErr result (λ e. e ≡ NoMemory) }
    {
        self.befores.push(triple.before)?;
        if self.indices.push(triple.index as u8).is_err() {
            self.befores.pop();
            return Err(Refusal::NoMemory);
        }
        Ok(())
    }

    /// Leaves the first ones alone, this many or as many as there are.
    #[tactic(auto, using(crate::proofs::Before::joined_take))]
    pub(crate) fn truncate(&mut self, count: usize)
        ensures { self.new ≡ take count self.old }
    {
        self.indices.truncate(count);
        self.befores.truncate(count);
    }

    /// Puts those from a place on back, the last one first.
    #[tactic(auto, using(crate::proofs::Before::joined_length, crate::proofs::Before::joined_drop))]
    pub(crate) fn put_all_back(&self, first: usize, pointers: &mut [Option<Ptr>; OBJECT_BLOCKS])
        requires { first ≤ length self.now }
        ensures { pointers.new ≡ put_back (reverse (drop first self.now)) pointers.old }
    {
        put_all_back(&self.indices[first..], &self.befores[first..], pointers);
    }

    /// What was at an index before those from a place on, where it is this now.
    #[tactic(auto, using(crate::proofs::Before::joined_length, crate::proofs::Before::joined_drop))]
    fn before(&self, first: usize, index: usize, present: Option<Ptr>) -> Option<Ptr>
        requires first { first ≤ length self.now }
        requires index { index < OBJECT_BLOCKS }
        ensures { result ≡ first_before (drop first self.now) index present }
    {
        first_before(
            &self.indices[first..],
            &self.befores[first..],
            index as u8,
            present,
        )
    }

    /// Puts the first one of an index back, of those from a place on.
    #[tactic(auto, using(std::proofs::lemmas::List::get_or_default))]
    fn put_one_back(&self, first: usize, index: usize, pointers: &mut [Option<Ptr>; OBJECT_BLOCKS])
        requires first { first ≤ length self.now }
        requires index { index < length pointers.old }
        ensures { pointers.new ≡ slice_set pointers.old index
            (first_before (drop first self.now) index (slice_index_or pointers.old index None)) }
    {
        let present = pointers[index];
        pointers[index] = self.before(first, index, present);
    }

    /// Puts those to the blocks of a range back, of those from a place on, and leaves all others as
    /// they are. Each one is searched for.
    #[tactic(auto, using(crate::proofs::Before::put_back_none, crate::proofs::Before::put_back_more, crate::proofs::Before::put_back_within, crate::proofs::Before::put_back_some))]
    pub(crate) fn put_some_back(
        &self,
        first: usize,
        needed: BlockRange,
        pointers: &mut [Option<Ptr>; OBJECT_BLOCKS],
    )
        requires { first ≤ length self.now }
        ensures within { (k : ℕ) → IsIn needed k → slice_index_or pointers.new k None
            ≡ slice_index_or (put_back (reverse (drop first self.now)) pointers.old) k None }
        ensures either { (k : ℕ) → (slice_index_or pointers.new k None
            ≡ slice_index_or (put_back (reverse (drop first self.now)) pointers.old) k None)
            ⊎ (slice_index_or pointers.new k None ≡ slice_index_or pointers.old k None) }
        ensures count { length pointers.new ≡ length pointers.old }
    {
        let end = needed.end.min(pointers.len());
        for index in needed.first..end {
            self.put_one_back(first, index, pointers);
        }
    }
}

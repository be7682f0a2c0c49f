//! Runs of hidden moments in chunks, so that one more span makes one chunk anew and leaves the
//! others.
ghost use Rattle.std.specs.Prelude.{◌≡◌, ℕ, ◌==◌, ◌≤◌, None, Some, nat_lt, nat_le, true, false};
ghost use Rattle.std.specs.Prelude.{filter, map, IfOk, IfErr, IfSome, MatchOption, length};
ghost use Rattle.std.specs.List.{list_any};
ghost use Rattle.std.specs.List.Sorted.{IsPartitionPoint};
ghost use Rattle.window.specs.Runs.{Ascend, AllEndFrom, span_is_of, covers, cut};
ghost use Rattle.s4_types.specs.declared.limits.TheConstants.{RUNS_IN_ALL};
ghost use Rattle.window.specs.Chunks.{flat, Parted, AllNumbered, AllDated, told, IsSifted};
ghost use Rattle.window.specs.Chunks.{AllSifted, is_longer, IsCutOff, holder, put, renewed};
ghost use Rattle.s4_types.specs.declared.refusals.Refusal.TheVariants.{NoMemory};

use crate::runs;
use s4_types::{Moment, ObjectId, Refusal, Span};
use std::alloc::Global;

/// Runs that a new chunk has at least, where there are as many after it.
const LEAST_RUNS: usize = 64;

/// Most runs of a chunk: where it would have more, all chunks are made anew.
const MOST_RUNS: usize = 512;

/// All runs of the lists from the chunk before it on, up to one number. None of them ends before
/// `earliest`.
#[derive(Drop)]
pub struct Chunk {
    pub up_to: ObjectId,
    pub earliest: Moment,
    pub runs: Vec<Span>,
}

/// What one more span makes: one chunk, which is put in place of that of its list, or all chunks.
#[derive(Drop)]
pub enum Fresh {
    One(Chunk),
    All(Vec<Chunk>),
}

impl Fresh {
    /// Whether it is one chunk that is too long.
    pub fn is_too_long(&self) -> bool
        ensures { result ≡ is_longer 512 self.now }
    {
        match self {
            Fresh::One(chunk) => chunk.runs.len() > MOST_RUNS,
            Fresh::All(_) => false,
        }
    }
}

/// How many chunks are before the one of a list. Logarithmic in the chunks.
fn place(chunks: &[Chunk], list: ObjectId) -> usize
    requires { Parted 0 chunks.now }
    ensures { IsPartitionPoint (λ c. nat_lt c.up_to list ≡ true) (λ c. nat_lt c.up_to list ≡ false)
        chunks.now result }
{
    chunks.partition_point(|chunk| chunk.up_to < list)
}

/// The chunk of a list, if there is one. Logarithmic in the chunks.
#[tactic(auto, using(crate::proofs::Chunked::held_at, crate::proofs::Chunked::held_nowhere))]
pub fn holder(chunks: &[Chunk], list: ObjectId) -> Option<&Chunk>
    requires { Parted 0 chunks.now }
    ensures { MatchOption result (holder list chunks.now ≡ None)
        (λ c. holder list chunks.now ≡ Some c.now) }
{
    chunks.get(place(chunks, list))
}

/// The runs of a list. Logarithmic in all runs.
#[tactic(auto, using(crate::proofs::Chunked::of_holder, crate::proofs::Chunked::of_none, crate::proofs::Chunked::ordered_holder))]
pub fn of_list(chunks: &[Chunk], list: ObjectId) -> &[Span]
    requires parted { Parted 0 chunks.now }
    requires ordered { Ascend (flat chunks.now) }
    ensures { result.now ≡ filter (span_is_of list) (flat chunks.now) }
{
    match holder(chunks, list) {
        Some(chunk) => runs::of_list(chunk.runs.as_slice(), list),
        None => &[],
    }
}

/// Whether a run of the list has the moment in it. Logarithmic in all runs, then linear in those of
/// the list.
pub fn covers(chunks: &[Chunk], list: ObjectId, at: Moment) -> bool
    requires parted { Parted 0 chunks.now }
    requires ordered { Ascend (flat chunks.now) }
    ensures { result ≡ list_any (covers list at) (flat chunks.now) }
{
    runs::cover(of_list(chunks, list), at)
}

/// Puts a chunk in place of that of a list.
#[tactic(auto, using(crate::proofs::Chunked::put_at, crate::proofs::Chunked::put_past))]
fn put(chunks: &mut Vec<Chunk>, list: ObjectId, fresh: Chunk)
    requires { Parted 0 chunks.old.items }
    ensures { chunks.new.items ≡ put list fresh chunks.old.items }
{
    let place = place(chunks.as_slice(), list);
    if let Some(chunk) = chunks.get_mut(place) {
        *chunk = fresh;
    }
}

/// Puts what a plan made in place of what there was.
pub fn renew(chunks: &mut Vec<Chunk>, list: ObjectId, fresh: Fresh)
    requires { Parted 0 chunks.old.items }
    ensures { chunks.new.items ≡ renewed list fresh chunks.old.items }
{
    match fresh {
        Fresh::One(chunk) => put(chunks, list, chunk),
        Fresh::All(all) => *chunks = all,
    }
}

/// Forgets the runs of a chunk that end below the floor. Goes through them only where there is one.
#[tactic(auto, using(crate::proofs::Forgetting::none_falls, crate::proofs::Live::from_earliest))]
fn forget_in(chunk: &mut Chunk, floor: Moment)
    requires { AllEndFrom chunk.old.earliest chunk.old.runs.items }
    ensures { IsSifted floor chunk.old chunk.new }
{
    if chunk.earliest.number() < floor.number() {
        runs::sift(&mut chunk.runs, floor);
        chunk.earliest = runs::earliest(chunk.runs.as_slice());
    }
}

/// Forgets the runs that end below the floor. Linear in the chunks, and in the runs of those that
/// have such a run.
#[tactic(auto, using(crate::proofs::Forgetting::up_to_dated, crate::proofs::Forgetting::up_to_next, crate::proofs::Forgetting::up_to_end))]
pub fn forget(chunks: &mut Vec<Chunk>, floor: Moment)
    requires { AllDated chunks.old.items }
    ensures { AllSifted floor chunks.old.items chunks.new.items }
{
    for chunk in chunks.iter_mut() {
        forget_in(chunk, floor);
    }
}

/// A moment before which no run ends. Linear in the chunks.
#[tactic(auto, using(crate::proofs::Forgetting::told_bound))]
pub fn earliest(chunks: &[Chunk]) -> Moment
    ensures { result ≡ told chunks.now }
{
    let mut end = Moment::new(u64::MAX);
    for chunk in chunks {
        end = end.min(chunk.earliest);
    }
    end
}

/// How many runs there are. Linear in the chunks.
pub fn count(chunks: &[Chunk]) -> usize
    requires { length (flat chunks.now) ≤ RUNS_IN_ALL }
    ensures { result ≡ length (flat chunks.now) }
{
    let mut count = 0usize;
    for chunk in chunks {
        count = count.saturating_add(chunk.runs.len());
    }
    count
}

/// The runs of all chunks. Linear in all runs.
pub fn all_runs(alloc: Global, chunks: &[Chunk]) -> Result<Vec<Span>, Refusal>
    ensures ok { IfOk result (λ all. all.items ≡ flat chunks.now) }
    ensures err { IfErr result (λ refusal. refusal ≡ NoMemory) }
{
    let mut all = Vec::new(alloc);
    for chunk in chunks {
        all.extend_from_slice(chunk.runs.as_slice())?;
    }
    Ok(all)
}

/// The runs of all chunks, each without its moments below a floor that it reaches. Linear in all
/// runs.
pub fn cut_runs(alloc: Global, chunks: &[Chunk], floor: Moment) -> Result<Vec<Span>, Refusal>
    ensures ok { IfOk result (λ all. all.items ≡ map (cut floor) (flat chunks.now)) }
    ensures err { IfErr result (λ refusal. refusal ≡ NoMemory) }
{
    let mut all = Vec::new(alloc);
    for chunk in chunks {
        runs::push_cut(&mut all, chunk.runs.as_slice(), floor)?;
    }
    Ok(all)
}

/// A chunk of runs.
#[tactic(auto, using(crate::proofs::Live::from_earliest))]
fn new_chunk(up_to: ObjectId, runs: Vec<Span>) -> Chunk
    ensures { (result.up_to ≡ up_to) × (result.runs ≡ runs)
        × AllEndFrom result.earliest runs.items }
{
    let earliest = runs::earliest(runs.as_slice());
    Chunk {
        up_to,
        earliest,
        runs,
    }
}

/// A chunk with a copy of runs.
fn chunk_of(alloc: Global, up_to: ObjectId, runs: &[Span]) -> Result<Chunk, Refusal>
    ensures ok { IfOk result
        (λ c. (c.up_to ≡ up_to) × (c.runs.items ≡ runs.now) × AllEndFrom c.earliest c.runs.items) }
    ensures err { IfErr result (λ refusal. refusal ≡ NoMemory) }
{
    let mut copy = Vec::with_capacity(alloc, runs.len())?;
    copy.extend_from_slice(runs)?;
    Ok(new_chunk(up_to, copy))
}

/// How many runs are before those after a list. Logarithmic in the runs.
fn end_of(runs: &[Span], list: ObjectId) -> usize
    requires { Ascend runs.now }
    ensures point { IsPartitionPoint (λ run. nat_le run.object list ≡ true)
        (λ run. nat_le run.object list ≡ false) runs.now result }
    ensures bound { result ≤ length runs.now }
{
    runs.partition_point(|run| run.object <= list)
}

/// The number up to which a next chunk of these runs reaches, the runs of that chunk, and those
/// after it.
fn first_part(runs: &[Span]) -> Option<(ObjectId, &[Span], &[Span])>
    requires { Ascend runs.now }
    ensures { IfSome result (λ p. IsCutOff runs.now p.0 p.1.now p.2.now) }
{
    let list = runs.get(LEAST_RUNS)?.object;
    let (part, rest) = runs.split_at(end_of(runs, list));
    // Reading the number shows that one follows the list's.
    let _next = rest.get(0)?.object.number();
    Some((list, part, rest))
}

/// The number of the last list that has a run. Those of all lists are at most that.
pub fn last_list(runs: &[Span]) -> Option<u64>
    requires { Ascend runs.now }
    ensures { AllNumbered runs.now }
{
    // Reading the number shows that it has 64 bits.
    Some(runs.last()?.object.number())
}

/// Runs in chunks. Linear in the runs.
#[tactic(auto, using(crate::proofs::Dividing::divides_first, crate::proofs::Dividing::divides_on, crate::proofs::Dividing::divides_last))]
pub fn divide(alloc: Global, runs: &[Span]) -> Result<Vec<Chunk>, Refusal>
    requires ordered { Ascend runs.now }
    requires numbered { AllNumbered runs.now }
    ensures ok { IfOk result
        (λ all. (flat all.items ≡ runs.now) × Parted 0 all.items × AllDated all.items) }
    ensures err { IfErr result (λ refusal. refusal ≡ NoMemory) }
{
    let mut chunks = Vec::new(alloc);
    let mut rest = runs;
    while let Some((list, part, behind)) = first_part(rest) {
        chunks.push(chunk_of(alloc, list, part)?)?;
        rest = behind;
    }
    chunks.push(chunk_of(alloc, ObjectId::new(u64::MAX), rest)?)?;
    Ok(chunks)
}

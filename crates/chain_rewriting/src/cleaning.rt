//! One walk over a chain, oldest entry first: each inode that is seen is joined to the one kept
//! before it.
ghost use Rattle.std.specs.Prelude.{◌≡◌, ℕ, ◌++◌, Bool, Some, IfOk, IfErr};
ghost use Rattle.s4_types.specs.declared.refusals.Refusal.TheVariants.{NoMemory};
ghost use Rattle.chain_rewriting.specs.Cleaned.{span_of, stays, led, cleaned};
ghost use Rattle.chain_rewriting.specs.Chains.{IsChain};
ghost use Rattle.chain_rewriting.specs.private.Leading.{MayLead, LeadsTo, joined};

use codec::{Entry, Inode};
use s4_types::{Moment, Refusal};
use std::alloc::Global;
use std::marker::Model;
use undo_redo::laws::a_link_is_an_entry_redone_or_undone;
use undo_redo::{EntriesBetween, redo};

/// What can be seen of one object.
pub trait Sees {
    ghost sees: { Self → ℕ → ℕ → Bool };

    /// Whether some moment from `first` to `last` can be seen.
    fn sees(&self, first: Moment, last: Moment) -> bool
        ensures { result ≡ sees self.now first last };
}

/// A kept chain: its first inode, its entries, and the present inode after them.
#[derive(Drop)]
pub struct Cleaned {
    pub first: Inode,
    pub last: Inode,
    pub entries: Vec<Entry>,
}

impl Model for Cleaned {
    ghost use Rattle.chain_rewriting.specs.Cleaned.{KeptChain};

    ghost Value = { KeptChain };

    ghost view = { λ c. record { first = c.first; entries = c.entries.items; last = c.last } };
}

/// Whether an inode stays that is current from one moment to before the next.
fn stays<S: Sees>(seen: &S, from: Moment, next: Moment) -> bool
    ensures { result ≡ stays (S.sees seen.now) from next }
{
    from < next && seen.sees(from, Moment::new(next.number() - 1))
}

/// The inode as it follows a kept one: a dead one has all but the flag from there.
fn led(before: &Inode, inode: &Inode) -> Inode
    ensures { result ≡ led before.now inode.now }
{
    if inode.alive {
        return *inode;
    }
    let mut dead = *before;
    dead.alive = false;
    dead
}

/// Joins an inode to a chain, by entries of its moment.
fn join(chain: &mut Cleaned, inode: &Inode, from: Moment) -> Result<(), Refusal>
    requires { MayLead chain.old.last (span_of inode.now from 0) }
    ensures joined { IfOk result
        (λ _. chain.new ≡ joined (Some chain.old) (span_of inode.now from 0)) }
    ensures refusal { IfErr result (λ e. e ≡ NoMemory) }
{
    let next = led(&chain.last, inode);
    if chain.last.alive || inode.alive {
        let between = EntriesBetween::new(&chain.last, &next, from);
        append(&mut chain.entries, between)?;
    }
    chain.last = next;
    Ok(())
}

fn append(entries: &mut Vec<Entry>, more: EntriesBetween<'_>) -> Result<(), Refusal>
    ensures items { IfOk result (λ _. entries.new.items ≡ entries.old.items ++ more.entry) }
    ensures refusal { IfErr result (λ e. e ≡ NoMemory) }
{
    let (first, others) = more.into_parts();
    entries.push(first)?;
    for entry in others {
        entries.push(entry)?;
    }
    Ok(())
}

/// Keeps an inode: the first one begins the chain, each further one is joined to it.
fn keep(
    alloc: Global,
    kept: &mut Option<Cleaned>,
    inode: &Inode,
    from: Moment,
) -> Result<(), Refusal>
    requires { LeadsTo kept.old (span_of inode.now from 0) }
    ensures kept { IfOk result (λ _. kept.new ≡ Some (joined kept.old (span_of inode.now from 0))) }
    ensures refusal { IfErr result (λ e. e ≡ NoMemory) }
{
    if let Some(chain) = kept {
        return join(chain, inode, from);
    }
    *kept = Some(Cleaned {
        first: *inode,
        last: *inode,
        entries: Vec::new(alloc),
    });
    Ok(())
}

/// The kept chain of an object: its inodes that are seen, and the entries between them. None where
/// none of these is live.
///
/// NoMemory alone, where the memory for the entries is refused. Linear in the entries.
#[tactic(auto, using(crate::proofs::Leading::walk_begins, crate::proofs::Leading::walk_keeps, crate::proofs::Leading::walk_goes, crate::proofs::Leading::walk_may, crate::proofs::Leading::walk_end_may, crate::proofs::Leading::walk_ends, crate::proofs::Leading::walk_none))]
pub fn clean<S: Sees>(
    alloc: Global,
    first: &Inode,
    entries: &[Entry],
    clock: Moment,
    seen: &S,
) -> Result<Option<Cleaned>, Refusal>
    requires { IsChain first.now.created clock first.now entries.now }
    ensures exact { IfOk result
        (λ made. made ≡ cleaned (S.sees seen.now) clock first.now entries.now) }
    ensures refusal { IfErr result (λ e. e ≡ NoMemory) }
{
    a_link_is_an_entry_redone_or_undone();
    let mut kept: Option<Cleaned> = None;
    let mut inode = *first;
    let mut from = Moment::new(0);
    let mut live = false;
    for entry in entries {
        if stays(seen, from, entry.moment()) {
            live = live || inode.alive;
            keep(alloc, &mut kept, &inode, from)?;
        }
        redo(entry, &mut inode);
        from = entry.moment();
    }
    if !live && !inode.alive {
        return Ok(None);
    }
    keep(alloc, &mut kept, &inode, from)?;
    Ok(kept)
}

//! What was changed, and when.
ghost use Rattle.std.specs.Prelude.{◌≡◌, IfOk, IfErr};
ghost use Rattle.s4_types.specs.declared.refusals.Refusal.TheVariants.{NoMemory};
ghost use Rattle.drive.specs.Fields.{state_in, store_of};
ghost use Rattle.history_view.specs.Changes.{kind_of, blocks_of, change_of, is_asked};
ghost use Rattle.history_view.specs.Changes.{changes_between};

use crate::moments::is_visible;
use codec::{Entry, Pair, PointerIndex, Triple};
use drive::Drive;
use s4_types::{Moment, ObjectId, Refusal};
use segment_word::Naming;
use std::alloc::Global;

/// What was done to an object.
#[derive(Clone, Copy, PartialEq, Eq)]
pub enum Kind {
    /// It was made.
    Made,
    /// It was deleted.
    Deleted,
    /// More blocks of the change of the same moment.
    Continued,
    /// Its attribute was replaced by another one.
    Attribute,
    /// It was cut to a smaller size.
    Cut,
    /// Blocks of it were written.
    Written,
    /// It became longer by zeros alone.
    Lengthened,
    /// It was changed to what it was: the same attribute, the same size, or no bytes written.
    Touched,
}

/// Blocks of an object, of 512 bytes each, by their index: the first and the last that have new
/// bytes or are new holes.
#[derive(Clone, Copy)]
pub struct Blocks {
    pub first: PointerIndex,
    pub last: PointerIndex,
}

/// A change of an object. What is told in several entries of a journal is several changes of one
/// moment, all but the first `Continued`.
#[derive(Clone, Copy)]
pub struct ObjectChange {
    pub moment: Moment,
    pub kind: Kind,
    /// In bytes, as are all sizes.
    pub size_before: u32,
    pub size_after: u32,
    /// The blocks that changed, if any.
    pub blocks: Option<Blocks>,
    /// The attributes before and after, where they differ.
    pub pair: Option<Pair>,
}

fn kind_of(entry: &Entry) -> Kind
    ensures { result ≡ kind_of entry.now }
{
    let (before, after) = (entry.before(), entry.after());
    if !before.alive {
        Kind::Made
    } else if !after.alive {
        Kind::Deleted
    } else if before.changed.number() == entry.moment().number() {
        Kind::Continued
    } else if entry.pair().is_some() {
        Kind::Attribute
    } else if after.size < before.size {
        Kind::Cut
    } else if entry.triples().len() != 0 {
        Kind::Written
    } else if before.size < after.size {
        Kind::Lengthened
    } else {
        Kind::Touched
    }
}

fn blocks_of(triples: &[Triple]) -> Option<Blocks>
    ensures { result ≡ blocks_of triples.now }
{
    match triples {
        [] => None,
        [only] => Some(Blocks {
            first: only.index,
            last: only.index,
        }),
        [first, .., last] => Some(Blocks {
            first: first.index,
            last: last.index,
        }),
    }
}

/// The change that an entry tells.
pub fn change_of(entry: &Entry) -> ObjectChange
    ensures { result ≡ change_of entry.now }
{
    ObjectChange {
        moment: entry.moment(),
        kind: kind_of(entry),
        size_before: entry.before().size,
        size_after: entry.after().size,
        blocks: blocks_of(entry.triples()),
        pair: entry.pair(),
    }
}

fn is_asked<J: Naming>(
    drive: &Drive<J>,
    object: ObjectId,
    since: Moment,
    until: Moment,
    entry: &Entry,
) -> bool
    ensures { result ≡ is_asked (state_in drive.now) object since until entry.now }
{
    let moment = entry.moment();
    is_visible(drive, object, moment)
        && since.number() <= moment.number()
        && moment.number() <= until.number()
}

/// The changes of an object from a moment to another, both included, as far as these moments can be
/// read: one for each entry of its journal, in order.
///
/// NoMemory alone, where the memory for them is refused.
pub fn changes_between<J: Naming>(
    alloc: Global,
    drive: &mut Drive<J>,
    object: ObjectId,
    since: Moment,
    until: Moment,
) -> Result<Vec<ObjectChange>, Refusal>
    ensures changes { IfOk result
        (λ changes. changes.items
        ≡ changes_between (state_in drive.old) (store_of drive.old) object since until) }
    ensures refusal { IfErr result (λ e. e ≡ NoMemory) }
    ensures ledger { drive.new.ledger ≡ drive.old.ledger }
    ensures store { store_of drive.new ≡ store_of drive.old }
{
    let entries = drive.entries(object)?;
    let mut changes = Vec::new(alloc);
    for entry in entries.as_slice() {
        if is_asked(drive, object, since, until, entry) {
            changes.push(change_of(entry))?;
        }
    }
    Ok(changes)
}

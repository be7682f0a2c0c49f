//! When versions ended that can be read.
ghost use Rattle.std.specs.Prelude.{◌≡◌, ◌-◌, IfErr, IfOk};
ghost use Rattle.std.specs.List.{flat_map};
ghost use Rattle.s4_types.specs.declared.refusals.Refusal.TheVariants.{NoMemory};
ghost use Rattle.drive.specs.Fields.{state_in, store_of};
ghost use Rattle.history_view.specs.Listing.{is_visible};
ghost use Rattle.history_aging.specs.Ends.{AreEnds, aged_count, any_from, ends_of, ends_readable};

use codec::Entry;
use drive::Drive;
use history_view::all_objects;
use s4_types::{Moment, ObjectId, Refusal};
use segment_word::Naming;
use std::alloc::Global;

// Whether some moment of an object, from one on and before another, can be read.
fn sees_before<J: Naming>(drive: &Drive<J>, object: ObjectId, first: Moment, end: Moment) -> bool
    ensures { result ≡ any_from (is_visible (state_in drive.now) object) first (end - first) }
{
    if end.number() <= first.number() {
        return false;
    }
    let last = end.number() - 1;
    drive.sees(object, first, Moment::new(last))
}

// Whether an entry ended a version that can be read.
fn ends_readable<J: Naming>(drive: &Drive<J>, object: ObjectId, entry: &Entry) -> bool
    ensures { result ≡ ends_readable (state_in drive.now) object entry.now }
{
    let before = entry.before();
    before.alive && sees_before(drive, object, before.changed, entry.moment())
}

// The moments at which versions of an object ended that can be read, in order.
fn ends_of<J: Naming>(
    alloc: Global,
    drive: &mut Drive<J>,
    object: ObjectId,
) -> Result<Vec<Moment>, Refusal>
    ensures ends { IfOk result
        (λ ends. ends.items ≡ ends_of (state_in drive.old) (store_of drive.old) object) }
    ensures refusal { IfErr result (λ e. e ≡ NoMemory) }
    ensures ledger { drive.new.ledger ≡ drive.old.ledger }
    ensures store { store_of drive.new ≡ store_of drive.old }
{
    let entries = drive.entries(object)?;
    let mut ends = Vec::new(alloc);
    for entry in entries.as_slice() {
        if ends_readable(drive, object, entry) {
            ends.push(entry.moment())?;
        }
    }
    Ok(ends)
}

// The same of each of these objects.
fn ends_in<J: Naming>(
    alloc: Global,
    drive: &mut Drive<J>,
    objects: &[ObjectId],
) -> Result<Vec<Moment>, Refusal>
    ensures ends { IfOk result
        (λ ends. ends.items
        ≡ flat_map (ends_of (state_in drive.old) (store_of drive.old)) objects.now) }
    ensures refusal { IfErr result (λ e. e ≡ NoMemory) }
    ensures ledger { drive.new.ledger ≡ drive.old.ledger }
    ensures store { store_of drive.new ≡ store_of drive.old }
{
    let mut ends = Vec::new(alloc);
    for object in objects {
        let more = ends_of(alloc, drive, *object)?;
        ends.extend_from_slice(more.as_slice())?;
    }
    Ok(ends)
}

/// The moments at which versions ended that can be read: of each object that has a row, by
/// ascending number, one for each of its versions that can be read and that a change ended, the
/// moment of that change. The present versions aren't among them. The drive and its clock stay.
///
/// NoMemory alone, where the memory for the moments is refused.
pub fn ended_versions<J: Naming>(
    alloc: Global,
    drive: &mut Drive<J>,
) -> Result<Vec<Moment>, Refusal>
    ensures ends { IfOk result
        (λ ends. AreEnds (state_in drive.old) (store_of drive.old) ends.items) }
    ensures refusal { IfErr result (λ e. e ≡ NoMemory) }
    ensures ledger { drive.new.ledger ≡ drive.old.ledger }
    ensures store { store_of drive.new ≡ store_of drive.old }
{
    let objects = all_objects(alloc, drive)?;
    ends_in(alloc, drive, objects.as_slice())
}

/// How many of the versions that ended at these moments can't be read any more where this is the
/// floor: those that ended by it.
pub fn aged_count(ends: &[Moment], floor: Moment) -> usize
    ensures { result ≡ aged_count ends.now floor }
{
    ends.iter()
        .filter(|end| end.number() <= floor.number())
        .count()
}

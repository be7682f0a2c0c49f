//! When the versions of an object begin, as far as they can be read.
ghost use Rattle.std.specs.Prelude.{◌≡◌, ◌++◌, ◌≤◌, nat_lt, if◌then◌else◌, [], ◌∷◌, IfOk, IfErr};
ghost use Rattle.std.specs.Prelude.{OnOk};
ghost use Rattle.s4_types.specs.declared.refusals.Refusal.TheVariants.{NoMemory};
ghost use Rattle.s4_model.specs.Visible.{IsVisible};
ghost use Rattle.version_store.specs.Versions.{entries_of_object};
ghost use Rattle.drive.specs.Fields.{state_in, store_of};
ghost use Rattle.history_export.specs.Versions.{beginnings_of};

use codec::Entry;
use drive::Drive;
use history_view::first_seen;
use s4_types::{Moment, ObjectId, Refusal};
use segment_word::Naming;
use std::alloc::{AllocError, Global};

/// The moments at which the versions of an object can be read first, ascending: the earliest moment
/// of it that can be read, and after it for each of its changes the first that can be read from the
/// change on, once each.
///
/// NoMemory alone, where the memory for them is refused.
pub fn beginnings<J: Naming>(
    alloc: Global,
    drive: &mut Drive<J>,
    object: ObjectId,
) -> Result<Vec<Moment>, Refusal>
    ensures moments { IfOk result
        (λ moments. moments.items
        ≡ beginnings_of (state_in drive.old) (store_of drive.old) object) }
    ensures refused { IfErr result (λ e. e ≡ NoMemory) }
    ensures ledger { drive.new.ledger ≡ drive.old.ledger }
    ensures store { store_of drive.new ≡ store_of drive.old }
{
    let entries = drive.entries(object)?;
    match beginnings_by(alloc, drive, object, entries.as_slice()) {
        Ok(moments) => Ok(moments),
        Err(_) => Err(Refusal::NoMemory),
    }
}

// The same of an object that has these entries.
fn beginnings_by<J: Naming>(
    alloc: Global,
    drive: &Drive<J>,
    object: ObjectId,
    entries: &[Entry],
) -> Result<Vec<Moment>, AllocError>
    requires entries { entries.now ≡ entries_of_object (store_of drive.now) object }
    ensures moments { IfOk result
        (λ moments. moments.items
        ≡ beginnings_of (state_in drive.now) (store_of drive.now) object) }
{
    drive.rules();
    let first = first_seen(drive, object, drive.floor());
    let mut moments = Vec::new(alloc);
    moments.push(first)?;
    let mut last = first;
    for entry in entries {
        let moment = first_seen(drive, object, entry.moment());
        last = push_later(&mut moments, last, moment)?;
    }
    Ok(moments)
}

// Adds a moment that is later than the last one. Says which is the last then.
fn push_later(moments: &mut Vec<Moment>, last: Moment, moment: Moment) -> Result<Moment, AllocError>
    ensures last { IfOk result (λ next. next ≡ (if nat_lt last moment then moment else last)) }
    ensures moments { OnOk result
        (moments.new.items
        ≡ moments.old.items ++ (if nat_lt last moment then moment ∷ [] else [])) }
{
    if last.number() < moment.number() {
        moments.push(moment)?;
        return Ok(moment);
    }
    Ok(last)
}

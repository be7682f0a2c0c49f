//! Room in an object's chain.
ghost use Rattle.std.specs.Prelude.{◌≡◌, ◌≤◌, length, IfOk, IfErr, OnOk, MatchOption};
ghost use Rattle.s4_types.specs.declared.refusals.Refusal.TheVariants.{NoMemory};
ghost use Rattle.version_store.specs.Versions.{entries_of_object};
ghost use Rattle.drive.specs.Fields.{state_in, store_of};
ghost use Rattle.history_cleaner.specs.Cleaning.{IsClean};
ghost use Rattle.history_restore.specs.Asking.{IsMovedBy, IsWithinChanges};
ghost use Rattle.history_restore.specs.Keeping.{IsDatedFrom};
ghost use Rattle.history_restore.specs.Room.{LeavesObjects, HidesBetween, IsOfNewest, begun_after};

use crate::laws::what_requests_come_to;
use codec::Entry;
use drive::{Drive, Session};
use history_cleaner::clean_object;
use s4_types::{AdminRequest, Moment, ObjectId, Refusal, Reply, Request, Span};
use segment_word::Naming;
use std::alloc::Global;

/// Hides the moments of an object from `first` to `last`, by a request of an administrator's
/// session.
fn flush<J: Naming>(
    drive: &mut Drive<J>,
    session: &mut Session<J>,
    object: ObjectId,
    first: Moment,
    last: Moment,
    now: Moment,
) -> Result<(), Refusal>
    ensures hides { OnOk result
        (HidesBetween (state_in drive.old) object first last (state_in drive.new)) }
    ensures objects { LeavesObjects (state_in drive.old) object (state_in drive.new) }
    ensures clock { IsWithinChanges (state_in drive.old) now 1 (state_in drive.new) }
    ensures moved { OnOk result (IsMovedBy (state_in drive.old) now 1 (state_in drive.new)) }
    ensures dated { IsDatedFrom now (state_in drive.old) (state_in drive.new) }
{
    what_requests_come_to();
    drive.rules();
    let request = Request::Control(AdminRequest::FlushO {
        object,
        first,
        last,
    });
    if let Reply::Refused(refusal) = drive.request(session, request, now) {
        return Err(refusal);
    }
    Ok(())
}

/// Makes room in an object's chain: the moments of the object from `first` to `last` are hidden,
/// and of its chain those inodes stay alone that can be read at some moment. The present of every
/// object stays, and so does every version at a moment that can be read still.
///
/// Refused as a FlushO is, NotAdmin where the session isn't an administrator's among that; then
/// nothing was hidden. NoMemory and NoRoom also of the cleaning; then the moments are hidden, and
/// the chain is what it was.
pub fn make_room<J: Naming>(
    alloc: Global,
    drive: &mut Drive<J>,
    session: &mut Session<J>,
    object: ObjectId,
    first: Moment,
    last: Moment,
    now: Moment,
) -> Result<(), Refusal>
    ensures hides { OnOk result
        (HidesBetween (state_in drive.old) object first last (state_in drive.new)) }
    ensures clean { OnOk result (IsClean (store_of drive.new) (state_in drive.new) object) }
    ensures objects { LeavesObjects (state_in drive.old) object (state_in drive.new) }
    ensures clock { IsWithinChanges (state_in drive.old) now 1 (state_in drive.new) }
    ensures moved { OnOk result (IsMovedBy (state_in drive.old) now 1 (state_in drive.new)) }
    ensures dated { IsDatedFrom now (state_in drive.old) (state_in drive.new) }
{
    flush(drive, session, object, first, last, now)?;
    clean_object(alloc, drive, object)
}

/// The moments after a given one at which versions begin, by the entries of a journal.
fn begun_after(alloc: Global, at: Moment, entries: &[Entry]) -> Result<Vec<u64>, Refusal>
    ensures begun { IfOk result (λ begun. begun.items ≡ begun_after at entries.now) }
    ensures refusal { IfErr result (λ e. e ≡ NoMemory) }
{
    let mut begun = Vec::new(alloc);
    for entry in entries {
        let moment = entry.moment().number();
        if at.number() < moment {
            begun.push(moment)?;
        }
    }
    begun.dedup();
    Ok(begun)
}

/// The moments of this many of the newest versions, where as many begin at these moments beside the
/// last.
fn newest(begun: &[u64], count: usize, object: ObjectId) -> Option<Span>
    ensures { MatchOption result (length begun.now ≤ count)
        (λ span. IsOfNewest begun.now count object span) }
{
    if begun.len() <= count {
        return None;
    }
    let last = begun.len() - 1;
    Some(Span {
        object,
        first: Moment::new(begun[last - count]),
        last: Moment::new(begun[last].saturating_sub(1)),
    })
}

/// The moments of the newest versions of an object, `count` of them beside the present one: all
/// moments at which one of these is current. None where fewer begin after the moment `at`: what is
/// current then is never among them.
///
/// The versions are those of the object's journal; once it is cleaned each can be read at some
/// moment. NoMemory alone, where the memory for the entries is refused.
pub fn newest_versions<J: Naming>(
    alloc: Global,
    drive: &mut Drive<J>,
    object: ObjectId,
    at: Moment,
    count: usize,
) -> Result<Option<Span>, Refusal>
    ensures newest { IfOk result (λ found. MatchOption found (length (begun_after at (entries_of_object (store_of drive.old) object)) ≤ count)
        (λ span. IsOfNewest (begun_after at (entries_of_object (store_of drive.old) object)) count object span)) }
    ensures refusal { IfErr result (λ e. e ≡ NoMemory) }
    ensures ledger { drive.new.ledger ≡ drive.old.ledger }
    ensures store { store_of drive.new ≡ store_of drive.old }
{
    let entries = drive.entries(object)?;
    let begun = begun_after(alloc, at, entries.as_slice())?;
    Ok(newest(begun.as_slice(), count, object))
}

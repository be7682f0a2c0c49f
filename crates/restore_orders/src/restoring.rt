//! `restore`: the present is made what it was at a moment.
ghost use Rattle.std.specs.Prelude.{◌≡◌, ◌+◌, ◌^◌, ◌<◌, IfOk, OnOk};
ghost use Rattle.drive.specs.Fields.{state_in, store_of};
ghost use Rattle.restore_orders.specs.Restoring.{AreRestored, RestoresDrive, SaysWhy};

use crate::dating::Moments;
use crate::lines::Form;
use drive::{Drive, Session};
use history_restore::{Aim, Restored, restore_these};
use s4_images::{Failure, unreadable, write_lines};
use s4_types::{Moment, Refusal};
use segment_word::Naming;
use serving::Sink;
use std::alloc::Global;

/// What is restored, and how that is printed.
#[derive(Clone, Copy)]
pub(crate) struct Wanted<'a> {
    pub moments: Moments,
    /// The objects, and under which numbers.
    pub aims: &'a [Aim],
    /// Whether lines are for programs.
    pub json: bool,
}

/// Restores objects of a drive under these numbers, and prints what was done to each.
pub(crate) fn restore<J: Naming, W: Sink>(
    alloc: Global,
    drive: &mut Drive<J>,
    session: &mut Session<J>,
    wanted: &Wanted<'_>,
    writer: &mut W,
) -> Result<(), Failure>
    requires writer { W.failures writer.old + 1 < 2 ^ 64 }
    ensures restores { OnOk result
        (RestoresDrive (state_in drive.old) (store_of drive.old) (state_in drive.new)
        (store_of drive.new) wanted.now.moments.asked wanted.now.moments.at wanted.now.json wanted.now.aims.now
        (W.passed writer.old) (W.passed writer.new)) }
    ensures failures { OnOk result (W.failures writer.new ≡ W.failures writer.old) }
{
    let all = restored(alloc, drive, session, wanted)?;
    let form = Form { json: wanted.json };
    write_lines(alloc, &form, all.as_slice(), writer)
}

// Restores these.
fn restored<J: Naming>(
    alloc: Global,
    drive: &mut Drive<J>,
    session: &mut Session<J>,
    wanted: &Wanted<'_>,
) -> Result<Vec<Restored>, Failure>
    ensures restored { IfOk result
        (λ all. AreRestored (state_in drive.old) (store_of drive.old) (state_in drive.new)
        (store_of drive.new) wanted.now.moments.asked wanted.now.moments.at wanted.now.aims.now all.items) }
{
    let (at, now) = (wanted.moments.at, wanted.moments.asked);
    match restore_these(alloc, drive, session, wanted.aims, at, now) {
        Ok(all) => Ok(all),
        Err(failure) => Err(failure_of(drive, at, failure)),
    }
}

/// The failure of an object that wasn't restored: where there is no room it names the number under
/// which it was to be.
pub fn failure_of<J: Naming>(
    drive: &Drive<J>,
    at: Moment,
    failure: history_restore::Failure,
) -> Failure
    ensures { SaysWhy (state_in drive.now) failure.aim at failure.refusal result }
{
    let aim = failure.aim;
    let object = aim.target.number();
    match failure.refusal {
        Refusal::Future | Refusal::Expired | Refusal::Flushed => {
            unreadable(drive, aim.object, at)
        }
        Refusal::ChainFull => Failure::JournalFull { object },
        Refusal::NoSpace => Failure::NoRoom { object },
        refusal => Failure::from(refusal),
    }
}

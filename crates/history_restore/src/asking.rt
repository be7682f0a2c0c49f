//! Requests for changes of objects.
ghost use Rattle.std.specs.Prelude.{OnOk, IfErr};
ghost use Rattle.s4_types.specs.declared.requests.Request.TheVariants.{Update};
ghost use Rattle.s4_model.specs.Refusals.{first_refusal};
ghost use Rattle.drive.specs.Fields.{state_in, store_of};
ghost use Rattle.drive.specs.Later.{object_asked};
ghost use Rattle.history_restore.specs.Asking.{Grants, IsForAsked, IsGiven};
ghost use Rattle.history_restore.specs.Asking.{IsMovedBy, StoresAsked};
ghost use Rattle.history_restore.specs.Keeping.{IsDatedFrom, LeavesPast, LeavesOthers};

use crate::laws::what_requests_come_to;
use drive::{Drive, Session};
use s4_types::{Moment, ObjectRequest, Refusal, Reply, Request};
use segment_word::Naming;

/// Asks for a change of an object, the next one's creation among them. Nothing but that object
/// changes, whatever is answered. The change has the greater of the moment `now` and of the first
/// after the clock.
pub(crate) fn ask<J: Naming>(
    drive: &mut Drive<J>,
    session: &mut Session<J>,
    update: ObjectRequest,
    now: Moment,
) -> Result<(), Refusal>
    ensures granted { OnOk result
        (Grants (state_in drive.old) (Update update) (state_in drive.new)) }
    ensures refused { IfErr result
        (IsGiven (first_refusal (state_in drive.old) session.old.role (Update update))) }
    ensures stored { OnOk result
        (StoresAsked (store_of drive.old) (state_in drive.old) (Update update)
        (store_of drive.new)) }
    ensures lacks { IfErr result
        (IsForAsked (store_of drive.old) (state_in drive.old) (Update update)) }
    ensures moved { OnOk result (IsMovedBy (state_in drive.old) now 1 (state_in drive.new)) }
    ensures dated { IsDatedFrom now (state_in drive.old) (state_in drive.new) }
    ensures others { LeavesOthers (object_asked (state_in drive.old).next (Update update))
        (state_in drive.old) (state_in drive.new) }
    ensures past { LeavesPast (state_in drive.old) (state_in drive.new) }
{
    what_requests_come_to();
    drive.rules();
    let request = Request::Update(update);
    if let Reply::Refused(refusal) = drive.request(session, request, now) {
        return Err(refusal);
    }
    Ok(())
}

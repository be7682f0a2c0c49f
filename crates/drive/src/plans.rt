//! Plans of reads: made with the drive, and fetched without it.
ghost use Rattle.std.specs.Prelude.{◌≡◌, None, Some, IfOk, IfErr, OnOk};
ghost use Rattle.s4_types.specs.Sizes.{ReplyFits};
ghost use Rattle.s4_types.specs.declared.replies.Reply.TheVariants.{Data};
ghost use Rattle.s4_types.specs.declared.requests.Request.TheVariants.{Query};
ghost use Rattle.s4_types.specs.declared.requests.Question.TheVariants.{Read};
ghost use Rattle.s4_types.specs.declared.requests.Role.{Role};
ghost use Rattle.s4_model.specs.Refusals.{first_refusal};
ghost use Rattle.s4_model.specs.Step.{Step, reply_to_read};
ghost use Rattle.segment_word.specs.AcceptViews.{with_moment, caught_up};
ghost use Rattle.segment_word.specs.AcceptRule.{FitsLedger};
ghost use Rattle.time_read.specs.Plans.{bytes_planned};
ghost use Rattle.drive.specs.Fields.{history_of, state_in, store_of};
ghost use Rattle.drive.specs.Refusing.{RefusesExactly, LacksMemoryInPlace, IsUnplanned};
ghost use Rattle.drive.specs.Answering.{IsPlanOf, IsPinOf, reply_planned};

use crate::checks::check_read;
use crate::drive::Drive;
use crate::session::Session;
use s4_types::{Moment, ObjectId, Refusal};
use segment_word::Naming;
use time_read::ReadPlan;

impl<J: Naming> Drive<J> {
    /// A plan of a Read, by the history that has seen its moment.
    fn plan_read(
        &mut self,
        object: ObjectId,
        offset: u64,
        length: u32,
        at: Option<Moment>,
    ) -> Result<ReadPlan, Refusal>
        ensures ledger { self.new.ledger ≡ self.old.ledger }
        ensures store { store_of self.new ≡ store_of self.old }
        ensures free { OnOk result
            ((role : Role)
            → first_refusal (state_in self.old) role (Query (Read object offset length at)) ≡ None) }
        ensures bytes { IfOk result
            (λ plan. reply_to_read (state_in self.old) (Query (Read object offset length at))
            ≡ Some (Data (bytes_planned plan))) }
        ensures fits { IfOk result (λ plan. ReplyFits (Data (bytes_planned plan))) }
        ensures plan { IfOk result (IsPlanOf self.new object offset length at) }
        ensures refused { IfErr result
            (λ e. (role : Role)
            → IsUnplanned
            (first_refusal (state_in self.old) role (Query (Read object offset length at))) self.new
            (Query (Read object offset length at)) e) }
    {
        check_read(offset, length)?;
        self.planned(object, offset, length, at)
    }

    /// A plan of a Read of `length` bytes of an object from an offset on, at a moment, and at the
    /// present clock where none is given: [`ReadPlan::fetch`] gives the bytes, whatever was changed
    /// meanwhile. Clock and floor move as by that Read.
    ///
    /// It is refused as the Read is: TooLarge, Future, Expired, Flushed, NoObject, the first of
    /// these that applies; else NoMemory where memory is refused, and Busy where a block of a
    /// sealed frame is needed and no pin is to be had.
    pub fn resolve(
        &mut self,
        session: &mut Session<J>,
        object: ObjectId,
        offset: u64,
        length: u32,
        at: Option<Moment>,
        now: Moment,
    ) -> Result<ReadPlan, Refusal>
        // The history goes on by the step of that Read, answered with the bytes that the plan
        // names.
        ensures step { Step (history_of self.old) session.old.role (Query (Read object offset length at))
            now (reply_planned result) (history_of self.new) }
        ensures refused { RefusesExactly self.old session.old.role (Query (Read object offset length at))
            now (reply_planned result) self.new }
        // Lack of memory comes only where no check refuses the Read.
        ensures memory { LacksMemoryInPlace self.old session.old.role (Query (Read object offset length at))
            now (reply_planned result) }
        ensures plan { IfOk result (IsPlanOf self.new object offset length at) }
        // Its pin is of the table of frames that `J` names.
        ensures named { IfOk result (λ plan. IsPinOf J.frames plan.pin) }
        ensures fits { ReplyFits (reply_planned result) }
        ensures ledger { self.new.ledger ≡ with_moment self.old.ledger now }
        ensures store { store_of self.new ≡ store_of self.old }
        ensures session { session.new ≡ record session.old { told = caught_up self.new.ledger session.old.told } }
        ensures before { FitsLedger self.old.ledger session.old.told }
        ensures after { FitsLedger self.new.ledger session.new.told }
    {
        self.see(session, now);
        let planned = self.plan_read(object, offset, length, at);
        self.rules();
        planned
    }
}

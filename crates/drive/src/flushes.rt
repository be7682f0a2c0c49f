//! Changes that make no version: of the window, and of what is hidden.
ghost use Rattle.std.specs.Prelude.{◌≡◌, ◌⊎◌, ◌<◌, ◌≤◌, ◌==◌, ◌||◌, nat_le, true, None, Some};
ghost use Rattle.std.specs.Prelude.{MatchResult, IfOk, OnOk};
ghost use Rattle.s4_types.specs.declared.requests.Request.TheVariants.{Control};
ghost use Rattle.s4_types.specs.declared.requests.AdminRequest.TheVariants.{SetWindow, Flush};
ghost use Rattle.s4_types.specs.declared.requests.AdminRequest.TheVariants.{FlushO};
ghost use Rattle.s4_types.specs.declared.refusals.Refusal.TheVariants.{NoMemory, NoObject};
ghost use Rattle.s4_model.specs.State.{State};
ghost use Rattle.s4_model.specs.Refusals.{last_number};
ghost use Rattle.window.specs.Timeline.{StandsFor, IsPlanned};
ghost use Rattle.drive.specs.Later.{later_refusal};
ghost use Rattle.drive.specs.Fields.{state_in, store_of};
ghost use Rattle.drive.specs.Refusing.{span_refusal};
ghost use Rattle.drive.specs.Answering.{ComesTo};

use crate::acceptance::accept;
use crate::drive::Drive;
use crate::judgements::check_clock;
use crate::session::Session;
use s4_model::laws::histories_go_on_record_by_record;
use s4_model::row_of;
use s4_types::{Change, Moment, ObjectId, Refusal, Reply, Span};
use segment_word::Naming;
use window::{FlushPlan, Window};

/// The plan of a span, in order and past, where it makes no runs too many and a later moment can be
/// given. Takes all memory that hiding it needs.
#[tactic(auto, using(crate::proofs::Unversioned::unplanned, crate::proofs::Unversioned::planned, crate::proofs::Unversioned::unplanned_at_end))]
fn plan_span(window: &Window, span: Span) -> Result<FlushPlan, Refusal>
    requires ordered { span.first ≤ span.last }
    requires past { span.last ≤ window.now.clock }
    ensures planned { IfOk result (λ plan. (plan.span ≡ span) × IsPlanned window.now plan) }
    ensures clock { OnOk result (window.now.clock < last_number) }
    ensures judged { (s : State) → StandsFor window.now s → span.object < s.next → MatchResult result
        (λ _. span_refusal s span ≡ None)
        (λ e. (e ≡ NoMemory) ⊎ (span_refusal s span ≡ Some e)) }
{
    let plan = window.plan_flush(span)?;
    check_clock(window.clock())?;
    Ok(plan)
}

/// NoObject where a number is none of an object that was made.
fn check_given(object: ObjectId, next: ObjectId) -> Result<(), Refusal>
    ensures { MatchResult result (λ _. (1 ≤ object) × (object < next))
        (λ e. (e ≡ NoObject) × ((object == 0 || nat_le next object) ≡ true)) }
{
    if object.number() == 0 || object >= next {
        return Err(Refusal::NoObject);
    }
    Ok(())
}

impl<J: Naming> Drive<J> {
    /// A request of an administrator to set the window.
    pub(crate) fn set_window(
        &mut self,
        session: &mut Session<J>,
        window: u64,
        now: Moment,
    ) -> Result<Reply, Refusal>
        ensures { ComesTo (store_of self.old) (later_refusal (state_in self.old) (Control (SetWindow window))) self.old self.new
            session.old session.new (Control (SetWindow window)) now result }
    {
        histories_go_on_record_by_record();
        check_clock(self.window.clock())?;
        self.audit.reserve()?;
        let moment = self.window.set(window, now);
        let change = Change::SetWindow { window };
        self.audit.push(row_of(&change, moment));
        accept(&mut self.history, &mut session.seat, moment, &change);
        Ok(Reply::Changed(moment))
    }

    /// A request of an administrator to hide a span of all objects.
    pub(crate) fn flush(
        &mut self,
        session: &mut Session<J>,
        first: Moment,
        last: Moment,
        now: Moment,
    ) -> Result<Reply, Refusal>
        ensures { ComesTo (store_of self.old) (later_refusal (state_in self.old) (Control (Flush first last))) self.old self.new
            session.old session.new (Control (Flush first last)) now result }
    {
        histories_go_on_record_by_record();
        self.window.check_span(first, last)?;
        let span = Span {
            object: ObjectId::new(0),
            first,
            last,
        };
        let plan = plan_span(&self.window, span)?;
        self.audit.reserve()?;
        let moment = self.window.flush(plan, now);
        let change = Change::Flush { first, last };
        self.audit.push(row_of(&change, moment));
        accept(&mut self.history, &mut session.seat, moment, &change);
        Ok(Reply::Changed(moment))
    }

    /// A request of an administrator to hide a span of one object.
    pub(crate) fn flush_object(
        &mut self,
        session: &mut Session<J>,
        object: ObjectId,
        first: Moment,
        last: Moment,
        now: Moment,
    ) -> Result<Reply, Refusal>
        ensures { ComesTo (store_of self.old) (later_refusal (state_in self.old) (Control (FlushO object first last))) self.old
            self.new session.old session.new (Control (FlushO object first last)) now result }
    {
        histories_go_on_record_by_record();
        self.window.check_span(first, last)?;
        check_given(object, self.next)?;
        let span = Span {
            object,
            first,
            last,
        };
        let plan = plan_span(&self.window, span)?;
        self.audit.reserve()?;
        let moment = self.window.flush(plan, now);
        let change = Change::FlushO {
            object,
            first,
            last,
        };
        self.audit.push(row_of(&change, moment));
        accept(&mut self.history, &mut session.seat, moment, &change);
        Ok(Reply::Changed(moment))
    }
}

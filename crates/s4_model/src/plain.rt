ghost use Rattle.std.specs.Prelude.{◌≡◌, ◌≤◌, IfOk, IfErr};
ghost use Rattle.std.specs.List.{AllByRecursion};
ghost use Rattle.s4_model.specs.State.{state_of, new_history, seen};
ghost use Rattle.s4_model.specs.Step.{Step};
ghost use Rattle.s4_model.specs.Plain.{Responds, IsPlainReply};
ghost use Rattle.s4_types.specs.History.{History};
ghost use Rattle.s4_types.specs.Sizes.{ReplyFits};
ghost use Rattle.s4_model.specs.VersionAt.{version_of};
ghost use Rattle.s4_model.specs.Visible.{is_hidden};
ghost use Rattle.s4_model.specs.Audit.{rows_from, audit_of};
ghost use Rattle.s4_model.specs.Refusals.{is_one_span_too_many};
ghost use Rattle.s4_model.specs.Limits.{IsWithinLimits};
ghost use Rattle.s4_types.specs.declared.refusals.Refusal.TheVariants.{NoMemory};

mod answer;
mod judge;
mod settle;

use crate::{audit, hidden, replay, runs};
use s4_types::{
    Accepted, AuditRow, Moment, ObjectId, Refusal, Reply, Request, Role, Span, Version,
};
use std::alloc::Global;
use std::marker::Model;

/// A drive that keeps a list of accepted changes and computes every answer from it.
///
/// Contracts see the state that its history has come to. It has as much space as there is memory,
/// so it never answers that a chain or the drive is full, or busy.
#[derive(Drop)]
pub struct PlainDrive {
    alloc: Global,
    changes: Vec<Accepted>,
    clock: Moment,
    window: u64,
    floor: Moment,
    next: ObjectId,
}

impl Model for PlainDrive {
    ghost use Rattle.std.specs.Prelude.{[]};
    ghost use Rattle.std.specs.List.{AllByRecursion};
    ghost use Rattle.s4_model.specs.State.{State};
    ghost use Rattle.s4_model.specs.Plain.{IsKeptChange};

    ghost Value = { State };

    ghost view = { λ d. record {
      versions = [];
      spans = [];
      audit = [];
      opened = 0;
      changes = d.changes.items;
      clock = d.clock;
      window = d.window;
      floor = d.floor;
      next = d.next;
    } };

    ghost invariant = { λ d. AllByRecursion (IsKeptChange d.clock) d.changes.items };
}

impl PlainDrive {
    /// A new drive with this window, in moments.
    pub fn new(alloc: Global, window: u64) -> Self
        ensures { result ≡ state_of (new_history window) }
    {
        PlainDrive {
            alloc,
            changes: Vec::new(alloc),
            clock: Moment::new(0),
            window,
            floor: Moment::new(0),
            next: ObjectId::new(1),
        }
    }

    /// What a request of a role is answered at a moment `now` of the server's clock, and all that
    /// it changes.
    ///
    /// A change is stamped with the greater of `now` and the clock plus one; a refused change and
    /// a question move the clock to `now` if that is later. `NoMemory` comes only where a
    /// growth was really refused, and leaves all but clock and floor as it was. Each call goes
    /// through all changes so far, and a flush through the spans of every list.
    pub fn request(&mut self, role: Role, request: Request, now: Moment) -> Reply
        // The history goes on by a step, whichever history the drive represents.
        ensures step { (h : History) → state_of h ≡ self.old →
            (after : History) × Step h role request now result after × (state_of after ≡ self.new) }
        ensures fits { ReplyFits result }
        // Memory is all the room that it needs.
        ensures roomy { IsPlainReply result }
    {
        self.respond(role, request, now)
    }

    fn respond(&mut self, role: Role, request: Request, now: Moment) -> Reply
        ensures { Responds self.old role request now result self.new }
    {
        match request {
            Request::Query(question) => {
                self.observe(now);
                answer::reply_of(self.answer(role, question))
            }
            Request::Update(update) => {
                let judged = self.judge_update(update);
                self.settle(judged, now)
            }
            Request::Control(control) => {
                let judged = self.judge_control(role, control);
                self.settle(judged, now)
            }
        }
    }

    /// Sees a moment: the clock and the floor move on to it.
    fn observe(&mut self, now: Moment)
        ensures { self.new ≡ seen self.old now }
    {
        let clock = self.clock.number().max(now.number());
        self.clock = Moment::new(clock);
        let reach = clock.saturating_sub(self.window);
        self.floor = Moment::new(self.floor.number().max(reach));
    }

    /// The version that an object has at a moment.
    fn version(&self, object: ObjectId, at: Moment) -> Result<Version, Refusal>
        ensures ok { IfOk result (λ version. version ≡ version_of self.now object at) }
        ensures limits { IfOk result IsWithinLimits }
        ensures err { IfErr result (λ refusal. refusal ≡ NoMemory) }
    {
        replay::version_at(self.alloc, self.changes.as_slice(), object, at)
    }

    /// Whether a span hides the moment of the object.
    fn is_hidden(&self, object: ObjectId, at: Moment) -> bool
        ensures { result ≡ is_hidden self.now object at }
    {
        hidden::is_hidden(self.changes.as_slice(), object, at)
    }

    /// The rows of the audit from a moment on.
    fn rows_from(&self, from: Moment) -> Result<Vec<AuditRow>, Refusal>
        ensures ok { IfOk result (λ rows. rows.items ≡ rows_from from (audit_of self.now)) }
        ensures err { IfErr result (λ refusal. refusal ≡ NoMemory) }
    {
        audit::rows_from(self.alloc, self.changes.as_slice(), from.max(self.floor))
    }

    /// Whether one more span makes more runs than its list, or all lists together, may have.
    fn is_one_span_too_many(&self, span: Span) -> Result<bool, Refusal>
        requires { span.last ≤ self.now.clock }
        ensures ok { IfOk result (λ too_many. too_many ≡ is_one_span_too_many self.now span) }
        ensures err { IfErr result (λ refusal. refusal ≡ NoMemory) }
    {
        let list = span.object;
        let mut spans = hidden::spans_of(self.alloc, self.changes.as_slice())?;
        spans.push(span)?;
        runs::are_runs_too_many(self.alloc, self.floor, spans.as_slice(), list, self.next)
    }
}

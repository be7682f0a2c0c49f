//! Stamping and keeping a change that was judged.
ghost use Rattle.std.specs.Prelude.{◌≡◌, MatchResult, IfOk};
ghost use Rattle.s4_model.specs.Numbers.{window_by, next_by};
ghost use Rattle.s4_model.specs.State.{seen, took};
ghost use Rattle.s4_model.specs.Step.{reply_at, reply_to_change, accepted_record};
ghost use Rattle.s4_model.specs.Plain.{HasNext, IsTakeable, Settles};
ghost use Rattle.s4_types.specs.declared.refusals.Refusal.TheVariants.{NoMemory};

use crate::plain::PlainDrive;
use s4_types::{Accepted, Change, Moment, ObjectId, Refusal, Reply};

/// The reply to an accepted change at its moment.
fn reply_at(change: &Change, moment: Moment) -> Reply
    ensures { result ≡ reply_at change.now moment }
{
    match change {
        Change::Create { object, .. } => Reply::Created(*object, moment),
        _ => Reply::Changed(moment),
    }
}

/// The window after a change.
fn window_by(change: &Change, window: u64) -> u64
    ensures { result ≡ window_by change.now window }
{
    match change {
        Change::SetWindow { window: new_window } => *new_window,
        _ => window,
    }
}

/// The next object's number after a change.
fn next_by(change: &Change, next: ObjectId) -> ObjectId
    requires { HasNext next change.now }
    ensures { result ≡ next_by change.now next }
{
    match change {
        Change::Create { .. } => ObjectId::new(next.number() + 1),
        _ => next,
    }
}

impl PlainDrive {
    /// Stamps a change and keeps it. `NoMemory`, and nothing changed, where the list could not
    /// grow.
    fn take(&mut self, change: Change, now: Moment) -> Result<Reply, Refusal>
        requires { IsTakeable self.old change }
        ensures { MatchResult result
            (λ reply. (reply ≡ reply_to_change self.old change now)
            × (self.new ≡ took self.old (accepted_record self.old change now)))
            (λ refusal. (refusal ≡ NoMemory) × (self.new ≡ self.old)) }
    {
        self.changes.reserve(1)?;
        let number = self.changes.len() as u64 + 1;
        let stamp = now.number().max(self.clock.number() + 1);
        let moment = Moment::new(stamp);
        let reply = reply_at(&change, moment);
        let window = window_by(&change, self.window);
        self.next = next_by(&change, self.next);
        self.clock = moment;
        self.window = window;
        self.floor = Moment::new(self.floor.number().max(stamp.saturating_sub(window)));
        self.changes.push_reserved(Accepted {
            number,
            moment,
            change,
        });
        Ok(reply)
    }

    /// Refuses, and sees the moment.
    fn refuse(&mut self, refusal: Refusal, now: Moment) -> Reply
        ensures reply { result ≡ Reply.Refused refusal }
        ensures after { self.new ≡ seen self.old now }
    {
        self.observe(now);
        Reply::Refused(refusal)
    }

    /// Keeps the change that was judged, or refuses it.
    pub(super) fn settle(&mut self, judged: Result<Change, Refusal>, now: Moment) -> Reply
        requires { IfOk judged (IsTakeable self.old) }
        ensures { Settles self.old judged now result self.new }
    {
        match judged {
            Ok(change) => match self.take(change, now) {
                Ok(reply) => reply,
                Err(refusal) => self.refuse(refusal, now),
            },
            Err(refusal) => self.refuse(refusal, now),
        }
    }
}

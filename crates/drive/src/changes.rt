//! Changes of objects: judged by the present inode, then stored and accepted.
ghost use Rattle.std.specs.Prelude.{◌≡◌, ◌+◌, ◌<◌, max, None, Some, option_copied, IfOk, IfErr};
ghost use Rattle.std.specs.Prelude.{nat_lt};
ghost use Rattle.std.specs.Prelude.{OnOk};
ghost use Rattle.s4_types.specs.declared.requests.Request.TheVariants.{Update};
ghost use Rattle.s4_model.specs.Numbers.{next_by};
ghost use Rattle.s4_model.specs.State.{took};
ghost use Rattle.s4_model.specs.Refusals.{last_number, present, size_of as size_in};
ghost use Rattle.s4_model.specs.Step.{change_of, stamp, accepted_record, reply_at};
ghost use Rattle.s4_model.specs.Sound.{IsSound};
ghost use Rattle.s4_model.specs.Plain.{HasNext};
ghost use Rattle.drive.specs.Later.{later_refusal, IsWithin};
ghost use Rattle.version_store.specs.Taking.{Takes};
ghost use Rattle.version_store.specs.Costs.{short_of};
ghost use Rattle.drive.specs.Fields.{state_in, store_of};
ghost use Rattle.drive.specs.Answering.{ComesTo, size_by};

use crate::acceptance::accept;
use crate::drive::Drive;
use crate::judgements::{judge, object_of};
use crate::laws::what_changes_of_objects_rest_on;
use crate::session::Session;
use codec::Inode;
use s4_model::row_of;
use s4_types::{Change, Moment, ObjectId, ObjectRequest, Refusal, Reply};
use segment_word::Naming;

/// The moment of a change that is asked for at a moment: the greater of that and the clock plus
/// one.
pub(crate) fn moment_after(clock: Moment, now: Moment) -> Moment
    requires { clock < last_number }
    ensures { result ≡ max now (clock + 1) }
{
    Moment::new(now.number().max(clock.number() + 1))
}

/// The reply to an accepted change at its moment.
pub(crate) fn reply_at(change: &Change, moment: Moment) -> Reply
    ensures { result ≡ reply_at change.now moment }
{
    match change {
        Change::Create { object, .. } => Reply::Created(*object, moment),
        _ => Reply::Changed(moment),
    }
}

/// The next object's number after a change.
fn next_after(change: &Change, next: ObjectId) -> ObjectId
    requires { HasNext next change.now }
    ensures { result ≡ next_by change.now next }
{
    match change {
        Change::Create { .. } => ObjectId::new(next.number() + 1),
        _ => next,
    }
}

/// The size of a live inode.
fn size_of(inode: Option<&Inode>) -> Option<u64>
    ensures { result ≡ size_by (option_copied inode.entry) }
{
    match inode {
        Some(inode) if inode.alive => Some(u64::from(inode.size)),
        _ => None,
    }
}

/// A change that nothing refuses but its blocks, and its moment.
#[derive(Drop)]
struct Judged {
    change: Change,
    moment: Moment,
}

impl<J: Naming> Drive<J> {
    /// Judges a request for a version of an object, by the object's present inode. No memory is
    /// taken.
    fn judge_object(&self, update: ObjectRequest, now: Moment) -> Result<Judged, Refusal>
        requires within { IsWithin (Update update) }
        ensures free { OnOk result (later_refusal (state_in self.now) (Update update) ≡ None) }
        ensures asked { IfOk result
            (λ judged. change_of (state_in self.now) (Update update) ≡ Some judged.change) }
        ensures clock { OnOk result ((state_in self.now).clock < last_number) }
        ensures takes { IfOk result (λ judged. Takes (store_of self.now) judged.change) }
        ensures next { IfOk result (λ judged. HasNext (state_in self.now).next judged.change) }
        ensures moment { IfOk result (λ judged. judged.moment ≡ stamp (state_in self.now) now) }
        ensures sound { IfOk result
            (λ judged. IsSound
            (took (state_in self.now)
            (accepted_record (state_in self.now) judged.change now))) }
        ensures refused { IfErr result
            (λ e. later_refusal (state_in self.now) (Update update) ≡ Some e) }
    {
        what_changes_of_objects_rest_on();
        let object = object_of(self.next, &update);
        let found = self.store.present(object);
        let clock = self.window.clock();
        let change = judge(clock, self.next, size_of(found), update)?;
        let moment = moment_after(clock, now);
        Ok(Judged { change, moment })
    }

    /// Whether an object has more bytes than this now; an absent one counts as empty. No memory is
    /// taken.
    pub fn is_longer(&self, object: ObjectId, size: u64) -> bool
        ensures { result ≡ nat_lt size (size_in (present (state_in self.now) object)) }
    {
        what_changes_of_objects_rest_on();
        let found = self.store.present(object);
        let has = size_of(found).unwrap_or(0);
        size < has
    }

    /// A request for a version of an object, once `check_update` let it pass. NoSpace is judged by
    /// the room less `least`.
    pub(crate) fn change_object(
        &mut self,
        session: &mut Session<J>,
        update: ObjectRequest,
        now: Moment,
        least: usize,
    ) -> Result<Reply, Refusal>
        requires within { IsWithin (Update update) }
        ensures { ComesTo (short_of least (store_of self.old)) (later_refusal (state_in self.old) (Update update))
            self.old self.new session.old session.new (Update update) now result }
    {
        what_changes_of_objects_rest_on();
        let Judged { change, moment } = self.judge_object(update, now)?;
        self.audit.reserve()?;
        self.store.take(&change, moment, least)?;
        self.window.stamp(now);
        self.next = next_after(&change, self.next);
        self.audit.push(row_of(&change, moment));
        accept(&mut self.history, &mut session.seat, moment, &change);
        Ok(reply_at(&change, moment))
    }
}

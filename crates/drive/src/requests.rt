//! Requests: each is one step of the drive's history.
ghost use Rattle.std.specs.Prelude.{◌≡◌, MatchResult};
ghost use Rattle.s4_types.specs.Sizes.{ReplyFits};
ghost use Rattle.s4_model.specs.Refusals.{first_refusal};
ghost use Rattle.s4_model.specs.Step.{Step};
ghost use Rattle.s4_types.specs.declared.requests.Request.TheVariants.{Query, Update, Control};
ghost use Rattle.segment_word.specs.AcceptViews.{with_moment, caught_up};
ghost use Rattle.segment_word.specs.AcceptRule.{FitsLedger};
ghost use Rattle.version_store.specs.Store.{StoreFields};
ghost use Rattle.version_store.specs.Costs.{short_of};
ghost use Rattle.drive.specs.Fields.{history_of, state_in, store_of};
ghost use Rattle.drive.specs.Refusing.{RefusesExactly, RefusesLeaving, LacksMemoryInPlace};
ghost use Rattle.drive.specs.Answering.{Leaves, ComesTo, IsServed, IsSettled};
ghost use Rattle.drive.specs.Answering.{told_after, owners_after};

use crate::checks::{check_role, check_update};
use crate::drive::Drive;
use crate::session::Session;
use s4_model::laws::histories_go_on_record_by_record;
use s4_types::{AdminRequest, Moment, ObjectRequest, Question, Refusal, Reply, Request};
use segment_word::Naming;

/// The reply to what was told.
fn reply_of(told: Result<Reply, Refusal>) -> Reply
    ensures { MatchResult told (λ reply. result ≡ reply)
        (λ refusal. result ≡ Reply.Refused refusal) }
{
    match told {
        Ok(reply) => reply,
        Err(refusal) => Reply::Refused(refusal),
    }
}

impl<J: Naming> Drive<J> {
    /// What a request of a session is answered at a moment `now` of the server's clock, and all
    /// that it changes.
    ///
    /// A change is stamped with the greater of `now` and the clock plus one. What is refused and
    /// each question move the clock to `now` if that is later, and the floor with it, and leave
    /// objects, window and spans. Afterwards the session has seen all accepted changes.
    ///
    /// A refusal is the first of the model's checks that applies. Where none does, a change of an
    /// object is refused with ChainFull where the entries of the object's chain would have more
    /// than `CHAIN_ENTRY_BYTES`, else with NoSpace where there is less room than blocks are
    /// appended. NoMemory comes only where a growth was refused. A question and a SetWindow are
    /// answered so only where nothing else refuses them, a change of an object also in place of
    /// ChainFull and NoSpace, a Flush and a FlushO in place of TooManySpans and ClockEnd. The
    /// contract lets a Read that no check refuses be Busy, as one that is resolved, where it needs
    /// a block of a sealed frame; this drive reads at once and takes no pin for it, so that it
    /// never is.
    pub fn request(&mut self, session: &mut Session<J>, request: Request, now: Moment) -> Reply
        // The history goes on by a step of the model.
        ensures step { Step (history_of self.old) session.old.role request now result
            (history_of self.new) }
        // The reply is a refusal exactly where there is one, but for lack of memory, which is in
        // place of no check of an object.
        ensures refused { RefusesExactly self.old session.old.role request now result self.new }
        ensures memory { LacksMemoryInPlace self.old session.old.role request now result }
        // An accepted change appends exactly its blocks, and changes its object's row alone, whose
        // stamp it raises by one; it is the last change then. Nothing else changes blocks, rows or
        // the last change's moment.
        ensures stored { Leaves (store_of self.old) (state_in self.old) request now result
            (store_of self.new) }
        ensures fits { ReplyFits result }

        // The session has seen all accepted changes, and an accepted one is its own.
        ensures session { session.new ≡ record session.old { told = told_after result self.new.ledger session.old.told } }
        ensures owners { self.new.ledger.owners
            ≡ owners_after result session.old.told.seat self.old.ledger.owners }
        ensures before { FitsLedger self.old.ledger session.old.told }
        ensures after { FitsLedger self.new.ledger session.new.told }
    {
        self.request_leaving(session, request, now, 0)
    }

    /// What [`Drive::request`] answers and changes, but that `least` blocks of room are kept back: a
    /// change is refused with NoSpace exactly where nothing else refuses it and the room less
    /// `least`, down to none, is less than the blocks that it appends. Such a refusal is one like
    /// each other: its moment is seen, and nothing else has changed. With 0 it is that request.
    pub fn request_leaving(
        &mut self,
        session: &mut Session<J>,
        request: Request,
        now: Moment,
        least: usize,
    ) -> Reply
        // The history goes on by a step of the model.
        ensures step { Step (history_of self.old) session.old.role request now result
            (history_of self.new) }
        // NoSpace is judged by the room less `least`, and the moment of each refusal is seen.
        ensures refused { RefusesLeaving least self.old session.old.role request now result self.new }
        ensures memory { LacksMemoryInPlace self.old session.old.role request now result }
        // An accepted change appends exactly its blocks, and changes its object's row alone, whose
        // stamp it raises by one; it is the last change then. Nothing else changes blocks, rows or
        // the last change's moment.
        ensures stored { Leaves (store_of self.old) (state_in self.old) request now result
            (store_of self.new) }
        ensures fits { ReplyFits result }

        // The session has seen all accepted changes, and an accepted one is its own.
        ensures session { session.new ≡ record session.old { told = told_after result self.new.ledger session.old.told } }
        ensures owners { self.new.ledger.owners
            ≡ owners_after result session.old.told.seat self.old.ledger.owners }
        ensures before { FitsLedger self.old.ledger session.old.told }
        ensures after { FitsLedger self.new.ledger session.new.told }
    {
        self.serve(session, request, now, least)
    }

    /// The same, as one record.
    fn serve(
        &mut self,
        session: &mut Session<J>,
        request: Request,
        now: Moment,
        least: usize,
    ) -> Reply
        ensures { IsServed (short_of least (store_of self.old)) self.old self.new session.old session.new request now result }
    {
        match request {
            Request::Query(question) => self.answer(session, question, now),
            Request::Update(update) => {
                let done = self.update(session, update, now, least);
                self.settle(session, done, now)
            }
            Request::Control(control) => {
                let done = self.control(session, control, now);
                self.settle(session, done, now)
            }
        }
    }

    /// The reply to a question, by the history that has seen its moment.
    fn answer(&mut self, session: &mut Session<J>, question: Question, now: Moment) -> Reply
        ensures { (scarce : StoreFields)
            → IsServed scarce self.old self.new session.old session.new (Query question) now result }
    {
        self.see(session, now);
        let role = session.role;
        reply_of(self.tell(role, &question))
    }

    /// The reply to what a request for a change came to: where it was refused, its moment is seen.
    fn settle(
        &mut self,
        session: &mut Session<J>,
        done: Result<Reply, Refusal>,
        now: Moment,
    ) -> Reply
        ensures { IsSettled self.old self.new session.old session.new now done result }
    {
        match done {
            Ok(reply) => reply,
            Err(refusal) => {
                self.see(session, now);
                Reply::Refused(refusal)
            }
        }
    }

    /// A moment is seen, and the session has seen all accepted changes.
    pub(crate) fn see(&mut self, session: &mut Session<J>, now: Moment)
        ensures ledger { self.new.ledger ≡ with_moment self.old.ledger now }
        ensures store { self.new.store ≡ self.old.store }
        ensures session { session.new ≡ record session.old { told = caught_up self.new.ledger session.old.told } }
        ensures before { FitsLedger self.old.ledger session.old.told }
        ensures after { FitsLedger self.new.ledger session.new.told }
    {
        histories_go_on_record_by_record();
        self.window.observe(now);
        self.history.see(now);
        self.history.meet(&mut session.seat);
    }

    /// A request for a change of an object: accepted, or refused before anything has changed.
    fn update(
        &mut self,
        session: &mut Session<J>,
        update: ObjectRequest,
        now: Moment,
        least: usize,
    ) -> Result<Reply, Refusal>
        ensures { ComesTo (short_of least (store_of self.old))
            (first_refusal (state_in self.old) session.old.role (Update update)) self.old
            self.new session.old session.new (Update update) now result }
    {
        check_update(&update)?;
        self.change_object(session, update, now, least)
    }

    /// The same of a request for administrators.
    fn control(
        &mut self,
        session: &mut Session<J>,
        control: AdminRequest,
        now: Moment,
    ) -> Result<Reply, Refusal>
        ensures { ComesTo (store_of self.old)
            (first_refusal (state_in self.old) session.old.role (Control control)) self.old
            self.new session.old session.new (Control control) now result }
    {
        let role = session.role;
        check_role(role)?;
        match control {
            AdminRequest::SetWindow { window } => self.set_window(session, window, now),
            AdminRequest::Flush { first, last } => self.flush(session, first, last, now),
            AdminRequest::FlushO {
                object,
                first,
                last,
            } => self.flush_object(session, object, first, last, now),
        }
    }
}

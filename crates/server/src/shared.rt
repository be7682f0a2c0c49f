//! A drive as it lies under the lock of those that share it.
ghost use Rattle.std.specs.Prelude.{◌≡◌, ◌-◌, ◌<◌, ◌^◌, ℕ, IfOk, IfErr, List, cond, false};
ghost use Rattle.std.specs.Prelude.{min};
ghost use Rattle.s4_types.specs.History.{accepted};
ghost use Rattle.s4_types.specs.Sizes.{ReplyFits};
ghost use Rattle.s4_types.specs.declared.refusals.Refusal.TheVariants.{Busy};
ghost use Rattle.s4_types.specs.declared.requests.Request.TheVariants.{Query};
ghost use Rattle.s4_types.specs.declared.requests.Question.TheVariants.{Read};
ghost use Rattle.segment_word.specs.AcceptViews.{count_of};
ghost use Rattle.serving.specs.Drawing.{Drawn};
ghost use Rattle.drive.specs.Answering.{is_acceptance, reply_planned};
ghost use Rattle.drive.specs.Fields.{history_of, state_in};
ghost use Rattle.server.specs.Accounts.{counted};
ghost use Rattle.server.specs.Attending.{IsSeated};
ghost use Rattle.server.specs.Sequence.{HasCome};
ghost use Rattle.server.specs.Sharing.{SharedAnswer, HasMet};

use crate::accounts::{Blanks, Books, Part, Running};
use crate::reserves::{Reserve, least_of};
use crate::showing::Visit;
use drive::{Drive, Session};
use s4_model::laws::histories_go_on_record_by_record;
use s4_types::{Moment, ObjectId, Refusal, Reply, Request, Role};
use serving::Clock;
use std::marker::Model;
use time_read::ReadPlan;

/// Whether a reply accepts a change.
fn accepts(reply: &Reply) -> bool
    ensures { result ≡ is_acceptance reply.now }
{
    matches!(reply, Reply::Changed(_) | Reply::Created(..))
}

/// How many changes these are.
fn number_of(is_accepted: bool) -> u64
    ensures { result ≡ cond is_accepted 1 0 }
{
    is_accepted as u64
}

/// Where a drive's history has come to.
#[derive(Clone, Copy)]
pub(crate) struct Place {
    /// How many changes were accepted in it. It stops at the last number.
    pub number: u64,
    pub clock: u64,
}

/// A drive that sessions share, with the clock that gives their requests moments, and the books of
/// the run. Contracts see the drive.
///
/// Whatever was done under the lock: the drive is what the requests on the books have made of the
/// one that the run began with, each at the moment that was drawn for it.
pub struct SharedDrive<J: Running, C: Clock> {
    pub(crate) drive: Drive<J>,
    clock: C,
    /// How many changes were accepted in the drive's history. It stops at the last number.
    accepted: u64,
    books: Books<J>,
    /// What clients leave of its room.
    reserve: Reserve<J>,
}

// Written by hand, so that an owner lets it go by one call.
impl<J: Running, C: Clock + Drop> Drop for SharedDrive<J, C> {
    fn drop(self) {
        let SharedDrive {
            drive: _,
            clock: _,
            accepted: _,
            books: _,
            reserve: _,
        } = self;
    }
}

impl<J: Running, C: Clock> Model for SharedDrive<J, C> {
    ghost use Rattle.std.specs.Prelude.{◌≡◌, min, ◌^◌, ◌-◌};
    ghost use Rattle.segment_word.specs.AcceptViews.{count_of};
    ghost use Rattle.drive.specs.Fields.{DriveFields};
    ghost use Rattle.server.specs.Drawing.{MayGoOn};
    ghost use Rattle.server.specs.Sequence.{HasCome};

    ghost Value = { DriveFields };

    ghost view = { λ s. s.drive };

    ghost invariant = { λ s. HasCome J.begins (MayGoOn C.draws J.moments s.clock) J.has_upkeep s.books.requests s.books.changes s.drive × (s.accepted ≡ min (count_of s.drive.ledger) (2 ^ 64 - 1)) };
}

impl<J: Running, C: Clock> SharedDrive<J, C> {
    /// A drive that a run begins with, in whose history nothing was accepted yet, the clock that
    /// gives each request its moment, books in which nothing is counted yet, and how many blocks of
    /// room clients leave to administrators. Gives all parts of the books, too.
    pub fn new(drive: Drive<J>, clock: C, blanks: Blanks, reserve: usize) -> (Self, Part<J>)
        requires begins { J.begins drive }
        requires moments { (moments : List ℕ) (later : _) → Drawn C.draws clock moments later
            → J.moments moments }
        requires none { count_of drive.ledger ≡ 0 }
        requires requests { blanks.requests ≡ J.asked }
        requires changes { blanks.changes ≡ J.name }
        requires parts { blanks.parts ≡ J.parts }
        requires reserve { reserve ≡ J.reserve }
        ensures drive { result.0 ≡ drive }
        ensures part { result.1 ≡ record { parts = J.parts; requests = 0; changes = 0 } }
    {
        let (books, all) = blanks.open::<J>();
        let shared = SharedDrive {
            drive,
            clock,
            accepted: 0,
            books,
            reserve: Reserve::new(reserve),
        };
        (shared, all)
    }

    /// Shows the drive to a session, and leaves it as it is. See [`Visit`].
    pub fn show<V: Visit<J>>(&mut self, visit: &V, session: &mut Session<J>) -> V::Given
        ensures gives { V.gives visit.now self.old session.old session.new result }
        ensures same { self.new ≡ self.old }
    {
        visit.visit(&mut self.drive, session, self.accepted)
    }

    /// How many blocks of its room clients leave to administrators.
    pub(crate) fn clients_leave(&self) -> usize
        ensures { result ≡ J.reserve }
    {
        self.reserve.blocks()
    }

    /// How many changes were accepted, and the drive's clock.
    pub(crate) fn place(&self) -> Place
        ensures number { result.number ≡ min (count_of self.now.ledger) (2 ^ 64 - 1) }
        ensures clock { result.clock ≡ (state_in self.now).clock }
    {
        Place {
            number: self.accepted,
            clock: self.drive.clock().number(),
        }
    }

    /// A session of a role, or Busy.
    pub(crate) fn session(&mut self, role: Role) -> Result<Session<J>, Refusal>
        ensures session { IfOk result (λ session. IsSeated J.base role
            (record { session = session; requests = 0; clock = (state_in self.new).clock })) }
        ensures seen { IfOk result
            (λ session. session.told.seen ≡ accepted (history_of self.new)) }
        ensures busy { IfErr result (λ e. e ≡ Busy) }
    {
        self.drive.rules();
        self.drive.session(role)
    }

    /// The session meets the drive.
    pub(crate) fn meet(&mut self, session: &mut Session<J>)
        ensures met { HasMet J.base session.old session.new (state_in self.new).clock }
        ensures seen { session.new.told.seen ≡ accepted (history_of self.new) }
    {
        self.drive.rules();
        self.drive.meet(session);
    }

    /// The reply to a session's request, at the next moment of the clock. It is counted on the
    /// session's part.
    pub(crate) fn answer(
        &mut self,
        session: &mut Session<J>,
        part: &mut Part<J>,
        request: Request,
    ) -> Reply
        requires { 0 < part.old.parts }
        ensures step { SharedAnswer J.base J.reserve J.moments part.old.requests session.old request result
            session.new (state_in self.new).clock }
        ensures seen { session.new.told.seen ≡ accepted (history_of self.new) }
        ensures part { part.new ≡ counted part.old (is_acceptance result) }
        ensures fits { ReplyFits result }
    {
        histories_go_on_record_by_record();
        self.drive.rules();
        let now = self.clock.draw();
        let least = least_of(&self.drive, self.reserve.blocks(), session.role(), &request);
        let reply = self.drive.request_leaving(session, request, now, least);
        let is_accepted = accepts(&reply);
        let more = number_of(is_accepted);
        self.accepted = self.accepted.saturating_add(more);
        self.books.count(part, is_accepted);
        reply
    }

    /// A plan of a session's Read, at the next moment of the clock. It is counted on the session's
    /// part.
    pub(crate) fn resolve(
        &mut self,
        session: &mut Session<J>,
        part: &mut Part<J>,
        object: ObjectId,
        offset: u64,
        length: u32,
        at: Option<Moment>,
    ) -> Result<ReadPlan, Refusal>
        requires { 0 < part.old.parts }
        ensures step { SharedAnswer J.base J.reserve J.moments part.old.requests session.old
            (Query (Read object offset length at)) (reply_planned result) session.new
            (state_in self.new).clock }
        ensures seen { session.new.told.seen ≡ accepted (history_of self.new) }
        ensures part { part.new ≡ counted part.old false }
        ensures fits { ReplyFits (reply_planned result) }
    {
        histories_go_on_record_by_record();
        self.drive.rules();
        let now = self.clock.draw();
        let planned = self.drive.resolve(session, object, offset, length, at, now);
        self.books.count(part, false);
        planned
    }
}

impl<J: Running, C: Clock + Drop> SharedDrive<J, C> {
    /// The drive itself, once all parts of the books are together again: it is what the requests
    /// that are counted on them have made of the one that the run began with.
    pub fn close(self, all: Part<J>) -> Drive<J>
        requires { all.parts ≡ J.parts }
        ensures drive { result ≡ self }
        ensures come { HasCome J.begins J.moments J.has_upkeep all.requests all.changes result }
    {
        let SharedDrive {
            drive,
            clock: _,
            accepted: _,
            mut books,
            reserve: _,
        } = self;
        let mut all = all;
        books.audit(&mut all);
        drive
    }
}

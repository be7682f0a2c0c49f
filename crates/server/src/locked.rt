//! A session with a drive under a lock.
ghost use Rattle.std.specs.Prelude.{◌≡◌, ◌<◌, [], false, true, IfOk, IfErr, length};
ghost use Rattle.s4_types.specs.declared.refusals.Refusal.TheVariants.{Busy};
ghost use Rattle.s4_types.specs.Sizes.{ReplyFits};
ghost use Rattle.s4_types.specs.declared.requests.Request.TheVariants.{Query};
ghost use Rattle.s4_types.specs.declared.requests.Question.TheVariants.{Read};
ghost use Rattle.drive.specs.Answering.{is_acceptance, reply_planned};
ghost use Rattle.drive.specs.Fields.{DriveFields};
ghost use Rattle.server.specs.Accounts.{counted, one_part};
ghost use Rattle.server.specs.Sharing.{SharedAnswer, HasMet, IsFresh, IsFetched, number_seen};
ghost use Rattle.server.specs.Attending.{IsSeated, SeatAnswer};
ghost use Rattle.server.specs.Upkeep.{SharedTurn, SharedVisit, SharedSweep};
ghost use Rattle.server.specs.Moving.{SharedPlan, SharedCommit};
ghost use Rattle.server.specs.Gathering.{SharedGather};

use crate::accounts::{Part, Running};
use crate::effects::{Effect, effect_of};
use crate::gate::Gate;
use crate::holding::{hold, hold_for, hold_next};
use crate::pace::Pace;
use crate::shared::{Place, SharedDrive};
use crate::showing::Visit;
use drive::{Drive, Session};
use history_cleaner::{Rounds, Turn};
use s4_types::{Bytes, Moment, ObjectId, Question, Refusal, Reply, Request, Role};
use segment_copier::{Candidate, MovePlan, Moved};
use serving::{Backend, Clock};
use std::alloc::Global;
use std::marker::Model;
use std::sync::{Mutex, Wait};
use time_read::ReadPlan;

/// A session of a role that isn't served: upkeep has such ones, and whoever is shown the drive.
pub fn enter<J: Running, C: Clock>(
    rt: &impl Wait,
    drive: &Mutex<SharedDrive<J, C>>,
    pace: Option<&Pace>,
    role: Role,
) -> Result<Session<J>, Refusal>
    ensures session { IfOk result (IsFresh J.base role) }
    ensures busy { IfErr result (λ e. e ≡ Busy) }
{
    Ok(sit(rt, drive, pace, role)?.0)
}

/// A session of a role, and where the drive's history had come to then.
pub(crate) fn sit<J: Running, C: Clock>(
    rt: &impl Wait,
    drive: &Mutex<SharedDrive<J, C>>,
    pace: Option<&Pace>,
    role: Role,
) -> Result<(Session<J>, Place), Refusal>
    ensures session { IfOk result (λ had. IsSeated J.base role
        (record { session = had.0; requests = 0; clock = had.1.clock })) }
    ensures number { IfOk result (λ had. had.1.number ≡ number_seen had.0) }
    ensures busy { IfErr result (λ e. e ≡ Busy) }
{
    let mut shared = hold(rt, drive, pace);
    let session = shared.session(role)?;
    let place = shared.place();
    Ok((session, place))
}

/// Shows the drive to a session while its lock is held, and leaves it as it is.
pub fn show<J: Running, C: Clock, V: Visit<J>>(
    rt: &impl Wait,
    drive: &Mutex<SharedDrive<J, C>>,
    pace: Option<&Pace>,
    visit: &V,
    session: &mut Session<J>,
) -> V::Given
    ensures { (shown : DriveFields) × V.gives visit.now shown session.old session.new result }
{
    hold(rt, drive, pace).show(visit, session)
}

/// A plan of a Read, made under the lock.
fn resolve<J: Running, C: Clock>(
    rt: &impl Wait,
    drive: &Mutex<SharedDrive<J, C>>,
    pace: Option<&Pace>,
    session: &mut Session<J>,
    part: &mut Part<J>,
    place: &mut Place,
    object: ObjectId,
    offset: u64,
    length: u32,
    at: Option<Moment>,
) -> Result<ReadPlan, Refusal>
    requires { 0 < part.old.parts }
    ensures step { SharedAnswer J.base J.reserve J.moments part.old.requests session.old
        (Query (Read object offset length at)) (reply_planned result) session.new
        place.new.clock }
    ensures number { place.new.number ≡ number_seen session.new }
    ensures part { part.new ≡ counted part.old false }
    ensures fits { ReplyFits (reply_planned result) }
{
    let mut shared = hold(rt, drive, pace);
    let planned = shared.resolve(session, part, object, offset, length, at);
    *place = shared.place();
    planned
}

/// A request was answered, and the lock is still held.
fn note<J: Running>(
    rt: &impl Wait,
    drive: &Drive<J>,
    pace: Option<&Pace>,
    effect: &Effect,
    reply: &Reply,
) {
    if let Some(pace) = pace {
        pace.note(rt, drive, effect, reply);
    }
}

/// The reply to a request, all of it under the lock.
fn ask<J: Running, C: Clock>(
    rt: &impl Wait,
    drive: &Mutex<SharedDrive<J, C>>,
    pace: Option<&Pace>,
    session: &mut Session<J>,
    part: &mut Part<J>,
    place: &mut Place,
    request: Request,
) -> Reply
    requires { 0 < part.old.parts }
    ensures step { SharedAnswer J.base J.reserve J.moments part.old.requests session.old request result
        session.new place.new.clock }
    ensures number { place.new.number ≡ number_seen session.new }
    ensures part { part.new ≡ counted part.old (is_acceptance result) }
    ensures fits { ReplyFits result }
{
    let effect = effect_of(&request);
    let mut shared = hold_for(rt, drive, pace, &effect);
    let reply = shared.answer(session, part, request);
    *place = shared.place();
    note(rt, &shared.drive, pace, &effect, &reply);
    reply
}

/// A meeting of a session and the drive, under the lock.
fn meet<J: Running, C: Clock>(
    rt: &impl Wait,
    drive: &Mutex<SharedDrive<J, C>>,
    pace: Option<&Pace>,
    session: &mut Session<J>,
    place: &mut Place,
)
    ensures met { HasMet J.base session.old session.new place.new.clock }
    ensures number { place.new.number ≡ number_seen session.new }
{
    let mut shared = hold(rt, drive, pace);
    shared.meet(session);
    *place = shared.place();
}

/// An object had its turn, and the lock is still held. One that could not be cleaned has another in
/// the next round.
fn settle<J: Running, C: Clock>(
    rt: &impl Wait,
    shared: &mut SharedDrive<J, C>,
    pace: &Pace,
    object: ObjectId,
    is_cleaned: bool,
)
    requires { J.has_upkeep ≡ true }
{
    if is_cleaned {
        let left = shared.history_left(object);
        pace.settle(rt, &shared.drive, object, left);
    } else {
        pace.keep(rt, &shared.drive, object);
    }
}

/// A turn of a round over all objects was taken, and the lock is still held. After the last round
/// nothing is visited any more.
fn settle_turn<J: Running, C: Clock>(
    rt: &impl Wait,
    shared: &mut SharedDrive<J, C>,
    pace: &Pace,
    turn: &Turn,
    is_last: bool,
)
    requires { J.has_upkeep ≡ true }
{
    match turn {
        _ if is_last => pace.look(rt, &shared.drive),
        Turn::Cleaned(object) => settle(rt, shared, pace, *object, true),
        Turn::PassedOver(object, _) => settle(rt, shared, pace, *object, false),
        Turn::Ended => pace.end_walk(rt, &shared.drive),
    }
}

/// One turn of a round of the cleaner over all objects, maybe its last round, under the lock.
pub(crate) fn take_turn<J: Running, C: Clock>(
    rt: &impl Wait,
    alloc: Global,
    drive: &Mutex<SharedDrive<J, C>>,
    pace: &Pace,
    rounds: &mut Rounds,
    is_last: bool,
) -> Turn
    requires { J.has_upkeep ≡ true }
    ensures { SharedTurn J.base rounds.old.passed result rounds.new.passed }
{
    let mut shared = hold_next(rt, drive, pace);
    let turn = shared.turn(alloc, rounds);
    settle_turn(rt, &mut shared, pace, &turn, is_last);
    turn
}

/// The turn of one object, whichever it is, under the lock.
pub(crate) fn take_visit<J: Running, C: Clock>(
    rt: &impl Wait,
    alloc: Global,
    drive: &Mutex<SharedDrive<J, C>>,
    pace: &Pace,
    object: ObjectId,
)
    requires { J.has_upkeep ≡ true }
    ensures { SharedVisit J.base object }
{
    let mut shared = hold_next(rt, drive, pace);
    let done = shared.visit(alloc, object);
    settle(rt, &mut shared, pace, object, done.is_ok());
}

/// Frames are emptied, and the audit's rows below the floor are dropped, under the lock.
pub(crate) fn take_sweep<J: Running, C: Clock>(
    rt: &impl Wait,
    drive: &Mutex<SharedDrive<J, C>>,
    pace: &Pace,
)
    requires { J.has_upkeep ≡ true }
    ensures { SharedSweep J.base }
{
    let mut shared = hold_next(rt, drive, pace);
    shared.sweep();
    pace.look(rt, &shared.drive);
}

/// What the copier is to move next, and a plan of that, made under the lock, where there is
/// something to be moved. Its session has met the drive before.
pub(crate) fn plan_next<J: Running, C: Clock>(
    rt: &impl Wait,
    alloc: Global,
    drive: &Mutex<SharedDrive<J, C>>,
    pace: &Pace,
    session: &mut Session<J>,
) -> Result<Option<(Candidate, MovePlan<J>)>, Refusal>
    ensures { SharedPlan J.base session.old result session.new }
{
    hold_next(rt, drive, pace).plan(alloc, session)
}

/// Puts a copied move in place, under the lock. The copier's session has met the drive before.
pub(crate) fn put_in_place<J: Running, C: Clock>(
    rt: &impl Wait,
    alloc: Global,
    drive: &Mutex<SharedDrive<J, C>>,
    pace: &Pace,
    session: &mut Session<J>,
    moved: Moved<J>,
) -> Result<(), Refusal>
    requires { J.has_upkeep ≡ true }
    ensures { SharedCommit J.base session.old moved.what result session.new }
{
    hold_next(rt, drive, pace).put(alloc, session, moved)
}

/// One step of gathering, all of it under the lock.
pub(crate) fn gather_next<J: Running, C: Clock>(
    rt: &impl Wait,
    alloc: Global,
    drive: &Mutex<SharedDrive<J, C>>,
    pace: &Pace,
    session: &mut Session<J>,
) -> Result<Option<Candidate>, Refusal>
    requires { J.has_upkeep ≡ true }
    ensures { SharedGather J.base result }
{
    let mut shared = hold_next(rt, drive, pace);
    let gathered = shared.gather(alloc, session);
    pace.look(rt, &shared.drive);
    gathered
}

/// The frames are emptied that can be, under the lock. How many frames are free then is noted.
pub(crate) fn release_frames<J: Running, C: Clock>(
    rt: &impl Wait,
    drive: &Mutex<SharedDrive<J, C>>,
    pace: &Pace,
)
    requires { J.has_upkeep ≡ true }
    ensures { SharedSweep J.base }
{
    let mut shared = hold_next(rt, drive, pace);
    shared.sweep();
    let frames = shared.free_frames();
    pace.count_free(rt, &shared.drive, frames);
}

/// The reply to a Read that was planned so: the bytes that the plan names, where there is memory
/// for them.
fn fetched(alloc: Global, planned: Result<ReadPlan, Refusal>) -> Reply
    ensures { IsFetched planned result }
{
    let plan = match planned {
        Ok(plan) => plan,
        Err(refusal) => return Reply::Refused(refusal),
    };
    match plan.fetch(alloc) {
        Ok(bytes) => Reply::Data(Bytes::from_vec(bytes)),
        Err(refusal) => Reply::Refused(refusal),
    }
}

/// A session with a drive that others share, under a lock. Contracts see the session, how many
/// requests it was answered, and the clock of the history whose changes it has seen.
pub struct Locked<'a, J: Running, C: Clock, R: Wait, G: Gate> {
    rt: &'a R,
    alloc: Global,
    drive: &'a Mutex<SharedDrive<J, C>>,
    pace: Option<&'a Pace>,
    session: Session<J>,
    /// Its part of the books.
    part: Part<J>,
    /// Where the drive's history had come to with its last step.
    place: Place,
    gate: &'a G,
    number: usize,
    calls: u64,
}

// Written by hand, so that an owner lets it go by one call.
impl<'a, J: Running, C: Clock, R: Wait, G: Gate> Drop for Locked<'a, J, C, R, G> {
    fn drop(self) {
        let Locked {
            rt: _,
            alloc: _,
            drive: _,
            pace: _,
            session: _,
            part: _,
            place: _,
            gate: _,
            number: _,
            calls: _,
        } = self;
    }
}

impl<'a, J: Running, C: Clock, R: Wait, G: Gate> Model for Locked<'a, J, C, R, G> {
    ghost use Rattle.std.specs.Prelude.{◌≡◌, length};
    ghost use Rattle.server.specs.Attending.{SeatFields};
    ghost use Rattle.server.specs.Sharing.{number_seen};

    ghost Value = { SeatFields };

    ghost view = { λ l. record { session = l.session; requests = l.part.requests; clock = l.place.clock } };

    ghost invariant = { λ l. (l.part.parts ≡ 1) × (l.part.changes ≡ length l.session.told.mine) × (l.place.number ≡ number_seen l.session) };
}

impl<'a, J: Running, C: Clock, R: Wait, G: Gate> Locked<'a, J, C, R, G> {
    /// The session of that number, from 1 on, of a role, with a part of the books. It has seen what
    /// was accepted in a history of the drive, and nothing is its own yet. Busy where no seat is to
    /// be had: the part is lost then.
    pub fn new(
        rt: &'a R,
        alloc: Global,
        drive: &'a Mutex<SharedDrive<J, C>>,
        role: Role,
        part: Part<J>,
        gate: &'a G,
        number: usize,
    ) -> Result<Self, Refusal>
        requires { part ≡ one_part }
        ensures session { IfOk result (IsSeated J.base role) }
        ensures busy { IfErr result (λ e. e ≡ Busy) }
    {
        let had = sit(rt, drive, None, role)?;
        Ok(Locked::seated(rt, alloc, drive, None, had, part, gate, number))
    }

    /// The same with upkeep beside it: where room is short its changes wait for the cleaner.
    pub fn beside(
        rt: &'a R,
        alloc: Global,
        drive: &'a Mutex<SharedDrive<J, C>>,
        pace: &'a Pace,
        role: Role,
        part: Part<J>,
        gate: &'a G,
        number: usize,
    ) -> Result<Self, Refusal>
        requires { part ≡ one_part }
        ensures session { IfOk result (IsSeated J.base role) }
        ensures busy { IfErr result (λ e. e ≡ Busy) }
    {
        let pace = Some(pace);
        let had = sit(rt, drive, pace, role)?;
        Ok(Locked::seated(rt, alloc, drive, pace, had, part, gate, number))
    }

    /// A session that was just had, with upkeep beside it where there is its pace.
    pub(crate) fn seated(
        rt: &'a R,
        alloc: Global,
        drive: &'a Mutex<SharedDrive<J, C>>,
        pace: Option<&'a Pace>,
        had: (Session<J>, Place),
        part: Part<J>,
        gate: &'a G,
        number: usize,
    ) -> Self
        requires part { part ≡ one_part }
        requires mine { had.0.told.mine ≡ [] }
        requires number { had.1.number ≡ number_seen had.0 }
        ensures { result ≡ record { session = had.0; requests = 0; clock = had.1.clock } }
    {
        let (session, place) = had;
        Locked {
            rt,
            alloc,
            drive,
            pace,
            session,
            part,
            place,
            gate,
            number,
            calls: 0,
        }
    }

    /// Without a request the session sees what was accepted in a history of the drive that begins
    /// with what it had seen before.
    pub fn meet(&mut self)
        ensures session { HasMet J.base self.old.session self.new.session self.new.clock }
        ensures requests { self.new.requests ≡ self.old.requests }
    {
        meet(
            self.rt,
            self.drive,
            self.pace,
            &mut self.session,
            &mut self.place,
        );
    }

    /// Where the drive's history had come to with the session's last step, or when the session was
    /// had: how many changes were accepted in it, by a count that stops at 2^64 - 1, and its clock.
    pub fn place(&self) -> (u64, u64)
        ensures number { result.0 ≡ number_seen self.now.session }
        ensures clock { result.1 ≡ self.now.clock }
    {
        (self.place.number, self.place.clock)
    }

    /// The session itself, which is asked nothing more, and its part of the books: each request
    /// that it was answered is counted on it, and each change of its own.
    pub fn into_parts(self) -> (Session<J>, Part<J>)
        ensures session { result.0 ≡ self.entry.session }
        ensures part { result.1 ≡ record { parts = 1; requests = self.entry.requests; changes = length self.entry.session.told.mine } }
    {
        let Locked {
            rt: _,
            alloc: _,
            drive: _,
            pace: _,
            session,
            part,
            place: _,
            gate: _,
            number: _,
            calls: _,
        } = self;
        (session, part)
    }

    /// The reply to a Read. The lock isn't held while its bytes are fetched.
    fn read(&mut self, object: ObjectId, offset: u64, length: u32, at: Option<Moment>) -> Reply
        ensures step { SeatAnswer J.base J.reserve J.moments self.old (Query (Read object offset length at)) result
            self.new }
        ensures fits { ReplyFits result }
    {
        let planned = resolve(
            self.rt,
            self.drive,
            self.pace,
            &mut self.session,
            &mut self.part,
            &mut self.place,
            object,
            offset,
            length,
            at,
        );
        self.gate.between(self.number, self.calls);
        fetched(self.alloc, planned)
    }

    /// The reply to a question: a Read's bytes are fetched without the lock.
    fn answer(&mut self, question: Question) -> Reply
        ensures step { SeatAnswer J.base J.reserve J.moments self.old (Query question) result self.new }
        ensures fits { ReplyFits result }
    {
        match &question {
            Question::Read {
                object,
                offset,
                length,
                at,
            } => self.read(*object, *offset, *length, *at),
            Question::GetAttr { .. } | Question::Audit { .. } => {
                self.change(Request::Query(question))
            }
        }
    }

    /// The reply to a request.
    fn reply(&mut self, request: Request) -> Reply
        ensures step { SeatAnswer J.base J.reserve J.moments self.old request result self.new }
        ensures fits { ReplyFits result }
    {
        match request {
            Request::Query(question) => self.answer(question),
            other => self.change(other),
        }
    }

    /// The reply to another request, all of it under the lock.
    fn change(&mut self, request: Request) -> Reply
        ensures step { SeatAnswer J.base J.reserve J.moments self.old request result self.new }
        ensures fits { ReplyFits result }
    {
        ask(
            self.rt,
            self.drive,
            self.pace,
            &mut self.session,
            &mut self.part,
            &mut self.place,
            request,
        )
    }
}

impl<J: Running, C: Clock, R: Wait, G: Gate> Backend for Locked<'_, J, C, R, G> {
    ghost use Rattle.server.specs.Attending.{SeatSteps};

    ghost steps = { SeatSteps J.base J.reserve J.moments };

    fn request(&mut self, request: Request, _drawn: Moment) -> Reply {
        self.calls = self.calls.saturating_add(1);
        let reply = self.reply(request);
        self.gate.answered(self.number, self.calls);
        reply
    }
}

//! Steps of one actor.
ghost use Rattle.interleaving.specs.Acting.{Requests, Resolves, Fetches, Meets, Plans, Copies};
ghost use Rattle.interleaving.specs.Acting.{Puts, Acts};

use crate::actors::{Actor, Carried};
use crate::acts::{Act, Reading};
use crate::answers::{Answer, answer_to};
use crate::moves::Moves;
use drive::Drive;
use s4_types::{Bytes, Moment, ObjectId, Request};
use segment_word::Naming;
use std::alloc::Global;
use std::mem;

impl<J: Naming, M: Moves<J>> Actor<J, M> {
    /// A request of its session.
    fn request(&mut self, drive: &mut Drive<J>, request: Request, now: Moment) -> Answer
        ensures { Requests request now drive.old self.old result drive.new self.new }
    {
        Answer::Reply(drive.request(&mut self.session, request, now))
    }

    /// A plan of a read: once the new one is had, the older one ends.
    fn resolve(&mut self, drive: &mut Drive<J>, reading: Reading) -> Answer
        ensures { Resolves reading.object reading.offset reading.length reading.at reading.now drive.old
            self.old result drive.new self.new }
    {
        match drive.resolve(
            &mut self.session,
            reading.object,
            reading.offset,
            reading.length,
            reading.at,
            reading.now,
        ) {
            Ok(plan) => {
                self.plan = Some(plan);
                Answer::Done
            }
            Err(refusal) => Answer::Refused(refusal),
        }
    }

    /// The bytes of its plan.
    fn fetch(&mut self, alloc: Global) -> Answer
        ensures { Fetches self.old result self.new }
    {
        let Some(plan) = self.plan.take() else {
            return Answer::Idle;
        };
        match plan.fetch(alloc) {
            Ok(bytes) => Answer::Bytes(Bytes::from_vec(bytes)),
            Err(refusal) => Answer::Refused(refusal),
        }
    }

    /// Its session sees all accepted changes.
    fn meet(&mut self, drive: &mut Drive<J>) -> Answer
        ensures { Meets drive.old self.old result drive.new self.new }
    {
        drive.meet(&mut self.session);
        Answer::Done
    }

    /// A plan of a move: once the new one is had, what it had of a move ends.
    fn plan(&mut self, alloc: Global, drive: &mut Drive<J>, frame: u16, object: ObjectId) -> Answer
        ensures { Plans frame object drive.old self.old result drive.new self.new }
    {
        match M::plan(alloc, drive, &mut self.session, frame, object) {
            Ok(plan) => {
                self.carried = Carried::Plan(plan);
                Answer::Done
            }
            Err(refusal) => Answer::Refused(refusal),
        }
    }

    /// A copy of what it has planned to move.
    fn copy(&mut self, alloc: Global) -> Answer
        ensures { Copies self.old result self.new }
    {
        match mem::replace(&mut self.carried, Carried::Nothing) {
            Carried::Plan(plan) => match M::copy(alloc, plan) {
                Ok(moved) => {
                    self.carried = Carried::Moved(moved);
                    Answer::Done
                }
                Err(refusal) => Answer::Refused(refusal),
            },
            other => {
                self.carried = other;
                Answer::Idle
            }
        }
    }

    /// What it has copied is put in place.
    fn commit(&mut self, alloc: Global, drive: &mut Drive<J>) -> Answer
        ensures { Puts M.commits drive.old self.old result drive.new self.new }
    {
        match mem::replace(&mut self.carried, Carried::Nothing) {
            Carried::Moved(moved) => answer_to(M::commit(alloc, drive, moved)),
            other => {
                self.carried = other;
                Answer::Idle
            }
        }
    }

    /// What it may do, by what it is asked to do.
    pub(crate) fn act(&mut self, alloc: Global, drive: &mut Drive<J>, act: Act) -> Answer
        ensures { Acts M.commits act drive.old self.old result drive.new self.new }
    {
        match act {
            Act::Request { request, now } => self.request(drive, request, now),
            Act::Resolve(reading) => self.resolve(drive, reading),
            Act::Fetch => self.fetch(alloc),
            Act::Meet => self.meet(drive),
            Act::Plan { frame, object } => self.plan(alloc, drive, frame, object),
            Act::Copy => self.copy(alloc),
            Act::Commit => self.commit(alloc, drive),
        }
    }
}

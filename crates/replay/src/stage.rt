//! What is beside the drive while a script is played: who sits at it, the plain drive, and an
//! image.
use crate::text::Text;
use interleaving::{Act, Answer, Reading, Step};
use s4_model::PlainDrive;
use s4_types::{AuditRow, Moment, ObjectId, Question, Refusal, Reply, Request, Role};
use std::alloc::Global;

/// A session of a drive, and what the plan of a read that it has is to give.
pub(crate) struct Seat {
    name: Vec<u8>,
    role: Role,
    planned: Option<Reply>,
}

// Written by hand, so that an owner lets it go by one call.
impl Drop for Seat {
    fn drop(self) {
        let Seat {
            name: _,
            role: _,
            planned: _,
        } = self;
    }
}

/// What is beside the drive.
pub(crate) struct Stage {
    pub(crate) alloc: Global,
    pub(crate) seats: Vec<Seat>,
    pub(crate) plain: Option<PlainDrive>,
    /// What the plans of the pile are to give.
    pub(crate) pile: Vec<Option<Reply>>,
    /// Whether all is compared after each step.
    pub(crate) is_watched: bool,
    /// Whether the drive's counts are compared after each step, of all drives of the script.
    pub(crate) is_counted: bool,
    /// Whether memory was refused since the drive began: all is compared after each line then.
    pub(crate) has_lacked: bool,
    /// Whether a command that is refused memory can't be done once more.
    pub(crate) is_spent: bool,
    /// Whether an answer comes of memory that the drive was refused, and passes where none is told.
    pub(crate) is_excused: bool,
    /// Whether an answer counts a part of the work alone, as the rest was done before memory was
    /// refused, and passes whatever is told.
    pub(crate) is_partial: bool,
    /// Whether a move was lost since memory was refused, so that nothing may be left to copy or
    /// commit.
    has_lost: bool,
    /// What the last command was answered.
    pub(crate) answer: Text,
    /// What is wrong beside the answer; nothing where all is right.
    pub(crate) remark: Text,
    pub(crate) image: Vec<u8>,
    pub(crate) kept: Vec<u8>,
}

// Written by hand, so that an owner lets it go by one call.
impl Drop for Stage {
    fn drop(self) {
        let Stage {
            alloc: _,
            seats: _,
            plain: _,
            pile: _,
            is_watched: _,
            is_counted: _,
            has_lacked: _,
            is_spent: _,
            is_excused: _,
            is_partial: _,
            has_lost: _,
            answer: _,
            remark: _,
            image: _,
            kept: _,
        } = self;
    }
}

impl Stage {
    pub(crate) fn new(alloc: Global, is_counted: bool) -> Self {
        Stage {
            alloc,
            seats: Vec::new(alloc),
            plain: None,
            pile: Vec::new(alloc),
            is_watched: false,
            is_counted,
            has_lacked: false,
            is_spent: false,
            is_excused: false,
            is_partial: false,
            has_lost: false,
            answer: Text::new(alloc),
            remark: Text::new(alloc),
            image: Vec::new(alloc),
            kept: Vec::new(alloc),
        }
    }

    /// Another drive comes, with nobody, and with a plain drive of this window beside it, if there
    /// is one.
    pub(crate) fn begin(&mut self, window: Option<u64>) {
        self.seats.clear();
        self.pile.clear();
        self.plain = match window {
            Some(window) => Some(PlainDrive::new(self.alloc, window)),
            None => None,
        };
        self.is_watched = false;
        self.has_lacked = false;
        self.has_lost = false;
    }

    /// A command begins.
    pub(crate) fn begin_command(&mut self) -> Result<(), Refusal> {
        self.is_spent = false;
        self.is_excused = false;
        self.is_partial = false;
        self.answer.begin()
    }

    /// Excuses what a plan was answered, where that comes of memory that was refused.
    pub(crate) fn excuse(&mut self, is_move: bool, answer: &Answer) {
        match answer {
            Answer::Refused(Refusal::NoMemory) => {
                self.has_lacked = true;
                self.is_excused = true;
                self.has_lost = self.has_lost || is_move;
            }
            Answer::Idle => self.is_excused = is_move && self.has_lost,
            _ => {}
        }
    }

    /// Where somebody sits; after all where nobody has that name.
    pub(crate) fn place_of(&self, name: &[u8]) -> usize {
        let seats = self.seats.as_slice();
        for place in 0..seats.len() {
            if seats[place].name.as_slice() == name {
                return place;
            }
        }
        seats.len()
    }

    /// Somebody sits down after the others.
    pub(crate) fn sit(&mut self, name: &[u8], role: Role) -> Result<(), Refusal> {
        let name = Vec::from_slice(self.alloc, name)?;
        self.seats.push(Seat {
            name,
            role,
            planned: None,
        })?;
        Ok(())
    }

    /// Somebody goes; those after move up.
    pub(crate) fn rise(&mut self, place: usize) {
        if place < self.seats.len() {
            drop(self.seats.remove(place));
        }
    }

    /// What a plan of a read that somebody made is to give.
    pub(crate) fn plan(&mut self, place: usize, planned: Option<Reply>) {
        match self.seats.get_mut(place) {
            Some(seat) => seat.planned = planned,
            None => drop(planned),
        }
    }

    /// The plain drive sees a moment of the server's clock, as the drive does that refuses a
    /// request.
    pub(crate) fn see(&mut self, place: usize, now: Moment) -> Result<(), Refusal> {
        let object = ObjectId::new(1);
        let request = Request::Query(Question::GetAttr { object, at: None });
        drop(self.reply(place, request, now)?);
        Ok(())
    }

    /// The plain drive sees the moment of a step that the drive was refused memory for.
    pub(crate) fn see_step(&mut self, step: &Step) -> Result<(), Refusal> {
        match step {
            Step::By {
                actor,
                act: Act::Request { now, .. } | Act::Resolve(Reading { now, .. }),
            } => self.see(*actor, *now),
            _ => Ok(()),
        }
    }

    /// What the plain drive replies to a request; none where there is no plain drive. A read is
    /// asked once more where it wants memory. NoMemory where a change wants memory, and what was
    /// asked can't be done once more then.
    pub(crate) fn reply(
        &mut self,
        place: usize,
        request: Request,
        now: Moment,
    ) -> Result<Option<Reply>, Refusal> {
        let role = self.role_of(place);
        let Some(plain) = &mut self.plain else {
            drop(request);
            return Ok(None);
        };
        let reply = reply_of(plain, role, request, now);
        if lacks_memory(&reply) {
            drop(reply);
            self.is_spent = true;
            return Err(Refusal::NoMemory);
        }
        Ok(Some(reply))
    }

    /// The role of somebody who sits there; where nobody does, an administrator's.
    fn role_of(&self, place: usize) -> Role {
        match self.seats.get(place) {
            Some(seat) => seat.role,
            None => Role::Admin,
        }
    }

    /// Remarks what the plain drive tells.
    fn remark_reply(&mut self, told: &Reply) {
        self.remark.word("the plain drive tells");
        tell_reply(&mut self.remark, told);
    }

    /// Compares the reply to a request.
    fn compare_reply(
        &mut self,
        place: usize,
        request: Request,
        now: Moment,
        answer: &Answer,
    ) -> Result<(), Refusal> {
        if is_for_want(answer) {
            drop(request);
            return self.see(place, now);
        }
        let reply = self.reply(place, request, now)?;
        if let Some(reply) = &reply
            && !is_reply(answer, reply)
        {
            self.remark_reply(reply);
        }
        drop(reply);
        Ok(())
    }

    /// Compares what a plan gave with what it was to give.
    fn compare_bytes(&mut self, told: &Reply, given: &[u8]) {
        let is_told = match told {
            Reply::Data(bytes) => bytes.as_slice() == given,
            _ => false,
        };
        if !is_told {
            self.remark_reply(told);
        }
    }

    /// What a plan of a read is to give that was made, or refused: what the plain drive replies to
    /// the read, and is compared with that.
    fn planned(
        &mut self,
        place: usize,
        reading: &Reading,
        made: Result<(), Refusal>,
    ) -> Result<Option<Reply>, Refusal> {
        let reply = self.reply(place, Request::Query(question_by(reading)), reading.now)?;
        if let Some(reply) = &reply
            && !is_planned(made, reply)
        {
            self.remark_reply(reply);
        }
        Ok(reply)
    }

    /// Compares the answer to a plan of a read.
    fn compare_resolve(
        &mut self,
        place: usize,
        reading: &Reading,
        answer: &Answer,
    ) -> Result<(), Refusal> {
        let made = made_by(answer);
        let planned = self.planned(place, reading, made)?;
        match made {
            Ok(()) => self.plan(place, planned),
            Err(_) => drop(planned),
        }
        Ok(())
    }

    /// Lays what a plan of a read is to give on the pile, where the plan was made.
    pub(crate) fn keep(
        &mut self,
        place: usize,
        reading: &Reading,
        made: Result<(), Refusal>,
    ) -> Result<(), Refusal> {
        self.is_spent = true;
        let planned = self.planned(place, reading, made)?;
        match made {
            Ok(()) => self.pile.push(planned)?,
            Err(_) => drop(planned),
        }
        Ok(())
    }

    /// Compares what the plan of somebody gave.
    fn compare_fetch(&mut self, place: usize, answer: &Answer) {
        let planned = match self.seats.get_mut(place) {
            Some(seat) => seat.planned.take(),
            None => None,
        };
        self.compare_fetched(&planned, answer);
        drop(planned);
    }

    /// Compares what a plan gave with what it was to give, where there is a plain drive.
    pub(crate) fn compare_fetched(&mut self, planned: &Option<Reply>, answer: &Answer) {
        if self.plain.is_none() {
            return;
        }
        match (planned, answer) {
            (Some(told), Answer::Bytes(given)) => self.compare_bytes(told, given.as_slice()),
            (None, Answer::Idle) | (Some(_), Answer::Refused(Refusal::NoMemory)) => {}
            (Some(told), _) => self.remark_reply(told),
            (None, _) => self.remark.word("the plain drive has no plan"),
        }
    }

    /// Compares the answer to what somebody did.
    fn compare_act(&mut self, place: usize, act: Act, answer: &Answer) -> Result<(), Refusal> {
        match act {
            Act::Request { request, now } => self.compare_reply(place, request, now, answer),
            Act::Resolve(reading) => self.compare_resolve(place, &reading, answer),
            Act::Fetch => {
                self.compare_fetch(place, answer);
                Ok(())
            }
            _ => Ok(()),
        }
    }

    /// Compares the answer to a step with what the plain drive tells.
    pub(crate) fn compare(&mut self, step: Step, answer: &Answer) -> Result<(), Refusal> {
        match step {
            Step::By { actor, act } if actor < self.seats.len() => {
                self.compare_act(actor, act, answer)
            }
            _ => Ok(()),
        }
    }
}

/// Whether a reply is a refusal for lack of memory.
fn lacks_memory(reply: &Reply) -> bool {
    matches!(reply, Reply::Refused(Refusal::NoMemory))
}

/// What a request asks, where it is a question.
fn question_of(request: &Request) -> Option<Question> {
    match request {
        Request::Query(question) => Some(*question),
        _ => None,
    }
}

/// What a plan came to by its answer. (No plain drive tells of NoMemory.)
fn made_by(answer: &Answer) -> Result<(), Refusal> {
    match answer {
        Answer::Done => Ok(()),
        Answer::Refused(refusal) => Err(*refusal),
        _ => Err(Refusal::NoMemory),
    }
}

/// Whether a plan of a read that was made, or refused, is as the plain drive replies to the read.
fn is_planned(made: Result<(), Refusal>, told: &Reply) -> bool {
    match (made, told) {
        (Ok(()), Reply::Data(_)) | (Err(Refusal::Busy), _) => true,
        (Err(given), Reply::Refused(refusal)) => given == *refusal,
        _ => false,
    }
}

/// The question that a read asks.
pub(crate) fn question_by(reading: &Reading) -> Question {
    Question::Read {
        object: reading.object,
        offset: reading.offset,
        length: reading.length,
        at: reading.at,
    }
}

/// What a plain drive replies to a request. A question that is refused memory is asked once more.
fn reply_of(plain: &mut PlainDrive, role: Role, request: Request, now: Moment) -> Reply {
    let asked = question_of(&request);
    let reply = plain.request(role, request, now);
    if let Some(question) = asked
        && lacks_memory(&reply)
    {
        drop(reply);
        return plain.request(role, Request::Query(question), now);
    }
    reply
}

/// Whether a request was refused for lack of room or readers, as a plain drive never does.
fn is_for_want(answer: &Answer) -> bool {
    matches!(
        answer,
        Answer::Reply(Reply::Refused(Refusal::NoSpace | Refusal::ChainFull | Refusal::Busy))
    )
}

/// Whether an answer is this reply.
pub(crate) fn is_reply(answer: &Answer, told: &Reply) -> bool {
    match answer {
        Answer::Reply(given) => given == told,
        _ => false,
    }
}

/// Tells a reply.
pub(crate) fn tell_reply(text: &mut Text, reply: &Reply) {
    match reply {
        Reply::Refused(refusal) => text.refusal(*refusal),
        Reply::Changed(moment) => text.named("Changed", moment.number()),
        Reply::Created(object, moment) => {
            text.numbers("Created", &[object.number(), moment.number()]);
        }
        Reply::Data(bytes) => text.named_bytes("Data", bytes.as_slice()),
        Reply::Attr {
            size,
            created,
            changed,
            attribute,
        } => {
            let numbers = [*size as u64, created.number(), changed.number()];
            text.numbers("Attr", &numbers);
            text.bytes(attribute.as_slice());
        }
        Reply::AuditRows(rows) => tell_rows(text, rows.as_slice()),
    }
}

fn tell_rows(text: &mut Text, rows: &[AuditRow]) {
    text.word("AuditRows");
    for row in rows {
        tell_row(text, row);
    }
}

/// Tells a row of an audit: moment, number of the kind, object, and two numbers.
fn tell_row(text: &mut Text, row: &AuditRow) {
    text.list(&[
        row.moment.number(),
        u64::from(row.kind.number()),
        row.object.number(),
        row.first,
        row.second,
    ]);
}

/// Tells an answer.
pub(crate) fn tell_answer(text: &mut Text, answer: &Answer) {
    match answer {
        Answer::Reply(reply) => tell_reply(text, reply),
        Answer::Bytes(bytes) => text.named_bytes("Bytes", bytes.as_slice()),
        Answer::Done => text.word("Done"),
        Answer::Refused(refusal) => text.refusal(*refusal),
        Answer::Idle => text.word("Idle"),
    }
}

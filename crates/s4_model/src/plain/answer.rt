//! The answers to questions.
ghost use Rattle.std.specs.Prelude.{◌≡◌, ◌≤◌, ℕ, None, Some, MatchResult, IfOk, IfErr};
ghost use Rattle.s4_model.specs.Refusals.{asked, moment_refusal};
ghost use Rattle.s4_model.specs.Step.{part};
ghost use Rattle.s4_model.specs.Plain.{Answers, IsPlain};
ghost use Rattle.s4_types.specs.declared.requests.Role.{Role as TheRole};
ghost use Rattle.s4_types.specs.declared.refusals.Refusal.TheVariants.{NoMemory};

use crate::plain::PlainDrive;
use crate::plain::judge::is_client;
use s4_types::limits::{AUDIT_ROWS, READ_BYTES};
use s4_types::{
    AuditRows, Bytes, Moment, ObjectId, Question, Refusal, Reply, Request, Role, Version,
};
use std::alloc::Global;

/// The bytes from an offset on, at most `length` of them.
fn part(alloc: Global, content: &[u8], offset: u64, length: u32) -> Result<Bytes, Refusal>
    ensures ok { IfOk result (λ bytes. bytes ≡ part content.now offset length) }
    ensures err { IfErr result (λ refusal. refusal ≡ NoMemory) }
{
    let start = (offset as usize).min(content.len());
    let rest = &content[start..];
    let count = (length as usize).min(rest.len());
    Ok(Bytes::from_slice(alloc, &rest[..count])?)
}

/// The reply to what was answered.
pub fn reply_of(answered: Result<Reply, Refusal>) -> Reply
    ensures { MatchResult answered (λ reply. result ≡ reply)
        (λ refusal. result ≡ Reply.Refused refusal) }
{
    match answered {
        Ok(reply) => reply,
        Err(refusal) => Reply::Refused(refusal),
    }
}

impl PlainDrive {
    /// The moment that is asked for, if it can be read.
    fn check_moment(&self, object: ObjectId, at: Option<Moment>) -> Result<Moment, Refusal>
        ensures { MatchResult result
            (λ moment. (moment ≡ asked self.now at)
            × (moment_refusal self.now object moment ≡ None))
            (λ refusal. moment_refusal self.now object (asked self.now at) ≡ Some refusal) }
    {
        let moment = at.unwrap_or(self.clock);
        if moment > self.clock {
            return Err(Refusal::Future);
        }
        if moment < self.floor {
            return Err(Refusal::Expired);
        }
        if self.is_hidden(object, moment) {
            return Err(Refusal::Flushed);
        }
        Ok(moment)
    }

    /// The reply to a Read, by the state that has seen its moment.
    fn answer_read(
        &self,
        object: ObjectId,
        offset: u64,
        length: u32,
        at: Option<Moment>,
    ) -> Result<Reply, Refusal>
        ensures answer { (role : TheRole)
            → Answers self.now role (Request.Query (Question.Read object offset length at)) result }
        ensures fits { IfOk result IsPlain }
    {
        if u64::from(length) > READ_BYTES || offset > u64::MAX - u64::from(length) {
            return Err(Refusal::TooLarge);
        }
        let moment = self.check_moment(object, at)?;
        match self.version(object, moment)? {
            Version::Absent => Err(Refusal::NoObject),
            Version::Live { bytes, .. } => {
                let bytes = part(self.alloc, bytes.as_slice(), offset, length)?;
                Ok(Reply::Data(bytes))
            }
        }
    }

    /// The reply to a GetAttr, by the state that has seen its moment.
    fn answer_get_attr(&self, object: ObjectId, at: Option<Moment>) -> Result<Reply, Refusal>
        ensures answer { (role : TheRole)
            → Answers self.now role (Request.Query (Question.GetAttr object at)) result }
        ensures fits { IfOk result IsPlain }
    {
        let moment = self.check_moment(object, at)?;
        match self.version(object, moment)? {
            Version::Absent => Err(Refusal::NoObject),
            Version::Live {
                bytes,
                attribute,
                created,
                changed,
            } => Ok(Reply::Attr {
                size: bytes.len() as u32,
                created,
                changed,
                attribute,
            }),
        }
    }

    /// The reply to an Audit, by the state that has seen its moment.
    fn answer_audit(&self, role: Role, from: Moment, most: u16) -> Result<Reply, Refusal>
        ensures answer { Answers self.now role (Request.Query (Question.Audit from most)) result }
        ensures fits { IfOk result IsPlain }
    {
        if is_client(role) {
            return Err(Refusal::NotAdmin);
        }
        if usize::from(most) > AUDIT_ROWS {
            return Err(Refusal::TooLarge);
        }
        let mut rows = self.rows_from(from)?;
        rows.truncate(usize::from(most));
        Ok(Reply::AuditRows(AuditRows::from_vec(rows)))
    }

    /// The reply to a question, by the state that has seen its moment.
    pub(super) fn answer(&self, role: Role, question: Question) -> Result<Reply, Refusal>
        ensures answer { Answers self.now role (Request.Query question) result }
        ensures fits { IfOk result IsPlain }
    {
        match question {
            Question::Read {
                object,
                offset,
                length,
                at,
            } => self.answer_read(object, offset, length, at),
            Question::GetAttr { object, at } => self.answer_get_attr(object, at),
            Question::Audit { from, max } => self.answer_audit(role, from, max),
        }
    }
}

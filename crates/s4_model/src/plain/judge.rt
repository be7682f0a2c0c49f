//! The checks of a change, each request's in the order in which refusals are looked at.
ghost use Rattle.std.specs.Prelude.{◌≡◌, ◌↔◌, ◌+◌, ◌<◌, ◌≤◌, None, MatchResult, IfOk, IfErr};
ghost use Rattle.std.specs.Prelude.{IsTrue};
ghost use Rattle.s4_model.specs.Refusals.{present, last_number, live_size_of, is_client};
ghost use Rattle.s4_model.specs.Refusals.{is_one_span_too_many, is_bad_span};
ghost use Rattle.s4_model.specs.Plain.{Judges, IsRefusedBy, live_refusal};
ghost use Rattle.s4_types.specs.declared.limits.TheConstants.{OBJECT_BYTES};
ghost use Rattle.s4_types.specs.declared.requests.Role.{Role as TheRole};
ghost use Rattle.s4_types.specs.declared.refusals.Refusal.TheVariants.{NoMemory};

use crate::plain::PlainDrive;
use s4_types::limits::{ATTRIBUTE_BYTES, OBJECT_BYTES};
use s4_types::{
    AdminRequest, Bytes, Change, Moment, ObjectId, ObjectRequest, Refusal, Request, Role, Span,
    Version,
};

/// Whether a role has a client's rights alone.
pub(super) fn is_client(role: Role) -> bool
    ensures { result ≡ is_client role }
{
    match role {
        Role::Client => true,
        Role::Admin => false,
    }
}

/// Whether a write of this many bytes at an offset ends past the largest object.
fn ends_past_limit(offset: u64, length: usize) -> bool
    ensures { IsTrue result ↔ (OBJECT_BYTES < offset + length) }
{
    offset > OBJECT_BYTES || length as u64 > OBJECT_BYTES - offset
}

impl PlainDrive {
    /// Whether no later moment can be given.
    fn is_at_clock_end(&self) -> bool
        ensures end { IsTrue result ↔ (self.now.clock ≡ last_number) }
        ensures below { self.now.clock ≤ last_number }
    {
        self.clock.number() == u64::MAX
    }

    /// The present size of an object, in bytes, and nothing where it is absent.
    fn present_size(&self, object: ObjectId) -> Result<Option<u64>, Refusal>
        ensures ok { IfOk result (λ size. size ≡ live_size_of (present self.now object)) }
        ensures err { IfErr result (λ refusal. refusal ≡ NoMemory) }
    {
        match self.version(object, self.clock)? {
            Version::Absent => Ok(None),
            Version::Live { bytes, .. } => Ok(Some(bytes.len() as u64)),
        }
    }

    /// The change, unless its object is absent or the clock is at its end.
    fn judge_live(&self, object: ObjectId, change: Change) -> Result<Change, Refusal>
        ensures { MatchResult result
            (λ judged. (judged ≡ change)
            × (live_refusal self.now object ≡ None) × (self.now.clock < last_number))
            (IsRefusedBy (live_refusal self.now object)) }
    {
        if self.present_size(object)?.is_none() {
            return Err(Refusal::NoObject);
        }
        if self.is_at_clock_end() {
            return Err(Refusal::ClockEnd);
        }
        Ok(change)
    }

    fn judge_create(&self, attribute: Bytes) -> Result<Change, Refusal>
        ensures { (role : TheRole)
            → Judges self.now role (Request.Update (ObjectRequest.Create attribute)) result }
    {
        if attribute.len() > ATTRIBUTE_BYTES {
            return Err(Refusal::BadAttr);
        }
        if self.is_at_clock_end() || self.next.number() == u64::MAX {
            return Err(Refusal::ClockEnd);
        }
        Ok(Change::Create {
            object: self.next,
            attribute,
        })
    }

    fn judge_delete(&self, object: ObjectId) -> Result<Change, Refusal>
        ensures { (role : TheRole)
            → Judges self.now role (Request.Update (ObjectRequest.Delete object)) result }
    {
        self.judge_live(object, Change::Delete { object })
    }

    fn judge_write(&self, object: ObjectId, offset: u64, bytes: Bytes) -> Result<Change, Refusal>
        ensures { (role : TheRole)
            → Judges self.now role (Request.Update (ObjectRequest.Write object offset bytes))
            result }
    {
        if ends_past_limit(offset, bytes.len()) {
            return Err(Refusal::TooLarge);
        }
        self.judge_live(
            object,
            Change::Write {
                object,
                offset,
                bytes,
            },
        )
    }

    fn judge_append(&self, object: ObjectId, bytes: Bytes) -> Result<Change, Refusal>
        ensures { (role : TheRole)
            → Judges self.now role (Request.Update (ObjectRequest.Append object bytes)) result }
    {
        let size = self.present_size(object)?;
        let offset = size.unwrap_or(0);
        if ends_past_limit(offset, bytes.len()) {
            return Err(Refusal::TooLarge);
        }
        if size.is_none() {
            return Err(Refusal::NoObject);
        }
        if self.is_at_clock_end() {
            return Err(Refusal::ClockEnd);
        }
        Ok(Change::Write {
            object,
            offset,
            bytes,
        })
    }

    fn judge_truncate(&self, object: ObjectId, size: u64) -> Result<Change, Refusal>
        ensures { (role : TheRole)
            → Judges self.now role (Request.Update (ObjectRequest.Truncate object size)) result }
    {
        if size > OBJECT_BYTES {
            return Err(Refusal::TooLarge);
        }
        self.judge_live(object, Change::Truncate { object, size })
    }

    fn judge_set_attr(&self, object: ObjectId, attribute: Bytes) -> Result<Change, Refusal>
        ensures { (role : TheRole)
            → Judges self.now role (Request.Update (ObjectRequest.SetAttr object attribute))
            result }
    {
        if attribute.len() > ATTRIBUTE_BYTES {
            return Err(Refusal::BadAttr);
        }
        self.judge_live(object, Change::SetAttr { object, attribute })
    }

    fn judge_set_window(&self, role: Role, window: u64) -> Result<Change, Refusal>
        ensures { Judges self.now role (Request.Control (AdminRequest.SetWindow window)) result }
    {
        if is_client(role) {
            return Err(Refusal::NotAdmin);
        }
        if self.is_at_clock_end() {
            return Err(Refusal::ClockEnd);
        }
        Ok(Change::SetWindow { window })
    }

    /// Whether a span doesn't lie in order and at or before the clock.
    fn is_bad_span(&self, first: Moment, last: Moment) -> bool
        ensures { result ≡ is_bad_span self.now (Request.Control (AdminRequest.Flush first last)) }
    {
        !(first <= last && last <= self.clock)
    }

    fn judge_flush(&self, role: Role, first: Moment, last: Moment) -> Result<Change, Refusal>
        ensures { Judges self.now role (Request.Control (AdminRequest.Flush first last)) result }
    {
        if is_client(role) {
            return Err(Refusal::NotAdmin);
        }
        if self.is_bad_span(first, last) {
            return Err(Refusal::BadSpan);
        }
        let span = Span {
            object: ObjectId::new(0),
            first,
            last,
        };
        if self.is_one_span_too_many(span)? {
            return Err(Refusal::TooManySpans);
        }
        if self.is_at_clock_end() {
            return Err(Refusal::ClockEnd);
        }
        Ok(Change::Flush { first, last })
    }

    fn judge_flush_object(
        &self,
        role: Role,
        object: ObjectId,
        first: Moment,
        last: Moment,
    ) -> Result<Change, Refusal>
        ensures { Judges self.now role (Request.Control (AdminRequest.FlushO object first last))
            result }
    {
        if is_client(role) {
            return Err(Refusal::NotAdmin);
        }
        if self.is_bad_span(first, last) {
            return Err(Refusal::BadSpan);
        }
        if object.number() == 0 || object >= self.next {
            return Err(Refusal::NoObject);
        }
        let span = Span {
            object,
            first,
            last,
        };
        if self.is_one_span_too_many(span)? {
            return Err(Refusal::TooManySpans);
        }
        if self.is_at_clock_end() {
            return Err(Refusal::ClockEnd);
        }
        Ok(Change::FlushO {
            object,
            first,
            last,
        })
    }

    /// What a request for a change of an object comes to: the change, or the first refusal that
    /// applies.
    pub(super) fn judge_update(&self, update: ObjectRequest) -> Result<Change, Refusal>
        ensures { (role : TheRole) → Judges self.now role (Request.Update update) result }
    {
        match update {
            ObjectRequest::Create { attribute } => self.judge_create(attribute),
            ObjectRequest::Delete { object } => self.judge_delete(object),
            ObjectRequest::Write {
                object,
                offset,
                bytes,
            } => self.judge_write(object, offset, bytes),
            ObjectRequest::Append { object, bytes } => self.judge_append(object, bytes),
            ObjectRequest::Truncate { object, size } => self.judge_truncate(object, size),
            ObjectRequest::SetAttr { object, attribute } => self.judge_set_attr(object, attribute),
        }
    }

    /// The same of a request for administrators.
    pub(super) fn judge_control(&self, role: Role, control: AdminRequest) -> Result<Change, Refusal>
        ensures { Judges self.now role (Request.Control control) result }
    {
        match control {
            AdminRequest::SetWindow { window } => self.judge_set_window(role, window),
            AdminRequest::Flush { first, last } => self.judge_flush(role, first, last),
            AdminRequest::FlushO {
                object,
                first,
                last,
            } => self.judge_flush_object(role, object, first, last),
        }
    }
}

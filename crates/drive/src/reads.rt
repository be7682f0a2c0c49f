//! Reads: what an object was at a moment that can be read.
ghost use Rattle.std.specs.Prelude.{◌≡◌, ◌≤◌, None, Some, IfOk, IfErr, OnOk};
ghost use Rattle.s4_types.specs.Sizes.{ReplyFits};
ghost use Rattle.s4_types.specs.declared.limits.TheConstants.{READ_BYTES, AUDIT_ROWS};
ghost use Rattle.s4_types.specs.declared.requests.Request.TheVariants.{Query};
ghost use Rattle.s4_types.specs.declared.requests.Question.TheVariants.{Read, GetAttr, Audit};
ghost use Rattle.s4_types.specs.declared.refusals.Refusal.TheVariants.{NoMemory};
ghost use Rattle.s4_types.specs.declared.replies.Reply.TheVariants.{Attr};
ghost use Rattle.s4_model.specs.Refusals.{first_refusal, asked};
ghost use Rattle.s4_model.specs.Step.{reply_to_read};
ghost use Rattle.drive.specs.Later.{later_refusal};
ghost use Rattle.drive.specs.Fields.{state_in, store_of};
ghost use Rattle.time_read.specs.Plans.{bytes_planned};
ghost use Rattle.drive.specs.Refusing.{IsJudgedOut, IsUnplanned};
ghost use Rattle.drive.specs.Answering.{IsPlanOf, IsAnswered, HasVersion, IsUntold};
ghost use Rattle.drive.specs.Answering.{telling_refusal};

use crate::checks::check_question;
use crate::drive::Drive;
use block_log::Blocks;
use codec::Inode;
use inode::laws::bytes_are_the_blocks_joined;
use s4_model::laws::the_audit_goes_on_row_by_row;
use s4_types::{Bytes, Moment, ObjectId, Question, Refusal, Reply, Role};
use segment_word::Naming;
use std::alloc::Global;
use time_read::{BlockRange, ReadPlan};
use version_store::{BytesAtOnce, BytesPlanned, NamedTable, Reader};

/// Reads what an inode tells of its object: size, moments and attribute. No block is read.
///
/// NoMemory alone, where the memory for the attribute is refused.
#[derive(Drop)]
struct Attributes;

impl<B: Blocks> Reader<B> for Attributes {
    type Read = Reply;

    ghost reads = { λ reader table inode reply.
        (reply ≡ Attr inode.size inode.created inode.changed inode.attribute) × ReplyFits reply };

    ghost refuses = { λ reader table inode e. e ≡ NoMemory };

    fn needed(&self) -> BlockRange {
        BlockRange::none()
    }

    fn read(self, alloc: Global, _table: &mut B, inode: &Inode) -> Result<Reply, Refusal> {
        let attribute = Bytes::from_slice(alloc, inode.attribute.as_slice())?;
        Ok(Reply::Attr {
            size: inode.size,
            created: inode.created,
            changed: inode.changed,
            attribute,
        })
    }
}

impl<J: Naming> Drive<J> {
    /// The moment that a read asks for: the present clock where it names none.
    fn moment_asked(&self, at: Option<Moment>) -> Moment
        ensures { result ≡ asked (state_in self.now) at }
    {
        at.unwrap_or(self.window.clock())
    }

    /// What a reader has of an object at a moment, where that can be read and the object is there.
    ///
    /// It is refused as a Read of that moment is, and else for what the reader is.
    fn read_at<R: Reader<NamedTable<J>>>(
        &mut self,
        object: ObjectId,
        at: Option<Moment>,
        reader: R,
    ) -> Result<R::Read, Refusal>
        ensures ledger { self.new.ledger ≡ self.old.ledger }
        ensures store { store_of self.new ≡ store_of self.old }
        ensures free { OnOk result
            (telling_refusal (state_in self.old) object (asked (state_in self.old) at) ≡ None) }
        ensures read { IfOk result
            (λ read. HasVersion self.old object (asked (state_in self.old) at)
            (λ inode. R.reads reader self.new.store.table inode read)) }
        ensures refused { IfErr result
            (λ e. IsUntold self.old object (asked (state_in self.old) at)
            (λ inode. R.refuses reader self.new.store.table inode e) e) }
    {
        let moment = self.moment_asked(at);
        self.window.visible(object, moment)?;
        self.store.read_at(object, moment, reader)
    }

    /// A plan of reading the bytes of an object from an offset on, at a moment.
    pub(crate) fn planned(
        &mut self,
        object: ObjectId,
        offset: u64,
        length: u32,
        at: Option<Moment>,
    ) -> Result<ReadPlan, Refusal>
        ensures ledger { self.new.ledger ≡ self.old.ledger }
        ensures store { store_of self.new ≡ store_of self.old }
        ensures free { OnOk result
            (later_refusal (state_in self.old) (Query (Read object offset length at)) ≡ None) }
        ensures bytes { IfOk result
            (λ plan. reply_to_read (state_in self.old) (Query (Read object offset length at))
            ≡ Some (Reply.Data (bytes_planned plan))) }
        ensures plan { IfOk result (IsPlanOf self.new object offset length at) }
        ensures refused { IfErr result
            (IsUnplanned (later_refusal (state_in self.old) (Query (Read object offset length at))) self.new
            (Query (Read object offset length at))) }
    {
        let wanted = length as u64;
        self.read_at(object, at, BytesPlanned { offset, wanted })
    }

    /// The reply to a Read. Its bytes are read at once, so no pin is needed: neither a seat of pins
    /// is taken nor a frame's word changed.
    fn read(
        &mut self,
        object: ObjectId,
        offset: u64,
        length: u32,
        at: Option<Moment>,
    ) -> Result<Reply, Refusal>
        requires { length ≤ READ_BYTES }
        ensures ledger { self.new.ledger ≡ self.old.ledger }
        ensures store { store_of self.new ≡ store_of self.old }
        ensures fits { IfOk result ReplyFits }
        ensures ok { IfOk result
            (IsAnswered (later_refusal (state_in self.old) (Query (Read object offset length at)))
            (state_in self.old) (Query (Read object offset length at))) }
        ensures refused { IfErr result
            (IsJudgedOut (later_refusal (state_in self.old) (Query (Read object offset length at)))
            (Query (Read object offset length at))) }
    {
        let wanted = length as u64;
        let bytes = self.read_at(object, at, BytesAtOnce { offset, wanted })?;
        Ok(Reply::Data(Bytes::from_vec(bytes)))
    }

    /// An object's size, moments and attribute, at a moment.
    fn get_attr(&mut self, object: ObjectId, at: Option<Moment>) -> Result<Reply, Refusal>
        ensures ledger { self.new.ledger ≡ self.old.ledger }
        ensures store { store_of self.new ≡ store_of self.old }
        ensures fits { IfOk result ReplyFits }
        ensures ok { IfOk result
            (IsAnswered (later_refusal (state_in self.old) (Query (GetAttr object at))) (state_in self.old)
            (Query (GetAttr object at))) }
        ensures refused { IfErr result
            (IsJudgedOut (later_refusal (state_in self.old) (Query (GetAttr object at)))
            (Query (GetAttr object at))) }
    {
        bytes_are_the_blocks_joined();
        self.read_at(object, at, Attributes)
    }

    /// The first rows of the audit from a moment on, at most this many.
    fn audited(&self, from: Moment, most: u16) -> Result<Reply, Refusal>
        requires { most ≤ AUDIT_ROWS }
        ensures fits { IfOk result ReplyFits }
        ensures ok { IfOk result
            (IsAnswered (later_refusal (state_in self.now) (Query (Audit from most)))
            (state_in self.now) (Query (Audit from most))) }
        ensures refused { IfErr result
            (IsJudgedOut (later_refusal (state_in self.now) (Query (Audit from most)))
            (Query (Audit from most))) }
    {
        the_audit_goes_on_row_by_row();
        let lowest = from.max(self.window.floor());
        let rows = self.audit.rows_from(lowest, most)?;
        Ok(Reply::AuditRows(rows))
    }

    /// The reply to a question, by the history that has seen its moment.
    pub(crate) fn tell(&mut self, role: Role, question: &Question) -> Result<Reply, Refusal>
        ensures ledger { self.new.ledger ≡ self.old.ledger }
        ensures store { store_of self.new ≡ store_of self.old }
        ensures fits { IfOk result ReplyFits }
        ensures ok { IfOk result
            (IsAnswered (first_refusal (state_in self.old) role (Query question.now))
            (state_in self.old) (Query question.now)) }
        ensures refused { IfErr result
            (IsUnplanned (first_refusal (state_in self.old) role (Query question.now)) self.new
            (Query question.now)) }
    {
        check_question(role, question)?;
        match question {
            Question::Read {
                object,
                offset,
                length,
                at,
            } => self.read(*object, *offset, *length, *at),
            Question::GetAttr { object, at } => self.get_attr(*object, *at),
            Question::Audit { from, max } => self.audited(*from, *max),
        }
    }
}

ghost use Rattle.std.specs.Prelude.{◌≡◌, ◌⊎◌, ℕ, List, length, IfOk, IfErr};
ghost use Rattle.std.specs.Result.{IsErrOf};
ghost use Rattle.rpc.specs.Spelling.{SpellsReply};
ghost use Rattle.s4_types.specs.declared.replies.Reply.{Reply as Answered};
ghost use Rattle.s4_types.specs.declared.refusals.Refusal.TheVariants.{NoMemory, BadFrame};
ghost use Rattle.rpc.specs.private.Reading.{Gives, refusal_of_code, refused_at, changed_at};
ghost use Rattle.rpc.specs.private.Reading.{created_at, data_at, behind_changed, attr_at};
ghost use Rattle.rpc.specs.private.Reading.{audit_rows_at, wire_reply_at};

use crate::audit_rows::read_rows;
use crate::fields::{read_end, read_long, read_tail, read_text, read_word};
use crate::unread::Unread;
use s4_types::limits::{ATTRIBUTE_BYTES, AUDIT_ROWS, READ_BYTES};
use s4_types::{AuditRows, Moment, ObjectId, Refusal, Reply};
use std::alloc::Global;

fn refusal_named(number: u8) -> Option<Refusal>
    ensures { result ≡ refusal_of_code number }
{
    Refusal::from_number(number)
}

#[tactic(auto, unfolding(crate::specs::private::Reading::refused_at))]
fn refused_of(bytes: &[u8]) -> Result<Reply, Unread>
    ensures { Gives (λ x. x) result (refused_at bytes.now) }
{
    let [number, rest @ ..] = bytes else {
        return Err(Unread::Misspelled);
    };
    read_end(rest)?;
    match refusal_named(*number) {
        None => Err(Unread::Misspelled),
        Some(refusal) => Ok(Reply::Refused(refusal)),
    }
}

#[tactic(auto, unfolding(crate::specs::private::Reading::changed_at))]
fn changed_of(bytes: &[u8]) -> Result<Reply, Unread>
    ensures { Gives (λ x. x) result (changed_at bytes.now) }
{
    let (moment, rest) = read_long(bytes)?;
    read_end(rest)?;
    Ok(Reply::Changed(Moment::new(moment)))
}

#[tactic(auto, unfolding(crate::specs::private::Reading::created_at))]
fn created_of(bytes: &[u8]) -> Result<Reply, Unread>
    ensures { Gives (λ x. x) result (created_at bytes.now) }
{
    let (object, rest) = read_long(bytes)?;
    let (moment, rest) = read_long(rest)?;
    read_end(rest)?;
    Ok(Reply::Created(ObjectId::new(object), Moment::new(moment)))
}

#[tactic(auto, unfolding(crate::specs::private::Reading::data_at))]
fn data_of(alloc: Global, bytes: &[u8]) -> Result<Reply, Unread>
    ensures { Gives (λ x. x) result (data_at bytes.now) }
{
    Ok(Reply::Data(read_tail(alloc, READ_BYTES as usize, bytes)?))
}

// What comes after the moments of a reply with attributes.
fn read_behind_changed(
    alloc: Global,
    size: u32,
    created: Moment,
    changed: Moment,
    bytes: &[u8],
) -> Result<Reply, Unread>
    ensures { Gives (λ x. x) result (behind_changed size created changed bytes.now) }
{
    let (attribute, rest) = read_text(alloc, ATTRIBUTE_BYTES, bytes)?;
    read_end(rest)?;
    Ok(Reply::Attr {
        size,
        created,
        changed,
        attribute,
    })
}

#[tactic(auto, unfolding(crate::specs::private::Reading::attr_at))]
fn attr_of(alloc: Global, bytes: &[u8]) -> Result<Reply, Unread>
    ensures { Gives (λ x. x) result (attr_at bytes.now) }
{
    let (size, rest) = read_word(bytes)?;
    let (created, rest) = read_long(rest)?;
    let (changed, rest) = read_long(rest)?;
    read_behind_changed(
        alloc,
        size,
        Moment::new(created),
        Moment::new(changed),
        rest,
    )
}

#[tactic(auto, unfolding(crate::specs::private::Reading::audit_rows_at))]
fn audit_rows_of(alloc: Global, bytes: &[u8]) -> Result<Reply, Unread>
    ensures { Gives (λ x. x) result (audit_rows_at bytes.now) }
{
    let rows = read_rows(alloc, AUDIT_ROWS, bytes)?;
    Ok(Reply::AuditRows(AuditRows::from_vec(rows)))
}

/// A reply, by its first byte.
#[tactic(auto, unfolding(crate::specs::private::Reading::wire_reply_at))]
fn reply_of(alloc: Global, body: &[u8]) -> Result<Reply, Unread>
    ensures { Gives (λ x. x) result (wire_reply_at body.now) }
{
    let [kind, rest @ ..] = body else {
        return Err(Unread::Misspelled);
    };
    match *kind {
        0 => refused_of(rest),
        1 => changed_of(rest),
        2 => created_of(rest),
        3 => data_of(alloc, rest),
        4 => attr_of(alloc, rest),
        5 => audit_rows_of(alloc, rest),
        _ => Err(Unread::Misspelled),
    }
}

/// The reply whose encoding the body is. BadFrame where the body is the encoding of no reply, and
/// NoMemory.
pub fn decode_reply(alloc: Global, body: &[u8]) -> Result<Reply, Refusal>
    // What is read is encoded so.
    ensures found { IfOk result (λ reply. SpellsReply body.now reply) }
    // What is encoded so is read, unless memory runs out.
    ensures only { (reply : Answered) → SpellsReply body.now reply
        → (result ≡ Ok reply) ⊎ (result ≡ Err NoMemory) }
    ensures bad { IsErrOf result BadFrame → (reply : Answered) → SpellsReply body.now reply → ⊥ }
    ensures refused { IfErr result (λ refusal. (refusal ≡ BadFrame) ⊎ (refusal ≡ NoMemory)) }
{
    match reply_of(alloc, body) {
        Ok(reply) => Ok(reply),
        Err(Unread::Memory) => Err(Refusal::NoMemory),
        Err(Unread::Misspelled) => Err(Refusal::BadFrame),
    }
}

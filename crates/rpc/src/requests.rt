ghost use Rattle.std.specs.Prelude.{◌≡◌, ◌⊎◌, ℕ, List, length, IfOk, IfErr};
ghost use Rattle.std.specs.Result.{IsErrOf};
ghost use Rattle.rpc.specs.Spelling.{SpellsRequest};
ghost use Rattle.s4_types.specs.declared.requests.Request.{Request as Asked};
ghost use Rattle.s4_types.specs.declared.refusals.Refusal.TheVariants.{NoMemory, BadFrame};
ghost use Rattle.rpc.specs.private.Reading.{Gives, create_at, delete_at, behind_offset, read_at};
ghost use Rattle.rpc.specs.private.Reading.{write_at, append_at, truncate_at, get_attr_at};
ghost use Rattle.rpc.specs.private.Reading.{set_attr_at, set_window_at, flush_at, flush_object_at};
ghost use Rattle.rpc.specs.private.Reading.{audit_at, request_at};

use crate::fields::{read_at, read_end, read_long, read_short, read_tail, read_text, read_word};
use crate::unread::Unread;
use s4_types::limits::FRAME_BODY_BYTES;
use s4_types::{AdminRequest, Moment, ObjectId, ObjectRequest, Question, Refusal, Request};
use std::alloc::Global;

fn moment_of(at: Option<u64>) -> Option<Moment>
    ensures { result ≡ at }
{
    match at {
        None => None,
        Some(number) => Some(Moment::new(number)),
    }
}

#[tactic(auto, unfolding(crate::specs::private::Reading::create_at))]
fn create_of(alloc: Global, bytes: &[u8]) -> Result<Request, Unread>
    ensures { Gives (λ x. x) result (create_at bytes.now) }
{
    let (attribute, rest) = read_text(alloc, 255, bytes)?;
    read_end(rest)?;
    Ok(Request::Update(ObjectRequest::Create { attribute }))
}

#[tactic(auto, unfolding(crate::specs::private::Reading::delete_at))]
fn delete_of(bytes: &[u8]) -> Result<Request, Unread>
    ensures { Gives (λ x. x) result (delete_at bytes.now) }
{
    let (object, rest) = read_long(bytes)?;
    read_end(rest)?;
    Ok(Request::Update(ObjectRequest::Delete {
        object: ObjectId::new(object),
    }))
}

// What comes after the offset of a read.
fn read_behind_offset(object: ObjectId, offset: u64, bytes: &[u8]) -> Result<Request, Unread>
    ensures { Gives (λ x. x) result (behind_offset object offset bytes.now) }
{
    let (length, rest) = read_word(bytes)?;
    let (at, rest) = read_at(rest)?;
    read_end(rest)?;
    Ok(Request::Query(Question::Read {
        object,
        offset,
        length,
        at: moment_of(at),
    }))
}

#[tactic(auto, unfolding(crate::specs::private::Reading::read_at))]
fn read_of(bytes: &[u8]) -> Result<Request, Unread>
    ensures { Gives (λ x. x) result (read_at bytes.now) }
{
    let (object, rest) = read_long(bytes)?;
    let (offset, rest) = read_long(rest)?;
    read_behind_offset(ObjectId::new(object), offset, rest)
}

#[tactic(auto, unfolding(crate::specs::private::Reading::write_at))]
fn write_of(alloc: Global, bytes: &[u8]) -> Result<Request, Unread>
    ensures { Gives (λ x. x) result (write_at bytes.now) }
{
    let (object, rest) = read_long(bytes)?;
    let (offset, rest) = read_long(rest)?;
    let bytes = read_tail(alloc, FRAME_BODY_BYTES - 17, rest)?;
    Ok(Request::Update(ObjectRequest::Write {
        object: ObjectId::new(object),
        offset,
        bytes,
    }))
}

#[tactic(auto, unfolding(crate::specs::private::Reading::append_at))]
fn append_of(alloc: Global, bytes: &[u8]) -> Result<Request, Unread>
    ensures { Gives (λ x. x) result (append_at bytes.now) }
{
    let (object, rest) = read_long(bytes)?;
    let bytes = read_tail(alloc, FRAME_BODY_BYTES - 9, rest)?;
    Ok(Request::Update(ObjectRequest::Append {
        object: ObjectId::new(object),
        bytes,
    }))
}

#[tactic(auto, unfolding(crate::specs::private::Reading::truncate_at))]
fn truncate_of(bytes: &[u8]) -> Result<Request, Unread>
    ensures { Gives (λ x. x) result (truncate_at bytes.now) }
{
    let (object, rest) = read_long(bytes)?;
    let (size, rest) = read_long(rest)?;
    read_end(rest)?;
    Ok(Request::Update(ObjectRequest::Truncate {
        object: ObjectId::new(object),
        size,
    }))
}

#[tactic(auto, unfolding(crate::specs::private::Reading::get_attr_at))]
fn get_attr_of(bytes: &[u8]) -> Result<Request, Unread>
    ensures { Gives (λ x. x) result (get_attr_at bytes.now) }
{
    let (object, rest) = read_long(bytes)?;
    let (at, rest) = read_at(rest)?;
    read_end(rest)?;
    Ok(Request::Query(Question::GetAttr {
        object: ObjectId::new(object),
        at: moment_of(at),
    }))
}

#[tactic(auto, unfolding(crate::specs::private::Reading::set_attr_at))]
fn set_attr_of(alloc: Global, bytes: &[u8]) -> Result<Request, Unread>
    ensures { Gives (λ x. x) result (set_attr_at bytes.now) }
{
    let (object, rest) = read_long(bytes)?;
    let (attribute, rest) = read_text(alloc, 255, rest)?;
    read_end(rest)?;
    Ok(Request::Update(ObjectRequest::SetAttr {
        object: ObjectId::new(object),
        attribute,
    }))
}

#[tactic(auto, unfolding(crate::specs::private::Reading::set_window_at))]
fn set_window_of(bytes: &[u8]) -> Result<Request, Unread>
    ensures { Gives (λ x. x) result (set_window_at bytes.now) }
{
    let (window, rest) = read_long(bytes)?;
    read_end(rest)?;
    Ok(Request::Control(AdminRequest::SetWindow { window }))
}

#[tactic(auto, unfolding(crate::specs::private::Reading::flush_at))]
fn flush_of(bytes: &[u8]) -> Result<Request, Unread>
    ensures { Gives (λ x. x) result (flush_at bytes.now) }
{
    let (first, rest) = read_long(bytes)?;
    let (last, rest) = read_long(rest)?;
    read_end(rest)?;
    Ok(Request::Control(AdminRequest::Flush {
        first: Moment::new(first),
        last: Moment::new(last),
    }))
}

#[tactic(auto, unfolding(crate::specs::private::Reading::flush_object_at))]
fn flush_object_of(bytes: &[u8]) -> Result<Request, Unread>
    ensures { Gives (λ x. x) result (flush_object_at bytes.now) }
{
    let (object, rest) = read_long(bytes)?;
    let (first, rest) = read_long(rest)?;
    let (last, rest) = read_long(rest)?;
    read_end(rest)?;
    Ok(Request::Control(AdminRequest::FlushO {
        object: ObjectId::new(object),
        first: Moment::new(first),
        last: Moment::new(last),
    }))
}

#[tactic(auto, unfolding(crate::specs::private::Reading::audit_at))]
fn audit_of(bytes: &[u8]) -> Result<Request, Unread>
    ensures { Gives (λ x. x) result (audit_at bytes.now) }
{
    let (from, rest) = read_long(bytes)?;
    let (max, rest) = read_short(rest)?;
    read_end(rest)?;
    Ok(Request::Query(Question::Audit {
        from: Moment::new(from),
        max,
    }))
}

/// A request, by its first byte.
#[tactic(auto, unfolding(crate::specs::private::Reading::request_at))]
fn request_of(alloc: Global, body: &[u8]) -> Result<Request, Unread>
    ensures { Gives (λ x. x) result (request_at body.now) }
{
    let [kind, rest @ ..] = body else {
        return Err(Unread::Misspelled);
    };
    match *kind {
        1 => create_of(alloc, rest),
        2 => delete_of(rest),
        3 => read_of(rest),
        4 => write_of(alloc, rest),
        5 => append_of(alloc, rest),
        6 => truncate_of(rest),
        7 => get_attr_of(rest),
        8 => set_attr_of(alloc, rest),
        9 => set_window_of(rest),
        10 => flush_of(rest),
        11 => flush_object_of(rest),
        12 => audit_of(rest),
        _ => Err(Unread::Misspelled),
    }
}

/// The request whose encoding the body is. BadFrame where the body is the encoding of no request,
/// and NoMemory.
pub fn decode_request(alloc: Global, body: &[u8]) -> Result<Request, Refusal>
    // What is read is encoded so.
    ensures found { IfOk result (λ request. SpellsRequest body.now request) }
    // What is encoded so is read, unless memory runs out.
    ensures only { (request : Asked)
        → SpellsRequest body.now request → (result ≡ Ok request) ⊎ (result ≡ Err NoMemory) }
    ensures bad { IsErrOf result BadFrame → (request : Asked) → SpellsRequest body.now request → ⊥ }
    ensures refused { IfErr result (λ refusal. (refusal ≡ BadFrame) ⊎ (refusal ≡ NoMemory)) }
{
    match request_of(alloc, body) {
        Ok(request) => Ok(request),
        Err(Unread::Memory) => Err(Refusal::NoMemory),
        Err(Unread::Misspelled) => Err(Refusal::BadFrame),
    }
}

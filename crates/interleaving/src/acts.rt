//! What an actor may do, and copies of it.
ghost use Rattle.std.specs.Prelude.{◌≡◌, IfOk, IfErr};
ghost use Rattle.s4_types.specs.declared.refusals.Refusal.TheVariants.{NoMemory};

use s4_types::{Moment, ObjectId, ObjectRequest, Refusal, Request};

/// A read of an object. Offset and length are in bytes.
#[derive(Clone, Copy)]
pub struct Reading {
    pub object: ObjectId,
    pub offset: u64,
    pub length: u32,
    /// The moment that is read; none for the present.
    pub at: Option<Moment>,
    /// The moment of the server's clock.
    pub now: Moment,
}

/// A step of an actor. Frames are numbered from 0 on.
#[derive(Drop)]
pub enum Act {
    /// A request of the actor's session, at a moment of the server's clock.
    Request { request: Request, now: Moment },
    /// A plan of a read, which takes the place of one that the actor has.
    Resolve(Reading),
    /// The bytes of the actor's plan, which is spent.
    Fetch,
    /// The actor's session sees all accepted changes.
    Meet,
    /// A plan to move an object's blocks out of a frame, which takes the place of a move that the
    /// actor has.
    Plan { frame: u16, object: ObjectId },
    /// A copy of what the actor has planned to move; the plan is spent.
    Copy,
    /// What the actor has copied is put in place, and spent.
    Commit,
}

/// A second change of an object that asks for the same.
fn copy_update(update: &ObjectRequest) -> Result<ObjectRequest, Refusal>
    ensures copy { IfOk result (λ copy. copy ≡ update.now) }
    ensures refusal { IfErr result (λ e. e ≡ NoMemory) }
{
    match update {
        ObjectRequest::Create { attribute } => Ok(ObjectRequest::Create {
            attribute: attribute.copy()?,
        }),
        ObjectRequest::Delete { object } => Ok(ObjectRequest::Delete { object: *object }),
        ObjectRequest::Write {
            object,
            offset,
            bytes,
        } => Ok(ObjectRequest::Write {
            object: *object,
            offset: *offset,
            bytes: bytes.copy()?,
        }),
        ObjectRequest::Append { object, bytes } => Ok(ObjectRequest::Append {
            object: *object,
            bytes: bytes.copy()?,
        }),
        ObjectRequest::Truncate { object, size } => Ok(ObjectRequest::Truncate {
            object: *object,
            size: *size,
        }),
        ObjectRequest::SetAttr { object, attribute } => Ok(ObjectRequest::SetAttr {
            object: *object,
            attribute: attribute.copy()?,
        }),
    }
}

/// A second request that asks for the same.
fn copy_request(request: &Request) -> Result<Request, Refusal>
    ensures copy { IfOk result (λ copy. copy ≡ request.now) }
    ensures refusal { IfErr result (λ e. e ≡ NoMemory) }
{
    match request {
        Request::Query(question) => Ok(Request::Query(*question)),
        Request::Update(update) => Ok(Request::Update(copy_update(update)?)),
        Request::Control(control) => Ok(Request::Control(*control)),
    }
}

/// A second act that does the same.
pub(crate) fn copy_act(act: &Act) -> Result<Act, Refusal>
    ensures copy { IfOk result (λ copy. copy ≡ act.now) }
    ensures refusal { IfErr result (λ e. e ≡ NoMemory) }
{
    match act {
        Act::Request { request, now } => Ok(Act::Request {
            request: copy_request(request)?,
            now: *now,
        }),
        Act::Resolve(reading) => Ok(Act::Resolve(*reading)),
        Act::Fetch => Ok(Act::Fetch),
        Act::Meet => Ok(Act::Meet),
        Act::Plan { frame, object } => Ok(Act::Plan {
            frame: *frame,
            object: *object,
        }),
        Act::Copy => Ok(Act::Copy),
        Act::Commit => Ok(Act::Commit),
    }
}

//! What requests do to what the cleaner can free.
use drive::Drive;
use s4_types::limits::CHAIN_ENTRY_BYTES;
use s4_types::{AdminRequest, Moment, ObjectId, ObjectRequest, Request};
use segment_word::Naming;

/// Bytes of a chain past which it is nearly full: the largest change still fits twice.
const NEARLY_FULL: usize = CHAIN_ENTRY_BYTES / 4 * 3;

/// What a request does, if it is accepted, to what can be freed.
#[derive(Clone, Copy)]
pub(crate) enum Effect {
    /// Nothing.
    Reads,
    /// An object is changed; number 0 where it is made.
    Changes(ObjectId),
    /// An object is deleted.
    Deletes(ObjectId),
    /// The moments of an object up to this one may be hidden, or of all where its number is 0: by a
    /// flush, or another window.
    Hides(ObjectId, Moment),
}

/// What a change of an object does to what can be freed.
fn effect_of_update(update: &ObjectRequest) -> Effect {
    match update {
        ObjectRequest::Create { .. } => Effect::Changes(ObjectId::new(0)),
        ObjectRequest::Delete { object } => Effect::Deletes(*object),
        ObjectRequest::Write { object, .. }
        | ObjectRequest::Append { object, .. }
        | ObjectRequest::Truncate { object, .. }
        | ObjectRequest::SetAttr { object, .. } => Effect::Changes(*object),
    }
}

/// What a request does to what can be freed.
pub(crate) fn effect_of(request: &Request) -> Effect {
    match request {
        Request::Query(_) => Effect::Reads,
        Request::Update(update) => effect_of_update(update),
        Request::Control(AdminRequest::SetWindow { .. }) => {
            Effect::Hides(ObjectId::new(0), Moment::new(u64::MAX))
        }
        Request::Control(AdminRequest::Flush { last, .. }) => {
            Effect::Hides(ObjectId::new(0), *last)
        }
        Request::Control(AdminRequest::FlushO { object, last, .. }) => {
            Effect::Hides(*object, *last)
        }
    }
}

/// Whether the chain of an object is nearly full.
pub(crate) fn is_nearly_full<J: Naming>(drive: &Drive<J>, object: ObjectId) -> bool {
    match drive.row(object) {
        Some(row) => row.journal_bytes as usize > NEARLY_FULL,
        None => false,
    }
}

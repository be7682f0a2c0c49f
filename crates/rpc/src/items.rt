ghost use Rattle.std.specs.Prelude.{◌≡◌, ◌⊎◌, ℕ, List, IfOk, IfErr};
ghost use Rattle.std.specs.Result.{IsErrOf};
ghost use Rattle.rpc.specs.Spelling.{SpellsRequest, SpellsReply};
ghost use Rattle.s4_types.specs.declared.refusals.Refusal.TheVariants.{NoMemory, BadFrame};

use crate::{decode_reply, decode_request};
use s4_types::{Refusal, Reply, Request};
use std::alloc::Global;

/// What a frame of a stream says.
#[derive(Drop, PartialEq, Eq)]
pub enum Item<T> {
    /// The value that the body encodes.
    Whole(T),
    /// A frame whose body encodes nothing, is empty, or is longer than a body may be.
    BadFrame,
}

/// What the body of a frame may encode: a stream has requests alone, or replies alone.
pub trait Message: Drop {
    /// The body encodes this value.
    ghost spells: { List ℕ → Self → Type 0 };

    /// The value whose encoding the body is. BadFrame where it is the encoding of none, and
    /// NoMemory.
    fn decode(alloc: Global, body: &[u8]) -> Result<Self, Refusal>
        ensures found { IfOk result (λ value. spells body.now value) }
        ensures bad { IsErrOf result BadFrame → (value : Self) → spells body.now value → ⊥ }
        ensures refused { IfErr result (λ refusal. (refusal ≡ BadFrame) ⊎ (refusal ≡ NoMemory)) };
}

impl Message for Request {
    ghost spells = { SpellsRequest };

    fn decode(alloc: Global, body: &[u8]) -> Result<Request, Refusal> {
        decode_request(alloc, body)
    }
}

impl Message for Reply {
    ghost spells = { SpellsReply };

    fn decode(alloc: Global, body: &[u8]) -> Result<Reply, Refusal> {
        decode_reply(alloc, body)
    }
}

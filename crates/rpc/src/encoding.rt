ghost use Rattle.std.specs.Prelude.{◌≡◌, ◌++◌, List, IfOk, IfErr, OnOk, OnErr};
ghost use Rattle.rpc.specs.Spelling.{RequestFits, IsSpelledRequest, IsSpelledReply};
ghost use Rattle.rpc.specs.Spelling.{request_spelling, reply_spelling};
ghost use Rattle.rpc.specs.Stream.{frame};
ghost use Rattle.s4_types.specs.Sizes.{ReplyFits};
ghost use Rattle.s4_types.specs.declared.refusals.Refusal.TheVariants.{NoMemory};

use crate::reply_bodies::{put_reply, reply_length};
use crate::request_bodies::{put_request, request_length};
use crate::room::put_word;
use s4_types::{Refusal, Reply, Request};
use std::alloc::Global;

/// Writes a whole frame after the bytes that are there: the length of the body in four bytes, and
/// the body, which is the one encoding of the request. NoMemory leaves the bytes as they were.
pub fn push_request(out: &mut Vec<u8>, request: &Request) -> Result<(), Refusal>
    requires { RequestFits request.now }
    ensures frame { OnOk result
        (out.new.items ≡ out.old.items ++ frame (request_spelling request.now)) }
    ensures spelled { OnOk result (IsSpelledRequest request.now) }
    ensures kept { OnErr result (out.new.items ≡ out.old.items) }
    ensures memory { IfErr result (λ refusal. refusal ≡ NoMemory) }
{
    let length = request_length(request);
    out.reserve(4 + length)?;
    put_word(out, length as u32);
    put_request(out, request);
    Ok(())
}

/// Writes a whole frame after the bytes that are there: the length of the body in four bytes, and
/// the body, which is the one encoding of the reply. NoMemory leaves the bytes as they were.
pub fn push_reply(out: &mut Vec<u8>, reply: &Reply) -> Result<(), Refusal>
    requires { ReplyFits reply.now }
    ensures frame { OnOk result
        (out.new.items ≡ out.old.items ++ frame (reply_spelling reply.now)) }
    ensures spelled { OnOk result (IsSpelledReply reply.now) }
    ensures kept { OnErr result (out.new.items ≡ out.old.items) }
    ensures memory { IfErr result (λ refusal. refusal ≡ NoMemory) }
{
    let length = reply_length(reply);
    out.reserve(4 + length)?;
    put_word(out, length as u32);
    put_reply(out, reply);
    Ok(())
}

/// The frame of a request: the length of the body in four bytes, and the body, which is its one
/// encoding. The only error is NoMemory.
pub fn encode_request(alloc: Global, request: &Request) -> Result<Vec<u8>, Refusal>
    requires { RequestFits request.now }
    ensures frame { IfOk result (λ bytes. bytes.items ≡ frame (request_spelling request.now)) }
    ensures spelled { OnOk result (IsSpelledRequest request.now) }
    ensures memory { IfErr result (λ refusal. refusal ≡ NoMemory) }
{
    let mut out = Vec::new(alloc);
    push_request(&mut out, request)?;
    Ok(out)
}

/// The frame of a reply: the length of the body in four bytes, and the body, which is its one
/// encoding. The only error is NoMemory.
pub fn encode_reply(alloc: Global, reply: &Reply) -> Result<Vec<u8>, Refusal>
    requires { ReplyFits reply.now }
    ensures frame { IfOk result (λ bytes. bytes.items ≡ frame (reply_spelling reply.now)) }
    ensures spelled { OnOk result (IsSpelledReply reply.now) }
    ensures memory { IfErr result (λ refusal. refusal ≡ NoMemory) }
{
    let mut out = Vec::new(alloc);
    push_reply(&mut out, reply)?;
    Ok(out)
}

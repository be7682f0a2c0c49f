ghost use Rattle.std.specs.Prelude.{◌≡◌, ℕ, ◌<◌, ◌≤◌, ◌^◌, ◌+◌, List, length};
ghost use Rattle.rpc.specs.private.Room.{HasRoom, Appended};
ghost use Rattle.rpc.specs.Spelling.{RequestFits, RequestNumbers, request_spelling, wire_text, at};
ghost use Rattle.s4_types.specs.declared.limits.TheConstants.{FRAME_BODY_BYTES};

use crate::room::{
    put, put_at, put_bytes, put_long, put_moment, put_object, put_short, put_text, put_word,
};
use s4_types::{AdminRequest, Bytes, Moment, ObjectId, ObjectRequest, Question, Request};

fn put_create(out: &mut Vec<u8>, attribute: &Bytes)
    requires room { HasRoom out.old
        (length (request_spelling (Request.Update (ObjectRequest.Create attribute.now)))) }
    requires short { length attribute.now < 256 }
    ensures bytes { Appended out.old out.new
        (request_spelling (Request.Update (ObjectRequest.Create attribute.now))) }
    ensures range { RequestNumbers (Request.Update (ObjectRequest.Create attribute.now)) }
{
    put(out, &[1]);
    put_text(out, attribute);
}

fn put_delete(out: &mut Vec<u8>, object: ObjectId)
    requires { HasRoom out.old
        (length (request_spelling (Request.Update (ObjectRequest.Delete object)))) }
    ensures bytes { Appended out.old out.new
        (request_spelling (Request.Update (ObjectRequest.Delete object))) }
    ensures range { RequestNumbers (Request.Update (ObjectRequest.Delete object)) }
{
    put(out, &[2]);
    put_object(out, object);
}

fn put_read(out: &mut Vec<u8>, object: ObjectId, offset: u64, count: u32, at: Option<Moment>)
    requires { HasRoom out.old
        (length (request_spelling (Request.Query (Question.Read object offset count at)))) }
    ensures bytes { Appended out.old out.new
        (request_spelling (Request.Query (Question.Read object offset count at))) }
    ensures range { RequestNumbers (Request.Query (Question.Read object offset count at)) }
{
    put(out, &[3]);
    put_object(out, object);
    put_long(out, offset);
    put_word(out, count);
    put_at(out, at);
}

fn put_write(out: &mut Vec<u8>, object: ObjectId, offset: u64, bytes: &Bytes)
    requires { HasRoom out.old
        (length (request_spelling (Request.Update (ObjectRequest.Write object offset bytes.now)))) }
    ensures bytes { Appended out.old out.new
        (request_spelling (Request.Update (ObjectRequest.Write object offset bytes.now))) }
    ensures range { RequestNumbers (Request.Update (ObjectRequest.Write object offset bytes.now)) }
{
    put(out, &[4]);
    put_object(out, object);
    put_long(out, offset);
    put_bytes(out, bytes);
}

fn put_append(out: &mut Vec<u8>, object: ObjectId, bytes: &Bytes)
    requires { HasRoom out.old
        (length (request_spelling (Request.Update (ObjectRequest.Append object bytes.now)))) }
    ensures bytes { Appended out.old out.new
        (request_spelling (Request.Update (ObjectRequest.Append object bytes.now))) }
    ensures range { RequestNumbers (Request.Update (ObjectRequest.Append object bytes.now)) }
{
    put(out, &[5]);
    put_object(out, object);
    put_bytes(out, bytes);
}

fn put_truncate(out: &mut Vec<u8>, object: ObjectId, size: u64)
    requires { HasRoom out.old
        (length (request_spelling (Request.Update (ObjectRequest.Truncate object size)))) }
    ensures bytes { Appended out.old out.new
        (request_spelling (Request.Update (ObjectRequest.Truncate object size))) }
    ensures range { RequestNumbers (Request.Update (ObjectRequest.Truncate object size)) }
{
    put(out, &[6]);
    put_object(out, object);
    put_long(out, size);
}

fn put_get_attr(out: &mut Vec<u8>, object: ObjectId, at: Option<Moment>)
    requires { HasRoom out.old
        (length (request_spelling (Request.Query (Question.GetAttr object at)))) }
    ensures bytes { Appended out.old out.new
        (request_spelling (Request.Query (Question.GetAttr object at))) }
    ensures range { RequestNumbers (Request.Query (Question.GetAttr object at)) }
{
    put(out, &[7]);
    put_object(out, object);
    put_at(out, at);
}

fn put_set_attr(out: &mut Vec<u8>, object: ObjectId, attribute: &Bytes)
    requires room { HasRoom out.old
        (length (request_spelling (Request.Update (ObjectRequest.SetAttr object attribute.now)))) }
    requires short { length attribute.now < 256 }
    ensures bytes { Appended out.old out.new
        (request_spelling (Request.Update (ObjectRequest.SetAttr object attribute.now))) }
    ensures range { RequestNumbers (Request.Update (ObjectRequest.SetAttr object attribute.now)) }
{
    put(out, &[8]);
    put_object(out, object);
    put_text(out, attribute);
}

fn put_set_window(out: &mut Vec<u8>, window: u64)
    requires { HasRoom out.old
        (length (request_spelling (Request.Control (AdminRequest.SetWindow window)))) }
    ensures bytes { Appended out.old out.new
        (request_spelling (Request.Control (AdminRequest.SetWindow window))) }
    ensures range { RequestNumbers (Request.Control (AdminRequest.SetWindow window)) }
{
    put(out, &[9]);
    put_long(out, window);
}

fn put_flush(out: &mut Vec<u8>, first: Moment, last: Moment)
    requires { HasRoom out.old
        (length (request_spelling (Request.Control (AdminRequest.Flush first last)))) }
    ensures bytes { Appended out.old out.new
        (request_spelling (Request.Control (AdminRequest.Flush first last))) }
    ensures range { RequestNumbers (Request.Control (AdminRequest.Flush first last)) }
{
    put(out, &[10]);
    put_moment(out, first);
    put_moment(out, last);
}

fn put_flush_object(out: &mut Vec<u8>, object: ObjectId, first: Moment, last: Moment)
    requires { HasRoom out.old
        (length (request_spelling (Request.Control (AdminRequest.FlushO object first last)))) }
    ensures bytes { Appended out.old out.new
        (request_spelling (Request.Control (AdminRequest.FlushO object first last))) }
    ensures range { RequestNumbers (Request.Control (AdminRequest.FlushO object first last)) }
{
    put(out, &[11]);
    put_object(out, object);
    put_moment(out, first);
    put_moment(out, last);
}

fn put_audit(out: &mut Vec<u8>, from: Moment, most: u16)
    requires { HasRoom out.old (length (request_spelling (Request.Query (Question.Audit from most)))) }
    ensures bytes { Appended out.old out.new
        (request_spelling (Request.Query (Question.Audit from most))) }
    ensures range { RequestNumbers (Request.Query (Question.Audit from most)) }
{
    put(out, &[12]);
    put_moment(out, from);
    put_short(out, most);
}

/// Writes the body of a request.
pub(crate) fn put_request(out: &mut Vec<u8>, request: &Request)
    requires room { HasRoom out.old (length (request_spelling request.now)) }
    requires fits { RequestFits request.now }
    ensures bytes { Appended out.old out.new (request_spelling request.now) }
    ensures range { RequestNumbers request.now }
{
    match request {
        Request::Update(ObjectRequest::Create { attribute }) => put_create(out, attribute),
        Request::Update(ObjectRequest::Delete { object }) => put_delete(out, *object),
        Request::Query(
            Question::Read {
                object,
                offset,
                length,
                at,
            },
        ) => put_read(out, *object, *offset, *length, *at),
        Request::Update(
            ObjectRequest::Write {
                object,
                offset,
                bytes,
            },
        ) => put_write(out, *object, *offset, bytes),
        Request::Update(ObjectRequest::Append { object, bytes }) => put_append(out, *object, bytes),
        Request::Update(ObjectRequest::Truncate { object, size }) => put_truncate(
            out, *object, *size,
        ),
        Request::Query(Question::GetAttr { object, at }) => put_get_attr(out, *object, *at),
        Request::Query(Question::Audit { from, max }) => put_audit(out, *from, *max),
        Request::Update(ObjectRequest::SetAttr { object, attribute }) => put_set_attr(
            out, *object, attribute,
        ),
        Request::Control(AdminRequest::SetWindow { window }) => put_set_window(out, *window),
        Request::Control(AdminRequest::Flush { first, last }) => put_flush(out, *first, *last),
        Request::Control(
            AdminRequest::FlushO {
                object,
                first,
                last,
            },
        ) => put_flush_object(out, *object, *first, *last),
    }
}

fn at_length(moment: Option<Moment>) -> usize
    ensures { result ≡ length (at moment) }
{
    match moment {
        None => 1,
        Some(_) => 9,
    }
}

/// Bytes of the body of a request.
pub(crate) fn request_length(request: &Request) -> usize
    requires { RequestFits request.now }
    ensures length { result ≡ length (request_spelling request.now) }
    ensures bound { result ≤ FRAME_BODY_BYTES }
{
    match request {
        Request::Update(ObjectRequest::Create { attribute }) => 2 + attribute.len(),
        Request::Update(ObjectRequest::Delete { .. })
        | Request::Control(AdminRequest::SetWindow { .. }) => 9,
        Request::Query(Question::Read { at, .. }) => 21 + at_length(*at),
        Request::Update(ObjectRequest::Write { bytes, .. }) => 17 + bytes.len(),
        Request::Update(ObjectRequest::Append { bytes, .. }) => 9 + bytes.len(),
        Request::Update(ObjectRequest::Truncate { .. })
        | Request::Control(AdminRequest::Flush { .. }) => 17,
        Request::Query(Question::GetAttr { at, .. }) => 9 + at_length(*at),
        Request::Query(Question::Audit { .. }) => 11,
        Request::Update(ObjectRequest::SetAttr { attribute, .. }) => 10 + attribute.len(),
        Request::Control(AdminRequest::FlushO { .. }) => 25,
    }
}

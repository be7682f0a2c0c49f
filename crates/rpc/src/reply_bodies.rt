ghost use Rattle.std.specs.Prelude.{◌≡◌, ℕ, ◌≤◌, ◌+◌, List, length};
ghost use Rattle.rpc.specs.private.Room.{HasRoom, Appended};
ghost use Rattle.rpc.specs.Spelling.{ReplyNumbers, reply_spelling};
ghost use Rattle.s4_types.specs.Sizes.{ReplyFits};
ghost use Rattle.s4_types.specs.declared.limits.TheConstants.{FRAME_BODY_BYTES};

use crate::audit_rows::put_rows;
use crate::room::{put, put_bytes, put_moment, put_object, put_text, put_word};
use s4_types::limits::AUDIT_ROW_BYTES;
use s4_types::{AuditRows, Bytes, Moment, ObjectId, Reply};

fn put_changed(out: &mut Vec<u8>, moment: Moment)
    requires { HasRoom out.old (length (reply_spelling (Reply.Changed moment))) }
    ensures bytes { Appended out.old out.new (reply_spelling (Reply.Changed moment)) }
    ensures range { ReplyNumbers (Reply.Changed moment) }
{
    put(out, &[1]);
    put_moment(out, moment);
}

fn put_created(out: &mut Vec<u8>, object: ObjectId, moment: Moment)
    requires { HasRoom out.old (length (reply_spelling (Reply.Created object moment))) }
    ensures bytes { Appended out.old out.new (reply_spelling (Reply.Created object moment)) }
    ensures range { ReplyNumbers (Reply.Created object moment) }
{
    put(out, &[2]);
    put_object(out, object);
    put_moment(out, moment);
}

fn put_data(out: &mut Vec<u8>, bytes: &Bytes)
    requires { HasRoom out.old (length (reply_spelling (Reply.Data bytes.now))) }
    ensures { Appended out.old out.new (reply_spelling (Reply.Data bytes.now)) }
{
    put(out, &[3]);
    put_bytes(out, bytes);
}

fn put_attr(out: &mut Vec<u8>, size: u32, created: Moment, changed: Moment, attribute: &Bytes)
    requires room { HasRoom out.old
        (length (reply_spelling (Reply.Attr size created changed attribute.now))) }
    requires fits { ReplyFits (Reply.Attr size created changed attribute.now) }
    ensures bytes { Appended out.old out.new
        (reply_spelling (Reply.Attr size created changed attribute.now)) }
    ensures range { ReplyNumbers (Reply.Attr size created changed attribute.now) }
{
    put(out, &[4]);
    put_word(out, size);
    put_moment(out, created);
    put_moment(out, changed);
    put_text(out, attribute);
}

fn put_audit_rows(out: &mut Vec<u8>, rows: &AuditRows)
    requires { HasRoom out.old (length (reply_spelling (Reply.AuditRows rows.now))) }
    ensures bytes { Appended out.old out.new (reply_spelling (Reply.AuditRows rows.now)) }
    ensures range { ReplyNumbers (Reply.AuditRows rows.now) }
{
    put(out, &[5]);
    put_rows(out, rows.as_slice());
}

/// Writes the body of a reply.
pub(crate) fn put_reply(out: &mut Vec<u8>, reply: &Reply)
    requires room { HasRoom out.old (length (reply_spelling reply.now)) }
    requires fits { ReplyFits reply.now }
    ensures bytes { Appended out.old out.new (reply_spelling reply.now) }
    ensures range { ReplyNumbers reply.now }
{
    match reply {
        Reply::Refused(refusal) => put(out, &[0, refusal.number()]),
        Reply::Changed(moment) => put_changed(out, *moment),
        Reply::Created(object, moment) => put_created(out, *object, *moment),
        Reply::Data(bytes) => put_data(out, bytes),
        Reply::Attr {
            size,
            created,
            changed,
            attribute,
        } => put_attr(out, *size, *created, *changed, attribute),
        Reply::AuditRows(rows) => put_audit_rows(out, rows),
    }
}

/// Bytes of the body of a reply.
pub(crate) fn reply_length(reply: &Reply) -> usize
    requires { ReplyFits reply.now }
    ensures length { result ≡ length (reply_spelling reply.now) }
    ensures bound { result ≤ FRAME_BODY_BYTES }
{
    match reply {
        Reply::Refused(_) => 2,
        Reply::Changed(_) => 9,
        Reply::Created(_, _) => 17,
        Reply::Data(bytes) => 1 + bytes.len(),
        Reply::Attr { attribute, .. } => 22 + attribute.len(),
        Reply::AuditRows(rows) => 1 + AUDIT_ROW_BYTES * rows.len(),
    }
}

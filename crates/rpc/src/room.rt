ghost use Rattle.std.specs.Prelude.{◌≡◌, ℕ, ◌<◌, ◌^◌, List, length, IfSome};
ghost use Rattle.rpc.specs.private.Room.{HasRoom, Appended};
ghost use Rattle.rpc.specs.Spelling.{long, short, word, wire_text, at};

use s4_types::{Bytes, Moment, ObjectId};

/// Writes bytes after those that are there, into room that was taken before.
pub(crate) fn put(out: &mut Vec<u8>, bytes: &[u8])
    requires { HasRoom out.old (length bytes.now) }
    ensures { Appended out.old out.new bytes.now }
{
    // There is room, so that nothing can fail.
    let _ = out.extend_from_slice(bytes);
}

pub(crate) fn put_short(out: &mut Vec<u8>, number: u16)
    requires { HasRoom out.old 2 }
    ensures bytes { Appended out.old out.new (short number) }
    ensures range { number < 2 ^ 16 }
{
    put(out, &number.to_be_bytes());
}

pub(crate) fn put_word(out: &mut Vec<u8>, number: u32)
    requires { HasRoom out.old 4 }
    ensures bytes { Appended out.old out.new (word number) }
    ensures range { number < 2 ^ 32 }
{
    put(out, &number.to_be_bytes());
}

pub(crate) fn put_long(out: &mut Vec<u8>, number: u64)
    requires { HasRoom out.old 8 }
    ensures bytes { Appended out.old out.new (long number) }
    ensures range { number < 2 ^ 64 }
{
    put(out, &number.to_be_bytes());
}

pub(crate) fn put_object(out: &mut Vec<u8>, object: ObjectId)
    requires { HasRoom out.old 8 }
    ensures bytes { Appended out.old out.new (long object) }
    ensures range { object < 2 ^ 64 }
{
    put_long(out, object.number());
}

pub(crate) fn put_moment(out: &mut Vec<u8>, moment: Moment)
    requires { HasRoom out.old 8 }
    ensures bytes { Appended out.old out.new (long moment) }
    ensures range { moment < 2 ^ 64 }
{
    put_long(out, moment.number());
}

pub(crate) fn put_at(out: &mut Vec<u8>, moment: Option<Moment>)
    requires { HasRoom out.old (length (at moment)) }
    ensures bytes { Appended out.old out.new (at moment) }
    ensures range { IfSome moment (λ t. t < 2 ^ 64) }
{
    match moment {
        None => put(out, &[0]),
        Some(moment) => {
            put(out, &[1]);
            put_moment(out, moment);
        }
    }
}

pub(crate) fn put_text(out: &mut Vec<u8>, bytes: &Bytes)
    requires room { HasRoom out.old (length (wire_text bytes.now)) }
    requires short { length bytes.now < 256 }
    ensures { Appended out.old out.new (wire_text bytes.now) }
{
    put(out, &[bytes.len() as u8]);
    put(out, bytes.as_slice());
}

pub(crate) fn put_bytes(out: &mut Vec<u8>, bytes: &Bytes)
    requires { HasRoom out.old (length bytes.now) }
    ensures { Appended out.old out.new bytes.now }
{
    put(out, bytes.as_slice());
}

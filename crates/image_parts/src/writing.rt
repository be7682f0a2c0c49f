ghost use Rattle.std.specs.Prelude.{◌≡◌, ◌+◌, ◌≤◌, ◌++◌, length};
ghost use Rattle.std.specs.Int.{w16, w32, w64};
ghost use Rattle.codec.specs.Fields.{number, zeros};

use arrayvec::ArrayVec;
use s4_types::limits::BLOCK_BYTES;

/// A header that is being written, from its front.
pub(crate) type Writing = ArrayVec<u8, BLOCK_BYTES>;

pub(crate) fn put(out: &mut Writing, bytes: &[u8])
    requires { length out.old.items + length bytes.now ≤ 512 }
    ensures items { out.new.items ≡ out.old.items ++ bytes.now }
    ensures len { length out.new.items ≡ length out.old.items + length bytes.now }
{
    // There is room, so that nothing can fail.
    let _ = out.try_extend_from_slice(bytes);
}

#[tactic(auto, unfolding(codec::specs::Fields::number))]
pub(crate) fn put_short(out: &mut Writing, n: u16)
    requires { length out.old.items + 2 ≤ 512 }
    ensures items { out.new.items ≡ out.old.items ++ number w16 n }
    ensures len { length out.new.items ≡ length out.old.items + 2 }
{
    put(out, &n.to_be_bytes());
}

#[tactic(auto, unfolding(codec::specs::Fields::number))]
pub(crate) fn put_word(out: &mut Writing, n: u32)
    requires { length out.old.items + 4 ≤ 512 }
    ensures items { out.new.items ≡ out.old.items ++ number w32 n }
    ensures len { length out.new.items ≡ length out.old.items + 4 }
{
    put(out, &n.to_be_bytes());
}

#[tactic(auto, unfolding(codec::specs::Fields::number))]
pub(crate) fn put_long(out: &mut Writing, n: u64)
    requires { length out.old.items + 8 ≤ 512 }
    ensures items { out.new.items ≡ out.old.items ++ number w64 n }
    ensures len { length out.new.items ≡ length out.old.items + 8 }
{
    put(out, &n.to_be_bytes());
}

#[tactic(auto, using(codec::proofs::Zeros::zeros_push, codec::proofs::Zeros::zeros_none))]
pub(crate) fn put_zeros(out: &mut Writing, count: usize)
    requires { length out.old.items + count ≤ 512 }
    ensures items { out.new.items ≡ out.old.items ++ zeros count }
    ensures len { length out.new.items ≡ length out.old.items + count }
{
    for _ in 0..count {
        out.push(0);
    }
}

ghost use Rattle.std.specs.Prelude.{◌≡◌, ℕ, ◌+◌, ◌*◌, ◌≤◌, ◌++◌, [], ◌∷◌, List, length, Option};
ghost use Rattle.std.specs.Prelude.{IfSome};
ghost use Rattle.s4_types.specs.Pointer.{Place, IsPlace};
ghost use Rattle.std.specs.List.{flat_map, AllByRecursion};
ghost use Rattle.s4_types.specs.declared.limits.TheConstants.{POINTER_BYTES};
ghost use Rattle.codec.specs.Checkpoint.{IsSlot};
ghost use Rattle.codec.specs.Fields.{Reads, all_of, many_at, slot_at, slot, SpellsSlot};

use crate::fields::read_slot;
use crate::writing::{Writing, put};
use arrayvec::ArrayVec;
use s4_types::Ptr;
use s4_types::limits::POINTER_BYTES;

#[tactic(auto, unfolding(crate::specs::Fields::slot, crate::specs::Fields::number))]
fn place_bytes(ptr: Ptr) -> [u8; POINTER_BYTES]
    ensures { SpellsSlot result (Some ptr) }
{
    let [frame_high, frame_low] = ptr.frame().to_be_bytes();
    let [first, second, third, fourth] = ptr.generation().to_be_bytes();
    [
        frame_high,
        frame_low,
        ptr.block(),
        0,
        first,
        second,
        third,
        fourth,
    ]
}

/// The encoding of a pointer, or of a hole where there is none.
#[tactic(auto, unfolding(crate::specs::Fields::slot, crate::specs::Fields::zeros))]
pub fn encode_ptr(ptr: Option<Ptr>) -> [u8; POINTER_BYTES]
    ensures { SpellsSlot result ptr }
{
    match ptr {
        None => [0; POINTER_BYTES],
        Some(ptr) => place_bytes(ptr),
    }
}

fn slot_in(bytes: &[u8]) -> Option<Option<Ptr>>
    ensures { Reads (λ x. x) result (all_of slot_at bytes.now) }
{
    let Some((slot, rest)) = read_slot(bytes) else {
        return None;
    };
    match rest {
        [] => Some(slot),
        [_, ..] => None,
    }
}

/// The pointer, or the hole, whose encoding the bytes are. None where they are the encoding of
/// neither.
pub fn decode_ptr(bytes: &[u8; POINTER_BYTES]) -> Option<Option<Ptr>>
    ensures found { IfSome result (λ ptr. SpellsSlot bytes.now ptr) }
    ensures only { (ptr : Option Place) → SpellsSlot bytes.now ptr → result ≡ Some ptr }
{
    slot_in(bytes)
}

pub(crate) fn put_slot(out: &mut Writing, ptr: Option<Ptr>)
    requires { length out.old.items + POINTER_BYTES ≤ 512 }
    ensures items { out.new.items ≡ out.old.items ++ slot ptr }
    ensures len { length out.new.items ≡ length out.old.items + POINTER_BYTES }
    ensures range { IfSome ptr IsPlace }
{
    put(out, &encode_ptr(ptr));
}

/// Pointers that are read one after the other.
pub(crate) type Slots<const N: usize> = ArrayVec<Option<Ptr>, N>;

/// As many pointers as there is room for in the answer.
pub(crate) fn read_slots<const N: usize>(bytes: &[u8]) -> Option<(Slots<N>, &[u8])>
    ensures read { Reads (λ x. (x.0.items, x.1.now)) result (many_at slot_at N bytes.now) }
    ensures all { IfSome result (λ x. length x.0.items ≡ N) }
{
    let mut slots: Slots<N> = ArrayVec::new();
    let mut rest = bytes;
    for _ in 0..N {
        let Some((slot, after)) = read_slot(rest) else {
            return None;
        };
        slots.push(slot);
        rest = after;
    }
    Some((slots, rest))
}

/// The pointers, once there is room for no more.
pub(crate) fn all_slots<const N: usize>(slots: Slots<N>) -> [Option<Ptr>; N]
    requires { length slots.items ≡ N }
    ensures { result ≡ slots.entry.items }
{
    match slots.into_inner() {
        Ok(slots) => slots,
        Err(_) => unreachable!(),
    }
}

pub(crate) fn put_slots<const N: usize>(out: &mut Writing, slots: &[Option<Ptr>; N])
    requires { length out.old.items + N * POINTER_BYTES ≤ 512 }
    ensures items { out.new.items ≡ out.old.items ++ flat_map slot slots.now }
    ensures len { length out.new.items ≡ length out.old.items + N * POINTER_BYTES }
    ensures count { length slots.now ≡ N }
    ensures range { AllByRecursion IsSlot slots.now }
{
    for slot in slots {
        put_slot(out, *slot);
    }
}

ghost use Rattle.std.specs.Prelude.{◌≡◌, ◌⊎◌, ℕ, ◌+◌, ◌≤◌, ◌<◌, List, [], ◌∷◌, ◌++◌, length, take};
ghost use Rattle.std.specs.Prelude.{drop, Option, Some, None, IfOk, IfErr, OnErr, IfSome, IfNone};
ghost use Rattle.std.specs.Option.{option_map};
ghost use Rattle.s4_types.specs.declared.limits.TheConstants.{FRAME_BODY_BYTES};
ghost use Rattle.s4_types.specs.declared.refusals.Refusal.TheVariants.{NoMemory};
ghost use Rattle.rpc.specs.Stream.{length_told, IsPartial, IsOversized, BeginsWithFrame, IsItem};
ghost use Rattle.rpc.specs.Stream.{AddsOne, AddsItems};
ghost use Rattle.rpc.specs.declared.items.Item.TheVariants.{BadFrame};

use crate::items::{Item, Message};
use byteorder::{BigEndian, ByteOrder};
use s4_types::Refusal;
use s4_types::limits::FRAME_BODY_BYTES;
use std::alloc::Global;

/// A length that no body has.
#[derive(Drop)]
pub(crate) struct TooLong;

/// The length of the body that the first four bytes tell.
pub(crate) fn told_length(bytes: &[u8]) -> u32
    requires { 4 ≤ length bytes.now }
    ensures { result ≡ length_told bytes.now }
{
    BigEndian::read_u32(bytes)
}

/// The body of the frame that is at the front and the bytes after it, or None where it isn't whole
/// yet.
pub(crate) fn front_of(bytes: &[u8]) -> Result<Option<(&[u8], &[u8])>, TooLong>
    ensures whole { IfOk result
        (λ front. IfSome front (λ x. BeginsWithFrame bytes.now x.0.now x.1.now)) }
    ensures partial { IfOk result (λ front. IfNone front (IsPartial bytes.now)) }
    ensures oversized { OnErr result (IsOversized bytes.now) }
{
    if bytes.len() < 4 {
        return Ok(None);
    }
    let told = told_length(bytes) as usize;
    if told > FRAME_BODY_BYTES {
        return Err(TooLong);
    }
    let (_, behind) = bytes.split_at(4);
    if behind.len() < told {
        return Ok(None);
    }
    Ok(Some(behind.split_at(told)))
}

/// What a body says. The only error is NoMemory.
pub(crate) fn item_of<T: Message>(alloc: Global, body: &[u8]) -> Result<Item<T>, Refusal>
    ensures item { IfOk result (λ item. IsItem T.spells body.now item) }
    ensures memory { IfErr result (λ refusal. refusal ≡ NoMemory) }
{
    match T::decode(alloc, body) {
        Ok(value) => Ok(Item::Whole(value)),
        Err(Refusal::BadFrame) => Ok(Item::BadFrame),
        Err(_) => Err(Refusal::NoMemory),
    }
}

/// Adds the item of the frame that stands whole at the front of the bytes, and gives the bytes
/// after it, or None where no frame is whole yet. An oversized length is added as a bad frame. The
/// only error is NoMemory.
pub(crate) fn read_first<'a, T: Message>(
    alloc: Global,
    items: &mut Vec<Item<T>>,
    bytes: &'a [u8],
) -> Result<Result<Option<&'a [u8]>, TooLong>, Refusal>
    ensures whole { IfOk result
        (λ front. IfOk front
        (λ behind. IfSome behind
        (λ rest. AddsOne T.spells bytes.now items.old.items items.new.items rest.now))) }
    ensures partial { IfOk result
        (λ front. IfOk front
        (λ behind. IfNone behind (IsPartial bytes.now × (items.new.items ≡ items.old.items)))) }
    ensures oversized { IfOk result
        (λ front. OnErr front
        (IsOversized bytes.now × (items.new.items ≡ items.old.items ++ BadFrame ∷ []))) }
    ensures memory { IfErr result (λ refusal. refusal ≡ NoMemory) }
{
    match front_of(bytes) {
        Err(TooLong) => {
            items.push(Item::BadFrame)?;
            Ok(Err(TooLong))
        }
        Ok(None) => Ok(Ok(None)),
        Ok(Some((body, rest))) => {
            items.push(item_of(alloc, body)?)?;
            Ok(Ok(Some(rest)))
        }
    }
}

/// Adds the items of the frames that stand whole in the bytes, and gives the bytes after them, or
/// None where an oversized length came. The only error is NoMemory.
pub(crate) fn read_frames<'a, T: Message>(
    alloc: Global,
    items: &mut Vec<Item<T>>,
    bytes: &'a [u8],
) -> Result<Option<&'a [u8]>, Refusal>
    ensures read { IfOk result
        (λ behind. AddsItems T.spells bytes.now items.old.items items.new.items
        (option_map (λ rest. rest.now) behind)) }
    ensures partial { IfOk result (λ behind. IfSome behind (λ rest. IsPartial rest.now)) }
    ensures memory { IfErr result (λ refusal. refusal ≡ NoMemory) }
{
    let mut left = bytes;
    loop {
        match read_first(alloc, items, left)? {
            Err(TooLong) => return Ok(None),
            Ok(None) => return Ok(Some(left)),
            Ok(Some(rest)) => left = rest,
        }
    }
}

ghost use Rattle.std.specs.Prelude.{◌≡◌, ◌⊎◌, ◌↔◌, ℕ, ◌+◌, ◌≤◌, ◌<◌, List, [], ◌∷◌, ◌++◌, length};
ghost use Rattle.std.specs.Prelude.{Option, Some, None, IfOk, IfErr, OnOk, OnErr, IfSome, IsTrue};
ghost use Rattle.std.specs.Prelude.{if◌then◌else◌};
ghost use Rattle.std.specs.List.{flat_map};
ghost use Rattle.std.specs.Result.{IsErrOf};
ghost use Rattle.s4_types.specs.declared.limits.TheConstants.{FRAME_BODY_BYTES};
ghost use Rattle.s4_types.specs.declared.refusals.Refusal.TheVariants.{NoMemory, BadFrame};
ghost use Rattle.rpc.specs.Stream.{IsPartial, ReadsItems, AddsItems};
ghost use Rattle.rpc.specs.private.Filling.{HasFrameRoom, IsGrown};

use crate::filling::top_up;
use crate::frames::{TooLong, read_first, read_frames};
use crate::items::{Item, Message};
use crate::room::put;
use s4_types::Refusal;
use s4_types::limits::FRAME_BODY_BYTES;
use std::alloc::Global;
use std::marker::Model;

/// Adds the items of a piece, before which nothing is held, and holds what comes after them. False
/// where an oversized length came. An error leaves what is held as it was.
fn read_rest<T: Message>(
    alloc: Global,
    held: &mut Vec<u8>,
    items: &mut Vec<Item<T>>,
    piece: &[u8],
) -> Result<bool, Refusal>
    requires { HasFrameRoom held.old }
    ensures read { IfOk result
        (λ goes_on. AddsItems T.spells piece.now items.old.items items.new.items
        (if goes_on then Some held.new.items else None)) }
    ensures partial { IfOk result (λ goes_on. IsTrue goes_on → IsPartial held.new.items) }
    ensures kept { OnErr result (held.new.items ≡ held.old.items) }
    ensures memory { IfErr result (λ refusal. refusal ≡ NoMemory) }
    ensures room { HasFrameRoom held.new }
{
    match read_frames(alloc, items, piece)? {
        None => Ok(false),
        Some(rest) => {
            held.clear();
            put(held, rest);
            Ok(true)
        }
    }
}

/// Adds the items that the held bytes and the piece after them make, and holds what comes after
/// those. False where an oversized length came. After an error bytes of the piece may come after
/// those that were held.
fn read_piece<T: Message>(
    alloc: Global,
    held: &mut Vec<u8>,
    items: &mut Vec<Item<T>>,
    piece: &[u8],
) -> Result<bool, Refusal>
    requires room { HasFrameRoom held.old }
    requires partial { IsPartial held.old.items }
    ensures read { IfOk result
        (λ goes_on. AddsItems T.spells (held.old.items ++ piece.now) items.old.items items.new.items
        (if goes_on then Some held.new.items else None)) }
    ensures partial { IfOk result (λ goes_on. IsTrue goes_on → IsPartial held.new.items) }
    ensures grown { OnErr result (IsGrown held.old.items held.new.items) }
    ensures memory { IfErr result (λ refusal. refusal ≡ NoMemory) }
    ensures room { HasFrameRoom held.new }
{
    if held.is_empty() {
        return read_rest(alloc, held, items, piece);
    }
    let left = top_up(held, piece);
    match read_first(alloc, items, held.as_slice())? {
        Err(TooLong) => Ok(false),
        Ok(None) => Ok(true),
        Ok(Some(_)) => read_rest(alloc, held, items, left),
    }
}

/// Takes a stream apart, however it comes in pieces. Contracts see the bytes of the frame that
/// isn't whole yet, or None where an oversized length came. It holds at most one frame, in memory
/// that is taken once.
#[derive(Drop)]
pub struct FrameReader {
    alloc: Global,
    held: Vec<u8>,
    reads_on: bool,
}

impl Model for FrameReader {
    ghost Value = { Option (List ℕ) };

    ghost view = { λ r. if r.reads_on then Some r.held.items else None };

    ghost invariant = { λ r. IsPartial r.held.items × HasFrameRoom r.held };
}

impl FrameReader {
    /// At the beginning of a stream. Takes the memory of the longest frame; the only error is
    /// NoMemory.
    pub fn new(alloc: Global) -> Result<Self, Refusal>
        ensures start { IfOk result (λ reader. reader ≡ Some []) }
        ensures memory { IfErr result (λ refusal. refusal ≡ NoMemory) }
    {
        let held = Vec::with_capacity(alloc, 4 + FRAME_BODY_BYTES)?;
        Ok(FrameReader {
            alloc,
            held,
            reads_on: true,
        })
    }

    /// Takes the next piece of the stream, and gives the items that are whole now, in order. A
    /// length of 0 is a bad frame, and the stream goes on; so is one above `FRAME_BODY_BYTES`,
    /// after which nothing is read any more: from then on the answer is BadFrame, whatever comes.
    /// NoMemory takes nothing: the same piece may be fed again.
    pub fn feed<T: Message>(&mut self, piece: &[u8]) -> Result<Vec<Item<T>>, Refusal>
        // The held bytes and the piece are these items and what is held now.
        ensures items { IfOk result
            (λ items. IfSome self.old
            (λ held. ReadsItems T.spells (held ++ piece.now) items.items self.new)) }
        // It fails where it had failed.
        ensures failed { self.old ≡ None → IsErrOf result BadFrame }
        ensures refused { IfErr result
            (λ refusal. (refusal ≡ NoMemory) ⊎ ((refusal ≡ BadFrame) × (self.old ≡ None))) }
        ensures kept { OnErr result (self.new ≡ self.old) }
        // It holds less than one frame.
        ensures partial { IfSome self.new IsPartial }
        ensures bound { IfSome self.new (λ held. length held < 4 + FRAME_BODY_BYTES) }
    {
        if self.has_failed() {
            return Err(Refusal::BadFrame);
        }
        let before = self.held.len();
        let mut items = Vec::new(self.alloc);
        match read_piece(self.alloc, &mut self.held, &mut items, piece) {
            Ok(goes_on) => {
                if !goes_on {
                    self.reads_on = false;
                    self.held.clear();
                }
                Ok(items)
            }
            Err(refusal) => {
                self.held.truncate(before);
                Err(refusal)
            }
        }
    }

    /// Whether the stream so far ended with a whole frame, or hasn't begun.
    pub fn is_between_frames(&self) -> bool
        ensures { IsTrue result ↔ (self.now ≡ Some []) }
    {
        self.reads_on && self.held.is_empty()
    }

    /// Whether an oversized length came.
    pub fn has_failed(&self) -> bool
        ensures { IsTrue result ↔ (self.now ≡ None) }
    {
        !self.reads_on
    }
}

/// Adds the items of the next piece; after an oversized length there are none.
fn read_on<T: Message>(
    reader: &mut FrameReader,
    items: &mut Vec<Item<T>>,
    piece: &[u8],
) -> Result<(), Refusal>
    ensures read { OnOk result
        ((stream : List ℕ)
        → ReadsItems T.spells stream items.old.items reader.old
        → ReadsItems T.spells (stream ++ piece.now) items.new.items reader.new) }
    ensures memory { IfErr result (λ refusal. refusal ≡ NoMemory) }
{
    if reader.has_failed() {
        return Ok(());
    }
    let mut more = reader.feed(piece)?;
    items.append(&mut more)?;
    Ok(())
}

/// The items of a stream that comes in these pieces, and the reader after the last of them. The
/// only error is NoMemory.
pub fn read_all<T: Message>(
    alloc: Global,
    pieces: &[Vec<u8>],
) -> Result<(Vec<Item<T>>, FrameReader), Refusal>
    // They are the items of the pieces joined, however these were cut.
    ensures items { IfOk result
        (λ x. ReadsItems T.spells (flat_map (λ piece. piece.items) pieces.now) x.0.items x.1) }
    ensures memory { IfErr result (λ refusal. refusal ≡ NoMemory) }
{
    let mut reader = FrameReader::new(alloc)?;
    let mut items = Vec::new(alloc);
    for piece in pieces {
        read_on(&mut reader, &mut items, piece)?;
    }
    Ok((items, reader))
}

//! Plans of reads: where the bytes come from, and their fetching without the drive.
ghost use Rattle.std.specs.Prelude.{◌≡◌, ℕ, ◌+◌, ◌-◌, ◌/◌, ◌<◌, ◌≤◌, ◌⊎◌, ◌↔◌, ◌++◌, [], ◌∷◌};
ghost use Rattle.std.specs.Prelude.{length, take, drop, min, true, false, Option, Some, None};
ghost use Rattle.std.specs.Prelude.{IsSome, IfOk, IfErr, OnOk, OnErr, slice_index_or};
ghost use Rattle.std.specs.List.{list_any};
ghost use Rattle.s4_types.specs.declared.limits.TheConstants.{BLOCK_BYTES, OBJECT_BLOCKS};
ghost use Rattle.s4_types.specs.declared.limits.TheConstants.{OBJECT_BYTES};
ghost use Rattle.s4_types.specs.Pointer.{Place};
ghost use Rattle.s4_types.specs.declared.refusals.Refusal.TheVariants.{NoMemory, Busy};
ghost use Rattle.inode.specs.Contents.{contents_of, bytes_of, listed};
ghost use Rattle.inode.specs.Tidiness.{PointersLead};
ghost use Rattle.inode.specs.Touched.{touched_count};
ghost use Rattle.segment_word.specs.Frames.Phase.{Open, Sealed};
ghost use Rattle.segment_word.specs.Layout.{frame_at, block_bytes};
ghost use Rattle.segment_word.specs.Counting.{pins_in};
ghost use Rattle.segment_table.specs.Table.{held_at};
ghost use Rattle.time_read.specs.Plans.{piece_bytes, pins_held, bytes_planned, byte_planned};
ghost use Rattle.time_read.specs.Plans.{piece_of, pieces_of, contents_pinned, is_pinned_in};
ghost use Rattle.time_read.specs.Plans.{is_pinned, IsAt, Hole, Copied, Pinned};
ghost use Rattle.time_read.specs.private.Planning.{CountsOn, Locates, AddsPiece};

use block_log::{Block, Blocks};
use codec::Inode;
use inode::laws::ranges_join_and_part;
use inode::zero_block;
use s4_types::limits::BLOCK_BYTES;
use s4_types::{Ptr, Refusal};
use segment_table::SegmentTable;
use segment_word::Pin;
use std::alloc::Global;
use std::marker::Model;

// Where a plan has a piece's bytes from. It's moved while the drive is held, so it stays small.
#[derive(Drop)]
enum Source {
    Nowhere,
    Copy(Box<Block>),
    Frame { frame: u16, block: u8 },
}

// Adds bytes after others.
fn append_slice(bytes: &[u8], into: &mut Vec<u8>) -> Result<(), Refusal>
    ensures bytes { OnOk result (into.new.items ≡ into.old.items ++ bytes.now) }
    ensures added { OnOk result (length into.new.items ≡ length into.old.items + length bytes.now) }
    ensures refusal { IfErr result (λ e. e ≡ NoMemory) }
{
    into.extend_from_slice(bytes)?;
    Ok(())
}

// Adds bytes of a block of a frame that the pin counts on, from one place of it on and up to
// another.
fn append_pinned(
    pin: &mut Option<Pin>,
    frame: u16,
    block: u8,
    from: usize,
    to: usize,
    into: &mut Vec<u8>,
) -> Result<(), Refusal>
    requires counted { (0 < pins_in frame (pins_held pin.old)) × (block < 16) }
    requires range { (from ≤ to) × (to ≤ 512) }
    ensures bytes { OnOk result
        (into.new.items
        ≡ into.old.items
        ++ take (to - from)
        (drop from (block_bytes (contents_pinned frame (pins_held pin.old)) block))) }
    ensures added { OnOk result (length into.new.items ≡ length into.old.items + (to - from)) }
    ensures refusal { IfErr result (λ e. e ≡ NoMemory) }
    ensures same { pin.new ≡ pin.old }
{
    match pin {
        Some(pin) => pin.append_bytes(frame as usize, block as usize, from, to, into),
        None => Ok(()),
    }
}

// A piece as a plan keeps it, in a few bytes: a copied block has memory of its own.
#[derive(Drop)]
struct PlanPiece {
    source: Source,
}

impl Model for PlanPiece {
    ghost use Rattle.time_read.specs.Plans.{Piece};
    ghost use Rattle.time_read.specs.private.Sources.{piece_from};

    ghost Value = { Piece };

    ghost view = { λ p. piece_from p.source };
}

impl PlanPiece {
    fn hole() -> Self
        ensures { result ≡ Hole }
    {
        PlanPiece {
            source: Source::Nowhere,
        }
    }

    fn pinned(place: Ptr) -> Self
        ensures { result ≡ Pinned place.frame place.block }
    {
        PlanPiece {
            source: Source::Frame {
                frame: place.frame(),
                block: place.block(),
            },
        }
    }

    fn copied(alloc: Global, block: Block) -> Result<Self, Refusal>
        ensures piece { IfOk result (λ p. p ≡ Copied block) }
        ensures refusal { IfErr result (λ e. e ≡ NoMemory) }
    {
        let block = Box::new(alloc, block)?;
        Ok(PlanPiece {
            source: Source::Copy(block),
        })
    }

    // Adds its bytes from one place on and up to another.
    fn append(
        &self,
        pin: &mut Option<Pin>,
        from: usize,
        to: usize,
        into: &mut Vec<u8>,
    ) -> Result<(), Refusal>
        requires counted { (frame block : ℕ)
            → self.now ≡ Pinned frame block
            → (0 < pins_in frame (pins_held pin.old)) × (block < 16) }
        requires range { (from ≤ to) × (to ≤ 512) }
        ensures bytes { OnOk result
            (into.new.items
            ≡ into.old.items
            ++ take (to - from) (drop from (piece_bytes (pins_held pin.old) self.now))) }
        ensures added { OnOk result (length into.new.items ≡ length into.old.items + (to - from)) }
        ensures refusal { IfErr result (λ e. e ≡ NoMemory) }
        ensures same { pin.new ≡ pin.old }
    {
        match &self.source {
            Source::Nowhere => append_slice(&zero_block()[from..to], into),
            Source::Copy(block) => append_slice(&block[from..to], into),
            Source::Frame { frame, block } => append_pinned(pin, *frame, *block, from, to, into),
        }
    }
}

/// What a read is to give: pieces of whole blocks, and which of their bytes it asks for. While it
/// lives, each frame of a pinned piece keeps its contents, whatever other threads do.
pub struct ReadPlan {
    pieces: Vec<PlanPiece>,
    // where the bytes begin in the first piece
    skip: usize,
    length: usize,
    // none where no piece is pinned
    pin: Option<Pin>,
}

// Written by hand, so that an owner lets it go by one call.
impl Drop for ReadPlan {
    fn drop(self) {
        let ReadPlan {
            pieces: _,
            skip: _,
            length: _,
            pin: _,
        } = self;
    }
}

impl Model for ReadPlan {
    ghost use Rattle.std.specs.Prelude.{◌<◌, ◌≤◌};
    ghost use Rattle.s4_types.specs.declared.limits.TheConstants.{OBJECT_BYTES};
    ghost use Rattle.time_read.specs.Plans.{PlanFields, AllCounted, pins_held};

    ghost Value = { PlanFields };

    ghost view = { λ p. record { pieces = p.pieces.items; skip = p.skip; length = p.length; pin = p.pin } };

    ghost invariant = { λ p. AllCounted (pins_held p.pin) p.pieces.items × (p.skip < 512) × (p.length ≤ OBJECT_BYTES) };
}

// The pin that a plan has, or a new one without frames.
fn pin_at(table: &SegmentTable, pin: Option<Pin>) -> Result<Pin, Refusal>
    requires { IsAt table.now pin }
    ensures pin { IfOk result (λ p. (p.table ≡ table.now.seat.table) × (p.pins ≡ pins_held pin)) }
    ensures none { IfErr result (λ e. (e ≡ Busy) × (pin ≡ None)) }
{
    match pin {
        Some(pin) => Ok(pin),
        None => table.new_pin(),
    }
}

impl ReadPlan {
    // Adds bytes of the piece of an index, from one place of it on and up to another; after the
    // last one they are zeros.
    fn append(
        &mut self,
        index: usize,
        from: usize,
        to: usize,
        bytes: &mut Vec<u8>,
    ) -> Result<(), Refusal>
        requires range { (from ≤ to) × (to ≤ 512) }
        ensures bytes { OnOk result
            (bytes.new.items
            ≡ bytes.old.items
            ++ take (to - from)
            (drop from
            (piece_bytes (pins_held self.old.pin)
            (slice_index_or self.old.pieces index Hole)))) }
        ensures added { OnOk result
            (length bytes.new.items ≡ length bytes.old.items + (to - from)) }
        ensures refusal { IfErr result (λ e. e ≡ NoMemory) }
        ensures same { self.new ≡ self.old }
    {
        if index >= self.pieces.len() {
            return PlanPiece::hole().append(&mut None, from, to, bytes);
        }
        self.pieces[index].append(&mut self.pin, from, to, bytes)
    }

    // Adds the bytes of one piece, from a place on and up to an end or to that of the piece, and
    // answers where they end.
    fn fetch_piece(&mut self, at: usize, end: usize, bytes: &mut Vec<u8>) -> Result<usize, Refusal>
        requires start { at < end }
        requires end { end ≤ OBJECT_BYTES + BLOCK_BYTES }
        ensures later { IfOk result (λ next. at < next) }
        ensures within { IfOk result (λ next. next ≤ end) }
        ensures bytes { IfOk result
            (λ next. bytes.new.items
            ≡ bytes.old.items ++ listed (byte_planned self.old) at (next - at)) }
        ensures refusal { IfErr result (λ e. e ≡ NoMemory) }
        ensures same { self.new ≡ self.old }
    {
        ranges_join_and_part();
        let index = at / BLOCK_BYTES;
        let start = index * BLOCK_BYTES;
        let next = end.min(start + BLOCK_BYTES);
        self.append(index, at - start, next - start, bytes)?;
        Ok(next)
    }

    /// The bytes that the plan names. Its pin ends with this call, which needs neither the drive
    /// nor a lock.
    ///
    /// NoMemory alone, where the memory for the bytes is refused; it is asked for once.
    pub fn fetch(mut self, alloc: Global) -> Result<Vec<u8>, Refusal>
        ensures bytes { IfOk result (λ bytes. bytes.items ≡ bytes_planned self) }
        ensures refusal { IfErr result (λ e. e ≡ NoMemory) }
    {
        ranges_join_and_part();
        let end = self.skip + self.length;
        let mut bytes = Vec::with_capacity(alloc, self.length)?;
        let mut at = self.skip;
        while at < end {
            at = self.fetch_piece(at, end, &mut bytes)?;
        }
        Ok(bytes)
    }

    // Counts on the sealed frame of a held block.
    fn count_on(&mut self, table: &mut SegmentTable, place: Ptr) -> Result<(), Refusal>
        requires at { IsAt table.old self.old.pin }
        requires held { IsSome (held_at table.old place) }
        requires sealed { (frame_at table.old.seat.frames place.frame).phase ≡ Sealed }
        ensures counts { OnOk result (CountsOn table.old place self.old self.new) }
        ensures refusal { IfErr result (λ e. (e ≡ NoMemory) ⊎ (e ≡ Busy)) }
        ensures same { table.new ≡ table.old }
    {
        let mut pin = pin_at(table, self.pin.take())?;
        let counted = table.count_on(&mut pin, place);
        self.pin = Some(pin);
        counted
    }

    // Where the bytes that a slot refers to come from. The frame of a sealed block is counted on
    // from now on.
    fn locate(
        &mut self,
        alloc: Global,
        table: &mut SegmentTable,
        slot: Option<Ptr>,
    ) -> Result<PlanPiece, Refusal>
        requires at { IsAt table.old self.old.pin }
        requires held { (p : Place) → slot ≡ Some p → IsSome (held_at table.old p) }
        ensures piece { IfOk result (λ piece. piece ≡ piece_of table.old slot) }
        ensures located { OnOk result (Locates table.old slot self.old self.new) }
        ensures within { IfOk result
            (λ piece. (frame block : ℕ) → piece ≡ Pinned frame block → block < 16) }
        ensures refusal { IfErr result (λ e. (e ≡ NoMemory) ⊎ (e ≡ Busy)) }
        ensures pinned { IfErr result
            (λ e. (e ≡ NoMemory) ⊎ (is_pinned (piece_of table.old slot) ≡ true)) }
        ensures same { table.new ≡ table.old }
    {
        let Some(place) = slot else {
            return Ok(PlanPiece::hole());
        };
        if table.is_open(place) {
            let piece = PlanPiece::copied(alloc, table.get(place))?;
            return Ok(piece);
        }
        self.count_on(table, place)?;
        Ok(PlanPiece::pinned(place))
    }

    // Adds the piece of a slot.
    fn add(
        &mut self,
        alloc: Global,
        table: &mut SegmentTable,
        slot: Option<Ptr>,
    ) -> Result<(), Refusal>
        requires at { IsAt table.old self.old.pin }
        requires held { (p : Place) → slot ≡ Some p → IsSome (held_at table.old p) }
        ensures adds { OnOk result (AddsPiece table.old slot self.old self.new) }
        ensures refusal { IfErr result
            (λ e. (e ≡ NoMemory) ⊎ ((e ≡ Busy) × (is_pinned (piece_of table.old slot) ≡ true))) }
        ensures same { table.new ≡ table.old }
    {
        let piece = self.locate(alloc, table, slot)?;
        self.pieces.push(piece)?;
        Ok(())
    }
}

// The index after the last block that has one of this many bytes from a place on; the place's own
// index where there are none.
fn block_behind(start: usize, count: usize) -> usize
    requires { 0 < count → start + count ≤ OBJECT_BYTES }
    ensures { result ≡ start / 512 + touched_count start count }
{
    if count == 0 {
        return start / BLOCK_BYTES;
    }
    (start + count - 1) / BLOCK_BYTES + 1
}

/// A plan of reading the bytes of an object from an offset on, `wanted` of them or as many as there
/// are: none where the offset is at or past the size. Blocks of the open frame are copied. The
/// frames of all others that are needed are pinned, and none of their bytes is read yet.
///
/// NoMemory where memory is refused: it is asked for once, and once for each block that is copied
/// and each frame that is pinned. Busy only where a block of a sealed frame is needed, and all
/// seats of pins are in use, the count of those that share the frames is full, its frame has
/// `MOST_READERS`, or other threads changed the frame's word between load and exchange `PIN_TRIES`
/// times. Then nothing stays pinned.
pub fn plan(
    alloc: Global,
    table: &mut SegmentTable,
    inode: &Inode,
    offset: u64,
    wanted: u64,
) -> Result<ReadPlan, Refusal>
    requires size { inode.now.size ≤ OBJECT_BYTES }
    requires count { length inode.now.pointers ≡ OBJECT_BLOCKS }
    requires lead { PointersLead (held_at table.old) inode.now }
    ensures pieces { IfOk result
        (λ plan. plan.pieces
        ≡ pieces_of table.old inode.now offset (min wanted (inode.now.size - offset))) }
    ensures length { IfOk result (λ plan. plan.length ≡ min wanted (inode.now.size - offset)) }
    ensures bytes { IfOk result
        (λ plan. bytes_planned plan
        ≡ take wanted (drop offset (bytes_of (contents_of (held_at table.old)) inode.now))) }
    ensures pins { IfOk result
        (λ plan. (f : ℕ)
        → (0 < pins_in f (pins_held plan.pin))
        ↔ (list_any (is_pinned_in f) plan.pieces ≡ true)) }
    ensures seat { IfOk result (λ plan. list_any is_pinned plan.pieces ≡ false → plan.pin ≡ None) }
    ensures at { IfOk result (λ plan. IsAt table.old plan.pin) }
    ensures refusal { IfErr result
        (λ e. (e ≡ NoMemory)
        ⊎ ((e ≡ Busy)
        × (list_any is_pinned
        (pieces_of table.old inode.now offset
        (min wanted (inode.now.size - offset))) ≡ true))) }
    ensures same { table.new ≡ table.old }
{
    ranges_join_and_part();
    let left = (inode.size as u64).saturating_sub(offset);
    let count = wanted.min(left) as usize;
    let start = offset as usize;
    let first = start / BLOCK_BYTES;
    let end = block_behind(start, count);
    let mut plan = ReadPlan {
        pieces: Vec::with_capacity(alloc, end - first)?,
        skip: start % BLOCK_BYTES,
        length: count,
        pin: None,
    };
    for index in first..end {
        plan.add(alloc, table, inode.pointers[index])?;
    }
    Ok(plan)
}

//! Frames that are found in bytes by themselves.
ghost use Rattle.std.specs.Prelude.{◌≡◌, ℕ, ◌+◌, ◌<◌, ◌≤◌, List, [], false, length, replicate};
ghost use Rattle.std.specs.Prelude.{take, drop, slice_index_or, slice_set, IfOk, IfErr};
ghost use Rattle.std.specs.Prelude.{MatchOption};
ghost use Rattle.s4_types.specs.declared.limits.TheConstants.{MOST_FRAMES};
ghost use Rattle.s4_types.specs.declared.refusals.Refusal.TheVariants.{NoMemory};
ghost use Rattle.codec.specs.Summary.{SummaryFields as Summed, SpellsSummary};
ghost use Rattle.image_parts.specs.Frames.{blocks_of};
ghost use Rattle.segment_word.specs.Frames.Phase.{Free};
ghost use Rattle.segment_word.specs.Layout.{frame_at};
ghost use Rattle.segment_table.specs.Table.{slots_at};
ghost use Rattle.segment_table.specs.Used.{used_at};
ghost use Rattle.image_salvage.specs.Newest.{AreGenerations};
ghost use Rattle.image_salvage.specs.Searching.{Finds, FindsTo, HasBlocksAt, HasGenerations};
ghost use Rattle.image_salvage.specs.Searching.{IsFrameAt, blocks_from};

use block_log::Block;
use codec::{Summary, decode_summary};
use s4_types::Refusal;
use s4_types::limits::{BLOCK_BYTES, FRAME_BLOCKS, MOST_FRAMES, PAYLOAD_BLOCKS};
use segment_table::TableBuilder;
use segment_word::FrameState;
use std::alloc::Global;

/// Bytes of a frame's blocks.
pub(crate) const FRAME_BYTES: usize = 8192;

/// The bytes of the 16 blocks that begin at a place. None where the bytes end before.
fn contents_at(bytes: &[u8], place: usize) -> Option<&[u8]>
    ensures { MatchOption result (length bytes.now < place + 8192)
        (λ contents. (contents.now ≡ take 8192 (drop place bytes.now))
        × (length contents.now ≡ 8192) × (place + 8192 ≤ length bytes.now)) }
{
    if bytes.len() < FRAME_BYTES || bytes.len() - FRAME_BYTES < place {
        return None;
    }
    let (_, rest) = bytes.split_at(place);
    let (contents, _) = rest.split_at(FRAME_BYTES);
    Some(contents)
}

/// The blocks of a frame.
#[tactic(auto, unfolding(image_parts::specs::Frames::blocks_of))]
fn blocks_in(contents: &[u8]) -> &[Block; FRAME_BLOCKS]
    requires { length contents.now ≡ 8192 }
    ensures { result.now ≡ blocks_of contents.now }
{
    let (blocks, _) = contents.as_chunks::<BLOCK_BYTES>();
    let Ok(blocks) = <&[Block; FRAME_BLOCKS]>::try_from(blocks) else {
        unreachable!()
    };
    blocks
}

/// A frame that begins at a place of bytes.
#[derive(Drop)]
pub(crate) struct FoundFrame<'a> {
    pub(crate) summary: Summary,
    pub(crate) blocks: &'a [Block; FRAME_BLOCKS],
}

/// The frame that begins at a place. None exactly where none does. Its bytes are hashed where they
/// begin as a summary does.
pub(crate) fn frame_from(bytes: &[u8], place: usize) -> Option<FoundFrame<'_>>
    ensures { MatchOption result ((summary : Summed) → IsFrameAt bytes.now place summary → ⊥)
        (λ found. IsFrameAt bytes.now place found.summary
        × (found.blocks.now ≡ blocks_from bytes.now place)) }
{
    let blocks = blocks_in(contents_at(bytes, place)?);
    let (_, payload) = blocks.split_at(1);
    let Ok(payload) = <&[Block; PAYLOAD_BLOCKS]>::try_from(payload) else {
        unreachable!()
    };
    let summary = decode_summary(&blocks[0], payload)?;
    if summary.frame() as usize >= MOST_FRAMES {
        return None;
    }
    Some(FoundFrame { summary, blocks })
}

/// Sets a frame that is free in a table to the blocks of one that begins at a place.
fn set_found(table: &mut TableBuilder, number: u16, found: &FoundFrame<'_>)
    requires numbered { found.now.summary.frame ≡ number }
    requires spelled { SpellsSummary (drop 1 found.now.blocks.now)
        (slice_index_or found.now.blocks.now 0 []) found.now.summary }
    requires inside { number < length table.old.seat.frames }
    requires counted { length table.old.slots ≡ length table.old.seat.frames }
    requires free { (frame_at table.old.seat.frames number).phase ≡ Free }
    ensures frame { (bytes : List ℕ) (place : ℕ)
        → found.now.blocks.now ≡ blocks_from bytes place
        → IsFrameAt bytes place found.now.summary
        → HasBlocksAt bytes place number (frame_at table.new.seat.frames number)
        (slots_at table.new.slots number) }
    ensures frames { table.new.seat.frames
        ≡ slice_set table.old.seat.frames number (frame_at table.new.seat.frames number) }
    ensures slots { table.new.slots
        ≡ slice_set table.old.slots number (slots_at table.new.slots number) }
    ensures generation { (frame_at table.new.seat.frames number).generation
        ≡ found.now.summary.generation }
{
    table.set_used(number, FrameState::Sealed, &found.summary, found.blocks);
}

/// Looks at a place: at a frame that begins there, after those that were found, and takes its
/// blocks where it is the first of its number. The place up to which the bytes are those of frames
/// that were found.
#[tactic(auto, using(crate::proofs::Finding::goes_on_skipped, crate::proofs::Finding::goes_on_without, crate::proofs::Finding::free_yet))]
fn look_at(
    table: &mut TableBuilder,
    seen: &mut Vec<bool>,
    generations: &mut Vec<u32>,
    bytes: &[u8],
    place: usize,
    next: usize,
) -> usize
    requires finds { FindsTo bytes.now place next table.old seen.old.items }
    requires generations { HasGenerations table.old generations.old.items }
    ensures finds { FindsTo bytes.now (place + 1) result table.new seen.new.items }
    ensures generations { HasGenerations table.new generations.new.items }
{
    if place < next {
        return next;
    }
    let Some(found) = frame_from(bytes, place) else {
        return next;
    };
    let number = found.summary.frame();
    if seen[number as usize] {
        return place + FRAME_BYTES;
    }
    set_found(table, number, &found);
    seen[number as usize] = true;
    generations[number as usize] = found.summary.generation();
    place + FRAME_BYTES
}

/// The frames that are found in bytes.
#[derive(Drop)]
pub(crate) struct FoundFrames {
    /// All others are free in it.
    pub(crate) table: TableBuilder,
    /// Of each frame that is found that at which it has used blocks, 0 of the others.
    pub(crate) generations: Vec<u32>,
}

/// No frame was seen yet. NoMemory alone.
fn none_seen(alloc: Global) -> Result<Vec<bool>, Refusal>
    ensures items { IfOk result (λ seen. seen.items ≡ replicate MOST_FRAMES false) }
    ensures refusal { IfErr result (λ e. e ≡ NoMemory) }
{
    Ok(vec![in alloc; false; MOST_FRAMES]?)
}

/// The generations of frames of which none was found yet. NoMemory alone.
fn none_at_first(alloc: Global) -> Result<Vec<u32>, Refusal>
    ensures items { IfOk result (λ generations. generations.items ≡ replicate MOST_FRAMES 0) }
    ensures refusal { IfErr result (λ e. e ≡ NoMemory) }
{
    Ok(vec![in alloc; 0; MOST_FRAMES]?)
}

/// The table of all frames that are found in bytes: at whatever place one begins, whose first block
/// is the summary, with the right digest, of the others. Of several of one number it has the first.
/// All others are free.
///
/// NoMemory alone, where memory for the table is refused. Linear in the bytes: the bytes of a frame
/// aren't searched again.
pub(crate) fn find_frames(alloc: Global, bytes: &[u8]) -> Result<FoundFrames, Refusal>
    ensures finds { IfOk result (λ found. Finds bytes.now found.table) }
    ensures generations { IfOk result
        (λ found. AreGenerations (used_at found.table) found.generations.items) }
    ensures refusal { IfErr result (λ e. e ≡ NoMemory) }
{
    let mut table = TableBuilder::new(alloc, MOST_FRAMES)?;
    let mut seen = none_seen(alloc)?;
    let mut generations = none_at_first(alloc)?;
    let mut next = 0;
    for place in 0..bytes.len() {
        next = look_at(&mut table, &mut seen, &mut generations, bytes, place, next);
    }
    Ok(FoundFrames { table, generations })
}

//! The table of the frames that are whole.
ghost use Rattle.std.specs.Prelude.{◌≡◌, ◌≢◌, ◌<◌, [], length, drop, slice_index_or, slice_set};
ghost use Rattle.std.specs.Prelude.{◌⊎◌, IfOk, IfErr, OnOk, MatchBool, MatchOption};
ghost use Rattle.s4_types.specs.Sizes.{IsFrameCount};
ghost use Rattle.s4_types.specs.declared.refusals.Refusal.TheVariants.{NoMemory};
ghost use Rattle.codec.specs.Summary.{SpellsSummary};
ghost use Rattle.image_parts.specs.Frames.{state_of, blocks_of};
ghost use Rattle.segment_word.specs.Frames.Phase.{Free};
ghost use Rattle.segment_word.specs.Layout.{frame_at};
ghost use Rattle.segment_table.specs.Table.{slots_at};
ghost use Rattle.image_salvage.specs.Frames.{IsWhole, HasBlocksOf, IsSeen, Sees, AreLostOf};
ghost use Rattle.image_salvage.specs.Frames.{ChangesAlone, NotesLost};

use block_log::Block;
use codec::Summary;
use image_parts::{FramePart, FrameRead, ImageParts, read_frame};
use s4_types::Refusal;
use s4_types::limits::FRAME_BLOCKS;
use segment_table::TableBuilder;
use segment_word::FrameState;
use std::alloc::Global;

/// States of a frame, in the two low bits of its word: 0 is free, 1 open, 2 sealed, 3 being
/// emptied.
const STATES: u64 = 4;

/// The state of an open frame.
const OPEN: u64 = 1;

/// The state of a sealed frame.
const SEALED: u64 = 2;

/// Whether the word of a frame says that it is open or sealed.
fn is_in_use(frame: &FramePart<'_>) -> bool
    ensures { MatchBool result ((state_of frame.now.word ≡ 1) ⊎ (state_of frame.now.word ≡ 2))
        ((state_of frame.now.word ≡ 1) ⊎ (state_of frame.now.word ≡ 2) → ⊥) }
{
    let state = frame.word() % STATES;
    state == OPEN || state == SEALED
}

/// The summary of a frame of this number, where it is whole.
fn whole_summary(number: u16, frame: &FramePart<'_>) -> Option<Summary>
    ensures whole { MatchOption result (IsWhole number frame.now → ⊥)
        (λ summary. IsWhole number frame.now) }
    ensures spelled { MatchOption result (Unit {0})
        (λ summary. SpellsSummary (drop 1 (blocks_of frame.now.contents))
        (slice_index_or (blocks_of frame.now.contents) 0 []) summary) }
{
    if !is_in_use(frame) {
        return None;
    }
    match read_frame(number, frame)? {
        FrameRead::Free => None,
        FrameRead::Used(summary) => Some(summary),
    }
}

/// Sets a frame that is free in a table to the blocks of one that is whole, and has this summary.
fn set_whole(table: &mut TableBuilder, number: u16, frame: &FramePart<'_>, summary: &Summary)
    requires whole { IsWhole number frame.now }
    requires spelled { SpellsSummary (drop 1 (blocks_of frame.now.contents))
        (slice_index_or (blocks_of frame.now.contents) 0 []) summary.now }
    requires inside { number < length table.old.seat.frames }
    requires counted { length table.old.slots ≡ length table.old.seat.frames }
    requires free { (frame_at table.old.seat.frames number).phase ≡ Free }
    ensures frame { HasBlocksOf number frame.now (frame_at table.new.seat.frames number)
        (slots_at table.new.slots number) }
    ensures frames { table.new.seat.frames
        ≡ slice_set table.old.seat.frames number (frame_at table.new.seat.frames number) }
    ensures slots { table.new.slots
        ≡ slice_set table.old.slots number (slots_at table.new.slots number) }
{
    let blocks = frame.blocks();
    let Ok(whole) = <&[Block; FRAME_BLOCKS]>::try_from(blocks) else {
        unreachable!()
    };
    table.set_used(number, FrameState::Sealed, summary, whole);
}

/// Looks at the frame of this number: where it is whole it is set in a table, in which it is free,
/// and where it is lost its number is noted. NoMemory alone, where the memory for that is refused.
fn see_frame(
    table: &mut TableBuilder,
    lost: &mut Vec<u16>,
    number: u16,
    frame: &FramePart<'_>,
) -> Result<(), Refusal>
    requires inside { number < length table.old.seat.frames }
    requires counted { length table.old.slots ≡ length table.old.seat.frames }
    requires free { (frame_at table.old.seat.frames number).phase ≡ Free }
    ensures seen { OnOk result
        (IsSeen number frame.now (frame_at table.new.seat.frames number)
        (slots_at table.new.slots number)) }
    ensures alone { OnOk result (ChangesAlone number table.old table.new) }
    ensures lost { OnOk result (NotesLost number frame.now lost.old.items lost.new.items) }
    ensures refusal { IfErr result (λ e. e ≡ NoMemory) }
{
    if let Some(summary) = whole_summary(number, frame) {
        set_whole(table, number, frame, &summary);
        return Ok(());
    }
    if !is_in_use(frame) {
        return Ok(());
    }
    lost.push(number)?;
    Ok(())
}

/// The frames of an image that are whole.
#[derive(Drop)]
pub(crate) struct WholeFrames {
    /// All others are free in it.
    pub(crate) table: TableBuilder,
    /// The numbers of those that are lost.
    pub(crate) lost: Vec<u16>,
}

/// The table of the frames of an image that are whole, and the numbers of those that are lost,
/// ascending.
///
/// NoMemory alone, where memory for these is refused. Each frame is hashed once.
pub(crate) fn whole_frames(alloc: Global, parts: &ImageParts<'_>) -> Result<WholeFrames, Refusal>
    requires { IsFrameCount (length parts.now.frames) }
    ensures sees { IfOk result (λ whole. Sees parts.now.frames whole.table) }
    ensures lost { IfOk result
        (λ whole. AreLostOf parts.now.frames (length parts.now.frames) whole.lost.items) }
    ensures refusal { IfErr result (λ e. e ≡ NoMemory) }
{
    let frames = parts.frames();
    let mut table = TableBuilder::new(alloc, frames.len() as usize)?;
    let mut lost = Vec::new(alloc);
    let mut number = 0;
    for frame in frames {
        see_frame(&mut table, &mut lost, number, &frame)?;
        number += 1;
    }
    Ok(WholeFrames { table, lost })
}

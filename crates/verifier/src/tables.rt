//! The table that the frames of an image tell.
ghost use Rattle.std.specs.Prelude.{◌≡◌, ◌<◌, ◌≤◌, [], length, slice_set, None, IfOk, IfErr};
ghost use Rattle.std.specs.Prelude.{IfSome, IfNone};
ghost use Rattle.s4_types.specs.Pointer.{Place};
ghost use Rattle.s4_types.specs.Sizes.{IsFrameCount};
ghost use Rattle.s4_types.specs.declared.refusals.Refusal.TheVariants.{NoMemory};
ghost use Rattle.image_parts.specs.Frames.{state_of, generation_of, KeepsFrameRules};
ghost use Rattle.image_parts.specs.Frames.{KeepFrameRules, IsReadOf};
ghost use Rattle.segment_word.specs.Frames.Phase.{Free};
ghost use Rattle.segment_word.specs.FrameStates.{phase_in};
ghost use Rattle.segment_word.specs.Layout.{phase_of, frame_at};
ghost use Rattle.segment_table.specs.Table.{slots_at, held_at};
ghost use Rattle.segment_table.specs.Room.{is_filling, numbers};
ghost use Rattle.verifier.specs.Tables.{IsFrameOf, IsTableOf};

use block_log::Block;
use image_parts::{FramePart, FrameRead, ImageParts, read_frame};
use s4_types::Refusal;
use s4_types::limits::FRAME_BLOCKS;
use segment_table::TableBuilder;
use segment_word::FrameState;
use std::alloc::Global;

/// States of a frame, in the two low bits of its word: 0 is free, 1 open, 2 sealed, 3 being
/// emptied.
const STATES: u64 = 4;

/// Where the generation begins in a word.
const GENERATION: u64 = 1 << 32;

fn state_in(word: u64) -> FrameState
    ensures { phase_in result ≡ phase_of (state_of word) }
{
    match word % STATES {
        0 => FrameState::Free,
        1 => FrameState::Open,
        2 => FrameState::Sealed,
        _ => FrameState::Draining,
    }
}

fn generation_in(word: u64) -> u32
    ensures { result ≡ generation_of word }
{
    (word / GENERATION) as u32
}

/// Sets a frame that is free in a table, and has no used block, to that of an image of which this
/// was read.
fn set_frame(table: &mut TableBuilder, number: u16, frame: &FramePart<'_>, read: &FrameRead)
    requires rules { KeepsFrameRules number frame.now }
    requires read { IsReadOf frame.now read.now }
    requires inside { number < length table.old.seat.frames }
    requires counted { length table.old.slots ≡ length table.old.seat.frames }
    requires free { (frame_at table.old.seat.frames number).phase ≡ Free }
    requires empty { slots_at table.old.slots number ≡ [] }
    requires one_open { state_of frame.now.word ≡ 1
        → numbers is_filling 0 table.old.seat.frames ≡ [] }
    ensures frame { IsFrameOf number frame.now (frame_at table.new.seat.frames number)
        (slots_at table.new.slots number) }
    ensures frames { table.new.seat.frames
        ≡ slice_set table.old.seat.frames number (frame_at table.new.seat.frames number) }
    ensures slots { table.new.slots
        ≡ slice_set table.old.slots number (slots_at table.new.slots number) }
    ensures held { (p : Place) → held_at table.new p ≡ held_at table.old p }
{
    match read {
        FrameRead::Free => table.set_free(number, generation_in(frame.word())),
        FrameRead::Used(summary) => {
            let Ok(blocks) = <&[Block; FRAME_BLOCKS]>::try_from(frame.blocks()) else {
                unreachable!()
            };
            table.set_used(number, state_in(frame.word()), summary, blocks);
        }
    }
}

/// The table that an image's frames tell, of which no block is held. None exactly where the frames
/// break a rule: one by itself, or two are open.
///
/// Each frame is judged and set in one step, so that its summary is decoded once. NoMemory alone,
/// where memory for the table is refused.
pub(crate) fn read_frames(
    alloc: Global,
    parts: &ImageParts<'_>,
) -> Result<Option<TableBuilder>, Refusal>
    requires counted { IsFrameCount (length parts.now.frames) }
    ensures table { IfOk result
        (λ found. IfSome found (λ table. IsTableOf parts.now.frames table)) }
    ensures nothing { IfOk result
        (λ found. IfSome found (λ table. (p : Place) → held_at table p ≡ None)) }
    ensures rules { IfOk result (λ found. IfSome found (λ table. KeepFrameRules parts.now.frames)) }
    ensures none { IfOk result (λ found. IfNone found (KeepFrameRules parts.now.frames → ⊥)) }
    ensures refusal { IfErr result (λ e. e ≡ NoMemory) }
{
    let frames = parts.frames();
    let mut table = TableBuilder::new(alloc, frames.len() as usize)?;
    let mut number = 0;
    let mut has_open = false;
    for frame in frames {
        let Some(read) = read_frame(number, &frame) else {
            return Ok(None);
        };
        let is_open = frame.is_open();
        if has_open && is_open {
            return Ok(None);
        }
        has_open |= is_open;
        set_frame(&mut table, number, &frame, &read);
        number += 1;
    }
    Ok(Some(table))
}

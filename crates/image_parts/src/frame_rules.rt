ghost use Rattle.std.specs.Prelude.{◌≡◌, ◌≢◌, [], MatchBool, MatchOption, IfSome, Some, length, drop};
ghost use Rattle.std.specs.Prelude.{slice_index_or};
ghost use Rattle.codec.specs.Summary.{SummaryFields, SpellsSummary};
ghost use Rattle.image_parts.specs.Frames.{state_of, readers_of, generation_of, blocks_of};
ghost use Rattle.image_parts.specs.Frames.{HasSummary, KeepsFrameRules, KeepsFrameRulesBy};
ghost use Rattle.image_parts.specs.Frames.{HasNoParts, IsReadOf};

use crate::frames::FramePart;
use block_log::Block;
use codec::laws::a_summary_has_one_encoding;
use codec::{ImageVersion, Summary, decode_summary, has_no_parts};
use s4_types::limits::PAYLOAD_BLOCKS;

/// States of a frame, in the two low bits of its word: 0 is free, 1 open, 2 sealed, 3 being
/// emptied.
const STATES: u64 = 4;

/// The numbers that the field of readers has.
const READERS: u64 = 1 << 30;

/// Where the generation begins in a word.
const GENERATION: u64 = 1 << 32;

/// Payload blocks that an open frame uses at most: a full one is sealed.
const OPEN_BLOCKS: usize = 14;

fn state_in(word: u64) -> u64
    ensures { result ≡ state_of word }
{
    word % STATES
}

fn readers_in(word: u64) -> u64
    ensures { result ≡ readers_of word }
{
    word / STATES % READERS
}

fn generation_in(word: u64) -> u64
    ensures { result ≡ generation_of word }
{
    word / GENERATION
}

/// The summary that the first of 16 blocks encodes over the others, if it encodes one.
fn summary_in(blocks: &[Block]) -> Option<Summary>
    requires { length blocks.now ≡ 16 }
    ensures found { IfSome result
        (λ summary. SpellsSummary (drop 1 blocks.now) (slice_index_or blocks.now 0 []) summary) }
    ensures only { (summary : SummaryFields)
        → SpellsSummary (drop 1 blocks.now) (slice_index_or blocks.now 0 []) summary
        → result ≡ Some summary }
{
    let (_, payload) = blocks.split_at(1);
    let Ok(payload) = <&[Block; PAYLOAD_BLOCKS]>::try_from(payload) else {
        unreachable!()
    };
    decode_summary(&blocks[0], payload)
}

/// The summary that the first block of a frame that isn't free encodes, where it is that of this
/// frame as its word says.
fn summary_of(number: u16, frame: &FramePart<'_>) -> Option<Summary>
    requires { state_of frame.now.word ≢ 0 }
    ensures has { MatchOption result (HasSummary number frame.now → ⊥)
        (λ summary. HasSummary number frame.now) }
    ensures spelled { IfSome result
        (λ summary. SpellsSummary (drop 1 (blocks_of frame.now.contents))
        (slice_index_or (blocks_of frame.now.contents) 0 []) summary) }
{
    let summary = summary_in(frame.blocks())?;
    let word = frame.word();
    if summary.frame() != number || u64::from(summary.generation()) != generation_in(word) {
        return None;
    }
    if state_in(word) == 1 && summary.roles().len() > OPEN_BLOCKS {
        return None;
    }
    Some(summary)
}

/// What a frame of an image is.
#[derive(Drop)]
pub enum FrameRead {
    /// No block of it is used.
    Free,
    /// It has this summary.
    Used(Summary),
}

/// What the frame of this number is. None exactly where it breaks a rule of a frame by itself. Its
/// bytes are hashed once.
pub fn read_frame(number: u16, frame: &FramePart<'_>) -> Option<FrameRead>
    ensures rules { MatchOption result (KeepsFrameRules number frame.now → ⊥)
        (λ read. KeepsFrameRules number frame.now) }
    ensures read { IfSome result (λ read. IsReadOf frame.now read) }
{
    let word = frame.word();
    let generation = generation_in(word);
    if readers_in(word) != 0 || generation < 1 {
        return None;
    }
    if state_in(word) == 0 {
        return Some(FrameRead::Free);
    }
    if generation + 1 >= GENERATION {
        return None;
    }
    let summary = summary_of(number, frame)?;
    Some(FrameRead::Used(summary))
}

/// Whether no block of a frame is listed as a part of a checkpoint.
fn is_without_parts(frame: &FramePart<'_>, read: &FrameRead) -> bool
    requires { IsReadOf frame.now read.now }
    ensures { MatchBool result (HasNoParts frame.now) (HasNoParts frame.now → ⊥) }
{
    a_summary_has_one_encoding();
    match read {
        FrameRead::Free => true,
        FrameRead::Used(summary) => has_no_parts(summary),
    }
}

/// What the frame of this number is in an image of a version. None exactly where it breaks a rule of
/// a frame by itself.
pub fn read_frame_by(version: ImageVersion, number: u16, frame: &FramePart<'_>) -> Option<FrameRead>
    ensures rules { MatchOption result (KeepsFrameRulesBy version number frame.now → ⊥)
        (λ read. KeepsFrameRulesBy version number frame.now) }
    ensures read { IfSome result (λ read. IsReadOf frame.now read) }
{
    let read = read_frame(number, frame)?;
    match version {
        ImageVersion::First => {
            if !is_without_parts(frame, &read) {
                return None;
            }
            Some(read)
        }
        ImageVersion::Second => Some(read),
    }
}

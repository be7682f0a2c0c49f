ghost use Rattle.std.specs.Iterator.{YieldsFirst, item_count};
ghost use Rattle.std.specs.Prelude.{◌≡◌, ℕ, ◌+◌, ◌^◌, ◌<◌, ◌≤◌, ◌≢◌, [], ◌∷◌, List, MatchOption};
ghost use Rattle.std.specs.Prelude.{length, drop};
ghost use Rattle.image_parts.specs.Frames.{FrameFields, state_of, is_open, contents_length};
ghost use Rattle.image_parts.specs.Frames.{blocks_of, frame_in, frame_length, frames_in};
ghost use Rattle.image_parts.specs.Frames.{frames_length};

use crate::numbers::long_at;
use block_log::Block;
use s4_types::limits::BLOCK_BYTES;
use std::marker::Model;

/// Bytes of a frame's word.
pub(crate) const WORD_BYTES: usize = 8;

/// Bytes of a frame's blocks.
pub(crate) const CONTENTS_BYTES: usize = 8192;

/// A frame of an image: its word, and its 16 blocks, or none where it is free.
#[derive(Drop)]
pub struct FramePart<'a> {
    word: u64,
    contents: &'a [u8],
}

impl<'a> Model for FramePart<'a> {
    ghost use Rattle.std.specs.Prelude.{◌≡◌, length};
    ghost use Rattle.image_parts.specs.Frames.{FrameFields, contents_length};

    ghost Value = { FrameFields };

    ghost view = { λ f. record { word = f.word; contents = f.contents.now } };

    ghost invariant = { λ f. length f.contents.now ≡ contents_length f.word };
}

impl<'a> FramePart<'a> {
    /// The word: the frame's state in the 2 low bits, its readers in the next 30, its generation in
    /// the 32 high ones.
    pub fn word(&self) -> u64
        ensures { result ≡ self.now.word }
    {
        self.word
    }

    /// Whether its word says that it is open.
    pub fn is_open(&self) -> bool
        ensures { result ≡ is_open self.now }
    {
        self.word % 4 == 1
    }

    /// The frame's 16 blocks, its summary first. None where it is free.
    #[tactic(auto, unfolding(crate::specs::Frames::blocks_of, crate::specs::Frames::contents_length))]
    pub fn blocks(&self) -> &'a [Block]
        ensures blocks { result.now ≡ blocks_of self.now.contents }
        ensures count { state_of self.now.word ≢ 0 → length result.now ≡ 16 }
    {
        let (blocks, _) = self.contents.as_chunks::<BLOCK_BYTES>();
        blocks
    }
}

/// How many bytes follow a frame's word.
#[tactic(auto, unfolding(crate::specs::Frames::contents_length))]
fn bytes_behind(word: u64) -> usize
    ensures len { result ≡ contents_length word }
    ensures most { result ≤ 8192 }
{
    if word % 4 == 0 { 0 } else { CONTENTS_BYTES }
}

/// The frame that the bytes begin with, and the bytes after it. None where it isn't whole.
pub(crate) fn split_frame(bytes: &[u8]) -> Option<(FramePart<'_>, &[u8])>
    ensures { MatchOption result (length bytes.now < frame_length bytes.now)
        (λ x. (x.0 ≡ frame_in bytes.now)
        × (x.1.now ≡ drop (frame_length bytes.now) bytes.now)
        × (frame_length bytes.now ≤ length bytes.now)) }
{
    if bytes.len() < WORD_BYTES {
        return None;
    }
    let word = long_at(bytes, 0);
    let (_, rest) = bytes.split_at(WORD_BYTES);
    let count = bytes_behind(word);
    if rest.len() < count {
        return None;
    }
    let (contents, rest) = rest.split_at(count);
    Some((FramePart { word, contents }, rest))
}

/// What comes after the first frames. None where they aren't whole.
pub(crate) fn behind_frames(count: u16, bytes: &[u8]) -> Option<&[u8]>
    ensures { MatchOption result (length bytes.now < frames_length count bytes.now)
        (λ rest. (rest.now ≡ drop (frames_length count bytes.now) bytes.now)
        × (frames_length count bytes.now ≤ length bytes.now)) }
{
    let mut rest = bytes;
    for _ in 0..count {
        let Some((_, behind)) = split_frame(rest) else {
            return None;
        };
        rest = behind;
    }
    Some(rest)
}

/// Frames that are given one by one, in their order.
#[derive(Drop)]
pub struct Frames<'a> {
    count: u16,
    bytes: &'a [u8],
}

impl<'a> Model for Frames<'a> {
    ghost use Rattle.std.specs.Prelude.{List, ◌≤◌, length};
    ghost use Rattle.image_parts.specs.Frames.{FrameFields, frames_in, frames_length};

    ghost Value = { List FrameFields };

    ghost view = { λ f. frames_in f.count f.bytes.now };

    ghost invariant = { λ f. frames_length f.count f.bytes.now ≤ length f.bytes.now };
}

impl<'a> Frames<'a> {
    /// The first frames of these bytes.
    pub(crate) fn new(count: u16, bytes: &'a [u8]) -> Self
        requires { frames_length count bytes.now ≤ length bytes.now }
        ensures { result ≡ frames_in count bytes.entry.now }
    {
        Frames { count, bytes }
    }

    /// How many frames were not given.
    pub fn len(&self) -> u16
        ensures { result ≡ length self.now }
    {
        self.count
    }
}

impl<'a> Iterator for Frames<'a> {
    type Item = FramePart<'a>;

    ghost next_gives = { YieldsFirst (λ f. f) };

    ghost remaining = { item_count (λ f. f) };

    fn next(&mut self) -> Option<FramePart<'a>> {
        if self.count == 0 {
            return None;
        }
        let (frame, rest) = split_frame(self.bytes)?;
        self.count -= 1;
        self.bytes = rest;
        Some(frame)
    }
}

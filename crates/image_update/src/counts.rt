//! How many parts of each kind a front has.
ghost use Rattle.std.specs.Prelude.{◌≡◌};
ghost use Rattle.image_update.specs.Layout.{contents_in, counts_in};

use crate::numbers::{front_long, front_short, front_word};

/// Bytes of a header.
pub(crate) const HEADER_BYTES: usize = 512;

/// Bytes of a frame's word.
pub(crate) const WORD_BYTES: usize = 8;

/// Bytes of a frame's blocks.
const CONTENTS_BYTES: usize = 8192;

/// Audit rows aren't counted: they are what is after all other parts.
#[derive(Clone, Copy)]
pub(crate) struct Counts {
    pub(crate) frames: u16,
    pub(crate) rows: u32,
    pub(crate) spans: u32,
}

/// How many parts a front has, as its header says. None of any where there is no header.
#[tactic(auto, unfolding(crate::specs::Layout::counts_in, image_parts::specs::Header::header_in))]
pub(crate) fn counts_of(front: &[u8]) -> Counts
    ensures { result ≡ counts_in front.now }
{
    if front.len() < HEADER_BYTES {
        return Counts {
            frames: 0,
            rows: 0,
            spans: 0,
        };
    }
    Counts {
        frames: front_short(front, 8),
        rows: front_word(front, 48),
        spans: front_word(front, 52),
    }
}

/// How many bytes are after the word of the frame that the bytes begin with. None where there is
/// no word.
#[tactic(auto, unfolding(crate::specs::Layout::contents_in, image_parts::specs::Frames::contents_length))]
pub(crate) fn contents_of(bytes: &[u8]) -> usize
    ensures { result ≡ contents_in bytes.now }
{
    if bytes.len() < WORD_BYTES || front_long(bytes) % 4 == 0 {
        0
    } else {
        CONTENTS_BYTES
    }
}

//! The frames of an image of an earlier version, and the blocks in them that pointers name.
ghost use Rattle.std.specs.Prelude.{◌≡◌, ◌≤◌, length, IsSome, IfSome, IfNone, IfOk, IfErr};
ghost use Rattle.s4_types.specs.declared.refusals.Refusal.TheVariants.{NoMemory};
ghost use Rattle.image_parts.specs.declared.marks.ImageMark.TheVariants.{Earlier};
ghost use Rattle.image_parts.specs.Header.{IsFrameCountBy};
ghost use Rattle.image_parts.specs.Frames.{KeepFrameRulesBy};
ghost use Rattle.earlier_images.specs.Used.{AreFramesOf, is_named, role_at, roles_of, used_block};

use codec::{BlockRole, ImageVersion};
use image_objects::{UsedBlock, UsedBlocks};
use image_parts::{FramePart, FrameRead, ImageParts, read_frame_by};
use s4_types::{Ptr, Refusal};
use std::alloc::Global;
use std::marker::Model;

/// States of a frame, in the two low bits of its word: 0 is free, 1 open, 2 sealed, 3 being
/// emptied.
const STATES: u64 = 4;

/// Where the generation begins in a word.
const GENERATION: u64 = 1 << 32;

/// A frame of an image, and what was read of it.
#[derive(Drop)]
pub(crate) struct EarlierFrame<'a> {
    pub(crate) part: FramePart<'a>,
    pub(crate) read: FrameRead,
}

impl<'a> EarlierFrame<'a> {
    /// Whether pointers of this generation may name its blocks: it is open or sealed, at this
    /// generation.
    fn is_named(&self, generation: u32) -> bool
        ensures { result ≡ is_named self.now.part generation }
    {
        let word = self.part.word();
        let state = word % STATES;
        (state == 1 || state == 2) && word / GENERATION == u64::from(generation)
    }

    /// What a block is used for. None where the summary doesn't list it; its own block, number 0,
    /// it never lists.
    fn role(&self, block: u8) -> Option<BlockRole>
        ensures role { result ≡ role_at (roles_of self.now.read) block }
        ensures most { IsSome result → block ≤ 15 }
    {
        if block == 0 {
            return None;
        }
        match &self.read {
            FrameRead::Free => None,
            FrameRead::Used(summary) => summary.roles().get(block as usize - 1).copied(),
        }
    }

    /// What a pointer of a generation names in a block of the frame.
    fn block(&self, block: u8, generation: u32) -> Option<UsedBlock>
        ensures { result ≡ used_block self.now block generation }
    {
        if !self.is_named(generation) {
            return None;
        }
        let role = self.role(block)?;
        let blocks = self.part.blocks();
        Some(UsedBlock {
            kind: role.kind,
            object: role.object,
            bytes: blocks[block as usize],
        })
    }
}

/// The frames of an image of an earlier version, in their order. They are in the bytes that they
/// were read from; of each that isn't free the summary was decoded once.
#[derive(Drop)]
pub struct EarlierFrames<'a> {
    frames: Vec<EarlierFrame<'a>>,
}

impl<'a> Model for EarlierFrames<'a> {
    ghost use Rattle.std.specs.Prelude.{List};
    ghost use Rattle.earlier_images.specs.declared.frames.EarlierFrame.{EarlierFrame as Frame};

    ghost Value = { List Frame };

    ghost view = { λ f. f.frames.items };
}

impl<'a> EarlierFrames<'a> {
    /// How many frames there are.
    pub fn len(&self) -> usize
        ensures { result ≡ length self.now }
    {
        self.frames.len()
    }
}

impl UsedBlocks for EarlierFrames<'_> {
    ghost use Rattle.earlier_images.specs.Used.{used_in};

    ghost used = { λ frames. used_in frames };

    fn block(&self, place: Ptr) -> Option<UsedBlock> {
        let frame = self.frames.as_slice().get(place.frame() as usize)?;
        frame.block(place.block(), place.generation())
    }
}

/// The frames of an image of an earlier version, each read once. None exactly where they break a
/// rule: one by itself, or two are open.
///
/// NoMemory alone. Each frame's bytes are hashed once.
pub(crate) fn read_frames<'a>(
    alloc: Global,
    version: ImageVersion,
    parts: &ImageParts<'a>,
) -> Result<Option<EarlierFrames<'a>>, Refusal>
    requires counted { IsFrameCountBy (Earlier version) (length parts.now.frames) }
    ensures frames { IfOk result
        (λ found. IfSome found (λ frames. AreFramesOf parts.now.frames frames)) }
    ensures rules { IfOk result
        (λ found. IfSome found (λ frames. KeepFrameRulesBy version parts.now.frames)) }
    ensures none { IfOk result
        (λ found. IfNone found (KeepFrameRulesBy version parts.now.frames → ⊥)) }
    ensures refusal { IfErr result (λ e. e ≡ NoMemory) }
{
    let mut frames = Vec::new(alloc);
    let mut number = 0;
    let mut has_open = false;
    for part in parts.frames() {
        let Some(read) = read_frame_by(version, number, &part) else {
            return Ok(None);
        };
        let is_open = part.is_open();
        if has_open && is_open {
            return Ok(None);
        }
        has_open |= is_open;
        frames.push(EarlierFrame { part, read })?;
        number += 1;
    }
    Ok(Some(EarlierFrames { frames }))
}

//! The blocks of a checkpoint: its first block, and a pointer block for each part that isn't of
//! holes alone.
ghost use Rattle.std.specs.Prelude.{◌≡◌, ◌≤◌, ◌+◌, ◌++◌, length, IfSome};
ghost use Rattle.s4_types.specs.declared.limits.TheConstants.{CHECKPOINT_PARTS, OBJECT_BLOCKS};
ghost use Rattle.s4_types.specs.declared.limits.TheConstants.{CHECKPOINT_POINTERS};
ghost use Rattle.codec.specs.Fields.{Reads};
ghost use Rattle.codec.specs.Parts.{part_of, are_holes, first_of, pointers_of, told_in};
ghost use Rattle.codec.specs.Parts.{ArePart, joined};

use crate::checkpoints::Checkpoint;
use crate::first_blocks::FirstBlock;
use crate::inodes::Inode;
use crate::pointer_blocks::{PointerBlock, decode_pointer_block};
use arrayvec::ArrayVec;
use s4_types::Ptr;
use s4_types::limits::{BLOCK_BYTES, CHECKPOINT_PARTS, CHECKPOINT_POINTERS, OBJECT_BLOCKS};

/// As many pointers as a block of a checkpoint has.
pub type PartPointers = [Option<Ptr>; CHECKPOINT_POINTERS];

/// Whether all pointers are holes.
pub fn are_holes(pointers: &[Option<Ptr>]) -> bool
    ensures { result ≡ are_holes pointers.now }
{
    pointers.iter().all(|pointer| pointer.is_none())
}

/// The pointers of a part of an inode; those of the first block are part 0.
#[tactic(auto, unfolding(crate::specs::Parts::part_of))]
pub fn part_of(inode: &Inode, part: u8) -> &[Option<Ptr>]
    requires { part ≤ CHECKPOINT_PARTS }
    ensures part { result.now ≡ part_of part inode.now.pointers }
    ensures len { length result.now ≡ CHECKPOINT_POINTERS }
    ensures count { length inode.now.pointers ≡ OBJECT_BLOCKS }
{
    let from = CHECKPOINT_POINTERS * part as usize;
    let all = &inode.pointers[..];
    &all[from..from + CHECKPOINT_POINTERS]
}

fn copied(part: &[Option<Ptr>]) -> PartPointers
    requires { length part.now ≡ CHECKPOINT_POINTERS }
    ensures { result ≡ part.now }
{
    let mut pointers = [None; CHECKPOINT_POINTERS];
    pointers.copy_from_slice(part);
    pointers
}

/// Pointers of an inode, part after part.
type Gathered = ArrayVec<Option<Ptr>, OBJECT_BLOCKS>;

fn gather(pointers: &mut Gathered, part: &PartPointers)
    requires { length pointers.old.items + CHECKPOINT_POINTERS ≤ OBJECT_BLOCKS }
    ensures items { pointers.new.items ≡ pointers.old.items ++ part.now }
    ensures len { length pointers.new.items ≡ length pointers.old.items + CHECKPOINT_POINTERS }
{
    // There is room, so that nothing can fail.
    let _ = pointers.try_extend_from_slice(part);
}

/// The pointers of an inode, once all are there.
fn all_gathered(pointers: Gathered) -> [Option<Ptr>; OBJECT_BLOCKS]
    requires { length pointers.items ≡ OBJECT_BLOCKS }
    ensures { result ≡ pointers.items }
{
    match pointers.into_inner() {
        Ok(pointers) => pointers,
        Err(_) => unreachable!(),
    }
}

impl Checkpoint {
    /// The checkpoint's first block, with these pointers to its parts.
    pub fn first_block(&self, parts: [Option<Ptr>; CHECKPOINT_PARTS]) -> FirstBlock
        ensures first { result ≡ first_of self.now parts }
        ensures count { length self.now.inode.pointers ≡ OBJECT_BLOCKS }
    {
        let inode = self.inode();
        let pointers = copied(part_of(inode, 0));
        FirstBlock {
            object: self.object(),
            moment: self.moment(),
            alive: inode.alive,
            size: inode.size,
            created: inode.created,
            changed: inode.changed,
            attribute: inode.attribute,
            pointers,
            parts,
        }
    }

    /// The block of a part, 1 to `CHECKPOINT_PARTS`. None where its pointers are holes.
    pub fn pointer_block(&self, part: u8) -> Option<PointerBlock>
        requires { part ≤ CHECKPOINT_PARTS }
        ensures { result ≡ pointers_of self.now part }
    {
        let pointers = part_of(self.inode(), part);
        if are_holes(pointers) {
            return None;
        }
        let pointers = copied(pointers);
        Some(PointerBlock {
            part,
            object: self.object(),
            moment: self.moment(),
            pointers,
        })
    }
}

impl FirstBlock {
    /// The pointers of a part of the checkpoint, from its block. None where the block encodes no
    /// part of this number, object and moment, or holes alone.
    pub fn pointers_in(&self, part: u8, block: &[u8; BLOCK_BYTES]) -> Option<PartPointers>
        ensures exact { Reads (λ pointers. pointers) result (told_in self.now part block.now) }
        ensures numbers { IfSome result ArePart }
    {
        let found = decode_pointer_block(block)?;
        let is_its_part = found.part == part
            && found.object.number() == self.object.number()
            && found.moment.number() == self.moment.number()
            && !are_holes(&found.pointers);
        if !is_its_part {
            return None;
        }
        Some(found.pointers)
    }

    /// The checkpoint, with the pointers of its three parts. None where it breaks a rule of
    /// checkpoints.
    pub fn joined(
        &self,
        one: &PartPointers,
        two: &PartPointers,
        three: &PartPointers,
    ) -> Option<Checkpoint>
        ensures { Reads (λ checkpoint. checkpoint) result
            (joined self.now one.now two.now three.now) }
    {
        let mut pointers = Gathered::new();
        gather(&mut pointers, &self.pointers);
        gather(&mut pointers, one);
        gather(&mut pointers, two);
        gather(&mut pointers, three);
        let inode = Inode {
            alive: self.alive,
            size: self.size,
            created: self.created,
            changed: self.changed,
            attribute: self.attribute,
            pointers: all_gathered(pointers),
        };
        Checkpoint::new(self.object, self.moment, inode)
    }
}

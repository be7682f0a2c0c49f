//! Laws of the blocks of checkpoints, for the layers above: each function does nothing, and its
//! contract is the law.
ghost use Rattle.std.specs.Prelude.{◌≡◌, ℕ, ◌≤◌, ◌++◌, true, slice_index, List, length, Option, Some};
ghost use Rattle.std.specs.Prelude.{None};
ghost use Rattle.s4_types.specs.Pointer.{Place};
ghost use Rattle.s4_types.specs.declared.limits.TheConstants.{CHECKPOINT_PARTS, OBJECT_BLOCKS};
ghost use Rattle.s4_types.specs.declared.limits.TheConstants.{CHECKPOINT_POINTERS};
ghost use Rattle.codec.specs.Fields.{all_of};
ghost use Rattle.codec.specs.Checkpoint.{CheckpointFields, CheckpointNumbers, checkpoint_rules};
ghost use Rattle.codec.specs.Checkpoint.{holes};
ghost use Rattle.codec.specs.FirstBlock.{FirstNumbers, SpellsFirst, first_at};
ghost use Rattle.codec.specs.PointerBlock.{SpellsPointers, pointers_at};
ghost use Rattle.codec.specs.Parts.{part_of, first_of, pointers_of, told_in, whole, joined};
ghost use Rattle.codec.specs.Parts.{ArePart, TellsPart};
ghost use Rattle.codec.specs.declared.first_blocks.FirstBlock.{FirstBlock};
ghost use Rattle.codec.specs.declared.pointer_blocks.PointerBlock.{PointerBlock};

/// A checkpoint is what its blocks say: the first block, and for each part the block with its
/// pointers, or holes where there is none. What the encoding of a block is read as, is the block.
pub fn a_checkpoint_is_its_blocks()
    ensures first { (block : List ℕ) (f : FirstBlock) → SpellsFirst block f
        → all_of first_at block ≡ Some f }
    ensures pointers { (block : List ℕ) (b : PointerBlock) → SpellsPointers block b
        → all_of pointers_at block ≡ Some b }
    ensures whole { (c : CheckpointFields) (parts : List (Option Place))
        → checkpoint_rules c ≡ true
        → length c.inode.pointers ≡ OBJECT_BLOCKS
        → joined (first_of c parts) (part_of 1 c.inode.pointers) (part_of 2 c.inode.pointers)
        (part_of 3 c.inode.pointers) ≡ Some c }
    ensures told { (c : CheckpointFields) (parts : List (Option Place)) (part : ℕ)
        (b : PointerBlock) (block : List ℕ) → pointers_of c part ≡ Some b
        → SpellsPointers block b
        → told_in (first_of c parts) part block ≡ Some (part_of part c.inode.pointers) }
    ensures holes { (c : CheckpointFields) (part : ℕ) → part ≤ CHECKPOINT_PARTS
        → length c.inode.pointers ≡ OBJECT_BLOCKS
        → pointers_of c part ≡ None
        → part_of part c.inode.pointers ≡ holes CHECKPOINT_POINTERS }
{}

/// Each block of a checkpoint has its part.
///
/// It begins with the number of its kind, a first block has as many pointers as it has room for,
/// and one for each part, and what a block says of a part is in a pointer block of that part. Where
/// blocks say what a checkpoint is, its fields are theirs, and so are its parts.
pub fn blocks_have_their_parts()
    ensures first_begins { (block : List ℕ) (f : FirstBlock) → all_of first_at block ≡ Some f
        → slice_index block 0 ≡ 2 }
    ensures part_begins { (block : List ℕ) (b : PointerBlock)
        → all_of pointers_at block ≡ Some b → slice_index block 0 ≡ 4 }
    ensures pointers { (block : List ℕ) (f : FirstBlock) → all_of first_at block ≡ Some f
        → length f.pointers ≡ CHECKPOINT_POINTERS }
    ensures parts { (block : List ℕ) (f : FirstBlock) → all_of first_at block ≡ Some f
        → length f.parts ≡ CHECKPOINT_PARTS }
    ensures part { (f : FirstBlock) (part : ℕ) (block : List ℕ) (pointers : List (Option Place))
        → told_in f part block ≡ Some pointers → TellsPart f part block pointers }
    ensures whole { (f : FirstBlock) (one two three : List (Option Place)) (c : CheckpointFields)
        → joined f one two three ≡ Some c
        → whole f (f.pointers ++ (one ++ (two ++ three))) ≡ c }
    ensures one { (a one two three : List (Option Place)) → length a ≡ CHECKPOINT_POINTERS
        → length one ≡ CHECKPOINT_POINTERS → part_of 1 (a ++ (one ++ (two ++ three))) ≡ one }
    ensures two { (a one two three : List (Option Place)) → length a ≡ CHECKPOINT_POINTERS
        → length one ≡ CHECKPOINT_POINTERS → length two ≡ CHECKPOINT_POINTERS
        → part_of 2 (a ++ (one ++ (two ++ three))) ≡ two }
    ensures three { (a one two three : List (Option Place)) → length a ≡ CHECKPOINT_POINTERS
        → length one ≡ CHECKPOINT_POINTERS → length two ≡ CHECKPOINT_POINTERS
        → length three ≡ CHECKPOINT_POINTERS
        → part_of 3 (a ++ (one ++ (two ++ three))) ≡ three }
    ensures numbers { (f : FirstBlock) (one two three : List (Option Place)) → FirstNumbers f
        → ArePart one → ArePart two → ArePart three
        → CheckpointNumbers (whole f (f.pointers ++ (one ++ (two ++ three)))) }
    ensures holes { ArePart (holes CHECKPOINT_POINTERS) }
{}

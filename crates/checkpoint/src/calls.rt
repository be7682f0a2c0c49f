ghost use Rattle.std.specs.Prelude.{◌≡◌, ℕ, ◌<◌, ◌≤◌, ◌++◌, length, map, slice_index_or};
ghost use Rattle.std.specs.Prelude.{Some, None, IfSome};
ghost use Rattle.std.specs.Prelude.{IfOk, IfErr, OnOk, OnErr, MatchResult};
ghost use Rattle.std.specs.Option.{option_to_list};
ghost use Rattle.codec.specs.Fields.{Reads};
ghost use Rattle.checkpoint.specs.Held.{checkpoint_held, checkpoint_places, checkpoint_blocks};
ghost use Rattle.checkpoint.specs.Held.{of_checkpoints, HasBytes, HasItsBlocks, part_blocks, part_in};
ghost use Rattle.checkpoint.specs.Held.{part_place, first_in, PutsCheckpoint, DropsCheckpoint};
ghost use Rattle.checkpoint.specs.private.Steps.{WritesPart, DropsPlaces, HasNoOther};
ghost use Rattle.block_log.specs.Taken.{TakesPlaces};
ghost use Rattle.s4_types.specs.declared.limits.TheConstants.{CHECKPOINT_BLOCKS, CHECKPOINT_PARTS};
ghost use Rattle.s4_types.specs.declared.refusals.Refusal.TheVariants.{NoMemory, NoSpace};

use block_log::{Block, BlockKind, Blocks};
use codec::part_laws::{a_checkpoint_is_its_blocks, blocks_have_their_parts};
use codec::{
    Checkpoint, FirstBlock, Inode, PartPointers, are_holes, decode_first_block, encode_first_block,
    encode_pointer_block, part_of,
};
use s4_types::limits::CHECKPOINT_POINTERS;
use s4_types::{ObjectId, Ptr, Refusal};

/// How many blocks a part of a checkpoint takes: one, or none where its pointers are holes.
#[tactic(auto, unfolding(crate::specs::Held::part_blocks))]
fn part_blocks(inode: &Inode, part: u8) -> usize
    requires { part ≤ CHECKPOINT_PARTS }
    ensures blocks { result ≡ part_blocks inode.now part }
    ensures few { result ≤ 1 }
{
    if are_holes(part_of(inode, part)) {
        0
    } else {
        1
    }
}

/// How many blocks a checkpoint of an inode takes: at least one, and at most `CHECKPOINT_BLOCKS`.
#[tactic(auto, unfolding(crate::specs::Held::checkpoint_blocks))]
pub fn checkpoint_blocks(inode: &Inode) -> usize
    ensures blocks { result ≡ checkpoint_blocks inode.now }
    ensures few { result ≤ CHECKPOINT_BLOCKS }
{
    part_blocks(inode, 1) + (part_blocks(inode, 2) + (part_blocks(inode, 3) + 1))
}

/// Appends the block of a part of a checkpoint, and answers where it is. None where its pointers
/// are holes: then nothing is appended.
fn write_part<B: Blocks>(table: &mut B, checkpoint: &Checkpoint, part: u8) -> Option<Ptr>
    requires part { part ≤ CHECKPOINT_PARTS }
    requires room { part_blocks checkpoint.now.inode part ≤ length (B.log table.old).ahead }
    ensures wrote { WritesPart checkpoint.now part (B.log table.old) result (B.log table.new) }
    ensures takes { TakesPlaces (part_blocks checkpoint.now.inode part) (B.log table.old)
        (B.log table.new) }
{
    let block = checkpoint.pointer_block(part)?;
    let bytes = encode_pointer_block(&block);
    let Ok(place) = table.append(BlockKind::Pointers, checkpoint.object(), &bytes) else {
        unreachable!()
    };
    Some(place)
}

/// Appends a checkpoint, and answers the pointer by which it is held from now on. No held pointer
/// equals it or refers to one of its blocks. These are at the next places ahead: the parts in order,
/// and then the first block.
///
/// NoSpace exactly where fewer places are ahead than it takes; then nothing has changed.
pub fn write_checkpoint<B: Blocks>(table: &mut B, checkpoint: &Checkpoint) -> Result<Ptr, Refusal>
    ensures written { IfOk result
        (λ p. checkpoint_held (B.log table.new).held checkpoint.now.object p
        ≡ Some checkpoint.now) }
    ensures takes { IfOk result
        (λ _. TakesPlaces (checkpoint_blocks checkpoint.now.inode) (B.log table.old)
        (B.log table.new)) }
    ensures growth { IfOk result
        (λ p. PutsCheckpoint (B.log table.old).held checkpoint.now.object p
        (B.log table.new).held) }
    ensures order { IfOk result
        (λ p. (B.log table.old).ahead
        ≡ checkpoint_places (B.log table.new).held checkpoint.now.object p
        ++ (B.log table.new).ahead) }
    ensures named { (B.log table.new).named ≡ (B.log table.old).named }
    ensures answer { MatchResult result
        (λ _. checkpoint_blocks checkpoint.now.inode ≤ length (B.log table.old).ahead)
        (λ e. (e ≡ NoSpace)
        × (length (B.log table.old).ahead < checkpoint_blocks checkpoint.now.inode)) }
    ensures unchanged { OnErr result (B.log table.new ≡ B.log table.old) }
{
    a_checkpoint_is_its_blocks();
    blocks_have_their_parts();
    if table.blocks_left() < checkpoint_blocks(checkpoint.inode()) {
        return Err(Refusal::NoSpace);
    }
    let one = write_part(table, checkpoint, 1);
    let two = write_part(table, checkpoint, 2);
    let three = write_part(table, checkpoint, 3);
    let first = checkpoint.first_block([one, two, three]);
    let bytes = encode_first_block(&first);
    table.append(BlockKind::Checkpoint, checkpoint.object(), &bytes)
}

/// The block of an object's checkpoints at a place.
fn get_block<B: Blocks>(table: &mut B, object: ObjectId, place: Ptr) -> Block
    requires held { HasBytes (of_checkpoints object (B.log table.old).held place) }
    ensures exact { of_checkpoints object (B.log table.old).held place ≡ Some result }
    ensures same { B.log table.new ≡ B.log table.old }
{
    table.get(place)
}

/// The first block of the checkpoint of an object that a pointer refers to.
fn read_first<B: Blocks>(table: &mut B, object: ObjectId, place: Ptr) -> Option<FirstBlock>
    requires held { HasBytes (of_checkpoints object (B.log table.old).held place) }
    ensures exact { Reads (λ first. first) result
        (first_in (of_checkpoints object (B.log table.old).held) place) }
    ensures same { B.log table.new ≡ B.log table.old }
{
    decode_first_block(&get_block(table, object, place))
}

/// The pointers of a part of a checkpoint of an object: holes where it has no block.
fn read_part<B: Blocks>(
    table: &mut B,
    object: ObjectId,
    first: &FirstBlock,
    part: u8,
    place: Option<Ptr>,
) -> Option<PartPointers>
    requires held { IfSome place
        (λ q. HasBytes (of_checkpoints object (B.log table.old).held q)) }
    ensures exact { Reads (λ pointers. pointers) result
        (part_in (of_checkpoints object (B.log table.old).held) first.now part place) }
    ensures same { B.log table.new ≡ B.log table.old }
{
    let Some(place) = place else {
        return Some([None; CHECKPOINT_POINTERS]);
    };
    let block = get_block(table, object, place);
    first.pointers_in(part, &block)
}

/// Where the block of a part is, of parts that are counted from 0 on.
fn place_of(first: &FirstBlock, part: usize) -> Option<Ptr>
    requires { part < CHECKPOINT_PARTS }
    ensures { result ≡ slice_index_or first.now.parts part None }
{
    first.parts[part]
}

/// The checkpoint of an object that a pointer refers to.
#[tactic(auto, unfolding(crate::specs::Held::checkpoint_in, crate::specs::Held::places_in))]
pub fn read_checkpoint<B: Blocks>(table: &mut B, object: ObjectId, place: Ptr) -> Option<Checkpoint>
    requires held { HasItsBlocks (B.log table.old).held object (Some place) }
    ensures exact { Reads (λ checkpoint. checkpoint) result
        (checkpoint_held (B.log table.old).held object place) }
    ensures same { B.log table.new ≡ B.log table.old }
{
    let first = read_first(table, object, place)?;
    let one = read_part(table, object, &first, 1, place_of(&first, 0))?;
    let two = read_part(table, object, &first, 2, place_of(&first, 1))?;
    let three = read_part(table, object, &first, 3, place_of(&first, 2))?;
    first.joined(&one, &two, &three)
}

/// Where the block of a part is, if there is a first block.
fn part_place(first: &Option<FirstBlock>, part: usize) -> Option<Ptr>
    requires { part < CHECKPOINT_PARTS }
    ensures { result ≡ part_place first.now part }
{
    match first {
        None => None,
        Some(first) => place_of(first, part),
    }
}

/// How many blocks are at a place.
fn count_at(place: Option<Ptr>) -> usize
    ensures count { result ≡ length (option_to_list place) }
    ensures few { result ≤ 1 }
{
    match place {
        None => 0,
        Some(_) => 1,
    }
}

/// How many blocks the checkpoint that a pointer refers to is in.
#[tactic(auto, unfolding(crate::specs::Held::places_in))]
pub fn placed_blocks<B: Blocks>(table: &mut B, object: ObjectId, place: Ptr) -> usize
    requires held { HasItsBlocks (B.log table.old).held object (Some place) }
    ensures blocks { result ≡ length (checkpoint_places (B.log table.old).held object place) }
    ensures few { result ≤ CHECKPOINT_BLOCKS }
    ensures same { B.log table.new ≡ B.log table.old }
{
    let first = read_first(table, object, place);
    let one = count_at(part_place(&first, 0));
    let two = count_at(part_place(&first, 1));
    let three = count_at(part_place(&first, 2));
    one + (two + (three + 1))
}

/// Adds a place, if there is one.
fn add_place(place: Option<Ptr>, places: &mut Vec<Option<Ptr>>) -> Result<(), Refusal>
    ensures added { OnOk result
        (places.new.items ≡ places.old.items ++ map Some (option_to_list place)) }
    ensures refusal { IfErr result (λ e. e ≡ NoMemory) }
{
    if place.is_some() {
        places.push(place)?;
    }
    Ok(())
}

/// Adds the places of the blocks of the checkpoint that a pointer refers to, in the order in which
/// they are written.
///
/// NoMemory alone, where the memory for them is refused.
#[tactic(auto, unfolding(crate::specs::Held::places_in))]
pub fn add_places<B: Blocks>(
    table: &mut B,
    object: ObjectId,
    place: Ptr,
    places: &mut Vec<Option<Ptr>>,
) -> Result<(), Refusal>
    requires held { HasItsBlocks (B.log table.old).held object (Some place) }
    ensures added { OnOk result
        (places.new.items
        ≡ places.old.items
        ++ map Some (checkpoint_places (B.log table.old).held object place)) }
    ensures refusal { IfErr result (λ e. e ≡ NoMemory) }
    ensures same { B.log table.new ≡ B.log table.old }
{
    let first = read_first(table, object, place);
    add_place(part_place(&first, 0), places)?;
    add_place(part_place(&first, 1), places)?;
    add_place(part_place(&first, 2), places)?;
    add_place(Some(place), places)
}

/// Drops a block of a checkpoint of an object, if there is a place and a block is held there.
fn drop_place<B: Blocks>(table: &mut B, object: ObjectId, place: Option<Ptr>)
    requires held { IfSome place (HasNoOther (B.log table.old).held object) }
    ensures dropped { DropsPlaces (B.log table.old).held object (option_to_list place)
        (B.log table.new).held }
    ensures named { (B.log table.new).named ≡ (B.log table.old).named }
    ensures takes { TakesPlaces 0 (B.log table.old) (B.log table.new) }
{
    if let Some(place) = place {
        table.drop_block(place);
    }
}

/// Drops all blocks of the checkpoint of an object that a pointer refers to, if there is a pointer,
/// and no other.
pub fn drop_checkpoint<B: Blocks>(table: &mut B, object: ObjectId, place: Option<Ptr>)
    requires held { HasItsBlocks (B.log table.old).held object place }
    ensures dropped { DropsCheckpoint (B.log table.old).held object place (B.log table.new).held }
    ensures named { (B.log table.new).named ≡ (B.log table.old).named }
    ensures takes { TakesPlaces 0 (B.log table.old) (B.log table.new) }
{
    let Some(place) = place else {
        return;
    };
    let first = read_first(table, object, place);
    drop_place(table, object, part_place(&first, 0));
    drop_place(table, object, part_place(&first, 1));
    drop_place(table, object, part_place(&first, 2));
    drop_place(table, object, Some(place));
}

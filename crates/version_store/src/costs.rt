//! What a change takes of a store, counted from its object's inode before anything is written.

ghost use Rattle.std.specs.Prelude.{◌≡◌, ◌+◌, ◌≤◌, length, sum, None, Some, IfOk, OnOk};
ghost use Rattle.std.specs.Prelude.{MatchResult};
ghost use Rattle.s4_types.specs.declared.limits.TheConstants.{OBJECT_BLOCKS, OBJECT_BYTES};
ghost use Rattle.s4_types.specs.declared.limits.TheConstants.{ATTRIBUTE_PAIR_BYTES};
ghost use Rattle.s4_types.specs.declared.limits.TheConstants.{CHANGE_ENTRY_BYTES};
ghost use Rattle.s4_types.specs.declared.limits.TheConstants.{JOURNAL_ENTRY_BYTES};
ghost use Rattle.std.specs.List.{AllByRecursion};
ghost use Rattle.s4_model.specs.Limits.{Fits};
ghost use Rattle.codec.specs.Entry.{pair_length};
ghost use Rattle.undo_redo.specs.Between.{pair_between};
ghost use Rattle.version_store.specs.Costs.{past_count, pointers_moved, data_blocks, attribute_by};
ghost use Rattle.version_store.specs.Costs.{sizes_by, blocks_by, refusal_by};
ghost use Rattle.s4_model.specs.Effect.{object_of};

use codec::Inode;
use inode::{blocks_of_truncate, blocks_of_write};
use journal_chain::packing::blocks_needed;
use journal_chain::packing::laws::chains_are_short;
use object_map::Row;
use s4_types::limits::{BLOCK_BYTES, CHAIN_ENTRY_BYTES, OBJECT_BLOCKS};
use s4_types::{Change, ObjectId, Refusal};
use undo_redo::{Sizes, entry_sizes};

/// The object that a change is of; 0 for one of all objects.
pub(crate) fn object_of(change: &Change) -> ObjectId
    ensures { result ≡ object_of change.now }
{
    match change {
        Change::Create { object, .. } => *object,
        Change::Delete { object } => *object,
        Change::Write { object, .. } => *object,
        Change::Truncate { object, .. } => *object,
        Change::SetAttr { object, .. } => *object,
        Change::SetWindow { .. } => ObjectId::new(0),
        Change::Flush { .. } => ObjectId::new(0),
        Change::FlushO { object, .. } => *object,
    }
}

/// How many blocks of an inode are past a size.
#[tactic(auto, using(crate::proofs::Costing::past_all, crate::proofs::Counting::tally_most))]
fn blocks_past(inode: &Inode, size: u64) -> usize
    requires size { size ≤ OBJECT_BYTES }
    requires count { length inode.now.pointers ≡ OBJECT_BLOCKS }
    ensures exact { result ≡ past_count inode.now size }
    ensures most { result ≤ OBJECT_BLOCKS }
{
    let first = (size as usize).div_ceil(BLOCK_BYTES);
    let mut count = 0;
    for index in first..OBJECT_BLOCKS {
        if inode.pointers[index].is_some() {
            count += 1;
        }
    }
    count
}

/// How many pointers of an inode a change replaces: at most all `OBJECT_BLOCKS`.
#[tactic(auto, using(crate::proofs::Counting::moved_most, crate::proofs::Counting::touched_most))]
fn pointers_moved(change: &Change, inode: &Inode) -> usize
    requires fits { Fits change.now }
    requires size { inode.now.size ≤ OBJECT_BYTES }
    requires count { length inode.now.pointers ≡ OBJECT_BLOCKS }
    ensures exact { result ≡ pointers_moved change.now inode.now }
    ensures most { result ≤ OBJECT_BLOCKS }
{
    match change {
        Change::Write { offset, bytes, .. } => blocks_of_write(*offset, bytes.len()),
        Change::Truncate { size, .. } => blocks_past(inode, *size)
            + blocks_of_truncate(inode, *size as u32),
        _ => 0,
    }
}

/// How many data blocks a change of an inode appends: at most `OBJECT_BLOCKS`.
fn data_blocks(change: &Change, inode: &Inode) -> usize
    requires fits { Fits change.now }
    requires size { inode.now.size ≤ OBJECT_BYTES }
    ensures exact { result ≡ data_blocks change.now inode.now }
    ensures most { result ≤ OBJECT_BLOCKS }
{
    match change {
        Change::Write { offset, bytes, .. } => blocks_of_write(*offset, bytes.len()),
        Change::Truncate { size, .. } => blocks_of_truncate(inode, *size as u32),
        _ => 0,
    }
}

/// How many bytes two attributes take in an entry: none where they are equal, else both with a byte
/// each for their length.
#[tactic(auto, using(crate::proofs::Costing::pair_found, chain_rewriting::proofs::Bytes::pair_whole))]
fn pair_bytes(before: &[u8], after: &[u8]) -> usize
    requires before { length before.now ≤ 64 }
    requires after { length after.now ≤ 64 }
    ensures exact { result ≡ pair_length (pair_between before.now after.now) }
    ensures most { result ≤ ATTRIBUTE_PAIR_BYTES }
{
    if before == after {
        return 0;
    }
    (1 + before.len()) + (1 + after.len())
}

/// How many bytes the attributes before and after a change of an inode take in its entries.
#[tactic(auto, using(chain_rewriting::proofs::Bytes::pair_none))]
fn attribute_bytes(change: &Change, inode: &Inode) -> usize
    requires { Fits change.now }
    ensures exact { result
        ≡ pair_length (pair_between inode.now.attribute (attribute_by change.now inode.now)) }
    ensures most { result ≤ ATTRIBUTE_PAIR_BYTES }
{
    let before = inode.attribute.as_slice();
    match change {
        Change::Create { attribute, .. } => pair_bytes(before, attribute.as_slice()),
        Change::SetAttr { attribute, .. } => pair_bytes(before, attribute.as_slice()),
        _ => 0,
    }
}

/// How many bytes each journal entry of a change of an inode has.
#[tactic(auto, using(crate::proofs::Costing::sizes_most, crate::proofs::Costing::sizes_fit))]
fn sizes_of(change: &Change, inode: &Inode) -> Sizes
    requires fits { Fits change.now }
    requires size { inode.now.size ≤ OBJECT_BYTES }
    requires count { length inode.now.pointers ≡ OBJECT_BLOCKS }
    ensures exact { result.items ≡ sizes_by change.now inode.now }
    ensures most { sum result.items ≤ CHANGE_ENTRY_BYTES }
    ensures fit { AllByRecursion (λ size. size ≤ JOURNAL_ENTRY_BYTES) result.items }
{
    entry_sizes(
        pointers_moved(change, inode),
        attribute_bytes(change, inode),
    )
}

/// The sum of sizes.
fn total(sizes: &[usize]) -> usize
    requires { sum sizes.now ≤ CHANGE_ENTRY_BYTES }
    ensures { result ≡ sum sizes.now }
{
    let mut total = 0;
    for size in sizes {
        total += *size;
    }
    total
}

/// How many bytes the journal's entries of a change of an inode have, where its object has this row
/// and this many blocks may be appended. ChainFull where all of the journal's would be more than
/// `CHAIN_ENTRY_BYTES`, else NoSpace where the change needs more blocks.
pub(crate) fn bytes_of_entries(
    space: usize,
    change: &Change,
    row: &Row,
    inode: &Inode,
) -> Result<usize, Refusal>
    requires fits { Fits change.now }
    requires size { inode.now.size ≤ OBJECT_BYTES }
    requires count { length inode.now.pointers ≡ OBJECT_BLOCKS }
    ensures bytes { IfOk result (λ bytes. bytes ≡ sum (sizes_by change.now inode.now)) }
    ensures fit { OnOk result
        (AllByRecursion (λ size. size ≤ JOURNAL_ENTRY_BYTES) (sizes_by change.now inode.now)) }
    ensures answer { MatchResult result (λ _. refusal_by space change.now row.now inode.now ≡ None)
        (λ e. refusal_by space change.now row.now inode.now ≡ Some e) }
{
    chains_are_short();
    let sizes = sizes_of(change, inode);
    let bytes = total(sizes.as_slice());
    if row.journal_bytes as usize + bytes > CHAIN_ENTRY_BYTES {
        return Err(Refusal::ChainFull);
    }
    let journal_blocks = blocks_needed(row.head_bytes as usize, sizes.as_slice());
    if space < data_blocks(change, inode) + journal_blocks {
        return Err(Refusal::NoSpace);
    }
    Ok(bytes)
}

//! How many bytes of an object's journal changes take, counted before any is made.
ghost use Rattle.std.specs.Prelude.{◌≡◌, ℕ, ◌+◌, ◌≤◌, ◌^◌, length, min, is_some, sum};
ghost use Rattle.s4_types.specs.declared.limits.TheConstants.{ATTRIBUTE_BYTES};
ghost use Rattle.s4_model.specs.Refusals.{last_number};
ghost use Rattle.codec.specs.Checkpoint.{pointer_at};
ghost use Rattle.codec.specs.Entry.{pair_length};
ghost use Rattle.inode.specs.Touched.{cut_count};
ghost use Rattle.undo_redo.specs.Between.{pair_between};
ghost use Rattle.undo_redo.specs.Sizes.{entry_sizes};
ghost use Rattle.version_store.specs.Costs.{is_past, past_count};
ghost use Rattle.drive.specs.Fields.{state_in, store_of};
ghost use Rattle.history_view.specs.Contents.{content_of as bytes_of};
ghost use Rattle.history_restore.specs.Joining.{entry_bytes, is_too_long, run_bytes};
ghost use Rattle.history_restore.specs.Plans.{AreWithin, attribute_changes, changes_of};
ghost use Rattle.history_restore.specs.Plans.{cut_changes};

use crate::plans::Changes;
use block_runs::{Run, blocks_in};
use codec::Inode;
use drive::Drive;
use history_view::attribute_of;
use s4_types::limits::{
    BLOCK_BYTES, CHAIN_ENTRY_BYTES, ENTRY_TRIPLES, OBJECT_BLOCKS, SHORTEST_ENTRY_BYTES,
    TRIPLE_BYTES,
};
use s4_types::{ObjectId, Ptr, Version};
use segment_word::Naming;

/// How many bytes the entries of a change have that replaces this many pointers, with a pair of
/// attributes of this many bytes.
#[tactic(auto, using(crate::proofs::Costing::sizes_are))]
fn size_of(triples: u64, pair_bytes: u64) -> u64
    requires triples { triples ≤ 2 ^ 57 }
    requires pair { pair_bytes ≤ 2 ^ 63 + 2 ^ 57 }
    ensures { result ≡ sum (entry_sizes triples pair_bytes) }
{
    let entries = triples.saturating_sub(1) / ENTRY_TRIPLES as u64 + 1;
    SHORTEST_ENTRY_BYTES as u64 * entries + pair_bytes + TRIPLE_BYTES as u64 * triples
}

/// Whether an inode has a block at an index.
fn has_block(inode: &Inode, index: usize) -> bool
    ensures { result ≡ is_some (pointer_at inode.now index) }
{
    let pointers: &[Option<Ptr>] = &inode.pointers;
    let count = pointers.len();
    if index >= count {
        return false;
    }
    pointers[index].is_some()
}

/// Whether the block of an index is past a size, and isn't a hole.
fn is_past(inode: &Inode, size: u64, index: usize) -> bool
    requires { index ≤ 2 ^ 32 }
    ensures { result ≡ is_past inode.now size index }
{
    size <= (BLOCK_BYTES * index) as u64 && has_block(inode, index)
}

/// How many blocks of an inode are past a size.
#[tactic(auto, using(version_store::proofs::Costing::past_all))]
fn blocks_past(inode: &Inode, size: u64) -> u64
    ensures exact { result ≡ past_count inode.now size }
    ensures most { result ≤ 2 ^ 32 }
{
    let mut count: u64 = 0;
    for index in 0..OBJECT_BLOCKS {
        if is_past(inode, size, index) {
            count += 1;
        }
    }
    count
}

/// How many blocks a truncation to this size cuts in two.
fn blocks_cut(inode: &Inode, size: u64) -> u64
    ensures exact { result ≡ cut_count inode.now size }
    ensures most { result ≤ 1 }
{
    let block = BLOCK_BYTES as u64;
    if size >= u64::from(inode.size) || size % block == 0 {
        return 0;
    }
    if has_block(inode, (size / block) as usize) {
        1
    } else {
        0
    }
}

/// How many bytes a cut takes.
#[tactic(auto, using(crate::proofs::Costing::cut_takes))]
fn cut_bytes(inode: &Inode, cut: Option<u64>) -> u64
    ensures { (o : ℕ) → result ≡ entry_bytes (cut_changes o cut) inode.now }
{
    match cut {
        None => 0,
        Some(size) => size_of(blocks_past(inode, size) + blocks_cut(inode, size), 0),
    }
}

/// How many bytes runs take that are written. The greatest number where there are more.
fn run_bytes(runs: &[Run]) -> u64
    ensures { result ≡ min last_number (run_bytes runs.now) }
{
    let mut bytes: u64 = 0;
    for run in runs {
        bytes = bytes.saturating_add(size_of(blocks_in(run), 0));
    }
    bytes
}

/// How many bytes two attributes take in an entry: none where they are equal, else both with a byte
/// each for their length.
#[tactic(auto, using(version_store::proofs::Costing::pair_found, chain_rewriting::proofs::Bytes::pair_whole))]
fn pair_bytes(before: &[u8], after: &[u8]) -> u64
    requires { length before.now ≤ ATTRIBUTE_BYTES }
    ensures exact { result ≡ pair_length (pair_between before.now after.now) }
    ensures most { result ≤ 2 ^ 63 + 2 ^ 57 }
{
    if before == after {
        return 0;
    }
    (1 + before.len() as u64) + (1 + after.len() as u64)
}

/// How many bytes a replaced attribute takes.
#[tactic(auto, using(crate::proofs::Costing::name_takes))]
fn attribute_bytes(inode: &Inode, attribute: &[u8], wanted: bool) -> u64
    ensures { (o : ℕ)
        → result ≡ entry_bytes (attribute_changes o attribute.now wanted) inode.now }
{
    if !wanted {
        return 0;
    }
    size_of(0, pair_bytes(inode.attribute.as_slice(), attribute))
}

/// How many bytes changes of an object take that has this inode. The greatest number where there
/// are more.
fn changes_bytes(inode: &Inode, before: &Version, runs: &[Run], changes: &Changes) -> u64
    requires { AreWithin (bytes_of before.now) runs.now }
    ensures { (o : ℕ)
        → result
        ≡ min last_number (entry_bytes (changes_of before.now runs.now changes.now o) inode.now) }
{
    let attribute = attribute_bytes(inode, attribute_of(before), changes.attribute);
    let others = cut_bytes(inode, changes.cut).saturating_add(attribute);
    run_bytes(runs).saturating_add(others)
}

/// Whether an object's journal would be too long with the entries of changes.
pub(crate) fn is_too_long<J: Naming>(
    drive: &mut Drive<J>,
    object: ObjectId,
    before: &Version,
    runs: &[Run],
    changes: &Changes,
) -> bool
    requires { AreWithin (bytes_of before.now) runs.now }
    ensures long { result
        ≡ is_too_long (store_of drive.old) (state_in drive.old).clock object
        (changes_of before.now runs.now changes.now object) }
    ensures state { state_in drive.new ≡ state_in drive.old }
    ensures store { store_of drive.new ≡ store_of drive.old }
{
    let clock = drive.clock();
    let Some(row) = drive.row(object) else {
        return false;
    };
    let Some(inode) = drive.inode_at(object, clock) else {
        return false;
    };
    let bytes = changes_bytes(&inode, before, runs, changes);
    bytes.saturating_add(u64::from(row.journal_bytes)) > CHAIN_ENTRY_BYTES as u64
}

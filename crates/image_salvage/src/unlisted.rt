//! The objects that no row gives.
ghost use Rattle.std.specs.Prelude.{◌≡◌, ℕ, ◌<◌, ◌++◌, [], ◌∷◌, None, IfSome, IfNone, IfOk, IfErr};
ghost use Rattle.std.specs.Prelude.{OnOk, is_some, option_copied};
ghost use Rattle.s4_types.specs.declared.refusals.Refusal.TheVariants.{NoMemory};
ghost use Rattle.object_map.specs.Objects.{IsNextAbove, value_of, without_value};
ghost use Rattle.segment_table.specs.Used.{used_at};
ghost use Rattle.image_objects.specs.Chains.{entries_used};
ghost use Rattle.image_objects.specs.Inodes.{first_used};
ghost use Rattle.image_objects.specs.VersionChain.{present_used};
ghost use Rattle.image_salvage.specs.LeftOut.{cut_moment};
ghost use Rattle.image_salvage.specs.Newest.{AreGenerations};
ghost use Rattle.image_salvage.specs.Unlisted.{FindsUnlisted, first_moment, inode_made};
ghost use Rattle.image_salvage.specs.Unlisted.{unlisted_inode};
ghost use Rattle.image_salvage.specs.private.Passing.{AddsFound, AreFoundAll, AreLeft, IsLeft};

use crate::heads::{newest_checkpoints, newest_heads};
use crate::left_out::{cut_moment, inode_before};
use crate::newest::Note;
use crate::outdated::believed_rows;
use crate::rows::leads;
use codec::{Entry, Inode};
use image_objects::{ImageRow, VersionChain, read_version_chain};
use image_parts::RowPart;
use s4_types::{Moment, ObjectId, Refusal};
use segment_table::TableBuilder;
use std::alloc::Global;
use std::collections::BTreeMap;
use std::ops::Bound;
use verifier::TableBlocks;

/// A live object that no row gives, as it is after the last change that its newest block has whole.
/// It may have been deleted or hidden since.
#[derive(Clone, Copy)]
pub struct Unlisted {
    pub object: ObjectId,
    /// Where no checkpoint says when the object was made, that is the moment of the first entry of
    /// its journal.
    pub inode: Inode,
    /// Whether the newest change was left out: its last entry that is found may have others after
    /// it, in a frame that is lost.
    pub left_out: bool,
}

/// Adds an item at the end. NoMemory alone.
pub(crate) fn push<T: Copy>(items: &mut Vec<T>, item: &T) -> Result<(), Refusal>
    ensures items { OnOk result (items.new.items ≡ items.old.items ++ item.now ∷ []) }
    ensures refusal { IfErr result (λ e. e ≡ NoMemory) }
{
    items.push(*item)?;
    Ok(())
}

/// The value of a key goes, if there is one.
fn take_out<V: Drop>(map: &mut BTreeMap<u64, V>, key: u64)
    ensures { (q : ℕ)
        → value_of map.new.entries q ≡ without_value (value_of map.old.entries) key q }
{
    let _ = map.remove(&key);
}

/// The least key above this one.
fn next_key<V: Drop>(map: &BTreeMap<u64, V>, key: u64) -> Option<u64>
    ensures some { IfSome result (λ next. IsNextAbove map.now.entries key next) }
    ensures none { IfNone result ((q : ℕ) → key < q → value_of map.now.entries q ≡ None) }
{
    let above = (Bound::Excluded(key), Bound::Unbounded);
    let (next, _) = map.range(above).next()?;
    Some(*next)
}

/// Leaves the object of a row out, where the row gives it. NoMemory alone.
fn pass_row(
    alloc: Global,
    table: &TableBuilder,
    row: &RowPart,
    heads: &mut BTreeMap<u64, Note>,
) -> Result<(), Refusal>
    ensures left { OnOk result
        (IsLeft (used_at table.now) row.now (value_of heads.old.entries)
        (value_of heads.new.entries)) }
    ensures refusal { IfErr result (λ e. e ≡ NoMemory) }
{
    if !leads(alloc, table, row)? {
        return Ok(());
    }
    take_out(heads, row.object.number());
    Ok(())
}

/// Leaves the objects out that rows give. NoMemory alone.
fn pass_rows(
    alloc: Global,
    table: &TableBuilder,
    rows: &[RowPart],
    heads: &mut BTreeMap<u64, Note>,
) -> Result<(), Refusal>
    ensures left { OnOk result
        (AreLeft (used_at table.now) rows.now (value_of heads.old.entries)
        (value_of heads.new.entries)) }
    ensures refusal { IfErr result (λ e. e ≡ NoMemory) }
{
    for row in rows {
        pass_row(alloc, table, row, heads)?;
    }
    Ok(())
}

/// The moment of the first of entries, 0 where there is none.
fn first_moment(entries: &[Entry]) -> Moment
    ensures { result ≡ first_moment entries.now }
{
    match entries.first() {
        None => Moment::new(0),
        Some(entry) => entry.moment(),
    }
}

/// The inode that a row gives that was made of blocks, by the one after its entries and the moment
/// of the first.
fn inode_made(row: &ImageRow, first: Moment, present: &Inode) -> Inode
    ensures { result ≡ inode_made row.now.checkpoint first present.now }
{
    if row.checkpoint.is_some() {
        return *present;
    }
    let mut inode = *present;
    inode.created = first;
    inode
}

/// What an object has.
fn note_at(heads: &BTreeMap<u64, Note>, object: u64) -> Option<&Note>
    ensures { option_copied result ≡ value_of heads.now.entries object }
{
    heads.get(&object)
}

/// What a row gives that was made of blocks of an object, by its version chain.
fn unlisted_by(
    table: &TableBuilder,
    object: ObjectId,
    row: &ImageRow,
    versions: &VersionChain,
) -> Unlisted
    requires entries { versions.now.chain.entries.items ≡ entries_used (used_at table.now) row.now }
    requires first { versions.now.first ≡ first_used (used_at table.now) row.now }
    requires present { versions.now.present ≡ present_used (used_at table.now) row.now }
    ensures object { result.object ≡ object }
    ensures inode { result.inode ≡ unlisted_inode (used_at table.now) row.now }
    ensures left_out { result.left_out ≡ is_some (cut_moment (used_at table.now) row.now) }
{
    let entries = versions.chain.entries.as_slice();
    let cut = cut_moment(table, row, entries);
    let whole = inode_before(table, row, versions, cut);
    let inode = inode_made(row, first_moment(entries), &whole);
    Unlisted {
        object,
        inode,
        left_out: cut.is_some(),
    }
}

/// Adds an object, where the newest row that blocks make of it gives a live inode. NoMemory alone.
fn add_found(
    alloc: Global,
    table: &TableBuilder,
    heads: &BTreeMap<u64, Note>,
    object: u64,
    found: &mut Vec<Unlisted>,
) -> Result<(), Refusal>
    requires numbered { 0 < object }
    ensures found { OnOk result
        (AddsFound (used_at table.now) (value_of heads.now.entries) object found.old.items
        found.new.items) }
    ensures refusal { IfErr result (λ e. e ≡ NoMemory) }
{
    let Some(note) = note_at(heads, object) else {
        return Ok(());
    };
    let blocks = TableBlocks { table };
    let read = read_version_chain(alloc, &blocks, &note.row, Moment::new(u64::MAX))?;
    let Some(versions) = read else {
        return Ok(());
    };
    let unlisted = unlisted_by(table, ObjectId::new(object), &note.row, &versions);
    if !unlisted.inode.alive {
        return Ok(());
    }
    push(found, &unlisted)
}

/// The objects of which the newest rows that blocks make give live inodes, ascending. NoMemory
/// alone.
fn all_found(
    alloc: Global,
    table: &TableBuilder,
    heads: &BTreeMap<u64, Note>,
) -> Result<Vec<Unlisted>, Refusal>
    ensures found { IfOk result
        (λ found. AreFoundAll (used_at table.now) (value_of heads.now.entries) found.items) }
    ensures refusal { IfErr result (λ e. e ≡ NoMemory) }
{
    let mut found = Vec::new(alloc);
    let mut last = 0;
    while let Some(object) = next_key(heads, last) {
        add_found(alloc, table, heads, object, &mut found)?;
        last = object;
    }
    Ok(found)
}

/// The rows of a damaged image that aren't outdated, and the objects that none of them gives.
#[derive(Drop)]
pub(crate) struct FoundObjects {
    pub(crate) rows: Vec<RowPart>,
    pub(crate) unlisted: Vec<Unlisted>,
}

/// Those of these rows that aren't outdated, and the live objects that none of them gives,
/// ascending, as far as whole frames have their checkpoints and journals.
///
/// NoMemory alone, where memory for them is refused. Of each journal block one chain is read, and
/// of each row: linear in the image.
pub(crate) fn find_unlisted(
    alloc: Global,
    table: &TableBuilder,
    generations: &[u32],
    there: &[RowPart],
) -> Result<FoundObjects, Refusal>
    requires generations { AreGenerations (used_at table.now) generations.now }
    ensures finds { IfOk result
        (λ found. FindsUnlisted (used_at table.now) there.now found.rows.items
        found.unlisted.items) }
    ensures refusal { IfErr result (λ e. e ≡ NoMemory) }
{
    let checkpoints = newest_checkpoints(alloc, table, generations)?;
    let mut heads = newest_heads(alloc, table, generations, &checkpoints)?;
    let rows = believed_rows(alloc, table, there, &heads)?;
    pass_rows(alloc, table, rows.as_slice(), &mut heads)?;
    let unlisted = all_found(alloc, table, &heads)?;
    Ok(FoundObjects { rows, unlisted })
}

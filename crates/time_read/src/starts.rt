//! The inode at a moment from the nearest checkpoint, and how many entries lie between the two.
ghost use Rattle.std.specs.Prelude.{◌≡◌, ◌⊎◌, ◌≤◌, length, Some, IsSome, IfSome, IfOk, IfErr};
ghost use Rattle.std.specs.Prelude.{Contains};
ghost use Rattle.s4_types.specs.declared.limits.TheConstants.{CHAIN_ENTRIES};
ghost use Rattle.s4_types.specs.declared.refusals.Refusal.TheVariants.{NoMemory};
ghost use Rattle.codec.specs.declared.inodes.Inode.{Inode as InodeFields};
ghost use Rattle.checkpoint.specs.Held.{checkpoint_held};
ghost use Rattle.undo_redo.specs.Runs.{Run};
ghost use Rattle.time_read.specs.Caches.{key_of, IsTrueOf, AddsTrue};
ghost use Rattle.time_read.specs.Orderly.{inode_behind};
ghost use Rattle.time_read.specs.Rows.{IsRow, entries_of, first_of, inode_of};
ghost use Rattle.time_read.specs.Starts.{apart, place_of, starts_of, least_over, least_distance};
ghost use Rattle.time_read.specs.private.Nearest.{start_at, nearer, nearest_with, IsNamed};

use crate::inodes::entries;
use block_log::Blocks;
use checkpoint::laws::a_checkpoint_is_in_its_blocks;
use checkpoint::{CacheKey, InodeCache, read_checkpoint};
use codec::{Entry, Inode};
use journal_chain::packing::laws::chains_are_short;
use object_map::{Row, Side};
use s4_types::{Moment, ObjectId, Ptr, Refusal};
use std::alloc::Global;
use undo_redo::laws::{entries_determine_a_run, groups_part_at_a_moment};
use undo_redo::{blank, redo_all, undo_all};

/// The place of a moment among the entries: how many are of the moment or earlier.
#[tactic(auto, using(crate::proofs::Leading::few_by))]
fn place_of(entries: &[Entry], at: Moment) -> usize
    ensures place { result ≡ place_of entries.now at }
    ensures few { result ≤ length entries.now }
{
    entries.iter().filter(|entry| entry.moment() <= at).count()
}

/// A checkpoint at which the way to an inode can begin, and its place among the entries.
#[derive(Clone, Copy)]
struct Start {
    side: Side,
    place: usize,
}

fn start_at(entries: &[Entry], side: Side) -> Start
    ensures { result ≡ start_at entries.now side }
{
    Start {
        side,
        place: place_of(entries, side.moment),
    }
}

/// The nearer of two to a place, the first where they are as far.
fn nearer(to: usize, best: Start, other: Start) -> Start
    ensures { result ≡ nearer to best other }
{
    if other.place.abs_diff(to) < best.place.abs_diff(to) {
        other
    } else {
        best
    }
}

/// The nearest to a place of an object's newest checkpoint and the older ones. Of those that are as
/// far it is the newest one, or else the latest.
#[tactic(auto, using(crate::proofs::Starting::push_nearest))]
fn nearest(entries: &[Entry], to: usize, newest: Start, older: &[Side]) -> Start
    ensures { result ≡ nearest_with entries.now to newest older.now }
{
    let mut best = newest;
    for side in older.iter().rev() {
        best = nearer(to, best, start_at(entries, *side));
    }
    best
}

/// The inode of the checkpoint that a pointer refers to.
fn read_inode<B: Blocks>(table: &mut B, object: ObjectId, place: Ptr) -> Inode
    requires { IsSome (checkpoint_held (B.log table.old).held object place) }
    ensures inode { IfSome (checkpoint_held (B.log table.old).held object place)
        (λ c. result ≡ c.inode) }
    ensures same { B.log table.new ≡ B.log table.old }
{
    a_checkpoint_is_in_its_blocks();
    let Some(checkpoint) = read_checkpoint(table, object, place) else {
        unreachable!()
    };
    *checkpoint.inode()
}

/// Reads the inode of the checkpoint that a row names, and keeps it in the cache, where there is
/// memory for that.
fn read_and_keep<B: Blocks>(
    table: &mut B,
    cache: &mut InodeCache,
    object: ObjectId,
    row: &Row,
    place: Ptr,
) -> Inode
    requires { IsSome (checkpoint_held (B.log table.old).held object place) }
    ensures inode { IfSome (checkpoint_held (B.log table.old).held object place)
        (λ c. result ≡ c.inode) }
    ensures kept { (e : _) → Contains cache.new.pairs e
        → Contains cache.old.pairs e ⊎ (e ≡ (key_of object row.now, result)) }
    ensures same { B.log table.new ≡ B.log table.old }
{
    let inode = read_inode(table, object, place);
    let key = CacheKey {
        object,
        stamp: row.stamp,
    };
    cache.put(key, &inode);
    inode
}

/// The inode of the checkpoint that a row names, out of the cache; else it is read, and kept there.
fn newest_inode<B: Blocks>(
    table: &mut B,
    cache: &mut InodeCache,
    object: ObjectId,
    row: &Row,
    place: Ptr,
) -> Inode
    requires there { IsSome (checkpoint_held (B.log table.old).held object place) }
    requires named { row.now.checkpoint ≡ Some place }
    requires cached { IsTrueOf cache.old.pairs (B.log table.old).held object row.now }
    ensures inode { IfSome (checkpoint_held (B.log table.old).held object place)
        (λ c. result ≡ c.inode) }
    ensures kept { AddsTrue (B.log table.old).held object row.now cache.old.pairs cache.new.pairs }
    ensures same { B.log table.new ≡ B.log table.old }
{
    let key = CacheKey {
        object,
        stamp: row.stamp,
    };
    if let Some(inode) = cache.get(key) {
        return inode;
    }
    read_and_keep(table, cache, object, row, place)
}

/// The inode of a checkpoint that a row names. The newest one's is kept in the cache, at this
/// place.
fn named_inode<B: Blocks>(
    table: &mut B,
    cache: &mut InodeCache,
    object: ObjectId,
    row: &Row,
    newest: Ptr,
    side: Side,
) -> Inode
    requires row { IsRow (B.log table.old).held object row.now }
    requires newest { row.now.checkpoint ≡ Some newest }
    requires named { IsNamed (B.log table.old).held object row.now side }
    requires cached { IsTrueOf cache.old.pairs (B.log table.old).held object row.now }
    ensures inode { result ≡ inode_of (B.log table.old).held object row.now side.moment }
    ensures kept { AddsTrue (B.log table.old).held object row.now cache.old.pairs cache.new.pairs }
    ensures same { B.log table.new ≡ B.log table.old }
{
    if side.moment < row.checkpoint_moment {
        return read_inode(table, object, side.place);
    }
    newest_inode(table, cache, object, row, newest)
}

/// The inode at which the way to a place begins, and its place: that of the nearest checkpoint; of
/// an object without one the blank inode, before all entries.
fn begin<B: Blocks>(
    table: &mut B,
    cache: &mut InodeCache,
    object: ObjectId,
    row: &Row,
    entries: &[Entry],
    to: usize,
) -> (Inode, usize)
    requires row { IsRow (B.log table.old).held object row.now }
    requires cached { IsTrueOf cache.old.pairs (B.log table.old).held object row.now }
    requires entries { entries.now ≡ entries_of (B.log table.old).held object row.now }
    ensures inode { result.0
        ≡ inode_behind (first_of (B.log table.old).held object row.now) entries.now result.1 }
    ensures few { result.1 ≤ length entries.now }
    ensures count { apart result.1 to ≡ least_over entries.now to (starts_of row.now) }
    ensures kept { AddsTrue (B.log table.old).held object row.now cache.old.pairs cache.new.pairs }
    ensures same { B.log table.new ≡ B.log table.old }
{
    groups_part_at_a_moment();
    let Some(place) = row.checkpoint else {
        return (blank(row.created), 0);
    };
    let moment = row.checkpoint_moment;
    let newest = start_at(entries, Side { moment, place });
    let start = nearest(entries, to, newest, row.sides.as_slice());
    let inode = named_inode(table, cache, object, row, place, start.side);
    (inode, start.place)
}

/// Makes of the inode after this many entries the one after this many others.
#[tactic(auto, using(crate::proofs::Leading::led_on, crate::proofs::Leading::run_between))]
fn lead(entries: &[Entry], from: usize, to: usize, inode: &mut Inode)
    requires from { from ≤ length entries.now }
    requires to { to ≤ length entries.now }
    ensures { (first last : InodeFields) → Run first entries.now last
        → inode.old ≡ inode_behind first entries.now from
        → inode.new ≡ inode_behind first entries.now to }
{
    entries_determine_a_run();
    if from <= to {
        redo_all(&entries[from..to], inode);
    } else {
        undo_all(&entries[to..from], inode);
    }
}

/// How many entries lie between two places among those of a chain.
fn entries_between(from: usize, to: usize) -> u32
    requires from { from ≤ CHAIN_ENTRIES }
    requires to { to ≤ CHAIN_ENTRIES }
    ensures { result ≡ apart from to }
{
    from.abs_diff(to) as u32
}

/// The inode at a moment, led to from the nearest checkpoint, and how many of the entries were
/// undone or redone.
fn led_from_nearest<B: Blocks>(
    table: &mut B,
    cache: &mut InodeCache,
    object: ObjectId,
    row: &Row,
    entries: &[Entry],
    at: Moment,
) -> (Inode, u32)
    requires row { IsRow (B.log table.old).held object row.now }
    requires cached { IsTrueOf cache.old.pairs (B.log table.old).held object row.now }
    requires entries { entries.now ≡ entries_of (B.log table.old).held object row.now }
    ensures inode { result.0 ≡ inode_of (B.log table.old).held object row.now at }
    ensures count { result.1 ≡ least_distance (B.log table.old).held object row.now at }
    ensures kept { AddsTrue (B.log table.old).held object row.now cache.old.pairs cache.new.pairs }
    ensures same { B.log table.new ≡ B.log table.old }
{
    groups_part_at_a_moment();
    chains_are_short();
    let to = place_of(entries, at);
    let (mut inode, from) = begin(table, cache, object, row, entries, to);
    lead(entries, from, to, &mut inode);
    (inode, entries_between(from, to))
}

/// The inode of an object that is current at a moment, and how many entries of its journal were
/// undone or redone for it: as many as lie between the moment's place and the nearest start.
///
/// The starts are the checkpoints that the row names. Of those that are as far it is the newest, or
/// else the latest of the older ones. An object without a checkpoint starts as blank, before all
/// entries. The journal is read whole, and one checkpoint, but for the newest where the cache has
/// its inode; else the cache keeps it, where there is memory for that.
///
/// NoMemory alone, where the memory for the entries is refused; it is asked for once.
pub fn inode_at_counted<B: Blocks>(
    alloc: Global,
    table: &mut B,
    cache: &mut InodeCache,
    object: ObjectId,
    row: &Row,
    at: Moment,
) -> Result<(Inode, u32), Refusal>
    requires row { IsRow (B.log table.old).held object row.now }
    requires cached { IsTrueOf cache.old.pairs (B.log table.old).held object row.now }
    ensures inode { IfOk result
        (λ found. found.0 ≡ inode_of (B.log table.old).held object row.now at) }
    ensures count { IfOk result
        (λ found. found.1 ≡ least_distance (B.log table.old).held object row.now at) }
    ensures refusal { IfErr result (λ e. e ≡ NoMemory) }
    ensures kept { AddsTrue (B.log table.old).held object row.now cache.old.pairs cache.new.pairs }
    ensures same { B.log table.new ≡ B.log table.old }
{
    let entries = entries(alloc, table, object, row)?;
    Ok(led_from_nearest(table, cache, object, row, &entries, at))
}

/// The inode of an object that is current at a moment: all changes up to the moment are in it, and
/// none after. It is led to from the nearest checkpoint, as by [`inode_at_counted`].
///
/// NoMemory alone, where the memory for the entries is refused; it is asked for once.
pub fn inode_at<B: Blocks>(
    alloc: Global,
    table: &mut B,
    cache: &mut InodeCache,
    object: ObjectId,
    row: &Row,
    at: Moment,
) -> Result<Inode, Refusal>
    requires row { IsRow (B.log table.old).held object row.now }
    requires cached { IsTrueOf cache.old.pairs (B.log table.old).held object row.now }
    ensures inode { IfOk result
        (λ inode. inode ≡ inode_of (B.log table.old).held object row.now at) }
    ensures refusal { IfErr result (λ e. e ≡ NoMemory) }
    ensures kept { AddsTrue (B.log table.old).held object row.now cache.old.pairs cache.new.pairs }
    ensures same { B.log table.new ≡ B.log table.old }
{
    let (inode, _) = inode_at_counted(alloc, table, cache, object, row, at)?;
    Ok(inode)
}

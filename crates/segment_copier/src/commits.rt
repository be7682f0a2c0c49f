//! Copied moves that are put in place.
ghost use Rattle.std.specs.Prelude.{◌≡◌, ◌⊎◌, ℕ, ◌<◌, true, false, Err, IsSome, IfSome, IfOk};
ghost use Rattle.std.specs.Prelude.{IfErr, OnOk, OnErr, MatchResult, length, map};
ghost use Rattle.std.specs.List.{AllByRecursion};
ghost use Rattle.s4_types.specs.declared.refusals.Refusal.TheVariants.{NoMemory, NoRoom};
ghost use Rattle.object_map.specs.Rows.{row_of};
ghost use Rattle.segment_word.specs.Frames.{is_sealed};
ghost use Rattle.segment_word.specs.Layout.{frame_at, block_bytes};
ghost use Rattle.segment_table.specs.Table.{held_at};
ghost use Rattle.version_store.specs.Versions.{version_in};
ghost use Rattle.drive.specs.Fields.{state_in, store_of};
ghost use Rattle.drive.specs.Keeping.{KeepsVersions};
ghost use Rattle.interleaving.specs.Moving.{IsCurrent, HoldsNone};
ghost use Rattle.interleaving.specs.Acting.{IsUnmoved};
ghost use Rattle.segment_copier.specs.Moves.{data_in, IsMemoryOver};
ghost use Rattle.segment_copier.specs.Commits.{copy_at, copies_in, IsMovedBy, blocks_moved};
ghost use Rattle.segment_copier.specs.private.Copying.{IsTrueIn};

use crate::held::data_among;
use crate::plans::Moved;
use crate::states::is_sealed_now;
use block_log::Block;
use drive::Drive;
use s4_types::{ObjectId, Ptr, Refusal};
use segment_table::OverFrames;
use segment_table::laws::{places_ahead_are_in_no_sealed_frame, what_is_listed_is_held};
use segment_word::{Memory, Naming};
use std::alloc::Global;
use version_store::CopiedBlock;

/// The bytes of the held block at a place: those of the copy at this index, where it is of that
/// place, and else they are read.
fn bytes_at<J: Naming>(
    drive: &mut Drive<J>,
    place: Ptr,
    made: &[CopiedBlock],
    index: usize,
) -> Block
    requires held { IsSome (held_at drive.old.store.table place) }
    requires made { AllByRecursion (IsTrueIn drive.old.store.table) made.now }
    ensures bytes { result
        ≡ block_bytes (frame_at drive.old.store.table.seat.frames place.frame).contents
        place.block }
    ensures same { drive.new ≡ drive.old }
{
    if index < made.len() && made[index].place == place {
        return made[index].bytes;
    }
    drive.block(place)
}

/// Copies of the held blocks at these places, in their order. A copy that was made of a place is
/// taken where it has the same index; each other block is read.
fn copies_at<J: Naming>(
    alloc: Global,
    drive: &mut Drive<J>,
    places: &[Ptr],
    made: &[CopiedBlock],
) -> Result<Vec<CopiedBlock>, Refusal>
    requires held { AllByRecursion (λ p. IsSome (held_at drive.old.store.table p)) places.now }
    requires made { AllByRecursion (IsTrueIn drive.old.store.table) made.now }
    ensures copies { IfOk result
        (λ copies. copies.items ≡ map (copy_at drive.old.store.table) places.now) }
    ensures refusal { IfErr result (λ e. e ≡ NoMemory) }
    ensures same { drive.new ≡ drive.old }
{
    let mut copies = Vec::with_capacity(alloc, places.len())?;
    for place in places {
        let bytes = bytes_at(drive, *place, made, copies.len());
        copies.push(CopiedBlock {
            place: *place,
            bytes,
        })?;
    }
    Ok(copies)
}

/// Copies of the data blocks that an object holds in a frame now, by ascending block. What is
/// remembered of the copies that were made shows that each is of what its place holds, if it holds
/// anything still.
fn copies_now<J: Naming>(
    alloc: Global,
    drive: &mut Drive<J>,
    frame: u16,
    object: ObjectId,
    made: &[CopiedBlock],
    memory: &mut Memory,
) -> Result<Vec<CopiedBlock>, Refusal>
    requires memory { IsMemoryOver J.frames made.now memory.old }
    ensures copies { IfOk result
        (λ copies. copies.items ≡ copies_in drive.old.store.table object frame) }
    ensures made { OnOk result
        (map (λ c. c.place) made.now ≡ data_in drive.old.store.table object frame
        → made.now ≡ copies_in drive.old.store.table object frame) }
    ensures refusal { IfErr result (λ e. e ≡ NoMemory) }
    ensures same { drive.new ≡ drive.old }
{
    what_is_listed_is_held();
    drive.recall(memory);
    let held = drive.held_in(object, frame)?;
    let places = data_among(alloc, drive, held.as_slice())?;
    copies_at(alloc, drive, places.as_slice(), made)
}

/// Puts copies of the data blocks that an object holds in a sealed frame in place of these.
fn put<J: Naming>(
    drive: &mut Drive<J>,
    frame: u16,
    object: ObjectId,
    copies: &[CopiedBlock],
) -> Result<(), Refusal>
    requires some { IsSome (row_of drive.old.store.rows object) }
    requires sealed { is_sealed (frame_at drive.old.store.table.seat.frames frame).phase ≡ true }
    requires copies { copies.now ≡ copies_in drive.old.store.table object frame }
    ensures moved { OnOk result
        (IfSome (row_of drive.old.store.rows object)
        (λ row. IsMovedBy drive.old frame object (copies_in drive.old.store.table object frame)
        row drive.new)) }
    ensures left { OnOk result (HoldsNone drive.new.store.table object frame) }
    ensures room { result ≡ Err NoRoom
        → IfSome (row_of drive.old.store.rows object)
        (λ row. length (store_of drive.old).log.ahead
        < blocks_moved drive.old frame object row) }
    ensures refusal { IfErr result (λ e. (e ≡ NoRoom) ⊎ (e ≡ NoMemory)) }
    ensures versions { (o t : ℕ)
        → version_in (store_of drive.new) o t ≡ version_in (store_of drive.old) o t }
    ensures unchanged { OnErr result (store_of drive.new ≡ store_of drive.old) }
    ensures ledger { drive.new.ledger ≡ drive.old.ledger }
    ensures needed { KeepsVersions (state_in drive.old) (store_of drive.old) (store_of drive.new) }
{
    what_is_listed_is_held();
    places_ahead_are_in_no_sealed_frame();
    drive.listings();
    drive.relocate(object, copies)
}

/// Puts a copied move in place: copies of the data blocks that the object holds in the frame now,
/// its checkpoint, if it has one, and its whole journal with pointers to the copies are appended,
/// and the row is changed once more. After that the object holds no block in the frame. The copies
/// are those that were made, where they are of just these blocks; a block that wasn't copied is
/// read here. Where the object has no data block there any more, its checkpoint and its journal
/// alone are written. A move that is empty changes nothing. Each version of each object is as it
/// was at every moment, and so is the history, whatever is answered.
///
/// Stale exactly where the row's stamp changed since the move was planned, or the row is gone, also
/// of an empty move, or where there is something to move and the frame isn't sealed any more, which
/// no step of a store brings about that leaves the stamp; else NoRoom where fewer places are ahead
/// than must be written, and NoMemory where memory is refused. Nothing has changed then.
pub fn commit<J: Naming>(
    alloc: Global,
    drive: &mut Drive<J>,
    moved: Moved<J>,
) -> Result<(), Refusal>
    ensures told { MatchResult result (λ _. IsCurrent drive.old moved.what)
        (IsUnmoved drive.old moved.what) }
    ensures moved { OnOk result
        (moved.what.is_empty ≡ false
        → IfSome (row_of drive.old.store.rows moved.what.object)
        (λ row. IsMovedBy drive.old moved.what.frame moved.what.object
        (copies_in drive.old.store.table moved.what.object moved.what.frame) row
        drive.new)) }
    ensures made { OnOk result
        (moved.what.is_empty ≡ false
        → map (λ c. c.place) moved.copies
        ≡ data_in drive.old.store.table moved.what.object moved.what.frame
        → moved.copies ≡ copies_in drive.old.store.table moved.what.object moved.what.frame) }
    ensures left { OnOk result
        (moved.what.is_empty ≡ false
        → HoldsNone drive.new.store.table moved.what.object moved.what.frame) }
    ensures empty { OnOk result
        (moved.what.is_empty ≡ true → store_of drive.new ≡ store_of drive.old) }
    ensures room { result ≡ Err NoRoom
        → IfSome (row_of drive.old.store.rows moved.what.object)
        (λ row. length (store_of drive.old).log.ahead
        < blocks_moved drive.old moved.what.frame moved.what.object row) }
    ensures versions { (o t : ℕ)
        → version_in (store_of drive.new) o t ≡ version_in (store_of drive.old) o t }
    ensures unchanged { OnErr result (store_of drive.new ≡ store_of drive.old) }
    ensures ledger { drive.new.ledger ≡ drive.old.ledger }
    ensures needed { KeepsVersions (state_in drive.old) (store_of drive.old) (store_of drive.new) }
{
    let Moved {
        frame,
        object,
        stamp,
        copies,
        memory,
        of: _,
    } = moved;
    let Some(row) = drive.row(object) else {
        return Err(Refusal::Stale);
    };
    if row.stamp != stamp {
        return Err(Refusal::Stale);
    }
    let Some(mut memory) = memory else {
        return Ok(());
    };
    // What is appended goes to no sealed frame. It could go to this one, were it sealed no more;
    // with an equal stamp it is, as `what_was_planned_is_still_there` says over the steps of a
    // store, but no contract says that the drive came by such steps.
    if !is_sealed_now(drive, frame) {
        return Err(Refusal::Stale);
    }
    let now = copies_now(alloc, drive, frame, object, copies.as_slice(), &mut memory)?;
    put(drive, frame, object, now.as_slice())
}

//! Cleaning one object.
ghost use Rattle.std.specs.Prelude.{◌≡◌, ◌⊎◌, None, Some, IfOk, IfErr, OnOk, OnErr, MatchResult};
ghost use Rattle.s4_types.specs.declared.refusals.Refusal.TheVariants.{NoMemory, NoRoom};
ghost use Rattle.object_map.specs.Rows.{row_of};
ghost use Rattle.version_store.specs.Versions.{entries_of_object, inode_in};
ghost use Rattle.drive.specs.Fields.{state_in, store_of};
ghost use Rattle.drive.specs.Keeping.{KeepsVersions};
ghost use Rattle.history_cleaner.specs.Cleaning.{Cleans, OthersStay, IsClean, IsUnseen, HasNoRoom};
ghost use Rattle.history_cleaner.specs.Reaching.{HoldsWhatIsReached};
ghost use Rattle.history_cleaner.specs.private.Putting.{PutsLeft};
ghost use Rattle.history_cleaner.specs.private.Reading.{IsLeft};

use crate::entries::{are_same, each_is_an_entry};
use crate::laws::{a_stored_chain_is_a_chain, held_is_what_is_reached, what_is_left_can_be_put};
use crate::sight::Sight;
use chain_rewriting::{Cleaned, clean};
use codec::{Entry, Inode};
use drive::Drive;
use s4_types::{ObjectId, Refusal};
use segment_word::Naming;
use std::alloc::Global;
use undo_redo::undo_all;

/// What is left of an object that has this present inode and these entries.
fn what_is_left<J: Naming>(
    alloc: Global,
    drive: &Drive<J>,
    object: ObjectId,
    present: &Inode,
    entries: &[Entry],
) -> Result<Option<Cleaned>, Refusal>
    requires present { inode_in (store_of drive.now) object (state_in drive.now).clock
        ≡ Some present.now }
    requires entries { entries.now ≡ entries_of_object (store_of drive.now) object }
    ensures left { IfOk result
        (λ left. IsLeft (store_of drive.now) (state_in drive.now) object entries.now left) }
    ensures refusal { IfErr result (λ e. e ≡ NoMemory) }
{
    a_stored_chain_is_a_chain();
    drive.rules();
    each_is_an_entry(entries);
    let mut first = *present;
    undo_all(entries, &mut first);
    let sight = Sight { drive, object };
    clean(alloc, &first, entries, drive.clock(), &sight)
}

/// Puts in place what is left of an object that has these entries.
fn put<J: Naming>(
    drive: &mut Drive<J>,
    object: ObjectId,
    entries: &[Entry],
    left: Option<Cleaned>,
) -> Result<(), Refusal>
    requires entries { entries.now ≡ entries_of_object (store_of drive.old) object }
    requires left { IsLeft (store_of drive.old) (state_in drive.old) object entries.now left }
    ensures { PutsLeft object drive.old result drive.new }
{
    what_is_left_can_be_put();
    drive.rules();
    let Some(chain) = left else {
        return drive.remove(object, entries);
    };
    let kept = chain.entries.as_slice();
    if are_same(kept, entries) {
        return Ok(());
    }
    drive.replace(object, entries, &chain.last, kept)
}

/// Cleans an object: of its chain those inodes stay that are current at some moment that can be
/// read, with the entries between them and the present inode as its checkpoint. Where none of them
/// is live, the row goes. Then exactly those of its data blocks are held to which a live inode
/// points that is current at such a moment. Every version that can be read stays as it is, and so
/// do the history and all other objects, whatever is answered. Without effect for an object that
/// has no row, or whose chain would hold the entries that it holds.
///
/// NoRoom only where fewer places are ahead than must be written, and then Ok never comes; else
/// NoMemory alone, where the memory for the entries, or for the lists of data blocks, is refused.
/// That may be before the room is judged, and so also where there is none. After a refusal nothing
/// has changed.
pub fn clean_object<J: Naming>(
    alloc: Global,
    drive: &mut Drive<J>,
    object: ObjectId,
) -> Result<(), Refusal>
    ensures cleaned { OnOk result
        (Cleans (store_of drive.old) (state_in drive.old) object (store_of drive.new)) }
    ensures clean { OnOk result (IsClean (store_of drive.new) (state_in drive.old) object) }
    ensures held { OnOk result
        (HoldsWhatIsReached (store_of drive.new) (state_in drive.old) object) }
    ensures gone { OnOk result
        (IsUnseen (store_of drive.old) (state_in drive.old) object
        → row_of drive.new.store.rows object ≡ None) }
    ensures answer { MatchResult result (λ _. HasNoRoom (store_of drive.old) (state_in drive.old) object → ⊥)
        (λ e. (e ≡ NoMemory)
        ⊎ ((e ≡ NoRoom) × HasNoRoom (store_of drive.old) (state_in drive.old) object)) }
    ensures others { OthersStay (store_of drive.old) object (store_of drive.new) }
    ensures unchanged { OnErr result (store_of drive.new ≡ store_of drive.old) }
    ensures ledger { drive.new.ledger ≡ drive.old.ledger }
    ensures needed { KeepsVersions (state_in drive.old) (store_of drive.old) (store_of drive.new) }
{
    held_is_what_is_reached();
    drive.rules();
    let clock = drive.clock();
    let Some(present) = drive.inode_at(object, clock) else {
        return Ok(());
    };
    let entries = drive.entries(object)?;
    let left = what_is_left(alloc, drive, object, &present, entries.as_slice())?;
    put(drive, object, entries.as_slice(), left)
}

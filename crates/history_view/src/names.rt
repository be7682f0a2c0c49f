//! Objects by their attribute.
ghost use Rattle.std.specs.Prelude.{◌≡◌, ◌≢◌, ℕ, ◌<◌, MatchBool, IfOk, IfErr, IfSome, IfNone};
ghost use Rattle.drive.specs.Fields.{state_in, store_of};
ghost use Rattle.history_view.specs.Names.{IsNamed, IsNextNamed, IsOnlyNamed, IsNameRefusal};

use crate::listing::{Listed, next_listed};
use drive::Drive;
use s4_types::{Moment, ObjectId};
use segment_word::Naming;

/// Why a name is not that of one object.
#[derive(Clone, Copy)]
pub enum NameRefusal {
    /// No object has it.
    NotNamed,
    /// Several have it, these two first.
    NamedTwice { first: ObjectId, second: ObjectId },
}

fn has_name(row: &Listed, name: &[u8]) -> bool
    ensures { MatchBool result (row.now.attribute ≡ name.now) (row.now.attribute ≢ name.now) }
{
    row.attribute.as_slice() == name
}

// The least object above this one that has the name at a moment.
fn next_named<J: Naming>(
    drive: &mut Drive<J>,
    after: ObjectId,
    name: &[u8],
    at: Moment,
) -> Option<ObjectId>
    ensures some { IfSome result
        (IsNextNamed (state_in drive.old) (store_of drive.old) name.now at after) }
    ensures none { IfNone result
        ((o : ℕ) → after < o
        → IsNamed (state_in drive.old) (store_of drive.old) name.now at o → ⊥) }
    ensures ledger { drive.new.ledger ≡ drive.old.ledger }
    ensures store { store_of drive.new ≡ store_of drive.old }
{
    let mut last = after;
    while let Some(row) = next_listed(drive, last, at, false) {
        if has_name(&row, name) {
            return Some(row.object);
        }
        last = row.object;
    }
    None
}

/// The object that is live at a moment and whose attribute is the name then, byte for byte, where
/// exactly one is: objects of which the moment can't be read don't count.
///
/// NotNamed where none is, and NamedTwice where several are.
#[tactic(auto, using(crate::proofs::Named::only_named))]
pub fn named_object<J: Naming>(
    drive: &mut Drive<J>,
    name: &[u8],
    at: Moment,
) -> Result<ObjectId, NameRefusal>
    ensures named { IfOk result
        (IsOnlyNamed (state_in drive.old) (store_of drive.old) name.now at) }
    ensures refused { IfErr result
        (IsNameRefusal (state_in drive.old) (store_of drive.old) name.now at) }
    ensures ledger { drive.new.ledger ≡ drive.old.ledger }
    ensures store { store_of drive.new ≡ store_of drive.old }
{
    let Some(first) = next_named(drive, ObjectId::new(0), name, at) else {
        return Err(NameRefusal::NotNamed);
    };
    match next_named(drive, first, name, at) {
        None => Ok(first),
        Some(second) => Err(NameRefusal::NamedTwice { first, second }),
    }
}

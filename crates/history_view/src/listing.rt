//! The objects of a drive at a moment.
ghost use Rattle.std.specs.Prelude.{◌≡◌, ℕ, ◌<◌, IfSome, IfNone};
ghost use Rattle.drive.specs.Fields.{state_in, store_of};
ghost use Rattle.history_view.specs.Listing.{is_listed, listed_of, IsListedAt, IsListedNext};
ghost use Rattle.history_view.specs.Listing.{IsPassed};

use crate::moments::is_visible;
use codec::{Attribute, Inode};
use drive::Drive;
use s4_types::{Moment, ObjectId};
use segment_word::Naming;

/// What is listed of an object at a moment.
#[derive(Clone, Copy)]
pub struct Listed {
    pub object: ObjectId,
    /// Whether it is there at the moment. If not, it was deleted before, and the rest says what it
    /// was last.
    pub is_live: bool,
    /// In bytes.
    pub size: u32,
    pub created: Moment,
    /// When it was changed last, its deletion aside.
    pub changed: Moment,
    pub attribute: Attribute,
}

/// What an inode tells of its object.
pub fn listed_of(object: ObjectId, inode: &Inode) -> Listed
    ensures { result ≡ listed_of object inode.now }
{
    Listed {
        object,
        is_live: inode.alive,
        size: inode.size,
        created: inode.created,
        changed: inode.changed,
        attribute: inode.attribute,
    }
}

fn is_listed(deleted: bool, inode: &Inode) -> bool
    ensures { result ≡ is_listed deleted inode.now }
{
    inode.alive || (deleted && inode.changed.number() != 0)
}

/// What is listed of an object at a moment: something where it is live then, and where the deleted
/// ones are asked for also where it was deleted before. Nothing where that moment of it can't be
/// read.
pub fn look_at<J: Naming>(
    drive: &mut Drive<J>,
    object: ObjectId,
    at: Moment,
    deleted: bool,
) -> Option<Listed>
    ensures some { IfSome result
        (IsListedAt (state_in drive.old) (store_of drive.old) deleted at object) }
    ensures none { IfNone result
        (IsPassed (state_in drive.old) (store_of drive.old) deleted at object) }
    ensures ledger { drive.new.ledger ≡ drive.old.ledger }
    ensures store { store_of drive.new ≡ store_of drive.old }
{
    drive.rules();
    if !is_visible(drive, object, at) {
        return None;
    }
    let Some(inode) = drive.inode_at(object, at) else {
        return None;
    };
    if !is_listed(deleted, &inode) {
        return None;
    }
    Some(listed_of(object, &inode))
}

/// What is listed next above an object, by ascending number; object 0 is below all. Nothing where
/// no greater object is listed.
pub fn next_listed<J: Naming>(
    drive: &mut Drive<J>,
    after: ObjectId,
    at: Moment,
    deleted: bool,
) -> Option<Listed>
    ensures some { IfSome result
        (IsListedNext (state_in drive.old) (store_of drive.old) deleted at after) }
    ensures none { IfNone result
        ((o : ℕ) → after < o → IsPassed (state_in drive.old) (store_of drive.old) deleted at o) }
    ensures ledger { drive.new.ledger ≡ drive.old.ledger }
    ensures store { store_of drive.new ≡ store_of drive.old }
{
    drive.rules();
    let mut last = after;
    while let Some(object) = drive.next_row(last) {
        if let Some(found) = look_at(drive, object, at, deleted) {
            return Some(found);
        }
        last = object;
    }
    None
}

ghost use Rattle.std.specs.Prelude.{◌≡◌, ℕ, ◌≤◌, ◌+◌, ◌++◌, Bool, true, nat_lt, is_none, ◌||◌};
ghost use Rattle.std.specs.Prelude.{List, length, Option, Some, IfSome, IsSome, ◌↔◌};
ghost use Rattle.codec.specs.Fields.{Reads};
ghost use Rattle.codec.specs.Checkpoint.{CheckpointFields, checked, holes_past, checkpoint_rules};

use crate::inodes::Inode;
use s4_types::limits::OBJECT_BYTES;
use s4_types::{Moment, ObjectId, Ptr};
use std::marker::Model;

/// An object's inode after all changes up to a moment, as blocks of the log keep it.
///
/// The object's number, both moments of its making and of the checkpoint are at least 1, the size
/// is at most `OBJECT_BYTES`, and pointers past the size are holes.
#[derive(Clone, Copy, PartialEq, Eq)]
pub struct Checkpoint {
    object: ObjectId,
    moment: Moment,
    inode: Inode,
}

impl Model for Checkpoint {
    ghost use Rattle.std.specs.Prelude.{◌≡◌, true};
    ghost use Rattle.codec.specs.Checkpoint.{CheckpointFields, checkpoint_rules};

    ghost Value = { CheckpointFields };

    ghost view = { λ c. record { object = c.object; moment = c.moment; inode = c.inode } };

    ghost invariant = { λ c. checkpoint_rules (record { object = c.object; moment = c.moment; inode = c.inode }) ≡ true };

    ghost inverse = { λ c. record { object = c.object; moment = c.moment; inode = c.inode } };
}

/// Whether a pointer may be where this many bytes are left.
fn may_stand(left: u32, pointer: Option<Ptr>) -> bool
    ensures { result ≡ (nat_lt 0 left || is_none pointer) }
{
    left > 0 || pointer.is_none()
}

/// Whether each pointer after the bytes of this size is a hole.
fn has_holes_past(size: u32, pointers: &[Option<Ptr>]) -> bool
    ensures { result ≡ holes_past size pointers.now }
{
    let mut left = size;
    for pointer in pointers {
        if !may_stand(left, *pointer) {
            return false;
        }
        left = left.saturating_sub(512);
    }
    true
}

#[tactic(auto, unfolding(crate::specs::Checkpoint::checkpoint_rules))]
fn keeps_rules(object: ObjectId, moment: Moment, inode: &Inode) -> bool
    ensures { result ≡ checkpoint_rules (record { object = object; moment = moment; inode = inode.now }) }
{
    object.number() >= 1
        && moment.number() >= 1
        && inode.created.number() >= 1
        && inode.size <= OBJECT_BYTES as u32
        && has_holes_past(inode.size, &inode.pointers)
}

impl Checkpoint {
    /// The checkpoint of an inode. None where it breaks a rule of checkpoints.
    pub fn new(object: ObjectId, moment: Moment, inode: Inode) -> Option<Self>
        ensures { Reads (λ c. c) result (checked (record { object = object; moment = moment; inode = inode })) }
    {
        if !keeps_rules(object, moment, &inode) {
            return None;
        }
        Some(Checkpoint {
            object,
            moment,
            inode,
        })
    }

    #[tactic(auto, unfolding(crate::specs::Checkpoint::checkpoint_rules))]
    pub fn object(&self) -> ObjectId
        ensures object { result ≡ self.now.object }
        ensures given { 1 ≤ self.now.object }
    {
        self.object
    }

    /// The moment up to which the inode has all changes.
    pub fn moment(&self) -> Moment
        ensures { result ≡ self.now.moment }
    {
        self.moment
    }

    pub fn inode(&self) -> &Inode
        ensures inode { result.now ≡ self.now.inode }
        ensures rules { checkpoint_rules self.now ≡ true }
    {
        &self.inode
    }
}

ghost use Rattle.std.specs.Prelude.{◌≡◌, ℕ, true, false, List, Option, None};
ghost use Rattle.s4_types.specs.declared.limits.TheConstants.{OBJECT_BLOCKS};
ghost use Rattle.s4_types.specs.Pointer.{Place};
ghost use Rattle.s4_types.specs.declared.changes.Change.TheVariants.{Create, Delete, SetAttr};
ghost use Rattle.s4_types.specs.declared.versions.Version.{Version};
ghost use Rattle.s4_model.specs.Effect.{effect};
ghost use Rattle.codec.specs.Checkpoint.{pointer_at, holes};
ghost use Rattle.inode.specs.Contents.{meaning};
ghost use Rattle.inode.specs.Tidiness.{Tidy};

use codec::{Attribute, Inode};
use s4_types::limits::OBJECT_BLOCKS;
use s4_types::{Moment, Ptr};

/// The pointers of an inode without blocks.
#[tactic(auto, unfolding(codec::specs::Checkpoint::holes))]
fn no_pointers() -> [Option<Ptr>; OBJECT_BLOCKS]
    ensures { result ≡ holes OBJECT_BLOCKS }
{
    [None; OBJECT_BLOCKS]
}

/// The inode of a new object: alive, without bytes, created and changed at the moment.
#[tactic(auto, using(crate::proofs::Standing::hole_at, crate::proofs::Standing::no_bytes))]
pub fn created(attribute: Attribute, moment: Moment) -> Inode
    ensures alive { result.alive ≡ true }
    ensures size { result.size ≡ 0 }
    ensures made { result.created ≡ moment }
    ensures changed { result.changed ≡ moment }
    ensures attribute { result.attribute ≡ attribute }
    ensures holes { (k : ℕ) → pointer_at result k ≡ None }
    ensures meaning { (contents : Place → List ℕ) (object : ℕ) (before : Version)
        → meaning contents result ≡ effect (Create object attribute) moment before }
    ensures tidy { (contents : Place → List ℕ) → Tidy contents result }
{
    Inode {
        alive: true,
        size: 0,
        created: moment,
        changed: moment,
        attribute,
        pointers: no_pointers(),
    }
}

/// The inode after its object was deleted: it is dead, and all else is as before.
#[tactic(auto, using(crate::proofs::Standing::tidy_as_before), unfolding(crate::specs::Contents::byte_of))]
pub fn deleted(inode: &Inode) -> Inode
    ensures inode { result ≡ record inode.now { alive = false } }
    ensures meaning { (contents : Place → List ℕ) (object moment : ℕ)
        → meaning contents result ≡ effect (Delete object) moment (meaning contents inode.now) }
    ensures tidy { (contents : Place → List ℕ) → Tidy contents inode.now → Tidy contents result }
{
    let mut next = *inode;
    next.alive = false;
    next
}

/// The inode with another attribute, changed at the moment.
#[tactic(auto, using(crate::proofs::Standing::tidy_as_before, crate::proofs::Standing::with_attribute_means))]
pub fn with_attribute(inode: &Inode, attribute: Attribute, moment: Moment) -> Inode
    ensures inode { result ≡ record inode.now { attribute = attribute; changed = moment } }
    ensures meaning { (contents : Place → List ℕ) (object : ℕ)
        → meaning contents result
        ≡ effect (SetAttr object attribute) moment (meaning contents inode.now) }
    ensures tidy { (contents : Place → List ℕ) → Tidy contents inode.now → Tidy contents result }
{
    let mut next = *inode;
    next.attribute = attribute;
    next.changed = moment;
    next
}

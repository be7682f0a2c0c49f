ghost use Rattle.std.specs.Prelude.{◌≡◌, ℕ, ◌+◌, ◌^◌, ◌<◌, ◌≤◌, true, List, length};
ghost use Rattle.std.specs.List.{list_all, AllByRecursion};
ghost use Rattle.block_log.specs.declared.kinds.BlockKind.TheVariants.{Journal};
ghost use Rattle.codec.specs.Fields.{Reads};
ghost use Rattle.codec.specs.Summary.{SummaryFields, has_object, summary_rules, checked_summary};

use arrayvec::ArrayVec;
use block_log::BlockKind;
use s4_types::ObjectId;
use s4_types::limits::PAYLOAD_BLOCKS;
use std::marker::Model;

/// Bytes of a summary in front of its digest.
pub(crate) const HEAD_BYTES: usize = 480;

/// Bytes of a summary's head from its roles on.
pub(crate) const ROLES_AND_ZEROS: usize = 464;

/// Bytes of a role.
pub(crate) const ROLE_BYTES: usize = 9;

/// What a used payload block is for, and whose it is.
#[derive(Clone, Copy, PartialEq, Eq)]
pub struct BlockRole {
    pub kind: BlockKind,
    pub object: ObjectId,
}

/// A journal block of no object: what is in the unused room of `BlockRoles`.
impl Default for BlockRole {
    ghost is_default = { λ p. (p.kind ≡ Journal) × (p.object ≡ 0) };

    fn default() -> BlockRole {
        BlockRole {
            kind: BlockKind::Journal,
            object: ObjectId::new(0),
        }
    }
}

/// What the used payload blocks of a frame are, by ascending block from block 1 on.
pub type BlockRoles = ArrayVec<BlockRole, PAYLOAD_BLOCKS>;

/// The summary of a frame at one of its generations: what its used payload blocks are.
///
/// The generation is 1 to 2^32 - 2, one to 15 blocks are used, and the number of each block's
/// object is at least 1.
#[derive(Drop)]
pub struct Summary {
    frame: u16,
    generation: u32,
    roles: BlockRoles,
}

impl Model for Summary {
    ghost use Rattle.std.specs.Prelude.{◌≡◌, true};
    ghost use Rattle.codec.specs.Summary.{SummaryFields, summary_rules};

    ghost Value = { SummaryFields };

    ghost view = { λ s. record { frame = s.frame; generation = s.generation; roles = s.roles.items } };

    ghost invariant = { λ s. summary_rules (record { frame = s.frame; generation = s.generation; roles = s.roles.items }) ≡ true };
}

fn have_objects(roles: &[BlockRole]) -> bool
    ensures { result ≡ list_all has_object roles.now }
{
    roles.iter().all(|role| role.object.number() >= 1)
}

#[tactic(auto, unfolding(crate::specs::Summary::summary_rules))]
fn keeps_rules(generation: u32, roles: &BlockRoles) -> bool
    ensures { (frame : ℕ) → result ≡ summary_rules (record { frame = frame; generation = generation; roles = roles.now.items }) }
{
    generation >= 1 && generation < u32::MAX && roles.len() >= 1 && have_objects(roles.as_slice())
}

impl Summary {
    /// The summary of a frame. None where it breaks a rule of summaries.
    pub fn new(frame: u16, generation: u32, roles: BlockRoles) -> Option<Self>
        ensures { Reads (λ s. s) result (checked_summary (record { frame = frame; generation = generation; roles = roles.items })) }
    {
        if !keeps_rules(generation, &roles) {
            return None;
        }
        Some(Summary {
            frame,
            generation,
            roles,
        })
    }

    pub fn frame(&self) -> u16
        ensures { result ≡ self.now.frame }
    {
        self.frame
    }

    /// The generation of the frame, from 1 to 2^32 - 2.
    #[tactic(auto, unfolding(crate::specs::Summary::summary_rules))]
    pub fn generation(&self) -> u32
        ensures generation { result ≡ self.now.generation }
        ensures least { 1 ≤ result }
        ensures most { result + 1 < 2 ^ 32 }
    {
        self.generation
    }

    /// What the used payload blocks are, of which there are one to 15, by ascending block from
    /// block 1 on.
    #[tactic(auto, unfolding(crate::specs::Summary::summary_rules))]
    pub fn roles(&self) -> &[BlockRole]
        ensures roles { result.now ≡ self.now.roles }
        ensures least { 1 ≤ length self.now.roles }
        ensures most { length self.now.roles ≤ 15 }
        ensures rules { summary_rules self.now ≡ true }
    {
        self.roles.as_slice()
    }
}

ghost use Rattle.std.specs.Prelude.{◌≡◌, ℕ, ◌+◌, ◌*◌, ◌≤◌, ◌++◌, List, length};
ghost use Rattle.std.specs.List.{flat_map, AllByRecursion};
ghost use Rattle.codec.specs.Summary.{IsSummary, IsBlockRole, UnusedAreBlank, SpellsSummary};
ghost use Rattle.codec.specs.Summary.{kind_number, role_spelling, summary_head, summary_spelling};

use crate::frame_digests::digest_of;
use crate::summaries::{BlockRole, ROLE_BYTES, ROLES_AND_ZEROS, Summary};
use crate::writing::{Writing, finished, put, put_byte, put_long, put_short, put_word, put_zeros};
use block_log::{Block, BlockKind};
use s4_types::limits::PAYLOAD_BLOCKS;

fn number_of(kind: BlockKind) -> u8
    ensures { result ≡ kind_number kind }
{
    match kind {
        BlockKind::Journal => 1,
        BlockKind::Checkpoint => 2,
        BlockKind::Data => 3,
        BlockKind::Pointers => 4,
    }
}

#[tactic(auto, unfolding(crate::specs::Summary::role_spelling))]
fn put_role(out: &mut Writing, role: BlockRole)
    requires { length out.old.items + 9 ≤ 512 }
    ensures items { out.new.items ≡ out.old.items ++ role_spelling role }
    ensures len { length out.new.items ≡ length out.old.items + 9 }
    ensures range { IsBlockRole role }
{
    put_byte(out, number_of(role.kind));
    put_long(out, role.object.number());
}

fn put_roles(out: &mut Writing, roles: &[BlockRole])
    requires { length out.old.items + 9 * length roles.now ≤ 512 }
    ensures items { out.new.items ≡ out.old.items ++ flat_map role_spelling roles.now }
    ensures len { length out.new.items ≡ length out.old.items + 9 * length roles.now }
    ensures range { AllByRecursion IsBlockRole roles.now }
{
    for role in roles {
        put_role(out, *role);
    }
}

/// The first 480 bytes of a summary, with room for its digest.
#[tactic(auto, unfolding(crate::specs::Summary::summary_head))]
fn head_of(summary: &Summary) -> Writing
    ensures items { result.items ≡ summary_head summary.now }
    ensures len { length result.items ≡ 480 }
    ensures fits { IsSummary summary.now }
{
    let roles = summary.roles();
    let mut out = Writing::new();
    put(&mut out, b"S4sg");
    put_short(&mut out, summary.frame());
    put_byte(&mut out, roles.len() as u8);
    put_byte(&mut out, 0);
    put_word(&mut out, summary.generation());
    put_zeros(&mut out, 4);
    put_roles(&mut out, roles);
    put_zeros(&mut out, ROLES_AND_ZEROS - ROLE_BYTES * roles.len());
    out
}

/// The one encoding of a summary in front of its frame's payload blocks. It is decoded where the
/// unused ones are zeros.
#[tactic(auto, unfolding(crate::specs::Summary::summary_spelling))]
pub fn encode_summary(summary: &Summary, payload: &[Block; PAYLOAD_BLOCKS]) -> Block
    ensures exact { result ≡ summary_spelling summary.now payload.now }
    ensures decodes { UnusedAreBlank (length summary.now.roles) payload.now
        → SpellsSummary payload.now result summary.now }
{
    let mut out = head_of(summary);
    let digest = digest_of(out.as_slice(), payload);
    put(&mut out, &digest);
    finished(out)
}

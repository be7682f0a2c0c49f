ghost use Rattle.std.specs.Prelude.{◌≡◌, ◌≢◌, ℕ, ◌≤◌, List, length, Option, Some, IfSome};
ghost use Rattle.std.specs.Prelude.{MatchBool};
ghost use Rattle.std.specs.List.{AllByRecursion};
ghost use Rattle.codec.specs.Fields.{Reads, all_of, zeros};
ghost use Rattle.codec.specs.Summary.{SummaryFields, IsBlank, UnusedAreBlank, SpellsSummary};
ghost use Rattle.codec.specs.Summary.{frame_digest, kind_at, role_at, roles_at, behind_numbers};
ghost use Rattle.codec.specs.Summary.{behind_marks, head_at};

use crate::fields::{read_byte, read_long, read_mark, read_short, read_word, read_zeros};
use crate::frame_digests::digest_of;
use crate::summaries::{BlockRole, BlockRoles, HEAD_BYTES, ROLE_BYTES, ROLES_AND_ZEROS, Summary};
use arrayvec::ArrayVec;
use block_log::{Block, BlockKind};
use s4_types::ObjectId;
use s4_types::limits::{BLOCK_BYTES, PAYLOAD_BLOCKS};

#[tactic(auto, unfolding(crate::specs::Summary::kind_at))]
fn read_kind(bytes: &[u8]) -> Option<(BlockKind, &[u8])>
    ensures { Reads (λ x. (x.0, x.1.now)) result (kind_at bytes.now) }
{
    match bytes {
        [1, rest @ ..] => Some((BlockKind::Journal, rest)),
        [2, rest @ ..] => Some((BlockKind::Checkpoint, rest)),
        [3, rest @ ..] => Some((BlockKind::Data, rest)),
        [4, rest @ ..] => Some((BlockKind::Pointers, rest)),
        _ => None,
    }
}

#[tactic(auto, unfolding(crate::specs::Summary::role_at))]
fn read_role(bytes: &[u8]) -> Option<(BlockRole, &[u8])>
    ensures { Reads (λ x. (x.0, x.1.now)) result (role_at bytes.now) }
{
    let (kind, rest) = read_kind(bytes)?;
    let (object, rest) = read_long(rest)?;
    let role = BlockRole {
        kind,
        object: ObjectId::new(object),
    };
    Some((role, rest))
}

#[tactic(auto, unfolding(crate::specs::Summary::roles_at))]
fn read_roles(used: u8, bytes: &[u8]) -> Option<(BlockRoles, &[u8])>
    ensures { Reads (λ x. (x.0.items, x.1.now)) result (roles_at used bytes.now) }
{
    if used as usize > PAYLOAD_BLOCKS {
        return None;
    }
    let mut roles: BlockRoles = ArrayVec::new();
    let mut rest = bytes;
    for _ in 0..used {
        let Some((role, after)) = read_role(rest) else {
            return None;
        };
        roles.push(role);
        rest = after;
    }
    Some((roles, rest))
}

/// What comes after the numbers in the head of a summary.
fn read_behind_numbers(
    frame: u16,
    used: u8,
    generation: u32,
    bytes: &[u8],
) -> Option<(Summary, &[u8])>
    ensures { Reads (λ x. (x.0, x.1.now)) result (behind_numbers frame used generation bytes.now) }
{
    let Some((roles, rest)) = read_roles(used, bytes) else {
        return None;
    };
    let rest = read_zeros(
        ROLES_AND_ZEROS.saturating_sub(ROLE_BYTES * used as usize),
        rest,
    )?;
    let summary = Summary::new(frame, generation, roles)?;
    Some((summary, rest))
}

/// What comes after the marks in the head of a summary.
fn read_behind_marks(bytes: &[u8]) -> Option<(Summary, &[u8])>
    ensures { Reads (λ x. (x.0, x.1.now)) result (behind_marks bytes.now) }
{
    let (frame, rest) = read_short(bytes)?;
    let (used, rest) = read_byte(rest)?;
    let rest = read_mark(0, rest)?;
    let (generation, rest) = read_word(rest)?;
    let rest = read_zeros(4, rest)?;
    read_behind_numbers(frame, used, generation, rest)
}

#[tactic(auto, unfolding(crate::specs::Summary::head_at))]
fn read_head(bytes: &[u8]) -> Option<(Summary, &[u8])>
    ensures { Reads (λ x. (x.0, x.1.now)) result (head_at bytes.now) }
{
    let rest = read_mark(0x53, bytes)?;
    let rest = read_mark(0x34, rest)?;
    let rest = read_mark(0x73, rest)?;
    let rest = read_mark(0x67, rest)?;
    read_behind_marks(rest)
}

fn summary_in(head: &[u8]) -> Option<Summary>
    ensures { Reads (λ x. x) result (all_of head_at head.now) }
{
    let Some((summary, rest)) = read_head(head) else {
        return None;
    };
    match rest {
        [] => Some(summary),
        [_, ..] => None,
    }
}

fn is_blank(block: &Block) -> bool
    ensures { MatchBool result (IsBlank block.now) (block.now ≢ zeros 512) }
{
    *block == [0; BLOCK_BYTES]
}

fn are_blank(blocks: &[Block]) -> bool
    ensures { MatchBool result (AllByRecursion IsBlank blocks.now)
        (AllByRecursion IsBlank blocks.now → ⊥) }
{
    for block in blocks {
        if !is_blank(block) {
            return false;
        }
    }
    true
}

/// Whether the payload blocks after the first `used` ones are zeros.
fn are_unused_blank(used: usize, payload: &[Block; PAYLOAD_BLOCKS]) -> bool
    requires { used ≤ 15 }
    ensures { MatchBool result (UnusedAreBlank used payload.now)
        (UnusedAreBlank used payload.now → ⊥) }
{
    let (_, unused) = payload.split_at(used);
    are_blank(unused)
}

fn is_digest(digest: &[u8], head: &[u8], payload: &[Block; PAYLOAD_BLOCKS]) -> bool
    ensures { MatchBool result (frame_digest head.now payload.now ≡ digest.now)
        (frame_digest head.now payload.now ≢ digest.now) }
{
    digest_of(head, payload).as_slice() == digest
}

/// The summary whose encoding the block is in front of its frame's payload blocks. None where it is
/// the encoding of no summary, or an unused payload block isn't zeros.
pub fn decode_summary(block: &Block, payload: &[Block; PAYLOAD_BLOCKS]) -> Option<Summary>
    ensures found { IfSome result (λ summary. SpellsSummary payload.now block.now summary) }
    ensures only { (summary : SummaryFields)
        → SpellsSummary payload.now block.now summary → result ≡ Some summary }
{
    let (head, digest) = block.split_at(HEAD_BYTES);
    let Some(summary) = summary_in(head) else {
        return None;
    };
    if !are_unused_blank(summary.roles().len(), payload) {
        return None;
    }
    if !is_digest(digest, head, payload) {
        return None;
    }
    Some(summary)
}

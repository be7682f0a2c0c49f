//! What has to be done to an object, so that it is what it was.
ghost use Rattle.std.specs.Prelude.{◌≡◌, ◌≢◌, [], true, false, length, min, MatchBool};
ghost use Rattle.s4_model.specs.Refusals.{last_number};
ghost use Rattle.history_restore.specs.Plans.{IsChangesOf, IsPlanBetween, IsPlan, IsRemade};
ghost use Rattle.history_restore.specs.Plans.{is_idle, is_joined, runs_between};
ghost use Rattle.block_runs.specs.Blocks.{blocks_in_all};
ghost use Rattle.block_runs.specs.Runs.{runs_to};

use block_runs::{Run, count_blocks, cut_between};
use s4_types::Version;

/// What is done to an object that is there, in this order.
#[derive(Clone, Copy)]
pub struct Changes {
    /// It is cut to this size, in bytes, or gets zeros up to it.
    pub cut: Option<u64>,
    /// Bytes are written by this many requests: one for each run of blocks that differ, ascending.
    pub writes: u64,
    /// Whether runs are joined that one block lies between which is the same, and is written again.
    /// Those of neighbouring blocks are single else.
    pub joined: bool,
    /// They write this many blocks together.
    pub blocks: u64,
    /// Its attribute is replaced.
    pub attribute: bool,
}

/// What is done to an object, so that it is what it was.
#[derive(Clone, Copy)]
pub enum Plan {
    /// Nothing: it is what it was.
    Keep,
    /// It is deleted, as it wasn't there.
    Delete,
    /// It isn't there any more: an object is made under the next number, with its attribute, and
    /// changed from one that has no bytes.
    Remake(Changes),
    /// It is changed.
    Change(Changes),
}

/// Whether two attributes differ.
fn is_other(attribute: &[u8], now: &[u8]) -> bool
    ensures { MatchBool result (attribute.now ≢ now.now) (attribute.now ≡ now.now) }
{
    attribute != now
}

fn changes_between(
    bytes: &[u8],
    attribute: &[u8],
    now: &[u8],
    attribute_now: &[u8],
    runs: &[Run],
) -> Changes
    requires { runs.now ≡ runs_to 0 bytes.now now.now }
    ensures changes { IsChangesOf bytes.now attribute.now now.now attribute_now.now result }
    ensures apart { result.joined ≡ false }
{
    Changes {
        cut: cut_between(bytes, now),
        writes: runs.len() as u64,
        joined: false,
        blocks: count_blocks(runs),
        attribute: is_other(attribute, attribute_now),
    }
}

/// Whether no change is among these.
fn is_idle(changes: &Changes) -> bool
    ensures { result ≡ is_idle changes.now }
{
    changes.cut.is_none() && changes.writes == 0 && !changes.attribute
}

fn plan_between(
    bytes: &[u8],
    attribute: &[u8],
    now: &[u8],
    attribute_now: &[u8],
    runs: &[Run],
) -> Plan
    requires { runs.now ≡ runs_to 0 bytes.now now.now }
    ensures plan { IsPlanBetween bytes.now attribute.now now.now attribute_now.now result }
    ensures apart { is_joined result ≡ false }
{
    let changes = changes_between(bytes, attribute, now, attribute_now, runs);
    if is_idle(&changes) {
        Plan::Keep
    } else {
        Plan::Change(changes)
    }
}

fn plan_anew(bytes: &[u8], attribute: &[u8], runs: &[Run]) -> Plan
    requires { runs.now ≡ runs_to 0 bytes.now [] }
    ensures plan { IsRemade bytes.now attribute.now result }
    ensures apart { is_joined result ≡ false }
{
    Plan::Remake(changes_between(bytes, attribute, &[], attribute, runs))
}

/// What has to be done to an object, by what it was and what it is now, and by the single runs of
/// blocks in which these differ. The plan is the only one by them: each request is there exactly
/// where it is needed, and a write has no byte at either end, nor a block, that is what it was.
pub(crate) fn plan_of(before: &Version, now: &Version, runs: &[Run]) -> Plan
    requires { runs.now ≡ runs_between 0 before.now now.now }
    ensures plan { IsPlan before.now now.now result }
    ensures apart { is_joined result ≡ false }
{
    match before {
        Version::Absent => match now {
            Version::Absent => Plan::Keep,
            Version::Live { .. } => Plan::Delete,
        },
        Version::Live {
            bytes,
            attribute,
            ..
        } => match now {
            Version::Absent => plan_anew(bytes.as_slice(), attribute.as_slice(), runs),
            Version::Live {
                bytes: bytes_now,
                attribute: attribute_now,
                ..
            } => plan_between(
                bytes.as_slice(),
                attribute.as_slice(),
                bytes_now.as_slice(),
                attribute_now.as_slice(),
                runs,
            ),
        },
    }
}

/// Changes with these runs in place of single ones: those of them are joined that one block lies
/// between.
pub(crate) fn joined_plan(changes: Changes, runs: &[Run]) -> Plan
    ensures { result
        ≡ Plan.Change (record changes { writes = length runs.now; joined = true; blocks = min last_number (blocks_in_all runs.now) }) }
{
    let (writes, blocks) = (runs.len() as u64, count_blocks(runs));
    Plan::Change(Changes {
        cut: changes.cut,
        writes,
        joined: true,
        blocks,
        attribute: changes.attribute,
    })
}

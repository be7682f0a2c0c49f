//! How many blocks runs have.
ghost use Rattle.std.specs.Prelude.{◌≡◌, ◌≤◌, ◌^◌, min};
ghost use Rattle.s4_model.specs.Refusals.{last_number};
ghost use Rattle.block_runs.specs.Blocks.{blocks_in, blocks_in_all};

use crate::running::Run;
use s4_types::limits::BLOCK_BYTES;

/// How many blocks a run has bytes of.
pub fn blocks_in(run: &Run) -> u64
    ensures blocks { result ≡ blocks_in run.now }
    ensures most { result ≤ 2 ^ 56 }
{
    let block = BLOCK_BYTES as u64;
    let last = run.end.saturating_sub(1) / block;
    last.saturating_sub(run.offset / block) + 1
}

/// How many blocks are written, run by run. The greatest number where there are more.
pub fn count_blocks(runs: &[Run]) -> u64
    ensures { result ≡ min last_number (blocks_in_all runs.now) }
{
    let mut count: u64 = 0;
    for run in runs {
        count = count.saturating_add(blocks_in(run));
    }
    count
}

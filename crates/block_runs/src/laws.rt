//! What runs come to, for the layers above: the function does nothing, and its contract is the
//! law.
ghost use Rattle.block_runs.specs.Blocks.{JoinedRunsWriteEachOnce, NoCutBlockIsWritten};
ghost use Rattle.block_runs.specs.Blocks.{RunsWriteEachOnce};
ghost use Rattle.block_runs.specs.Runs.{JoinedRunsAreFewer, RunsAreExact, RunsAreWhole};

/// Runs are exact: they ascend, no byte outside of them is to be written, the first and the last
/// byte of each is, and so is a byte of each block that one writes, unless that lies between two
/// such blocks that are near each other; more blocks than that lie between two runs.
#[tactic(auto, using(crate::proofs::Exact::runs_are_exact))]
pub fn runs_are_exact()
    ensures { RunsAreExact }
{}

/// Written one after the other over what is there, once that is cut, they give the bytes.
#[tactic(auto, using(crate::proofs::Whole::runs_are_whole))]
pub fn runs_are_whole()
    ensures { RunsAreWhole }
{}

/// Where none are joined, each block that differs is written by one run, and no other block by any.
pub fn runs_write_each_block_once()
    ensures { RunsWriteEachOnce }
{}

/// Where runs are joined, each block that differs is written by one, and so is each that lies
/// between two that do, near each other; no other is by any.
pub fn joined_runs_write_each_block_once()
    ensures { JoinedRunsWriteEachOnce }
{}

/// Runs that are joined are no more than those that aren't.
#[tactic(auto, using(crate::proofs::Fewer::joined_runs_are_fewer))]
pub fn joined_runs_are_fewer()
    ensures { JoinedRunsAreFewer }
{}

/// Where bytes are cut in the midst of a block, no run writes that block again.
#[tactic(auto, using(crate::proofs::Blocks::no_cut_block_is_written))]
pub fn no_cut_block_is_written()
    ensures { NoCutBlockIsWritten }
{}

//! What commands come to, for the layers above: the function does nothing, and its contract is the
//! law.
ghost use Rattle.s4_restore.specs.Images.{ADryRunPrintsARestore};

/// What a dry run prints is what a restore of that drive prints, by the same order.
#[tactic(auto, using(crate::proofs::Dry::prints))]
pub fn a_dry_run_prints_a_restore()
    ensures { ADryRunPrintsARestore }
{}

//! The segment copier as a run of interleaved steps calls it.
use crate::commits::commit;
use crate::plans::{MovePlan, Moved, plan_move};
use drive::{Drive, Session};
use interleaving::Moves;
use s4_types::{ObjectId, Refusal};
use segment_word::Naming;
use std::alloc::Global;

/// What moves blocks in a run: [`plan_move`], [`MovePlan::copy`] and [`commit`].
pub struct Copier;

impl<J: Naming> Moves<J> for Copier {
    ghost use Rattle.segment_copier.specs.Commits.{CommitsMove};

    type Plan = MovePlan<J>;

    type Moved = Moved<J>;

    ghost planned = { λ p. p.what };

    ghost copied = { λ m. m.what };

    ghost commits = { CommitsMove };

    fn plan(
        alloc: Global,
        drive: &mut Drive<J>,
        session: &mut Session<J>,
        frame: u16,
        object: ObjectId,
    ) -> Result<MovePlan<J>, Refusal> {
        plan_move(alloc, drive, session, frame, object)
    }

    fn copy(alloc: Global, plan: MovePlan<J>) -> Result<Moved<J>, Refusal> {
        plan.copy(alloc)
    }

    fn commit(alloc: Global, drive: &mut Drive<J>, moved: Moved<J>) -> Result<(), Refusal> {
        commit(alloc, drive, moved)
    }
}

//! What can be seen of one object of a drive.
use chain_rewriting::Sees;
use drive::Drive;
use s4_types::{Moment, ObjectId};
use segment_word::Naming;

/// An object of a drive, and what can be seen of it.
#[derive(Drop)]
pub(crate) struct Sight<'a, J: Naming> {
    pub(crate) drive: &'a Drive<J>,
    pub(crate) object: ObjectId,
}

impl<J: Naming> Sees for Sight<'_, J> {
    ghost use Rattle.drive.specs.Fields.{state_in};
    ghost use Rattle.history_cleaner.specs.Sight.{is_seen_between};

    ghost sees = { λ s. is_seen_between (state_in s.drive.now) s.object };

    #[tactic(auto, using(crate::proofs::Seeing::seen_answer))]
    fn sees(&self, first: Moment, last: Moment) -> bool {
        self.drive.sees(self.object, first, last)
    }
}

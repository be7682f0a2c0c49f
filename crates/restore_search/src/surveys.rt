//! What a trial to restore objects finds.
ghost use Rattle.std.specs.Prelude.{MatchBool};
ghost use Rattle.restore_search.specs.Searching.{IsFine};

use s4_types::ObjectId;

/// What is missing where an object can't be restored.
#[derive(Clone, Copy, PartialEq, Eq)]
pub enum Lack {
    /// Its version at the moment, which is hidden.
    Version,
    /// Room in its journal.
    Journal,
    /// A further run of its moments that may be hidden.
    Runs,
    /// Blocks.
    Blocks,
}

/// An object that can't be restored.
#[derive(Clone, Copy)]
pub struct Lacking {
    /// The number under which it isn't.
    pub object: ObjectId,
    pub lack: Lack,
}

/// What a trial found. All else was restored, or could have been.
pub struct Survey {
    /// What has its moment hidden.
    pub hidden: Vec<Lacking>,
    /// What was refused.
    pub refused: Vec<Lacking>,
    /// Where no room could be made in a journal, and why. Where there is such nothing was tried.
    pub unmade: Vec<Lacking>,
}

// Written by hand, so that an owner lets it go by one call.
impl Drop for Survey {
    fn drop(self) {
        let Survey {
            hidden: _,
            refused: _,
            unmade: _,
        } = self;
    }
}

impl Survey {
    /// Whether nothing is lacking.
    pub fn is_fine(&self) -> bool
        ensures { MatchBool result (IsFine self.now) (IsFine self.now → ⊥) }
    {
        self.hidden.is_empty() && self.refused.is_empty() && self.unmade.is_empty()
    }
}

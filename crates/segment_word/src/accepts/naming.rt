//! Names that exist in proofs alone: which drive it is, and which change is accepted.
use std::marker::Brand;

/// Which drive it is: its two tables, and the base of its history. Each call that makes a drive
/// picks it, with `Brand`.
pub trait Naming {
    ghost use Rattle.atomic_table.specs.Seated.{TableId};
    ghost use Rattle.s4_types.specs.History.{Base};

    /// The table of its frames.
    ghost frames: { TableId };

    /// The table of its accept word.
    ghost accepts: { TableId };

    /// What its history begins with.
    ghost base: { Base };
}

impl Naming for Brand {
    ghost use Rattle.segment_word.specs.AcceptViews.{blank_base};
    ghost use Rattle.segment_word.specs.AcceptHandles.{no_table};

    ghost frames = { no_table };

    ghost accepts = { no_table };

    ghost base = { blank_base };
}

/// A change that is accepted, and its moment. Each call that accepts one picks it, with `Brand`.
pub trait Taking {
    ghost use Rattle.std.specs.Prelude.{ℕ};
    ghost use Rattle.s4_types.specs.declared.changes.Change.{Change};

    /// The moment that the change is stamped with.
    ghost moment: { ℕ };

    /// The change.
    ghost change: { Change };
}

impl Taking for Brand {
    ghost use Rattle.s4_types.specs.declared.changes.Change.TheVariants.{SetWindow};

    ghost moment = { 0 };

    ghost change = { SetWindow 0 };
}

/// A moment that is seen. Each call that notes one picks it, with `Brand`.
pub(crate) trait Passing {
    ghost use Rattle.std.specs.Prelude.{ℕ};

    ghost now: { ℕ };
}

impl Passing for Brand {
    ghost now = { 0 };
}

//! Laws of windows, for the layers above: each function does nothing, and its contract is the law.
ghost use Rattle.std.specs.Prelude.{◌≡◌, ℕ, List, map};
ghost use Rattle.s4_types.specs.declared.spans.Span.{Span};
ghost use Rattle.window.specs.Runs.{AllBeginFrom, cut};

/// Where no run begins before the floor, nothing is cut when they are saved: the spans that a
/// window was opened with are saved as they were, as long as the floor stays.
pub fn runs_from_the_floor_on_are_saved_whole()
    ensures { (floor : ℕ) (runs : List Span) → AllBeginFrom floor runs
        → map (cut floor) runs ≡ runs }
{}

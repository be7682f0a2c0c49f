//! What holds of all pages, for the layers above: each function does nothing, and its contract is
//! the law.
ghost use Rattle.history_report.specs.Markup.{DataIsHarmless, PagesAreSafe};

/// On a page no data has a byte that begins or ends a tag or a value: none of `<`, `>`, `"` and
/// `'`.
#[tactic(auto, using(crate::proofs::Markup::data_is_harmless))]
pub fn data_has_no_markup()
    ensures { DataIsHarmless }
{}

/// A reader of HTML is in text, or in a value between quotation marks, wherever a page has data,
/// and is where it was after it. So data is never in a script or in a style, and ends nothing.
#[tactic(auto, using(crate::proofs::Safe::pages_are_safe))]
pub fn data_stays_where_it_is()
    ensures { PagesAreSafe }
{}

//! What holds of all texts, for the layers above: each function does nothing, and its contract is
//! the law.
ghost use Rattle.shown_text.specs.Shown.{LinesArePlain, PlainLinesStay};
ghost use Rattle.shown_text.specs.Shown.{JsonIsPlain, PlainJsonStays};

/// What `shown_lines` gives has no character that isn't printed as it is, but for newlines.
pub fn lines_are_plain()
    ensures { LinesArePlain }
{}

/// It gives lines without such a character as they are.
pub fn plain_lines_stay()
    ensures { PlainLinesStay }
{}

/// What `shown_json` gives has no character that isn't printed as it is.
pub fn json_is_plain()
    ensures { JsonIsPlain }
{}

/// It gives JSON without such a character as it is.
pub fn plain_json_stays()
    ensures { PlainJsonStays }
{}

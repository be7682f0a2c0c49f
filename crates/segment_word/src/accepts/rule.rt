//! The rule of the accept table, and what a seat knows.
ghost use Rattle.segment_word.specs.AcceptViews.{AcceptView, Driving, Spent, begun, blank_base};
ghost use Rattle.segment_word.specs.AcceptRule.{AcceptRule};

use atomic_table::TableRule;
use std::marker::Model;

/// What a seat knows. No value of it is made.
pub struct Known;

impl Model for Known {
    ghost Value = { AcceptView };

    ghost view = { λ _. Spent };
}

/// The accept rule. At the start nothing is accepted.
pub struct OneHistory;

impl TableRule<(), Known, ()> for OneHistory {
    ghost holds = { λ _. AcceptRule };

    ghost first = { λ _. Driving (begun blank_base) };
}

//! The rule of the table, and what a seat knows.
ghost use Rattle.segment_word.specs.FrameRule.{FrameRule, opening_view};
ghost use Rattle.segment_word.specs.Frames.{View, nothing_known};

use atomic_table::TableRule;
use std::marker::Model;
use std::snapshot::Snapshot;

/// What a seat at the table knows. No value of it is made.
pub struct Known;

impl Model for Known {
    ghost Value = { View };

    ghost view = { λ _. nothing_known };
}

/// The frame rule. The table's key is the words that it is made of.
pub struct OneRule;

impl TableRule<(), Known, Snapshot<Vec<u64>>> for OneRule {
    ghost holds = { λ _. FrameRule };

    ghost first = { λ key. opening_view key.value.items };
}

//! Reading a chain back from its newest entry.
ghost use Rattle.std.specs.Prelude.{◌≡◌, ◌++◌, [], IsSome, IfNone};
ghost use Rattle.std.specs.Option.{option_to_list};
ghost use Rattle.journal_chain.specs.Back.{BackFields, entries_left, left};

use crate::table::open;
use block_log::Blocks;
use codec::{Entry, EntryReader};
use s4_types::Ptr;
use std::marker::Model;

/// A reader of a chain's entries, the newest first.
///
/// Each block is read once, an entry of it is decoded when it is asked for, and no memory is taken.
#[derive(Drop)]
pub struct EntriesBack {
    // The block before the one being read.
    previous: Option<Ptr>,
    // The block being read.
    block: EntryReader,
}

impl Model for EntriesBack {
    ghost use Rattle.journal_chain.specs.Back.{BackFields};

    ghost Value = { BackFields };

    ghost view = { λ b. record { previous = b.previous; entries = b.block.entries } };
}

impl EntriesBack {
    /// A reader of the entries from a block on.
    pub(crate) fn new(head: Option<Ptr>) -> Self
        ensures { result ≡ record { previous = head; entries = [] } }
    {
        EntriesBack {
            previous: head,
            block: EntryReader::empty(),
        }
    }

    /// Goes on to the block before, where all entries of the one being read were given.
    fn turn<B: Blocks>(&mut self, table: &mut B)
        requires { IsSome (entries_left (B.log table.old).held self.old) }
        ensures left { entries_left (B.log table.new).held self.new
            ≡ entries_left (B.log table.old).held self.old }
        ensures end { self.new.entries ≡ [] → left (B.log table.old).held self.old ≡ [] }
        ensures same { B.log table.new ≡ B.log table.old }
    {
        if !self.block.is_empty() {
            return;
        }
        let Some(place) = self.previous else {
            return;
        };
        let block = open(table, place);
        self.previous = block.previous();
        self.block = block;
    }

    /// The newest entry that was not given. None where all were.
    pub fn next<B: Blocks>(&mut self, table: &mut B) -> Option<Entry>
        requires { IsSome (entries_left (B.log table.old).held self.old) }
        ensures gives { left (B.log table.old).held self.old
            ≡ left (B.log table.new).held self.new ++ option_to_list result }
        ensures end { IfNone result (left (B.log table.old).held self.old ≡ []) }
        ensures reads { IsSome (entries_left (B.log table.new).held self.new) }
        ensures same { B.log table.new ≡ B.log table.old }
    {
        self.turn(table);
        self.block.pop()
    }
}

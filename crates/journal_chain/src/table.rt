//! One journal block read from a table, for its entries or to go on with, and one appended to it.
ghost use Rattle.std.specs.Prelude.{◌≡◌, ◌≤◌, ◌<◌, length, Some, IsSome};
ghost use Rattle.journal_chain.specs.Writing.{Put, spelled_journal};

use block_log::{BlockKind, Blocks};
use codec::{EntryReader, JournalBytes};
use s4_types::Ptr;

/// The journal block at a place where one is held, as its bytes: no entry is decoded.
pub(crate) fn reopen<B: Blocks>(table: &mut B, place: Ptr) -> JournalBytes
    requires { IsSome (spelled_journal ((B.log table.old).held place)) }
    ensures value { spelled_journal ((B.log table.old).held place) ≡ Some result }
    ensures same { B.log table.new ≡ B.log table.old }
{
    JournalBytes::of(table.get(place))
}

/// A reader of the journal block at a place where one is held.
pub(crate) fn open<B: Blocks>(table: &mut B, place: Ptr) -> EntryReader
    requires { IsSome (spelled_journal ((B.log table.old).held place)) }
    ensures value { spelled_journal ((B.log table.old).held place) ≡ Some result }
    ensures some { 1 ≤ length result.entries }
    ensures same { B.log table.new ≡ B.log table.old }
{
    let block = table.get(place);
    EntryReader::new(block)
}

/// Appends a journal block where a place is ahead, and answers that place.
pub(crate) fn write<B: Blocks>(table: &mut B, block: &JournalBytes) -> Ptr
    requires object { 1 ≤ block.now.object }
    requires room { 0 < length (B.log table.old).ahead }
    ensures { Put (B.log table.old) (B.log table.new) result block.now }
{
    table
        .append(BlockKind::Journal, block.object(), block.as_bytes())
        .unwrap()
}

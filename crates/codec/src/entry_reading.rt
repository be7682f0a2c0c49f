ghost use Rattle.std.specs.Prelude.{◌≡◌, ℕ, List, length, Option};
ghost use Rattle.std.specs.List.{list_all};
ghost use Rattle.codec.specs.Fields.{Reads};
ghost use Rattle.codec.specs.Entry.{EntryFields, flags_at, text_at, pair_at, index_at_by};
ghost use Rattle.codec.specs.Entry.{triple_at_by, triples_at_by, has_small_index, is_allowed_by};
ghost use Rattle.codec.specs.Entry.{behind_statuses, behind_count, entry_at_by};

use crate::attributes::Attribute;
use crate::entries::{Entry, Flags, Pair, PointerIndex, Status, Triple, Triples};
use crate::fields::{read_byte, read_bytes, read_long, read_short, read_slot, read_word};
use crate::versions::{FIRST_OBJECT_BLOCKS, FIRST_OBJECT_BYTES, ImageVersion};
use arrayvec::ArrayVec;
use s4_types::Moment;
use s4_types::limits::ENTRY_TRIPLES;

#[tactic(auto, unfolding(crate::specs::Entry::flags_at))]
fn read_flags(bytes: &[u8]) -> Option<(Flags, &[u8])>
    ensures { Reads (λ x. (x.0, x.1.now)) result (flags_at bytes.now) }
{
    let [byte, rest @ ..] = bytes else {
        return None;
    };
    let byte = *byte;
    if byte > 7 {
        return None;
    }
    let flags = Flags {
        before: byte % 2 == 1,
        after: byte / 2 % 2 == 1,
        pair: byte / 4 == 1,
    };
    Some((flags, rest))
}

#[tactic(auto, unfolding(crate::specs::Entry::text_at))]
fn read_text(bytes: &[u8]) -> Option<(Attribute, &[u8])>
    ensures { Reads (λ x. (x.0, x.1.now)) result (text_at bytes.now) }
{
    let (length, rest) = read_byte(bytes)?;
    let (text, rest) = read_bytes(length as usize, rest)?;
    let attribute = Attribute::new(text)?;
    Some((attribute, rest))
}

#[tactic(auto, unfolding(crate::specs::Entry::pair_at))]
fn read_pair(there: bool, bytes: &[u8]) -> Option<(Option<Pair>, &[u8])>
    ensures { Reads (λ x. (x.0, x.1.now)) result (pair_at there bytes.now) }
{
    if !there {
        return Some((None, bytes));
    }
    let Some((before, rest)) = read_text(bytes) else {
        return None;
    };
    let Some((after, rest)) = read_text(rest) else {
        return None;
    };
    Some((Some(Pair { before, after }), rest))
}

fn read_index(version: ImageVersion, bytes: &[u8]) -> Option<(PointerIndex, &[u8])>
    ensures { Reads (λ x. (x.0, x.1.now)) result (index_at_by version bytes.now) }
{
    match version {
        ImageVersion::First => {
            let (index, rest) = read_byte(bytes)?;
            Some((PointerIndex::from(index), rest))
        }
        ImageVersion::Second => read_short(bytes),
    }
}

#[tactic(auto, unfolding(crate::specs::Entry::triple_at_by))]
fn read_triple(version: ImageVersion, bytes: &[u8]) -> Option<(Triple, &[u8])>
    ensures { Reads (λ x. (x.0, x.1.now)) result (triple_at_by version bytes.now) }
{
    let (index, rest) = read_index(version, bytes)?;
    let Some((before, rest)) = read_slot(rest) else {
        return None;
    };
    let Some((after, rest)) = read_slot(rest) else {
        return None;
    };
    let triple = Triple {
        index,
        before,
        after,
    };
    Some((triple, rest))
}

#[tactic(auto, unfolding(crate::specs::Entry::triples_at_by))]
fn read_triples(version: ImageVersion, count: u8, bytes: &[u8]) -> Option<(Triples, &[u8])>
    ensures { Reads (λ x. (x.0.items, x.1.now)) result (triples_at_by version count bytes.now) }
{
    if count as usize > ENTRY_TRIPLES {
        return None;
    }
    let mut triples: Triples = ArrayVec::new();
    let mut rest = bytes;
    for _ in 0..count {
        let Some((triple, after)) = read_triple(version, rest) else {
            return None;
        };
        triples.push(triple);
        rest = after;
    }
    Some((triples, rest))
}

fn have_small_indices(triples: &[Triple]) -> bool
    ensures { result ≡ list_all has_small_index triples.now }
{
    triples
        .iter()
        .all(|triple| (triple.index as usize) < FIRST_OBJECT_BLOCKS)
}

/// Whether an entry of these two sizes and triples is of an object that an image of a version can
/// have.
fn is_allowed(version: ImageVersion, before: u32, after: u32, triples: &[Triple]) -> bool
    ensures { result ≡ is_allowed_by version before after triples.now }
{
    match version {
        ImageVersion::First => {
            before <= FIRST_OBJECT_BYTES as u32
                && after <= FIRST_OBJECT_BYTES as u32
                && have_small_indices(triples)
        }
        ImageVersion::Second => true,
    }
}

// What comes after the two statuses of an entry.
fn read_behind_statuses(
    version: ImageVersion,
    moment: Moment,
    before: Status,
    after: Status,
    has_pair: bool,
    count: u8,
    bytes: &[u8],
) -> Option<(Entry, &[u8])>
    ensures { Reads (λ x. (x.0, x.1.now)) result
        (behind_statuses version moment before after has_pair count bytes.now) }
{
    let Some((pair, rest)) = read_pair(has_pair, bytes) else {
        return None;
    };
    let Some((triples, rest)) = read_triples(version, count, rest) else {
        return None;
    };
    if !is_allowed(version, before.size, after.size, &triples) {
        return None;
    }
    let entry = Entry::new(moment, before, after, pair, triples)?;
    Some((entry, rest))
}

// What comes after an entry's count of triples.
fn read_behind_count(
    version: ImageVersion,
    moment: Moment,
    flags: Flags,
    count: u8,
    bytes: &[u8],
) -> Option<(Entry, &[u8])>
    ensures { Reads (λ x. (x.0, x.1.now)) result
        (behind_count version moment flags count bytes.now) }
{
    let (size_before, rest) = read_word(bytes)?;
    let (size_after, rest) = read_word(rest)?;
    let (changed_before, rest) = read_long(rest)?;
    let (changed_after, rest) = read_long(rest)?;
    let before = Status {
        alive: flags.before,
        size: size_before,
        changed: Moment::new(changed_before),
    };
    let after = Status {
        alive: flags.after,
        size: size_after,
        changed: Moment::new(changed_after),
    };
    read_behind_statuses(version, moment, before, after, flags.pair, count, rest)
}

/// The entry of an image of a version that the bytes begin with, and the bytes after it.
#[tactic(auto, unfolding(crate::specs::Entry::entry_at_by))]
pub(crate) fn read_entry(version: ImageVersion, bytes: &[u8]) -> Option<(Entry, &[u8])>
    ensures { Reads (λ x. (x.0, x.1.now)) result (entry_at_by version bytes.now) }
{
    let (moment, rest) = read_long(bytes)?;
    let (flags, rest) = read_flags(rest)?;
    let (count, rest) = read_byte(rest)?;
    read_behind_count(version, Moment::new(moment), flags, count, rest)
}

//! Moments of a chain's entries, and the groups that those of one moment make.
ghost use Rattle.std.specs.Prelude.{◌≡◌, ◌&&◌, false, nat_lt, nat_le, List, ◌∷◌};
ghost use Rattle.std.specs.Option.{option_map_or};
ghost use Rattle.codec.specs.Entry.{EntryFields};
ghost use Rattle.std.specs.List.{list_all};
ghost use Rattle.undo_redo.specs.Groups.{above, continues};
ghost use Rattle.image_objects.specs.Versions.{grouped_by, grouped_behind_by};

use codec::{Entry, ImageVersion, PointerIndex, Triple};
use s4_types::Moment;

/// Whether each entry is of a moment from a first one to a last one.
pub(crate) fn lie_from_to(entries: &[Entry], first: Moment, last: Moment) -> bool
    ensures { result ≡ list_all (λ e. nat_le first e.moment && nat_le e.moment last) entries.now }
{
    entries
        .iter()
        .all(|entry| entry.moment() >= first && entry.moment() <= last)
}

/// Whether an index is above that of each triple.
fn is_above(lower: &[Triple], index: PointerIndex) -> bool
    ensures { result ≡ list_all (λ u. nat_lt u.index index) lower.now }
{
    lower.iter().all(|triple| triple.index < index)
}

/// Whether each index of the second triples is above each of the first.
fn are_above(lower: &[Triple], higher: &[Triple]) -> bool
    ensures { result ≡ above lower.now higher.now }
{
    higher.iter().all(|triple| is_above(lower, triple.index))
}

/// Whether an entry only adds pointers to what the one before it made at the same moment.
fn does_continue(before: &Entry, entry: &Entry) -> bool
    ensures { result ≡ continues before.now entry.now }
{
    entry.before().alive
        && entry.after().alive
        && entry.before().size == entry.after().size
        && entry.before().changed.number() == entry.moment().number()
        && entry.after().changed.number() == entry.moment().number()
        && entry.pair().is_none()
        && are_above(before.triples(), entry.triples())
}

/// How many entries of its moment an entry ends, after one that ends this many. None where it can't
/// be there.
fn count_behind(version: ImageVersion, count: usize, before: &Entry, entry: &Entry) -> Option<usize>
    ensures { (later : List EntryFields)
        → grouped_behind_by version count before.now (entry.now ∷ later)
        ≡ option_map_or (λ n. grouped_behind_by version n entry.now later) result false }
{
    if before.moment() < entry.moment() {
        return Some(1);
    }
    let is_next = before.moment() == entry.moment()
        && count < version.change_entries()
        && does_continue(before, entry);
    if is_next { Some(count + 1) } else { None }
}

/// Whether moments don't descend, and entries of one moment are one change's: at most as many as
/// the version's may have, of which each later one continues the one before it.
pub(crate) fn are_grouped(version: ImageVersion, entries: &[Entry]) -> bool
    ensures { result ≡ grouped_by version entries.now }
{
    let Some((first, later)) = entries.split_first() else {
        return true;
    };
    let mut before = first;
    let mut count = 1;
    for entry in later {
        let Some(next) = count_behind(version, count, before, entry) else {
            return false;
        };
        before = entry;
        count = next;
    }
    true
}

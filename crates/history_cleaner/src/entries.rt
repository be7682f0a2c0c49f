//! What holds of entries, and whether two lists of them are the same.
ghost use Rattle.std.specs.Prelude.{◌≡◌, MatchBool};
ghost use Rattle.history_cleaner.specs.Laws.{KeepRules, HaveFewTriples};

use codec::{Entry, Triple};

/// Shows that each entry keeps the rules of entries, and has no more triples than an entry holds.
#[tactic(auto, using(crate::proofs::EachEntry::all_keep_rules, crate::proofs::EachEntry::all_have_few))]
pub(crate) fn each_is_an_entry(entries: &[Entry])
    ensures rules { KeepRules entries.now }
    ensures few { HaveFewTriples entries.now }
{
    for entry in entries {
        let _rules = entry.triples();
    }
}

/// Whether two lists have the same triples.
fn are_same_triples(triples: &[Triple], others: &[Triple]) -> bool
    ensures { MatchBool result (triples.now ≡ others.now) (triples.now ≡ others.now → ⊥) }
{
    if triples.len() != others.len() {
        return false;
    }
    for i in 0..triples.len() {
        if triples[i] != others[i] {
            return false;
        }
    }
    true
}

/// Whether two entries are the same one.
fn is_same(one: &Entry, other: &Entry) -> bool
    ensures { MatchBool result (one.now ≡ other.now) (one.now ≡ other.now → ⊥) }
{
    one.moment() == other.moment()
        && one.before() == other.before()
        && one.after() == other.after()
        && one.pair() == other.pair()
        && are_same_triples(one.triples(), other.triples())
}

/// Whether two lists have the same entries.
pub(crate) fn are_same(entries: &[Entry], others: &[Entry]) -> bool
    ensures { MatchBool result (entries.now ≡ others.now) (entries.now ≡ others.now → ⊥) }
{
    if entries.len() != others.len() {
        return false;
    }
    for i in 0..entries.len() {
        if !is_same(&entries[i], &others[i]) {
            return false;
        }
    }
    true
}

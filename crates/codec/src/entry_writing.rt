ghost use Rattle.std.specs.Prelude.{◌≡◌, ℕ, ◌+◌, ◌*◌, ◌≤◌, ◌++◌, ◌∷◌, List, length, Option, Some};
ghost use Rattle.std.specs.Prelude.{IfSome};
ghost use Rattle.std.specs.List.{flat_map, AllByRecursion};
ghost use Rattle.s4_types.specs.declared.limits.TheConstants.{TRIPLE_BYTES};
ghost use Rattle.codec.specs.Fields.{Reads};
ghost use Rattle.codec.specs.Entry.{EntryFields, IsEntry, IsTriple, IsPair, entry_at, entry_at_by};
ghost use Rattle.codec.specs.Entry.{flags_byte, text, pair_spelling, triple_spelling_by};
ghost use Rattle.codec.specs.Entry.{entry_spelling, entry_length, pair_length, BeginsWithEntry};
ghost use Rattle.codec.specs.Entry.{BeginsWithEntryBy};
ghost use Rattle.codec.specs.declared.versions.ImageVersion.TheVariants.{Second};

use crate::attributes::Attribute;
use crate::entries::{Entry, Pair, Triple};
use crate::entry_reading::read_entry;
use crate::pointers::put_slot;
use crate::versions::ImageVersion;
use crate::writing::{Writing, bit_of, put, put_byte, put_long, put_short, put_word};

#[tactic(auto, unfolding(crate::specs::Entry::flags_byte))]
fn flags_of(before: bool, after: bool, pair: bool) -> u8
    ensures { result ≡ flags_byte (record { before = before; after = after; pair = pair }) }
{
    bit_of(before) + (2 * bit_of(after) + 4 * bit_of(pair))
}

#[tactic(auto, unfolding(crate::specs::Entry::text))]
fn put_text(out: &mut Writing, attribute: Attribute)
    requires { length out.old.items + (1 + length attribute) ≤ 512 }
    ensures items { out.new.items ≡ out.old.items ++ text attribute }
    ensures len { length out.new.items ≡ length out.old.items + (1 + length attribute) }
    ensures short { length attribute ≤ 64 }
{
    let bytes = attribute.as_slice();
    put_byte(out, bytes.len() as u8);
    put(out, bytes);
}

#[tactic(auto, unfolding(crate::specs::Entry::pair_spelling, crate::specs::Entry::pair_length))]
fn put_pair(out: &mut Writing, pair: Option<Pair>)
    requires { length out.old.items + pair_length pair ≤ 512 }
    ensures items { out.new.items ≡ out.old.items ++ pair_spelling pair }
    ensures len { length out.new.items ≡ length out.old.items + pair_length pair }
    ensures short { IsPair pair }
{
    if let Some(pair) = pair {
        put_text(out, pair.before);
        put_text(out, pair.after);
    }
}

#[tactic(auto, unfolding(crate::specs::Entry::triple_spelling_by))]
fn put_triple(out: &mut Writing, triple: Triple)
    requires { length out.old.items + TRIPLE_BYTES ≤ 512 }
    ensures items { out.new.items ≡ out.old.items ++ triple_spelling_by Second triple }
    ensures len { length out.new.items ≡ length out.old.items + TRIPLE_BYTES }
    ensures range { IsTriple triple }
{
    put_short(out, triple.index);
    put_slot(out, triple.before);
    put_slot(out, triple.after);
}

fn put_triples(out: &mut Writing, triples: &[Triple])
    requires { length out.old.items + TRIPLE_BYTES * length triples.now ≤ 512 }
    ensures items { out.new.items ≡ out.old.items ++ flat_map (triple_spelling_by Second) triples.now }
    ensures len { length out.new.items ≡ length out.old.items + TRIPLE_BYTES * length triples.now }
    ensures range { AllByRecursion IsTriple triples.now }
{
    for triple in triples {
        put_triple(out, *triple);
    }
}

/// Appends the one encoding of an entry to a block that has room for it.
#[tactic(auto, unfolding(crate::specs::Entry::entry_spelling, crate::specs::Entry::entry_spelling_by, crate::specs::Entry::entry_length))]
pub fn encode_entry(entry: &Entry, out: &mut Writing)
    requires { length out.old.items + entry_length entry.now ≤ 512 }
    ensures items { out.new.items ≡ out.old.items ++ entry_spelling entry.now }
    ensures len { length out.new.items ≡ length out.old.items + entry_length entry.now }
    ensures spelled { IsEntry entry.now }
{
    let before = entry.before();
    let after = entry.after();
    let pair = entry.pair();
    let triples = entry.triples();
    put_long(out, entry.moment().number());
    put_byte(out, flags_of(before.alive, after.alive, pair.is_some()));
    put_byte(out, triples.len() as u8);
    put_word(out, before.size);
    put_word(out, after.size);
    put_long(out, before.changed.number());
    put_long(out, after.changed.number());
    put_pair(out, pair);
    put_triples(out, triples);
}

/// The entry whose encoding the bytes begin with, and the bytes after it. None where they begin
/// with the encoding of no entry.
pub fn decode_entry(bytes: &[u8]) -> Option<(Entry, &[u8])>
    ensures found { IfSome result (λ x. BeginsWithEntry bytes.now x.0 x.1.now) }
    ensures only { (entry : EntryFields) (rest : List ℕ)
        → BeginsWithEntry bytes.now entry rest
        → Reads {Y = EntryFields × List ℕ} (λ x. (x.0, x.1.now)) result (Some (entry, rest)) }
{
    read_entry(ImageVersion::Second, bytes)
}

/// The entry whose encoding in an image of a version the bytes begin with, and the bytes after it.
/// None where they begin with the encoding of no entry there.
pub fn decode_entry_by(version: ImageVersion, bytes: &[u8]) -> Option<(Entry, &[u8])>
    ensures exact { Reads (λ x. (x.0, x.1.now)) result (entry_at_by version bytes.now) }
    ensures found { IfSome result (λ x. BeginsWithEntryBy version bytes.now x.0 x.1.now) }
    ensures only { (entry : EntryFields) (rest : List ℕ)
        → BeginsWithEntryBy version bytes.now entry rest
        → Reads {Y = EntryFields × List ℕ} (λ x. (x.0, x.1.now)) result (Some (entry, rest)) }
{
    read_entry(version, bytes)
}

//! What is taken from the matches of a line: texts, numbers and flags.
ghost use Rattle.std.specs.Prelude.{◌≡◌, ◌↔◌, ℕ, IfSome, IfNone, IsTrue, Some, option_map};
ghost use Rattle.clap.specs.Walk.{all_of, first_of, one_of, rows_of, texts};
ghost use Rattle.clap.specs.Matches.{found_of};
ghost use Rattle.s4d_command.specs.CommandLine.{IsGiven, IsNumber};

use clap::ArgMatches;

/// The text that is given, if one is.
pub fn text_in<'a>(matches: &ArgMatches<'a>, id: &str) -> Option<&'a str>
    ensures same { option_map (λ text. text.now) result ≡ first_of id.now
        (rows_of (found_of matches.now)) }
    ensures none { IfNone result
        ((text : _) → first_of id.now (rows_of (found_of matches.now)) ≡ Some text → ⊥) }
    ensures some { IfSome result
        (λ text. first_of id.now (rows_of (found_of matches.now)) ≡ Some text.now) }
{
    matches.get_str(id)
}

/// All texts that are given, in the order of the words. None where none is.
pub fn texts_in<'b, 'a>(matches: &'b ArgMatches<'a>, id: &str) -> Option<&'b [&'a str]>
    ensures same { option_map (λ words. texts words.now) result ≡ all_of id.now
        (rows_of (found_of matches.entry.now)) }
    ensures none { IfNone result
        ((words : _) → all_of id.now (rows_of (found_of matches.entry.now)) ≡ Some words → ⊥) }
    ensures some { IfSome result
        (λ words. all_of id.now (rows_of (found_of matches.entry.now)) ≡ Some (texts words.now)) }
{
    matches.get_strs(id)
}

/// Whether the flag is given.
pub fn is_given(matches: &ArgMatches<'_>, id: &str) -> bool
    ensures { IsTrue result ↔ IsGiven id.now (rows_of (found_of matches.now)) }
{
    matches!(text_in(matches, id), Some("true"))
}

/// The number that is given, if a text is and it is one.
pub fn number(matches: &ArgMatches<'_>, id: &str) -> Option<u64>
    ensures none { IfNone result ((n : ℕ) →
        IsNumber (one_of id.now (rows_of (found_of matches.now))) n → ⊥) }
    ensures some { IfSome result (IsNumber (one_of id.now (rows_of (found_of matches.now)))) }
{
    matches.get_one::<u64>(id)
}

/// The number that a word is.
pub fn number_of(word: &str) -> Option<u64>
    ensures none { IfNone result ((n : ℕ) → IsNumber (Some word.now) n → ⊥) }
    ensures some { IfSome result (IsNumber (Some word.now)) }
{
    word.parse::<u64>().ok()
}

//! How a moment is read: a number, a time, or an age.
ghost use Rattle.std.specs.Prelude.{◌≡◌, ℕ, IfNone, IfSome, List, [], ◌∷◌, ◌++◌, MatchOption};
ghost use Rattle.moment_words.specs.Words as words;
ghost use Rattle.moment_words.specs.Words.{IsAge, IsAgeIn, IsMomentWord, IsNumber};

use crate::printing::FIRST_DATED;
use jiff_core::Timestamp;
use jiff_fmt::temporal;

/// Nanoseconds of a microsecond.
const NANOS: u128 = 1_000;

/// What a text says of a moment.
#[derive(Clone, Copy, PartialEq, Eq)]
pub enum MomentWord {
    /// The moment of this number.
    Moment(u64),
    /// A time, or the time that an age says, in microseconds since 1970-01-01T00:00:00Z.
    Time(u64),
}

/// The units of an age.
#[derive(Clone, Copy)]
pub enum AgeUnit {
    /// `s`.
    Second,
    /// `m`.
    Minute,
    /// `h`.
    Hour,
    /// `d`, of 24 hours.
    Day,
    /// `w`, of 7 days.
    Week,
}

impl AgeUnit {
    fn letter(self) -> char
        ensures { result ≡ words.letter_of self }
    {
        match self {
            AgeUnit::Second => 's',
            AgeUnit::Minute => 'm',
            AgeUnit::Hour => 'h',
            AgeUnit::Day => 'd',
            AgeUnit::Week => 'w',
        }
    }

    fn micros(self) -> u64
        ensures { result ≡ words.micros_of self }
    {
        match self {
            AgeUnit::Second => 1_000_000,
            AgeUnit::Minute => 60_000_000,
            AgeUnit::Hour => 3_600_000_000,
            AgeUnit::Day => 86_400_000_000,
            AgeUnit::Week => 604_800_000_000,
        }
    }
}

/// What the text says where it is `now`, in microseconds since 1970: a decimal number is that
/// moment; a time of RFC 3339 with its offset from UTC is its microsecond; and a number with `s`,
/// `m`, `h`, `d` or `w` at its end is an age, and the time so long before `now`. None for anything
/// else, for a time before 1970, for an age that is larger than `now`, and for what 64 bits can't
/// hold.
pub fn read(text: &str, now: u64) -> Option<MomentWord>
    ensures some { IfSome result (IsMomentWord now text.now) }
    ensures none { IfNone result ((word : MomentWord) → IsMomentWord now text.now word → ⊥) }
{
    if let Some(moment) = number_of(text) {
        return Some(MomentWord::Moment(moment));
    }
    if let Some(time) = time_of(text) {
        return Some(MomentWord::Time(time));
    }
    let Some(age) = age_of(text) else {
        return None;
    };
    match now.checked_sub(age) {
        Some(time) => Some(MomentWord::Time(time)),
        None => None,
    }
}

/// The moment, where the clock is there. A number is itself, also above the clock, and a time above
/// the clock is the clock. None for a time exactly where the clock is below `FIRST_DATED`: moments
/// are numbers then, which no time says.
pub fn moment_of(word: MomentWord, clock: u64) -> Option<u64>
    ensures { result ≡ words.moment_of word clock }
{
    match word {
        MomentWord::Moment(moment) => Some(moment),
        MomentWord::Time(time) if clock >= FIRST_DATED => Some(time.min(clock)),
        MomentWord::Time(_) => None,
    }
}

fn number_of(text: &str) -> Option<u64>
    ensures some { IfSome result (IsNumber text.now) }
    ensures none { IfNone result ((n : ℕ) → IsNumber text.now n → ⊥) }
{
    text.parse::<u64>().ok()
}

fn time_of(text: &str) -> Option<u64>
    ensures { result ≡ words.time_of text.now }
{
    match temporal::parse_timestamp(text.as_bytes()) {
        Ok(instant) => microsecond_of(instant),
        Err(_) => None,
    }
}

fn microsecond_of(instant: Timestamp) -> Option<u64>
    ensures { result ≡ words.microsecond_of instant.nanosecond }
{
    match u128::try_from(instant.nanosecond) {
        Ok(nanosecond) => Some((nanosecond / NANOS) as u64),
        Err(_) => None,
    }
}

/// How many microseconds an age says: a number with `s`, `m`, `h`, `d` or `w` at its end. None for
/// anything else, and for what 64 bits can't hold.
pub fn age_of(text: &str) -> Option<u64>
    ensures some { IfSome result (IsAge text.now) }
    ensures none { IfNone result ((n : ℕ) → IsAge text.now n → ⊥) }
{
    if let Some(age) = age_in(text, AgeUnit::Second) {
        return Some(age);
    }
    if let Some(age) = age_in(text, AgeUnit::Minute) {
        return Some(age);
    }
    if let Some(age) = age_in(text, AgeUnit::Hour) {
        return Some(age);
    }
    if let Some(age) = age_in(text, AgeUnit::Day) {
        return Some(age);
    }
    match age_in(text, AgeUnit::Week) {
        Some(age) => Some(age),
        None => None,
    }
}

fn age_in(text: &str, unit: AgeUnit) -> Option<u64>
    ensures some { IfSome result (IsAgeIn unit text.now) }
    ensures none { IfNone result ((n : ℕ) → IsAgeIn unit text.now n → ⊥) }
{
    let Some(digits) = without_unit(text, unit) else {
        return None;
    };
    let Some(count) = number_of(digits) else {
        return None;
    };
    match count.checked_mul(unit.micros()) {
        Some(age) => Some(age),
        None => None,
    }
}

fn without_unit(text: &str, unit: AgeUnit) -> Option<&str>
    ensures { MatchOption result ((digits : List ℕ) → text.now ≡ digits ++ words.letter_of unit ∷ []
        → ⊥)
        (λ digits. text.now ≡ digits.now ++ words.letter_of unit ∷ []) }
{
    text.strip_suffix(unit.letter())
}

//! Durations as people write them.
ghost use Rattle.std.specs.Prelude.{ℕ, IfNone, IfSome};
ghost use Rattle.service_time.specs.Durations.{IsDuration};

use moment_words::age_of;

/// How many microseconds a text says: a number with `s`, `m`, `h`, `d` or `w` at its end, as
/// `30d`. None for anything else, and for what 64 bits can't hold.
pub fn duration_of(text: &str) -> Option<u64>
    ensures some { IfSome result (IsDuration text.now) }
    ensures none { IfNone result ((micros : ℕ) → IsDuration text.now micros → ⊥) }
{
    age_of(text)
}

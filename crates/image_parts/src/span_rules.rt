ghost use Rattle.std.specs.Prelude.{◌≡◌, ◌⊎◌, ℕ, ◌+◌, ◌≤◌, MatchBool, MatchOption};
ghost use Rattle.s4_types.specs.declared.limits.TheConstants.{RUNS_IN_A_LIST};
ghost use Rattle.image_parts.specs.Spans.{KeepsSpanRules, BeginsList, GoesOn, SpansFollow};
ghost use Rattle.image_parts.specs.Spans.{SpansKeep, KeepSpanRules};
ghost use Rattle.image_parts.specs.Image.{header_of};

use crate::headers::Header;
use crate::parts::ImageParts;
use crate::spans::Spans;
use s4_types::Span;
use s4_types::limits::{RUNS_IN_A_LIST, RUNS_IN_ALL};

/// Whether a span by itself keeps the rules.
fn keeps_rules(header: &Header, span: &Span) -> bool
    ensures { MatchBool result (KeepsSpanRules header.now span.now)
        (KeepsSpanRules header.now span.now → ⊥) }
{
    span.object.number() < header.next.number()
        && header.floor.number() <= span.first.number()
        && span.first.number() <= span.last.number()
        && span.last.number() < header.clock.number()
}

/// Which of its list a span is that comes after the nth of a list. None where it can't be there.
fn place_behind(before: &Span, nth: usize, span: &Span) -> Option<usize>
    requires { nth ≤ RUNS_IN_A_LIST }
    ensures { MatchOption result
        ((BeginsList before.now span.now ⊎ GoesOn before.now nth span.now) → ⊥)
        (λ place. (BeginsList before.now span.now × (place ≡ 1))
        ⊎ (GoesOn before.now nth span.now × (place ≡ nth + 1))) }
{
    if before.object.number() < span.object.number() {
        return Some(1);
    }
    let gap = span.first.number().saturating_sub(before.last.number());
    if before.object.number() != span.object.number() || gap <= 1 || nth >= RUNS_IN_A_LIST {
        return None;
    }
    Some(nth + 1)
}

/// Whether each span keeps the rules, by itself and after the one before it.
fn follow(header: &Header, parts: &ImageParts<'_>) -> bool
    ensures { MatchBool result (SpansKeep header.now parts.now.spans)
        (SpansKeep header.now parts.now.spans → ⊥) }
{
    let mut spans = parts.spans();
    let Some(first) = spans.next() else {
        return true;
    };
    if !keeps_rules(header, &first) {
        return false;
    }
    let mut before = first;
    let mut nth = 1;
    for span in spans {
        if !keeps_rules(header, &span) {
            return false;
        }
        let Some(place) = place_behind(&before, nth, &span) else {
            return false;
        };
        before = span;
        nth = place;
    }
    true
}

/// Whether the spans keep the rules, and are no more than an image may have.
pub fn spans_keep_rules(parts: &ImageParts<'_>) -> bool
    ensures { MatchBool result (KeepSpanRules (header_of parts.now) parts.now.spans)
        (KeepSpanRules (header_of parts.now) parts.now.spans → ⊥) }
{
    parts.spans().len() as usize <= RUNS_IN_ALL && follow(&parts.header(), parts)
}

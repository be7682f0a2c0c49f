ghost use Rattle.std.specs.Prelude.{◌≡◌, IfOk, IfErr};
ghost use Rattle.std.specs.List.{filter_map, list_any};
ghost use Rattle.s4_model.specs.Visible.{span_of, hides, is_within};
ghost use Rattle.s4_types.specs.declared.refusals.Refusal.TheVariants.{NoMemory};

use s4_types::{Accepted, Change, Moment, ObjectId, Refusal, Span};
use std::alloc::Global;

/// The span that an accepted change hides, if any.
pub fn span_of(accepted: &Accepted) -> Option<Span>
    ensures { result ≡ span_of accepted.now }
{
    match &accepted.change {
        Change::Flush { first, last } => Some(Span {
            object: ObjectId::new(0),
            first: *first,
            last: *last,
        }),
        Change::FlushO {
            object,
            first,
            last,
        } => Some(Span {
            object: *object,
            first: *first,
            last: *last,
        }),
        _ => None,
    }
}

/// Whether a span has the moment in it.
pub fn is_within(span: Span, at: Moment) -> bool
    ensures { result ≡ is_within span at }
{
    span.first <= at && at <= span.last
}

/// Whether a span hides the moment of the object.
fn hides(object: ObjectId, at: Moment, span: Span) -> bool
    ensures { result ≡ hides object at span }
{
    (span.object.number() == 0 || span.object == object) && is_within(span, at)
}

/// Whether these changes hide the moment of the object.
pub fn is_hidden(changes: &[Accepted], object: ObjectId, at: Moment) -> bool
    ensures { result ≡ list_any (hides object at) (filter_map span_of changes.now) }
{
    changes
        .iter()
        .filter_map(|accepted| span_of(accepted))
        .any(|span| hides(object, at, span))
}

/// The spans that these changes hide, in their order.
pub fn spans_of(alloc: Global, changes: &[Accepted]) -> Result<Vec<Span>, Refusal>
    ensures ok { IfOk result (λ spans. spans.items ≡ filter_map span_of changes.now) }
    ensures err { IfErr result (λ refusal. refusal ≡ NoMemory) }
{
    let spans = changes
        .iter()
        .filter_map(|accepted| span_of(accepted))
        .collect(alloc)?;
    Ok(spans)
}

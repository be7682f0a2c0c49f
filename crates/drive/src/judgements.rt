//! What the clock, the next object's number and the object's present size decide.
ghost use Rattle.std.specs.Prelude.{◌≡◌, ◌⊎◌, ◌+◌, ◌<◌, ◌≤◌, None, Some, IsSome, Err, MatchResult};
ghost use Rattle.std.specs.Prelude.{IfOk, OnOk, unwrap_or, length};
ghost use Rattle.s4_types.specs.declared.limits.TheConstants.{OBJECT_BYTES};
ghost use Rattle.s4_types.specs.declared.requests.Request.TheVariants.{Update};
ghost use Rattle.s4_types.specs.declared.refusals.Refusal.TheVariants.{ClockEnd, NoObject};
ghost use Rattle.s4_types.specs.declared.refusals.Refusal.TheVariants.{TooLarge};
ghost use Rattle.s4_model.specs.State.{State};
ghost use Rattle.s4_model.specs.Refusals.{last_number};
ghost use Rattle.s4_model.specs.Step.{change_of};
ghost use Rattle.s4_model.specs.Limits.{Fits};
ghost use Rattle.drive.specs.Later.{later_refusal, IsWithin, IsAllowed, HasSize, object_asked};
ghost use Rattle.s4_model.specs.Effect.{object_of as object_of_change};

use crate::checks::ends_past_limit;
use s4_types::{Bytes, Change, Moment, ObjectId, ObjectRequest, Refusal};

/// The object that a change is of: a Create's is the next one.
pub(crate) fn object_of(next: ObjectId, update: &ObjectRequest) -> ObjectId
    ensures { result ≡ object_asked next (Update update.now) }
{
    match update {
        ObjectRequest::Create { .. } => next,
        ObjectRequest::Delete { object }
        | ObjectRequest::Write { object, .. }
        | ObjectRequest::Append { object, .. }
        | ObjectRequest::Truncate { object, .. }
        | ObjectRequest::SetAttr { object, .. } => *object,
    }
}

/// ClockEnd where no later moment can be given.
pub(crate) fn check_clock(clock: Moment) -> Result<(), Refusal>
    ensures { MatchResult result (λ _. clock < last_number)
        (λ e. (e ≡ ClockEnd) × (clock ≡ last_number)) }
{
    if clock.number() == u64::MAX {
        return Err(Refusal::ClockEnd);
    }
    Ok(())
}

/// ClockEnd where no further object can be numbered.
fn check_next(next: ObjectId) -> Result<(), Refusal>
    ensures { MatchResult result (λ _. next < last_number)
        (λ e. (e ≡ ClockEnd) × (next ≡ last_number)) }
{
    if next.number() == u64::MAX {
        return Err(Refusal::ClockEnd);
    }
    Ok(())
}

/// The present size of an object that has to be there.
fn check_there(size: Option<u64>) -> Result<u64, Refusal>
    ensures { MatchResult result (λ bytes. size ≡ Some bytes)
        (λ e. (e ≡ NoObject) × (size ≡ None)) }
{
    size.ok_or(Refusal::NoObject)
}

/// The change, where its object is there and a later moment can be given.
fn judge_there(clock: Moment, size: Option<u64>, change: Change) -> Result<Change, Refusal>
    ensures { MatchResult result
        (λ judged. (judged ≡ change) × (IsSome size × (clock < last_number)))
        (λ e. ((e ≡ NoObject) × (size ≡ None))
        ⊎ ((e ≡ ClockEnd) × (IsSome size × (clock ≡ last_number)))) }
{
    check_there(size)?;
    check_clock(clock)?;
    Ok(change)
}

/// A creation of the next object, where a later moment and a further number can be given.
fn judge_create(clock: Moment, next: ObjectId, attribute: Bytes) -> Result<Change, Refusal>
    ensures { MatchResult result
        (λ judged. (judged ≡ Change.Create next attribute)
        × ((clock < last_number) × (next < last_number)))
        (λ e. (e ≡ ClockEnd) × ((clock ≡ last_number) ⊎ (next ≡ last_number))) }
{
    check_clock(clock)?;
    check_next(next)?;
    Ok(Change::Create {
        object: next,
        attribute,
    })
}

/// An Append, as the write that it comes to.
fn judge_append(
    clock: Moment,
    size: Option<u64>,
    object: ObjectId,
    bytes: Bytes,
) -> Result<Change, Refusal>
    ensures large { OBJECT_BYTES < unwrap_or size 0 + length bytes → result ≡ Err TooLarge }
    ensures fits { unwrap_or size 0 + length bytes ≤ OBJECT_BYTES → MatchResult result
        (λ judged. (judged ≡ Change.Write object (unwrap_or size 0) bytes)
        × (IsSome size × (clock < last_number)))
        (λ e. ((e ≡ NoObject) × (size ≡ None))
        ⊎ ((e ≡ ClockEnd) × (IsSome size × (clock ≡ last_number)))) }
{
    let offset = size.unwrap_or(0);
    if ends_past_limit(offset, bytes.len()) {
        return Err(Refusal::TooLarge);
    }
    judge_there(
        clock,
        size,
        Change::Write {
            object,
            offset,
            bytes,
        },
    )
}

/// Judges a request for a version of an object, once `check_update` let it pass: by the clock, the
/// next object's number and the present size of the request's object, none where it is absent (a
/// Create's isn't looked at).
///
/// The change that it asks for, or the first refusal that is left: TooLarge of an Append that ends
/// past `OBJECT_BYTES`, where an absent object counts as empty; NoObject of an absent object;
/// ClockEnd where no later moment can be given, or of a Create no further number.
pub(crate) fn judge(
    clock: Moment,
    next: ObjectId,
    size: Option<u64>,
    update: ObjectRequest,
) -> Result<Change, Refusal>
    requires within { IsWithin (Update update) }
    ensures judged { (s : State) → s.clock ≡ clock → s.next ≡ next → HasSize s update size
        → MatchResult result
        (λ change. (later_refusal s (Update update) ≡ None)
        × (change_of s (Update update) ≡ Some change))
        (λ e. later_refusal s (Update update) ≡ Some e) }
    ensures clock { OnOk result (clock < last_number) }
    ensures fits { IfOk result Fits }
    ensures allowed { IfOk result (IsAllowed next size) }
    ensures object { IfOk result
        (λ change. object_of_change change ≡ object_asked next (Update update)) }
{
    match update {
        ObjectRequest::Create { attribute } => judge_create(clock, next, attribute),
        ObjectRequest::Delete { object } => judge_there(clock, size, Change::Delete { object }),
        ObjectRequest::Write {
            object,
            offset,
            bytes,
        } => {
            let change = Change::Write {
                object,
                offset,
                bytes,
            };
            judge_there(clock, size, change)
        }
        ObjectRequest::Append { object, bytes } => judge_append(clock, size, object, bytes),
        ObjectRequest::Truncate { object, size: n } => {
            judge_there(clock, size, Change::Truncate { object, size: n })
        }
        ObjectRequest::SetAttr { object, attribute } => {
            judge_there(clock, size, Change::SetAttr { object, attribute })
        }
    }
}

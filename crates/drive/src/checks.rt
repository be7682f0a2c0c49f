//! What a request's role and own numbers decide. These checks come before all others.
ghost use Rattle.std.specs.Prelude.{◌≡◌, ℕ, ◌↔◌, ◌⊎◌, ◌+◌, ◌<◌, ◌≤◌, Option, Some, true, false};
ghost use Rattle.std.specs.Prelude.{MatchResult, IfErr, OnOk, IsTrue, length};
ghost use Rattle.s4_types.specs.declared.limits.TheConstants.{OBJECT_BYTES, ATTRIBUTE_BYTES};
ghost use Rattle.s4_types.specs.declared.limits.TheConstants.{READ_BYTES, AUDIT_ROWS};
ghost use Rattle.s4_types.specs.declared.requests.Role.{Role};
ghost use Rattle.s4_types.specs.declared.requests.AdminRequest.{AdminRequest};
ghost use Rattle.s4_types.specs.declared.requests.Request.TheVariants.{Query, Update, Control};
ghost use Rattle.s4_types.specs.declared.requests.Question.TheVariants.{Read, Audit};
ghost use Rattle.s4_types.specs.declared.refusals.Refusal.TheVariants.{BadAttr, NotAdmin, TooLarge};
ghost use Rattle.s4_model.specs.State.{State};
ghost use Rattle.s4_model.specs.Refusals.{first_refusal, is_client, last_number};
ghost use Rattle.drive.specs.Later.{later_refusal, IsWithin};

use s4_types::limits::{ATTRIBUTE_BYTES, AUDIT_ROWS, OBJECT_BYTES, READ_BYTES};
use s4_types::{Bytes, ObjectRequest, Question, Refusal, Role};

/// Whether a write of this many bytes at an offset ends past the largest object.
pub(crate) fn ends_past_limit(offset: u64, length: usize) -> bool
    ensures { IsTrue result ↔ (OBJECT_BYTES < offset + length) }
{
    offset > OBJECT_BYTES || length as u64 > OBJECT_BYTES - offset
}

/// BadAttr where an attribute is too long.
fn check_attribute(attribute: &Bytes) -> Result<(), Refusal>
    ensures { MatchResult result (λ _. length attribute.now ≤ ATTRIBUTE_BYTES)
        (λ e. (e ≡ BadAttr) × (ATTRIBUTE_BYTES < length attribute.now)) }
{
    if attribute.len() > ATTRIBUTE_BYTES {
        return Err(Refusal::BadAttr);
    }
    Ok(())
}

/// TooLarge where a write ends past the largest object.
fn check_end(offset: u64, length: usize) -> Result<(), Refusal>
    ensures { MatchResult result (λ _. offset + length ≤ OBJECT_BYTES)
        (λ e. (e ≡ TooLarge) × (OBJECT_BYTES < offset + length)) }
{
    if ends_past_limit(offset, length) {
        return Err(Refusal::TooLarge);
    }
    Ok(())
}

/// The first refusal that a read's own numbers decide: TooLarge of more than `READ_BYTES`, and of
/// bytes that end above 2^64 - 1.
pub(crate) fn check_read(offset: u64, length: u32) -> Result<(), Refusal>
    ensures exact { MatchResult result
        (λ _. (length ≤ READ_BYTES) × (offset + length ≤ last_number))
        (λ e. (e ≡ TooLarge) × ((READ_BYTES < length) ⊎ (last_number < offset + length))) }
    ensures ok { OnOk result
        ((s : State) (role : Role) (object : ℕ) (at : Option ℕ)
        → first_refusal s role (Query (Read object offset length at))
        ≡ later_refusal s (Query (Read object offset length at))) }
    ensures refused { IfErr result
        (λ e. (s : State) (role : Role) (object : ℕ) (at : Option ℕ)
        → first_refusal s role (Query (Read object offset length at)) ≡ Some e) }
{
    if u64::from(length) > READ_BYTES || offset > u64::MAX - u64::from(length) {
        return Err(Refusal::TooLarge);
    }
    Ok(())
}

/// The first refusal that an audit's role and own number decide: NotAdmin of a client, TooLarge of
/// more than `AUDIT_ROWS`.
#[tactic(auto, using(crate::proofs::Auditing::audit_of_client, crate::proofs::Auditing::audit_too_large, crate::proofs::Auditing::audit_let_pass))]
fn check_audit(role: Role, most: u16) -> Result<(), Refusal>
    ensures exact { MatchResult result (λ _. most ≤ AUDIT_ROWS)
        (λ e. ((e ≡ NotAdmin) × (is_client role ≡ true))
        ⊎ ((e ≡ TooLarge) × (is_client role ≡ false) × (AUDIT_ROWS < most))) }
    ensures ok { OnOk result
        ((s : State) (from : ℕ) → first_refusal s role (Query (Audit from most))
        ≡ later_refusal s (Query (Audit from most))) }
    ensures refused { IfErr result
        (λ e. (s : State) (from : ℕ) → first_refusal s role (Query (Audit from most)) ≡ Some e) }
{
    check_role(role)?;
    if usize::from(most) > AUDIT_ROWS {
        return Err(Refusal::TooLarge);
    }
    Ok(())
}

/// The first refusal that the role and a question's own numbers decide: TooLarge of a Read of more
/// than `READ_BYTES`, and of one that ends above 2^64 - 1; of an Audit NotAdmin, and TooLarge of
/// more than `AUDIT_ROWS`.
pub(crate) fn check_question(role: Role, question: &Question) -> Result<(), Refusal>
    ensures ok { OnOk result
        ((s : State)
        → first_refusal s role (Query question.now) ≡ later_refusal s (Query question.now)) }
    ensures within { OnOk result (IsWithin (Query question.now)) }
    ensures refused { IfErr result
        (λ e. (s : State) → first_refusal s role (Query question.now) ≡ Some e) }
{
    match question {
        Question::Read { offset, length, .. } => check_read(*offset, *length),
        Question::GetAttr { .. } => Ok(()),
        Question::Audit { max, .. } => check_audit(role, *max),
    }
}

/// The first refusal that the own numbers of a change of an object decide: BadAttr of an attribute
/// of more than `ATTRIBUTE_BYTES`, TooLarge of a Write that ends past `OBJECT_BYTES` and of a
/// Truncate to more.
pub(crate) fn check_update(update: &ObjectRequest) -> Result<(), Refusal>
    ensures ok { OnOk result
        ((s : State) (role : Role)
        → first_refusal s role (Update update.now) ≡ later_refusal s (Update update.now)) }
    ensures within { OnOk result (IsWithin (Update update.now)) }
    ensures refused { IfErr result
        (λ e. (s : State) (role : Role) → first_refusal s role (Update update.now) ≡ Some e) }
{
    match update {
        ObjectRequest::Create { attribute } => check_attribute(attribute),
        ObjectRequest::SetAttr { attribute, .. } => check_attribute(attribute),
        ObjectRequest::Write { offset, bytes, .. } => check_end(*offset, bytes.len()),
        ObjectRequest::Truncate { size, .. } => check_end(*size, 0),
        ObjectRequest::Delete { .. } | ObjectRequest::Append { .. } => Ok(()),
    }
}

/// The first refusal of what administrators alone may ask: NotAdmin of a client.
pub(crate) fn check_role(role: Role) -> Result<(), Refusal>
    ensures exact { MatchResult result (λ _. is_client role ≡ false)
        (λ e. (e ≡ NotAdmin) × (is_client role ≡ true)) }
    ensures ok { OnOk result
        ((s : State) (control : AdminRequest)
        → first_refusal s role (Control control) ≡ later_refusal s (Control control)) }
    ensures refused { IfErr result
        (λ e. (s : State) (control : AdminRequest)
        → first_refusal s role (Control control) ≡ Some e) }
{
    match role {
        Role::Client => Err(Refusal::NotAdmin),
        Role::Admin => Ok(()),
    }
}

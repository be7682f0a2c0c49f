//! Bytes that are the image of a drive, or not.
ghost use Rattle.std.specs.Prelude.{◌≡◌, ◌⊎◌, ◌≤◌, Some, None, MatchBool, IfSome, IfNone, IfOk};
ghost use Rattle.std.specs.Prelude.{IfErr, length, map};
ghost use Rattle.s4_types.specs.Pointer.{Place};
ghost use Rattle.s4_types.specs.declared.refusals.Cause.{Cause as Found};
ghost use Rattle.s4_types.specs.declared.refusals.Refusal.TheVariants.{NoMemory, Damaged};
ghost use Rattle.image_parts.specs.Header.{KeepsHeaderRules};
ghost use Rattle.image_parts.specs.Image.{KeepsRules, header_of, image_in};
ghost use Rattle.image_parts.specs.Causes.{HasDigest};
ghost use Rattle.segment_table.specs.Table.{held_at};
ghost use Rattle.verifier.specs.Tables.{IsTableOf};
ghost use Rattle.verifier.specs.Rows.{ChainsStand};
ghost use Rattle.verifier.specs.Grammar.{SpellsDrive, FirstFault};
ghost use Rattle.s4_model.specs.Audit.{AreAuditRows};
ghost use Rattle.verifier.specs.Audit.{audit_part};
ghost use Rattle.verifier.specs.Reading.{AreRead};
ghost use Rattle.verifier.specs.Images.{IsImageOf};
ghost use Rattle.verifier.specs.Opened.{IsReadOf};
ghost use Rattle.verifier.specs.private.Rest.{FirstRestCause};

use crate::audit::read_audit;
use crate::images::Image;
use crate::objects::{Read, read_objects};
use crate::tables::read_frames;
use audit_log::AuditLog;
use image_objects::laws::rows_that_stand_make_a_store;
use image_parts::laws::{a_list_has_few_spans, what_no_test_refuses_is_an_image};
use image_parts::{ImageParts, has_digest, rows_keep_rules, spans_keep_rules, split_parts};
use s4_types::{Cause, Refusal, Span};
use segment_table::TableBuilder;
use std::alloc::Global;
use std::thread::{Threads, join};

/// The spans of an image, in their order. NoMemory alone.
pub fn spans_of(alloc: Global, parts: &ImageParts<'_>) -> Result<Vec<Span>, Refusal>
    ensures spans { IfOk result (λ spans. spans.items ≡ parts.now.spans) }
    ensures refusal { IfErr result (λ e. e ≡ NoMemory) }
{
    let mut spans = Vec::new(alloc);
    for span in parts.spans() {
        spans.push(span)?;
    }
    Ok(spans)
}

/// The table of an image's frames with what its rows name held, and its objects. None where its
/// chains aren't. NoMemory alone.
fn read_chains(
    alloc: Global,
    table: TableBuilder,
    parts: &ImageParts<'_>,
) -> Result<Option<Read>, Refusal>
    requires table { IsTableOf parts.now.frames table }
    requires nothing { (p : Place) → held_at table p ≡ None }
    ensures frames { IfOk result
        (λ found. IfSome found (λ read. IsTableOf parts.now.frames read.table)) }
    ensures rows { IfOk result
        (λ found. IfSome found
        (λ read. AreRead read.table parts.now.rows parts.now.clock read.table
        read.objects.items)) }
    ensures none { IfOk result (λ found. IfNone found (ChainsStand parts.now → ⊥)) }
    ensures refusal { IfErr result (λ e. e ≡ NoMemory) }
{
    let Some(read) = read_objects(alloc, table, parts, parts.header().clock)? else {
        return Ok(None);
    };
    read.table.rules();
    Ok(Some(read))
}

/// The image of parts that keep their rules, by what was read of them.
fn image_of(parts: &ImageParts<'_>, read: Read, spans: Vec<Span>, audit: AuditLog) -> Image
    requires rules { KeepsRules parts.now }
    requires frames { IsTableOf parts.now.frames read.table }
    requires rows { AreRead read.table parts.now.rows parts.now.clock read.table
        read.objects.items }
    requires spans { spans.items ≡ parts.now.spans }
    requires encoded { parts.now.audit ≡ map audit_part audit.rows }
    requires kept { AreAuditRows parts.now.floor parts.now.clock parts.now.next audit.rows }
    ensures { IsImageOf parts.now result }
{
    rows_that_stand_make_a_store();
    a_list_has_few_spans();
    let Read { table, objects } = read;
    table.rules();
    let header = parts.header();
    Image {
        clock: header.clock,
        window: header.window,
        floor: header.floor,
        next: header.next,
        table,
        objects,
        spans,
        audit,
    }
}

/// The image that parts tell whose header keeps its rules: their frames, spans, rows, chains and
/// audit are tested, in this order.
///
/// Damaged with the cause of the first of these tests that fails; NoMemory where memory was
/// refused.
fn read_rest(alloc: Global, parts: &ImageParts<'_>) -> Result<Image, Refusal>
    requires { KeepsHeaderRules (header_of parts.now) }
    ensures whole { IfOk result (λ image. FirstRestCause parts.now None) }
    ensures told { IfOk result (λ image. IsImageOf parts.now image) }
    ensures damaged { IfErr result
        (λ e. (e ≡ NoMemory)
        ⊎ ((cause : Found) × (e ≡ Damaged cause) × FirstRestCause parts.now (Some cause))) }
{
    let Some(table) = read_frames(alloc, parts)? else {
        return Err(Refusal::Damaged(Cause::Frame));
    };
    if !spans_keep_rules(parts) {
        return Err(Refusal::Damaged(Cause::Span));
    }
    if !rows_keep_rules(parts) {
        return Err(Refusal::Damaged(Cause::Row));
    }
    let Some(read) = read_chains(alloc, table, parts)? else {
        return Err(Refusal::Damaged(Cause::Chain));
    };
    let Some(audit) = read_audit(alloc, parts)? else {
        return Err(Refusal::Damaged(Cause::Audit));
    };
    let spans = spans_of(alloc, parts)?;
    Ok(image_of(parts, read, spans, audit))
}

/// Whether the bytes have their digest, and the image that their parts tell, as `read_rest` answers
/// it. The digest is computed in a thread of its own beside all else, or after it where no thread
/// can be had.
fn read_beside_digest<R: Threads>(
    rt: &R,
    alloc: Global,
    bytes: &[u8],
    parts: &ImageParts<'_>,
) -> (bool, Result<Image, Refusal>)
    requires long { 32 ≤ length bytes.now }
    requires rules { KeepsHeaderRules (header_of parts.now) }
    ensures digest { MatchBool result.0 (HasDigest bytes.now) (HasDigest bytes.now → ⊥) }
    ensures whole { IfOk result.1 (λ image. FirstRestCause parts.now None) }
    ensures told { IfOk result.1 (λ image. IsImageOf parts.now image) }
    ensures damaged { IfErr result.1
        (λ e. (e ≡ NoMemory)
        ⊎ ((cause : Found) × (e ≡ Damaged cause) × FirstRestCause parts.now (Some cause))) }
{
    let digest = || -> bool
        requires { 32 ≤ length bytes.now }
        ensures { MatchBool result (HasDigest bytes.entry.now) (HasDigest bytes.entry.now → ⊥) }
    { has_digest(bytes) };
    let rest = || -> Result<Image, Refusal>
        requires { KeepsHeaderRules (header_of parts.now) }
        ensures whole { IfOk result (λ image. FirstRestCause parts.entry.now None) }
        ensures told { IfOk result (λ image. IsImageOf parts.entry.now image) }
        ensures damaged { IfErr result
            (λ e. (e ≡ NoMemory)
            ⊎ ((cause : Found) × (e ≡ Damaged cause)
            × FirstRestCause parts.entry.now (Some cause))) }
    { read_rest(alloc, parts) };
    // Where there is no thread for the first, it is called after the second.
    join(rt, digest, rest)
}

/// The image of a drive that the bytes encode. All of its tests look at the whole image before the
/// next one does.
///
/// The digest is computed beside all that is read; whatever that comes to, a wrong digest is told
/// first.
///
/// Damaged with the cause of the first test that fails, where the bytes encode no image; NoMemory
/// where memory was refused.
pub fn verify<R: Threads>(rt: &R, alloc: Global, bytes: &[u8]) -> Result<Image, Refusal>
    ensures whole { IfOk result (λ image. SpellsDrive bytes.now (image_in bytes.now)) }
    ensures told { IfOk result (λ image. IsImageOf (image_in bytes.now) image) }
    // In one word: what was read is of these bytes.
    ensures promise { IfOk result (λ image. IsReadOf bytes.now image) }
    ensures damaged { IfErr result
        (λ e. (e ≡ NoMemory)
        ⊎ ((cause : Found) × (e ≡ Damaged cause) × FirstFault bytes.now (Some cause))) }
{
    what_no_test_refuses_is_an_image();
    let parts = match split_parts(bytes) {
        Ok(parts) => parts,
        Err(cause) => return Err(Refusal::Damaged(cause)),
    };
    let (has_digest, read) = read_beside_digest(rt, alloc, bytes, &parts);
    if !has_digest {
        return Err(Refusal::Damaged(Cause::Digest));
    }
    read
}

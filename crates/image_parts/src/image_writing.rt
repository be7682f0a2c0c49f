ghost use Rattle.std.specs.Prelude.{◌≡◌, ◌+◌, ◌*◌, ◌^◌, ◌++◌, min, OnOk, IfErr};
ghost use Rattle.std.specs.Int.{w64};
ghost use Rattle.std.specs.List.{concat};
ghost use Rattle.sha2.specs.Sha256.{sha256};
ghost use Rattle.s4_types.specs.declared.refusals.Refusal.TheVariants.{NoMemory};
ghost use Rattle.codec.specs.Fields.{number};
ghost use Rattle.image_parts.specs.Header.{header_bytes};
ghost use Rattle.image_parts.specs.Rows.{row_bytes};
ghost use Rattle.image_parts.specs.Spans.{span_bytes};
ghost use Rattle.image_parts.specs.Audit.{audit_bytes};

use crate::audit::{AUDIT_BYTES, AuditPart};
use crate::digests::DIGEST_BYTES;
use crate::frames::{CONTENTS_BYTES, WORD_BYTES};
use crate::headers::{HEADER_BYTES, Header, spelling_of};
use crate::marks::ImageMark;
use crate::rows::{ROW_BYTES, RowPart};
use crate::spans::SPAN_BYTES;
use block_log::Block;
use s4_types::{Refusal, Span};
use sha2::{Digest, Sha256};

#[tactic(auto, unfolding(codec::specs::Fields::number))]
fn push_long(out: &mut Vec<u8>, n: u64) -> Result<(), Refusal>
    ensures items { OnOk result (out.new.items ≡ out.old.items ++ number w64 n) }
    ensures memory { IfErr result (λ refusal. refusal ≡ NoMemory) }
{
    out.extend_from_slice(&n.to_be_bytes())?;
    Ok(())
}

/// More bytes than memory has. Lengths of images are told up to it.
pub const LONGEST_IMAGE: usize = 1 << 62;

/// How many bytes an image has of this many frames, of which some aren't free and so have blocks,
/// and of this many rows, spans and audit rows; `LONGEST_IMAGE` where they are more.
pub fn image_length(frames: u16, with_blocks: u16, rows: u32, spans: u32, audit: u64) -> usize
    ensures { result
        ≡ min (2 ^ 62)
        (512 + 8 * frames + 8192 * with_blocks + 40 * rows + 24 * spans + 33 * audit + 32) }
{
    let words = WORD_BYTES * frames as usize;
    let contents = CONTENTS_BYTES * with_blocks as usize;
    let behind = ROW_BYTES * rows as usize + SPAN_BYTES * spans as usize + DIGEST_BYTES;
    let others = HEADER_BYTES + words + contents + behind;
    if audit > ((LONGEST_IMAGE - others) / AUDIT_BYTES) as u64 {
        return LONGEST_IMAGE;
    }
    others + AUDIT_BYTES * audit as usize
}

/// Adds a header. The only error is NoMemory.
#[tactic(auto, unfolding(crate::specs::Header::header_bytes))]
pub fn push_header(out: &mut Vec<u8>, header: &Header) -> Result<(), Refusal>
    ensures items { OnOk result (out.new.items ≡ out.old.items ++ header_bytes header.now) }
    ensures memory { IfErr result (λ refusal. refusal ≡ NoMemory) }
{
    out.extend_from_slice(spelling_of(ImageMark::Third, header).as_slice())?;
    Ok(())
}

/// Adds a frame: its word, and its blocks, which are none where it is free. The only error is
/// NoMemory, after which some of them may have been added.
pub fn push_frame(out: &mut Vec<u8>, word: u64, blocks: &[Block]) -> Result<(), Refusal>
    ensures items { OnOk result
        (out.new.items ≡ out.old.items ++ (number w64 word ++ concat blocks.now)) }
    ensures memory { IfErr result (λ refusal. refusal ≡ NoMemory) }
{
    push_long(out, word)?;
    for block in blocks {
        out.extend_from_slice(block)?;
    }
    Ok(())
}

/// Adds a row. The only error is NoMemory, after which a part of it may have been added.
#[tactic(auto, unfolding(crate::specs::Rows::row_bytes))]
pub fn push_row(out: &mut Vec<u8>, row: &RowPart) -> Result<(), Refusal>
    ensures items { OnOk result (out.new.items ≡ out.old.items ++ row_bytes row.now) }
    ensures memory { IfErr result (λ refusal. refusal ≡ NoMemory) }
{
    push_long(out, row.object.number())?;
    push_long(out, row.created.number())?;
    push_long(out, row.checkpoint)?;
    push_long(out, row.checkpoint_moment.number())?;
    push_long(out, row.head)
}

/// Adds a span. The only error is NoMemory, after which a part of it may have been added.
#[tactic(auto, unfolding(crate::specs::Spans::span_bytes))]
pub fn push_span(out: &mut Vec<u8>, span: &Span) -> Result<(), Refusal>
    ensures items { OnOk result (out.new.items ≡ out.old.items ++ span_bytes span.now) }
    ensures memory { IfErr result (λ refusal. refusal ≡ NoMemory) }
{
    push_long(out, span.object.number())?;
    push_long(out, span.first.number())?;
    push_long(out, span.last.number())
}

/// Adds an audit row. The only error is NoMemory, after which a part of it may have been added.
#[tactic(auto, unfolding(crate::specs::Audit::audit_bytes))]
pub fn push_audit(out: &mut Vec<u8>, row: &AuditPart) -> Result<(), Refusal>
    ensures items { OnOk result (out.new.items ≡ out.old.items ++ audit_bytes row.now) }
    ensures memory { IfErr result (λ refusal. refusal ≡ NoMemory) }
{
    push_long(out, row.moment.number())?;
    out.push(row.kind)?;
    push_long(out, row.object.number())?;
    push_long(out, row.first)?;
    push_long(out, row.second)
}

/// Adds the digest of all that was added. The only error is NoMemory.
pub fn push_digest(out: &mut Vec<u8>) -> Result<(), Refusal>
    ensures items { OnOk result (out.new.items ≡ out.old.items ++ sha256 out.old.items) }
    ensures memory { IfErr result (λ refusal. refusal ≡ NoMemory) }
{
    let digest = Sha256::digest(out.as_slice());
    out.extend_from_slice(&digest)?;
    Ok(())
}

ghost use Rattle.std.specs.Prelude.{◌≡◌, ◌≢◌, ◌+◌, ◌*◌, ◌≤◌, MatchBool, MatchOption, length};
ghost use Rattle.image_parts.specs.Header.{header_in};
ghost use Rattle.image_parts.specs.Image.{header_of, image_in};
ghost use Rattle.image_parts.specs.Causes.{IsFilled};

use crate::audit::{AUDIT_BYTES, AuditParts};
use crate::digests::DIGEST_BYTES;
use crate::frames::{Frames, behind_frames};
use crate::headers::{HEADER_BYTES, Header};
use crate::rows::{ROW_BYTES, Rows};
use crate::spans::{SPAN_BYTES, Spans};
use std::marker::Model;

/// The parts of an image, which are in the bytes that they were read from.
#[derive(Drop)]
pub struct ImageParts<'a> {
    header: Header,
    frames: &'a [u8],
    rows: &'a [u8],
    spans: &'a [u8],
    audit: &'a [u8],
}

impl<'a> Model for ImageParts<'a> {
    ghost use Rattle.std.specs.Prelude.{◌*◌, ◌≤◌, length};
    ghost use Rattle.image_parts.specs.Frames.{frames_in, frames_length};
    ghost use Rattle.image_parts.specs.Rows.{rows_in};
    ghost use Rattle.image_parts.specs.Spans.{spans_in};
    ghost use Rattle.image_parts.specs.Audit.{audits_in};
    ghost use Rattle.image_parts.specs.Image.{Image};

    ghost Value = { Image };

    ghost view = { λ p. record { clock = p.header.clock; window = p.header.window; floor = p.header.floor; next = p.header.next; frames = frames_in p.header.frames p.frames.now; rows = rows_in p.header.rows p.rows.now; spans = spans_in p.header.spans p.spans.now; audit = audits_in p.header.audit p.audit.now } };

    ghost invariant = { λ p. (frames_length p.header.frames p.frames.now ≤ length p.frames.now) × (40 * p.header.rows ≤ length p.rows.now) × (24 * p.header.spans ≤ length p.spans.now) × (33 * p.header.audit ≤ length p.audit.now) };
}

/// Whether this many bytes are what others have and this many audit rows. The product isn't
/// computed, since the number may be any.
fn fills(bytes: usize, others: usize, audit: u64) -> bool
    ensures { MatchBool result (bytes ≡ others + 33 * audit) (bytes ≢ others + 33 * audit) }
{
    if bytes < others {
        return false;
    }
    let rest = bytes - others;
    rest % AUDIT_BYTES == 0 && (rest / AUDIT_BYTES) as u64 == audit
}

impl<'a> ImageParts<'a> {
    /// The parts that a header and the words of the frames tell. None where these don't fill the
    /// bytes exactly.
    #[tactic(auto, unfolding(crate::specs::Image::image_in))]
    pub(crate) fn of(header: Header, bytes: &'a [u8]) -> Option<Self>
        requires header { header ≡ header_in bytes.now }
        requires long { 512 ≤ length bytes.now }
        ensures { MatchOption result (IsFilled bytes.entry.now → ⊥)
            (λ parts. (parts ≡ image_in bytes.entry.now) × IsFilled bytes.entry.now) }
    {
        let (_, frames) = bytes.split_at(HEADER_BYTES);
        let rows = behind_frames(header.frames, frames)?;
        let row_bytes = ROW_BYTES * header.rows as usize;
        let span_bytes = SPAN_BYTES * header.spans as usize;
        let others = row_bytes + span_bytes + DIGEST_BYTES;
        if !fills(rows.len(), others, header.audit) {
            return None;
        }
        let (_, spans) = rows.split_at(row_bytes);
        let (_, audit) = spans.split_at(span_bytes);
        Some(ImageParts {
            header,
            frames,
            rows,
            spans,
            audit,
        })
    }

    pub fn header(&self) -> Header
        ensures { result ≡ header_of self.now }
    {
        self.header
    }

    /// The frames, in their order.
    pub fn frames(&self) -> Frames<'a>
        ensures { result ≡ self.now.frames }
    {
        Frames::new(self.header.frames, self.frames)
    }

    /// The rows, by ascending object.
    pub fn rows(&self) -> Rows<'a>
        ensures { result ≡ self.now.rows }
    {
        Rows::new(self.header.rows, self.rows)
    }

    /// The spans, by object and first moment.
    pub fn spans(&self) -> Spans<'a>
        ensures { result ≡ self.now.spans }
    {
        Spans::new(self.header.spans, self.spans)
    }

    /// The audit rows, by their moments.
    pub fn audit(&self) -> AuditParts<'a>
        ensures { result ≡ self.now.audit }
    {
        AuditParts::new(self.header.audit, self.audit)
    }
}

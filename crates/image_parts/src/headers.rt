ghost use Rattle.std.specs.Prelude.{◌≡◌, ◌≢◌, ◌≤◌, [], ◌∷◌, MatchBool, MatchOption, length, take};
ghost use Rattle.image_parts.specs.Header.{header_bytes_by, header_in, KeepsHeaderRulesBy};
ghost use Rattle.image_parts.specs.Header.{HasHeaderBy};
ghost use Rattle.image_parts.specs.Marks.{digit_of};

use crate::marks::ImageMark;
use crate::numbers::{long_at, short_at, word_at};
use crate::writing::{Writing, put, put_long, put_short, put_word, put_zeros};
use codec::ImageVersion;
use s4_types::limits::MOST_FRAMES;
use s4_types::{Moment, ObjectId};

/// Bytes of a header.
pub(crate) const HEADER_BYTES: usize = 512;

/// The header of an image: the numbers of the drive, and how many parts follow.
#[derive(Clone, Copy)]
pub struct Header {
    pub frames: u16,
    pub clock: Moment,
    pub window: u64,
    pub floor: Moment,
    /// The number that the next object gets.
    pub next: ObjectId,
    pub rows: u32,
    pub spans: u32,
    /// Rows of the audit.
    pub audit: u64,
}

/// The numbers that are in a header's places.
#[tactic(auto, unfolding(crate::specs::Header::header_in))]
fn numbers_in(bytes: &[u8]) -> Header
    requires { 512 ≤ length bytes.now }
    ensures { result ≡ header_in bytes.now }
{
    Header {
        frames: short_at(bytes, 8),
        clock: Moment::new(long_at(bytes, 16)),
        window: long_at(bytes, 24),
        floor: Moment::new(long_at(bytes, 32)),
        next: ObjectId::new(long_at(bytes, 40)),
        rows: word_at(bytes, 48),
        spans: word_at(bytes, 52),
        audit: long_at(bytes, 56),
    }
}

/// The bytes of a mark.
fn bytes_of(mark: ImageMark) -> &'static [u8; 8]
    ensures { result.now ≡ 0x53 ∷ 0x34 ∷ 0x49 ∷ 0x4d ∷ 0x41 ∷ 0x47 ∷ 0x45 ∷ digit_of mark ∷ [] }
{
    match mark {
        ImageMark::Earlier(ImageVersion::First) => b"S4IMAGE1",
        ImageMark::Earlier(ImageVersion::Second) => b"S4IMAGE2",
        ImageMark::Third => b"S4IMAGE3",
    }
}

/// The one encoding of a header with a mark.
#[tactic(auto, unfolding(crate::specs::Header::header_bytes_by))]
pub(crate) fn spelling_of(mark: ImageMark, header: &Header) -> Writing
    ensures { result.items ≡ header_bytes_by mark header.now }
{
    let mut out = Writing::new();
    put(&mut out, bytes_of(mark));
    put_short(&mut out, header.frames);
    put_zeros(&mut out, 6);
    put_long(&mut out, header.clock.number());
    put_long(&mut out, header.window);
    put_long(&mut out, header.floor.number());
    put_long(&mut out, header.next.number());
    put_word(&mut out, header.rows);
    put_word(&mut out, header.spans);
    put_long(&mut out, header.audit);
    put_zeros(&mut out, 448);
    out
}

fn keeps_rules(mark: ImageMark, header: &Header) -> bool
    ensures { MatchBool result (KeepsHeaderRulesBy mark header.now)
        (KeepsHeaderRulesBy mark header.now → ⊥) }
{
    let frames = header.frames as usize;
    let clock = header.clock.number();
    let floor = header.floor.number();
    let next = header.next.number();
    mark.records().fewest_frames() <= frames
        && frames <= MOST_FRAMES
        && clock.saturating_sub(header.window) <= floor
        && floor <= clock
        && next >= 1
        && next - 1 <= clock
        && mark.is_audit_count(header.audit)
}

/// Whether the bytes begin with this header's encoding with a mark.
fn begins_with(mark: ImageMark, bytes: &[u8], header: &Header) -> bool
    requires { 512 ≤ length bytes.now }
    ensures { MatchBool result (take 512 bytes.now ≡ header_bytes_by mark header.now)
        (take 512 bytes.now ≢ header_bytes_by mark header.now) }
{
    let (front, _) = bytes.split_at(HEADER_BYTES);
    front == spelling_of(mark, header).as_slice()
}

/// The header with a mark that the bytes begin with. None where they begin with no such header's
/// encoding, or a rule of headers is broken.
pub(crate) fn read_header(mark: ImageMark, bytes: &[u8]) -> Option<Header>
    requires { 512 ≤ length bytes.now }
    ensures { MatchOption result (HasHeaderBy mark bytes.now → ⊥)
        (λ header. (header ≡ header_in bytes.now) × HasHeaderBy mark bytes.now) }
{
    let header = numbers_in(bytes);
    if !begins_with(mark, bytes, &header) || !keeps_rules(mark, &header) {
        return None;
    }
    Some(header)
}

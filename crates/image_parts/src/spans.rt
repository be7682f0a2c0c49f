ghost use Rattle.std.specs.Iterator.{YieldsFirst, item_count};
ghost use Rattle.std.specs.Prelude.{◌≡◌, ℕ, ◌*◌, ◌≤◌, [], ◌∷◌, List, length, slice_get};
ghost use Rattle.image_parts.specs.Spans.{span_in, spans_in};

use crate::numbers::long_at;
use s4_types::{Moment, ObjectId, Span};
use std::marker::Model;

/// Bytes of a span.
pub(crate) const SPAN_BYTES: usize = 24;

/// The span that the bytes begin with.
#[tactic(auto, unfolding(crate::specs::Spans::span_in))]
fn first_span(bytes: &[u8]) -> Span
    requires { 24 ≤ length bytes.now }
    ensures { result ≡ span_in bytes.now }
{
    Span {
        object: ObjectId::new(long_at(bytes, 0)),
        first: Moment::new(long_at(bytes, 8)),
        last: Moment::new(long_at(bytes, 16)),
    }
}

/// Spans that are given one by one, in their order.
#[derive(Drop)]
pub struct Spans<'a> {
    count: u32,
    bytes: &'a [u8],
}

impl<'a> Model for Spans<'a> {
    ghost use Rattle.std.specs.Prelude.{List, ◌*◌, ◌≤◌, length};
    ghost use Rattle.s4_types.specs.declared.spans.Span.{Span as Saved};
    ghost use Rattle.image_parts.specs.Spans.{spans_in};

    ghost Value = { List Saved };

    ghost view = { λ s. spans_in s.count s.bytes.now };

    ghost invariant = { λ s. 24 * s.count ≤ length s.bytes.now };
}

impl<'a> Spans<'a> {
    /// The first spans of these bytes.
    pub(crate) fn new(count: u32, bytes: &'a [u8]) -> Self
        requires { 24 * count ≤ length bytes.now }
        ensures { result ≡ spans_in count bytes.entry.now }
    {
        Spans { count, bytes }
    }

    /// How many spans were not given.
    pub fn len(&self) -> u32
        ensures { result ≡ length self.now }
    {
        self.count
    }

    /// The span of an index among those that were not given. None after the last.
    pub fn get(&self, index: u32) -> Option<Span>
        ensures { result ≡ slice_get self.now index }
    {
        if index >= self.count {
            return None;
        }
        let (_, rest) = self.bytes.split_at(SPAN_BYTES * index as usize);
        Some(first_span(rest))
    }
}

impl<'a> Iterator for Spans<'a> {
    type Item = Span;

    ghost next_gives = { YieldsFirst (λ s. s) };

    ghost remaining = { item_count (λ s. s) };

    fn next(&mut self) -> Option<Span> {
        if self.count == 0 {
            return None;
        }
        let span = first_span(self.bytes);
        let (_, rest) = self.bytes.split_at(SPAN_BYTES);
        self.count -= 1;
        self.bytes = rest;
        Some(span)
    }
}

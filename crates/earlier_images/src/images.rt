//! Images of earlier versions that were read.
ghost use Rattle.std.specs.Prelude.{◌≡◌, ◌<◌, ◌^◌, length};

use crate::frames::EarlierFrames;
use codec::ImageVersion;
use image_objects::ImageRow;
use image_parts::Header;
use s4_types::Span;
use std::marker::Model;

/// What was read of an image of an earlier version. Its blocks are in the bytes that it was read
/// from.
pub struct EarlierImage<'a> {
    pub(crate) version: ImageVersion,
    pub(crate) header: Header,
    pub(crate) frames: EarlierFrames<'a>,
    pub(crate) rows: Vec<ImageRow>,
    pub(crate) spans: Vec<Span>,
}

// Written by hand, so that an owner lets it go by one call.
impl<'a> Drop for EarlierImage<'a> {
    fn drop(self) {
        let EarlierImage {
            version: _,
            header: _,
            frames: _,
            rows: _,
            spans: _,
        } = self;
    }
}

impl<'a> Model for EarlierImage<'a> {
    ghost use Rattle.earlier_images.specs.Images.{EarlierFields};

    ghost Value = { EarlierFields };

    ghost view = { λ i. record { version = i.version; header = i.header; clock = i.header.clock; window = i.header.window; floor = i.header.floor; next = i.header.next; frames = i.frames; rows = i.rows.items; spans = i.spans.items } };
}

impl<'a> EarlierImage<'a> {
    /// The version, by which its chains are read.
    pub fn version(&self) -> ImageVersion
        ensures { result ≡ self.now.version }
    {
        self.version
    }

    /// The header that it was read with, the numbers of its drive among it.
    pub fn header(&self) -> Header
        ensures header { result ≡ self.now.header }
        ensures clock { result.clock ≡ self.now.clock }
        ensures window { result.window ≡ self.now.window }
        ensures floor { result.floor ≡ self.now.floor }
        ensures next { result.next ≡ self.now.next }
    {
        self.header
    }

    /// The frames, in their order.
    pub fn frames(&self) -> &EarlierFrames<'a>
        ensures { result.now ≡ self.now.frames }
    {
        &self.frames
    }

    /// The rows, by ascending object.
    pub fn rows(&self) -> &[ImageRow]
        ensures { result.now ≡ self.now.rows }
    {
        self.rows.as_slice()
    }

    /// The same image with these rows in place of its own, which its header counts.
    pub fn with_rows(self, rows: Vec<ImageRow>) -> Self
        requires { length rows.items < 2 ^ 32 }
        ensures { result
            ≡ record self.entry { header = record self.entry.header { rows = length rows.items }; rows = rows.items } }
    {
        let mut image = self;
        image.header.rows = rows.len() as u32;
        image.rows = rows;
        image
    }

    /// The spans, by object and first moment.
    pub fn spans(&self) -> &[Span]
        ensures { result.now ≡ self.now.spans }
    {
        self.spans.as_slice()
    }
}

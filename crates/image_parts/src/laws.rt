//! Laws of images, for the layers above: each function does nothing, and its contract is the law.

ghost use Rattle.std.specs.Prelude.{◌≡◌, ◌≤◌, ℕ, List, Option, None};
ghost use Rattle.s4_types.specs.declared.limits.TheConstants.{RUNS_IN_A_LIST};
ghost use Rattle.s4_types.specs.declared.refusals.Cause.{Cause as Found};
ghost use Rattle.s4_types.specs.declared.spans.Span.{Span as Hidden};
ghost use Rattle.image_parts.specs.Header.{AreBytes, HasHeaderBy};
ghost use Rattle.image_parts.specs.Image.{Image, SpellsImage, SpellsImageBy, image_in};
ghost use Rattle.image_parts.specs.Spans.{KeepSpanRules, span_count};
ghost use Rattle.image_parts.specs.Causes.{FirstCause, FirstCauseBy};
ghost use Rattle.image_parts.specs.declared.marks.ImageMark.{ImageMark as Mark};
ghost use Rattle.image_parts.specs.declared.headers.Header.{Header as Head};

/// Bytes that no test refuses encode the image that is read from them.
pub fn what_no_test_refuses_is_an_image()
    ensures { (bytes : List ℕ) → AreBytes bytes → FirstCause bytes None
        → SpellsImage bytes (image_in bytes) }
{}

/// What encodes an image is refused by no test, and read as that image.
pub fn an_image_is_read()
    ensures tests { (bytes : List ℕ) (image : Image) → SpellsImage bytes image
        → FirstCause bytes None }
    ensures read { (bytes : List ℕ) (image : Image) → SpellsImage bytes image
        → image_in bytes ≡ image }
{}

/// No two images share an encoding.
pub fn one_image_a_spelling()
    ensures { (bytes : List ℕ) (image other : Image) → SpellsImage bytes image
        → SpellsImage bytes other → image ≡ other }
{}

/// The tests come to one cause.
pub fn one_first_cause()
    ensures { (bytes : List ℕ) (found other : Option Found) → FirstCause bytes found
        → FirstCause bytes other → found ≡ other }
{}

/// A list has at most `RUNS_IN_A_LIST` spans, whether of one object or of all.
pub fn a_list_has_few_spans()
    ensures { (header : Head) (spans : List Hidden) (object : ℕ) → KeepSpanRules header spans
        → span_count object spans ≤ RUNS_IN_A_LIST }
{}

/// The same of images with a mark: bytes that no test refuses encode the image that is read from
/// them, what encodes an image is read as that image and as no other, and the tests come to one
/// cause.
pub fn images_with_a_mark()
    ensures found { (mark : Mark) (bytes : List ℕ) → AreBytes bytes
        → FirstCauseBy mark bytes None → SpellsImageBy mark bytes (image_in bytes) }
    ensures tests { (mark : Mark) (bytes : List ℕ) (image : Image)
        → SpellsImageBy mark bytes image → FirstCauseBy mark bytes None }
    ensures read { (mark : Mark) (bytes : List ℕ) (image : Image)
        → SpellsImageBy mark bytes image → image_in bytes ≡ image }
    ensures cause { (mark : Mark) (bytes : List ℕ) (found other : Option Found)
        → FirstCauseBy mark bytes found → FirstCauseBy mark bytes other → found ≡ other }
{}

/// No bytes begin with headers with two marks.
pub fn one_mark_a_header()
    ensures { (bytes : List ℕ) (one other : Mark) → HasHeaderBy one bytes
        → HasHeaderBy other bytes → one ≡ other }
{}

//! Which characters aren't printed as they are.
ghost use Rattle.std.specs.Prelude.{◌≡◌};
ghost use Rattle.shown_text.specs.Hidden.{is_between, is_control, changes_order, is_filler};
ghost use Rattle.shown_text.specs.Hidden.{is_unseen, is_hidden_character};

fn is_between(first: u32, last: u32, number: u32) -> bool
    ensures { result ≡ is_between first last number }
{
    first <= number && number <= last
}

fn is_control(number: u32) -> bool
    ensures { result ≡ is_control number }
{
    number < 32 || is_between(127, 159, number)
}

// Whether a character ends a line, or changes the direction of others.
fn changes_order(number: u32) -> bool
    ensures { result ≡ changes_order number }
{
    let is_mark = number == 0x61c || is_between(0x200b, 0x200f, number);
    let is_override = is_between(0x2028, 0x202e, number);
    let is_isolate = is_between(0x2060, 0x206f, number);
    is_mark || is_override || is_isolate
}

// Whether a character fills a place and shows nothing.
fn is_filler(number: u32) -> bool
    ensures { result ≡ is_filler number }
{
    is_between(0x115f, 0x1160, number) || number == 0x3164 || number == 0xffa0
}

// Whether a character isn't seen by itself.
fn is_unseen(number: u32) -> bool
    ensures { result ≡ is_unseen number }
{
    let is_mark = number == 0xad || number == 0xfeff || is_between(0xfff0, 0xfffb, number);
    let is_tag = is_between(0xe0000, 0xe0fff, number);
    is_mark || is_tag || is_filler(number)
}

/// Whether a character isn't printed as it is: controls, what isn't seen by itself, and what changes
/// the order in which others are seen.
pub fn is_hidden_character(c: char) -> bool
    ensures { result ≡ is_hidden_character c }
{
    let number = u32::from(c);
    is_control(number) || changes_order(number) || is_unseen(number)
}

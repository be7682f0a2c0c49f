//! What a line says, and what is held of one that isn't whole yet.
ghost use Rattle.std.specs.Prelude.{◌≡◌, ℕ, List, [], Some};
ghost use Rattle.door_lines.specs.Lines as lines;
ghost use Rattle.door_lines.specs.Lines.{held_of, with_byte};
ghost use Rattle.door_lines.specs.Reading.{Says};

use arrayvec::ArrayString;
use std::marker::Model;

/// Bytes that a name has at most.
pub const NAME_BYTES: usize = 64;

/// The name of a session's streams: 1 to 64 letters, digits and `-`, other than `stop`. Contracts
/// see its bytes.
#[derive(Drop)]
pub struct SessionName {
    text: ArrayString<NAME_BYTES>,
}

impl Model for SessionName {
    ghost use Rattle.std.specs.Prelude.{ℕ, List};
    ghost use Rattle.door_lines.specs.Lines.{IsSessionName};

    ghost Value = { List ℕ };

    ghost view = { λ n. n.text.bytes };

    ghost invariant = { λ n. IsSessionName n.text.bytes };
}

impl SessionName {
    pub fn as_str(&self) -> &str
        ensures { result.now ≡ self.now }
    {
        self.text.as_str()
    }
}

/// What a line says.
#[derive(Drop)]
pub enum DoorLine {
    /// The service is to end: `stop`.
    Stop,
    /// A session is asked for whose streams have this name.
    Session(SessionName),
    /// Nothing.
    Nothing,
}

/// Whether a name may have this byte.
fn is_name_byte(byte: u8) -> bool
    ensures { result ≡ lines.is_name_byte byte }
{
    byte.is_ascii_alphanumeric() || byte == b'-'
}

/// A line as far as it has come. Contracts see it as it is held: all of it where it may be a name,
/// and else nothing.
#[derive(Drop)]
pub(crate) struct Begun {
    text: ArrayString<NAME_BYTES>,
    is_other: bool,
}

impl Model for Begun {
    ghost use Rattle.std.specs.Prelude.{◌≡◌, ◌≤◌, ℕ, List, Option, None, Some, if◌then◌else◌, length, true};
    ghost use Rattle.std.specs.List.{list_all};
    ghost use Rattle.door_lines.specs.Lines.{is_name_byte};

    ghost Value = { Option (List ℕ) };

    ghost view = { λ b. if b.is_other then None else Some b.text.bytes };

    ghost invariant = { λ b. (length b.text.bytes ≤ 64) × (list_all is_name_byte b.text.bytes ≡ true) };
}

impl Begun {
    /// Nothing of a line.
    pub(crate) fn new() -> Self
        ensures { result ≡ Some [] }
    {
        Begun {
            text: ArrayString::new(),
            is_other: false,
        }
    }

    /// A byte more has come.
    #[tactic(auto, using(crate::proofs::Holding::plain_more))]
    pub(crate) fn push(&mut self, byte: u8)
        ensures { self.new ≡ with_byte self.old byte }
    {
        if self.is_other || self.text.is_full() || !is_name_byte(byte) {
            self.is_other = true;
        } else {
            self.text.push(byte as char);
        }
    }

    /// What the line says, which is whole.
    #[tactic(auto, using(crate::proofs::Saying::other_says, crate::proofs::Saying::empty_says, crate::proofs::Saying::stop_says, crate::proofs::Saying::session_says, crate::proofs::Saying::session_name))]
    pub(crate) fn says(self) -> DoorLine
        ensures { (line : List ℕ) → self ≡ held_of line → Says line result }
    {
        if self.is_other || self.text.is_empty() {
            DoorLine::Nothing
        } else if self.text.as_str() == "stop" {
            DoorLine::Stop
        } else {
            DoorLine::Session(SessionName { text: self.text })
        }
    }
}

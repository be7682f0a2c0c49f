//! What is told, put together word by word.
use crate::words::{byte_at, piece};
use s4_types::{Ptr, Refusal};
use std::alloc::Global;
use std::fmt::Write;

/// How many equal bytes are encoded as a run.
const LEAST_RUN: usize = 5;

/// Bytes of most answers: room for them is taken before a step.
const ANSWER_BYTES: usize = 256;

/// Words that are told, with a space between two of them. That memory was refused shows at the end.
#[derive(Drop)]
pub(crate) struct Text {
    words: String,
    is_cut: bool,
}

impl Text {
    pub(crate) fn new(alloc: Global) -> Self {
        Text {
            words: String::new(alloc),
            is_cut: false,
        }
    }

    /// Takes the words away.
    pub(crate) fn clear(&mut self) {
        self.words.clear();
        self.is_cut = false;
    }

    /// Takes the words away, and takes room for most answers. It is asked for once more where it
    /// is refused.
    pub(crate) fn begin(&mut self) -> Result<(), Refusal> {
        self.clear();
        if self.words.reserve(ANSWER_BYTES).is_err() {
            self.words.reserve(ANSWER_BYTES)?;
        }
        Ok(())
    }

    /// NoMemory where some of it couldn't be kept.
    pub(crate) fn check(&self) -> Result<(), Refusal> {
        if self.is_cut {
            return Err(Refusal::NoMemory);
        }
        Ok(())
    }

    /// The whole; NoMemory where some of it couldn't be kept.
    pub(crate) fn whole(&self) -> Result<&str, Refusal> {
        self.check()?;
        Ok(self.words.as_str())
    }

    pub(crate) fn is_empty(&self) -> bool {
        self.words.len() == 0 && !self.is_cut
    }

    /// Whether both are the same, as far as they could be kept.
    pub(crate) fn is_same(&self, other: &Text) -> Result<bool, Refusal> {
        Ok(self.whole()? == other.whole()?)
    }

    /// Signs after what was told, without a space.
    pub(crate) fn mark(&mut self, signs: &str) {
        self.is_cut |= self.words.push_str(signs).is_err();
    }

    /// Other words, without a space.
    pub(crate) fn join(&mut self, other: &Text) {
        self.is_cut |= other.is_cut;
        self.mark(other.words.as_str());
    }

    fn gap(&mut self) {
        if self.words.len() > 0 {
            self.mark(" ");
        }
    }

    pub(crate) fn word(&mut self, word: &str) {
        self.gap();
        self.mark(word);
    }

    /// A number after what was told, without a space.
    pub(crate) fn digits(&mut self, number: u64) {
        self.is_cut |= write!(self.words, "{number}").is_err();
    }

    pub(crate) fn number(&mut self, number: u64) {
        self.gap();
        self.digits(number);
    }

    /// A word and a number.
    pub(crate) fn named(&mut self, name: &str, number: u64) {
        self.word(name);
        self.number(number);
    }

    /// Words, each with a number after it.
    pub(crate) fn fields(&mut self, fields: &[(&str, u64)]) {
        for (name, number) in fields {
            self.named(name, *number);
        }
    }

    /// Numbers, one after the other.
    pub(crate) fn list(&mut self, numbers: &[u64]) {
        for number in numbers {
            self.number(*number);
        }
    }

    /// A word and numbers.
    pub(crate) fn numbers(&mut self, name: &str, numbers: &[u64]) {
        self.word(name);
        self.list(numbers);
    }

    /// Whether something could be done.
    pub(crate) fn done(&mut self, is_done: bool) {
        self.word(if is_done { "Done" } else { "Idle" });
    }

    /// Two hex digits.
    fn hex(&mut self, byte: u8) {
        self.is_cut |= write!(self.words, "{byte:02x}").is_err();
    }

    /// A word of 16 hex digits.
    pub(crate) fn long_hex(&mut self, number: u64) {
        self.gap();
        self.is_cut |= write!(self.words, "{number:016x}").is_err();
    }

    /// The name of a refusal, after `Refused` but for `Damaged`, which is told alone.
    pub(crate) fn refusal(&mut self, refusal: Refusal) {
        self.gap();
        if !matches!(refusal, Refusal::Damaged(_)) {
            self.mark("Refused ");
        }
        self.is_cut |= write!(self.words, "{refusal}").is_err();
    }

    /// Where a pointer leads, without a space before.
    pub(crate) fn place(&mut self, pointer: Option<Ptr>) {
        match pointer {
            Some(place) => {
                self.digits(place.frame() as u64);
                self.mark(".");
                self.digits(place.block() as u64);
            }
            None => self.mark("-"),
        }
    }

    /// One piece of bytes: a run, text, or others.
    fn piece(&mut self, piece: &[u8]) {
        let first = byte_at(piece, 0);
        if is_run(piece, 0) {
            self.hex(first);
            self.mark("*");
            self.digits(piece.len() as u64);
        } else if is_text(first) {
            self.mark("\"");
            self.joined_signs(piece);
            self.mark("\"");
        } else {
            for byte in piece {
                self.hex(*byte);
            }
        }
    }

    /// Printable bytes as they are, without a space.
    fn joined_signs(&mut self, signs: &[u8]) {
        for sign in signs {
            self.is_cut |= self.words.push(char::from(*sign)).is_err();
        }
    }

    /// A word of printable bytes.
    pub(crate) fn signs(&mut self, signs: &[u8]) {
        self.gap();
        self.joined_signs(signs);
    }

    /// Bytes, as they are encoded.
    pub(crate) fn bytes(&mut self, bytes: &[u8]) {
        self.gap();
        self.joined_bytes(bytes);
    }

    /// A word and bytes.
    pub(crate) fn named_bytes(&mut self, name: &str, bytes: &[u8]) {
        self.word(name);
        self.bytes(bytes);
    }

    /// Bytes after what was told, without a space.
    pub(crate) fn joined_bytes(&mut self, bytes: &[u8]) {
        if bytes.is_empty() {
            self.mark("\"\"");
        }
        let mut begin = 0;
        for _ in 0..bytes.len() {
            let end = piece_end(bytes, begin);
            self.piece(piece(bytes, begin, end));
            begin = end;
            if begin >= bytes.len() {
                return;
            }
            self.mark("+");
        }
    }
}

/// Whether a byte is encoded as text.
pub(crate) fn is_text(byte: u8) -> bool {
    (b' '..=b'~').contains(&byte) && byte != b'"' && byte != b'\\'
}

/// Where the bytes end that are equal, from a place on.
fn run_end(bytes: &[u8], begin: usize) -> usize {
    let first = byte_at(bytes, begin);
    for place in begin..bytes.len() {
        if bytes[place] != first {
            return place;
        }
    }
    bytes.len()
}

/// Whether a run begins at a place.
fn is_run(bytes: &[u8], begin: usize) -> bool {
    run_end(bytes, begin) >= begin.saturating_add(LEAST_RUN)
}

/// Where the bytes end that are encoded as one piece, from a place on.
fn piece_end(bytes: &[u8], begin: usize) -> usize {
    if is_run(bytes, begin) {
        return run_end(bytes, begin);
    }
    let is_words = is_text(byte_at(bytes, begin));
    for place in begin.saturating_add(1)..bytes.len() {
        if is_text(bytes[place]) != is_words || is_run(bytes, place) {
            return place;
        }
    }
    bytes.len()
}

//! Lines by what reads give.
ghost use Rattle.std.specs.Prelude.{◌≡◌, ◌+◌, ◌^◌, ◌<◌, IsTrue, None, length};

use door_lines::{DoorEnd, DoorLine, DoorReader, PIECE_BYTES, PieceSource};
use serving::StreamFailed;

/// What reads give, one after the other.
#[derive(Drop)]
struct Reads<'a> {
    rest: &'a [&'a [u8]],
}

impl PieceSource for Reads<'_> {
    // Of a piece that is longer than the room for it only the beginning is given.
    ghost pieces = { λ _. None };

    ghost failures = { λ _. 0 };

    ghost turns = { λ s. length s.rest.now };

    fn read_piece(&mut self, into: &mut [u8]) -> Result<usize, StreamFailed> {
        let [piece, rest @ ..] = self.rest else {
            return Ok(0);
        };
        let count = piece.len().min(into.len());
        into[..count].copy_from_slice(&piece[..count]);
        self.rest = rest;
        Ok(count)
    }
}

/// What a line says, in short.
fn word(line: &DoorLine) -> &str {
    match line {
        DoorLine::Stop => "(stop)",
        DoorLine::Nothing => "(nothing)",
        DoorLine::Session(name) => name.as_str(),
    }
}

/// Whether the next line says this. No read failed then.
fn is_next<S: PieceSource>(reader: &mut DoorReader, source: &mut S, wanted: &str) -> bool
    requires { S.failures source.old + 1 < 2 ^ 64 }
    ensures { IsTrue result → S.failures source.new ≡ S.failures source.old }
{
    match reader.next_line(source) {
        Ok(line) => word(&line) == wanted,
        Err(_) => false,
    }
}

/// Whether reads that give this say these words, and then are at their end.
fn say(reads: &[&[u8]], words: &[&str]) -> bool {
    let mut source = Reads { rest: reads };
    let mut reader = DoorReader::new();
    for word in words {
        if !is_next(&mut reader, &mut source, word) {
            return false;
        }
    }
    matches!(reader.next_line(&mut source), Err(DoorEnd::Ended))
}

#[test]
fn lines_are_read(rt: HostRuntime) {
    let reads: [&[u8]; 3] = [b"one\n\nstop\n", b"stopped\n../x\n", b"a_b\nA-9\nlast"];
    let words = [
        "one",
        "(nothing)",
        "(stop)",
        "stopped",
        "(nothing)",
        "(nothing)",
        "A-9",
    ];
    assert!(rt; say(&reads, &words));
}

#[test]
fn half_a_line_takes_nothing_from_the_next(rt: HostRuntime) {
    let reads: [&[u8]; 5] = [b"one\nst", b"two\n", b"thr", b"stop", b"ee\n"];
    assert!(rt; say(&reads, &["one", "two", "ee"]));
}

/// A name of 64 bytes, which no name is longer than.
const LONGEST: &str = "xxxxxxxxxxxxxxxxxxxxxxxxxxxxxxxxxxxxxxxxxxxxxxxxxxxxxxxxxxxxxxxx";

#[test]
fn a_full_read_goes_on_in_the_next(rt: HostRuntime) {
    let mut first = [b'x'; PIECE_BYTES];
    first[64] = b'\n';
    first[130] = b'\n';
    first[508] = b'\n';
    let reads: [&[u8]; 2] = [&first, b"y\nstop\n"];
    assert!(rt;
        say(
            &reads,
            &[LONGEST, "(nothing)", "(nothing)", "xxxy", "(stop)"]
        )
    );
}

#[test]
fn long_lines_are_passed_over(rt: HostRuntime) {
    let part = [b'x'; PIECE_BYTES];
    let reads: [&[u8]; 6] = [&part, &part, b"x\none\n", &part, b"x", b"two\n"];
    assert!(rt; say(&reads, &["(nothing)", "one", "two"]));
}

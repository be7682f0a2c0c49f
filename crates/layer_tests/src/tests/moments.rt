//! Worked moments. The dates beside the numbers are those of Python's `datetime`.
use moment_words::MomentWord::{Moment, Time};
use moment_words::{FIRST_DATED, MomentStyle, MomentWord, moment_of, moment_text, read, style_of};
use std::test::Fail;

/// Moments, and the words for them.
static TEXTS: [(u64, MomentStyle, &str); 10] = [
    (0, MomentStyle::Date, "1970-01-01T00:00:00.000000Z"),
    (
        946_684_799_999_999,
        MomentStyle::Date,
        "1999-12-31T23:59:59.999999Z",
    ),
    (
        951_827_696_000_007,
        MomentStyle::Date,
        "2000-02-29T12:34:56.000007Z",
    ),
    (
        FIRST_DATED,
        MomentStyle::Date,
        "2001-09-09T01:46:40.000000Z",
    ),
    (
        1_795_785_482_000_123,
        MomentStyle::Date,
        "2026-11-27T13:18:02.000123Z",
    ),
    (
        4_107_542_399_999_999,
        MomentStyle::Date,
        "2100-02-28T23:59:59.999999Z",
    ),
    (
        4_107_542_400_000_000,
        MomentStyle::Date,
        "2100-03-01T00:00:00.000000Z",
    ),
    (
        253_402_207_199_999_999,
        MomentStyle::Date,
        "9999-12-30T21:59:59.999999Z",
    ),
    (
        1_795_785_482_000_123,
        MomentStyle::Number,
        "1795785482000123",
    ),
    (u64::MAX, MomentStyle::Date, "18446744073709551615"),
];

/// Each is printed so, and read again.
#[test]
fn prints_moments(rt: HostRuntime) -> Result<(), Fail> {
    for (moment, style, words) in &TEXTS {
        let text = moment_text(rt.alloc(), *moment, *style)?;
        let word = read(words, 0);
        let is_so = text.as_str() == *words
            && (word == Some(Moment(*moment)) || word == Some(Time(*moment)));
        drop(text);
        assert!(rt; is_so, "{words}");
    }
    Ok(())
}

#[test]
fn dates_begin_late(rt: HostRuntime) {
    let styles = [
        (FIRST_DATED, false, MomentStyle::Date),
        (FIRST_DATED, true, MomentStyle::Number),
        (FIRST_DATED - 1, false, MomentStyle::Number),
    ];
    for (clock, is_asked, style) in &styles {
        assert!(rt; style_of(*clock, *is_asked) == *style, "{clock}");
    }
}

/// What it is now where the words are read: 2026-11-27T13:18:02Z.
const NOW: u64 = 1_795_785_482_000_000;

/// Words, and what they say.
static WORDS: [(&str, Option<MomentWord>); 24] = [
    ("17", Some(Moment(17))),
    ("+17", Some(Moment(17))),
    ("18446744073709551615", Some(Moment(u64::MAX))),
    ("2026-11-27T13:18:02Z", Some(Time(NOW))),
    (
        "2026-11-27 15:18:02.0001239+02:00",
        Some(Time(1_795_785_482_000_123)),
    ),
    ("1970-01-01T00:00:00Z", Some(Time(0))),
    ("0s", Some(Time(NOW))),
    ("90s", Some(Time(1_795_785_392_000_000))),
    ("15m", Some(Time(1_795_784_582_000_000))),
    ("2h", Some(Time(1_795_778_282_000_000))),
    ("3d", Some(Time(1_795_526_282_000_000))),
    ("1w", Some(Time(1_795_180_682_000_000))),
    ("1795785482s", Some(Time(0))),
    ("", None),
    ("s", None),
    ("-1", None),
    ("1y", None),
    ("1.5h", None),
    ("2h30m", None),
    ("2026-11-27", None),
    ("1969-12-31T23:59:59Z", None),
    ("18446744073709551616", None),
    ("1795785483s", None),
    ("30500569w", None),
];

#[test]
fn reads_words(rt: HostRuntime) {
    for (text, word) in &WORDS {
        assert!(rt; read(text, NOW) == *word, "{text}");
    }
}

#[test]
fn times_are_moments_where_clocks_are_times(rt: HostRuntime) {
    let cases = [
        (Time(FIRST_DATED - 1), FIRST_DATED, Some(FIRST_DATED - 1)),
        (Time(FIRST_DATED + 1), FIRST_DATED, Some(FIRST_DATED)),
        (Time(0), FIRST_DATED, Some(0)),
        (Time(0), FIRST_DATED - 1, None),
        (Time(13), 13, None),
        (Moment(14), 13, Some(14)),
        (Moment(NOW), FIRST_DATED, Some(NOW)),
    ];
    for (word, clock, moment) in &cases {
        assert!(rt; moment_of(*word, *clock) == *moment, "{clock}");
    }
}

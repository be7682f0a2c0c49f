//! Worked durations and starts.
use service_time::{DAY, FIRST_START, MINUTE, StartFault, WEEK, duration_of, most_leap, start_of};
use std::test::Fail;

/// Durations, and what they say in microseconds.
static DURATIONS: [(&str, Option<u64>); 14] = [
    ("30d", Some(2_592_000_000_000)),
    ("12h", Some(43_200_000_000)),
    ("5m", Some(300_000_000)),
    ("10s", Some(10_000_000)),
    ("0s", Some(0)),
    ("213503982d", Some(18_446_744_044_800_000_000)),
    ("", None),
    ("d", None),
    ("30", None),
    ("-1d", None),
    ("1.5h", None),
    ("2h30m", None),
    ("213503983d", None),
    ("2026-11-27T13:18:02Z", None),
];

#[test]
fn durations_are_read(rt: HostRuntime) {
    for (text, micros) in &DURATIONS {
        assert!(rt; duration_of(text) == *micros, "{text}");
    }
}

/// The system's time in most cases.
const NOW: u64 = 1_795_785_482_000_123;

/// Clocks of images, their windows, times and leaps, and where a service begins over them.
static STARTS: [(u64, u64, u64, u64, Result<u64, StartFault>); 11] = [
    (0, DAY, NOW, 0, Ok(NOW)),
    (0, DAY, 5, 0, Ok(FIRST_START)),
    (1, DAY, NOW, u64::MAX, Err(StartFault::Counted)),
    (
        FIRST_START - 1,
        DAY,
        NOW,
        u64::MAX,
        Err(StartFault::Counted),
    ),
    (NOW - WEEK, 30 * DAY, NOW, 0, Ok(NOW)),
    (NOW - WEEK - 1, 30 * DAY, NOW, 0, Err(StartFault::TooFar(9))),
    (NOW - WEEK - 1, 30 * DAY, NOW + DAY, 9 * DAY, Ok(NOW + DAY)),
    (NOW - DAY / 2, DAY, NOW, 0, Ok(NOW)),
    (NOW - DAY / 2 - 1, DAY, NOW, 0, Err(StartFault::TooFar(2))),
    (NOW - DAY / 2 - 1, DAY, NOW, DAY, Ok(NOW)),
    (NOW + 7, DAY, NOW, 0, Ok(NOW + 7)),
];

#[test]
fn services_begin(rt: HostRuntime) {
    for (image, window, system, leap, start) in &STARTS {
        let found = start_of(*image, *window, *system, *leap);
        assert!(rt; found == *start, "{image}: {found:?}");
    }
}

/// Windows, and how much of the past of a drive that has one ages at a start.
static LEAPS: [(u64, u64); 5] = [
    (0, MINUTE),
    (2 * MINUTE + 2, MINUTE + 1),
    (DAY, DAY / 2),
    (14 * DAY + 2, WEEK),
    (u64::MAX, WEEK),
];

#[test]
fn windows_have_leaps(rt: HostRuntime) {
    for (window, leap) in &LEAPS {
        assert!(rt; most_leap(*window) == *leap, "{window}");
    }
}

#[test]
fn a_fault_names_the_leap(rt: HostRuntime) -> Result<(), Fail> {
    let fault = format!(in rt.alloc(); "{}", StartFault::TooFar(9))?;
    let wanted = "its last moment is so long ago that too much of its past would age; \
        --leap 9d accepts that";
    assert!(rt; fault.as_str() == wanted);
    Ok(())
}

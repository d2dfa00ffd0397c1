use plan_clock::{Change, Clock};
use plan_sets::{MomentFault, read_moment};
use plan_times::{TimeFault, length, since_time, until_time};
use std::alloc::{AllocError, Global};
use std::test::Fail;

// Friday 2026-03-27, 18:04:05 in Berlin.
const NOW: u64 = 1_774_631_045;

// Texts that spans start at, and their times.
const STARTS: [(&str, &str); 16] = [
    ("now", "2026-03-27T17:04:05Z"),
    ("today", "2026-03-26T23:00:00Z"),
    ("tomorrow 02:00", "2026-03-28T01:00:00Z"),
    ("fri", "2026-03-26T23:00:00Z"),
    ("2026-03-29 02:30", "2026-03-29T01:00:00Z"),
    ("2026-03-29 02:30 UTC", "2026-03-29T02:30:00Z"),
    ("2026-03-29T02:30:00+01:00", "2026-03-29T01:30:00Z"),
    ("@0", "1970-01-01T00:00:00Z"),
    ("Fri 2026-03-27", "2026-03-26T23:00:00Z"),
    ("+1 h", "2026-03-27T18:04:05Z"),
    (" YESTERDAY\t 9:30:15 ", "2026-03-26T08:30:15Z"),
    ("2026-12-01 22:00:00-0330", "2026-12-02T01:30:00Z"),
    ("monday", "2026-03-29T22:00:00Z"),
    ("2026-12-01t22:00", "2026-12-01T21:00:00Z"),
    ("2h ago", "2026-03-27T15:04:05Z"),
    ("3000-01-01T00:00:00z", "3000-01-01T00:00:00Z"),
];

// Texts that spans start and end at, and the times of both.
const SPANS: [(&str, &str, &str, &str); 7] = [
    (
        "22:00",
        "06:00",
        "2026-03-27T21:00:00Z",
        "2026-03-28T05:00:00Z",
    ),
    (
        "sat 22:00",
        "sun 04:00",
        "2026-03-28T21:00:00Z",
        "2026-03-29T02:00:00Z",
    ),
    (
        "fri 12:00",
        "fri",
        "2026-03-27T11:00:00Z",
        "2026-04-02T22:00:00Z",
    ),
    (
        "2026-10-25 02:30",
        "2026-10-25 02:30",
        "2026-10-25T00:30:00Z",
        "2026-10-25T01:30:00Z",
    ),
    (
        "+1h 30min",
        "+8h",
        "2026-03-27T18:34:05Z",
        "2026-03-28T02:34:05Z",
    ),
    (
        "2h ago",
        "+1day",
        "2026-03-27T15:04:05Z",
        "2026-03-28T15:04:05Z",
    ),
    (
        "now",
        "1h ago",
        "2026-03-27T17:04:05Z",
        "2026-03-27T16:04:05Z",
    ),
];

// Texts that are no times.
const NO_TIMES: [&str; 21] = [
    "Thu 2026-03-27",
    "24:00",
    "6",
    "tomorrow 25:00",
    "next friday",
    "2026-2-30",
    "2026-02-30",
    "2026-03-29T02:30:00+25:00",
    "+1.5s",
    "+infinity",
    "",
    "8h",
    "1w",
    "@",
    "@ 5",
    "UTC",
    "2026-12-01T22:00Z",
    "now UTC",
    "T22:00",
    "2026-12-01 T22:00",
    "22:00:60",
];

// Texts of times that are not in the planner's years.
const OUT_OF_YEARS: [&str; 7] = [
    "1969-12-31 23:00",
    "3000-01-01 02:00",
    "@32503680001",
    "@99999999999999999999",
    "-100y",
    "1969-12-31T23:59:59Z",
    "+1000y",
];

// The clock of Europe/Berlin in 2026.
fn berlin(alloc: Global) -> Result<Clock, AllocError> {
    let changes = [
        Change {
            second: 0,
            offset: 3_600,
        },
        Change {
            second: 1_774_746_000,
            offset: 7_200,
        },
        Change {
            second: 1_792_890_000,
            offset: 3_600,
        },
    ];
    Clock::new(alloc, Vec::from_array(alloc, changes)?)
}

// Returns whether a time is the one of a timestamp.
fn is(time: Result<u64, TimeFault>, wanted: Result<u64, MomentFault>) -> bool {
    match (time, wanted) {
        (Ok(time), Ok(wanted)) => time == wanted,
        _ => false,
    }
}

// Returns whether a text is this time.
fn starts_at(clock: &Clock, text: &str, wanted: &str) -> bool {
    is(since_time(text, NOW, clock), read_moment(wanted))
}

// Returns whether a text is this time, for a span that starts at another.
fn ends_at(clock: &Clock, since: &str, text: &str, wanted: &str) -> bool {
    let Ok(since) = read_moment(since) else {
        return false;
    };
    is(until_time(text, since, NOW, clock), read_moment(wanted))
}

// Returns whether a text has this error.
fn fails(clock: &Clock, text: &str, wanted: TimeFault) -> bool {
    match since_time(text, NOW, clock) {
        Ok(_) => false,
        Err(fault) => fault == wanted,
    }
}

// Returns whether each text is a time, or has an error, as the tables say.
fn tables_hold(clock: &Clock) -> bool {
    STARTS.iter().all(|row| starts_at(clock, row.0, row.1))
        && SPANS.iter().all(|row| starts_at(clock, row.0, row.2)
            && ends_at(clock, row.2, row.1, row.3))
        && NO_TIMES
            .iter()
            .all(|text| fails(clock, *text, TimeFault::BadTime))
        && OUT_OF_YEARS
            .iter()
            .all(|text| fails(clock, *text, TimeFault::OutOfYears))
}

#[test]
fn times(rt: HostRuntime) -> Result<(), Fail> {
    let clock = berlin(rt.alloc())?;
    assert!(rt; tables_hold(&clock));
    Ok(())
}

// Returns whether a text is a length of so many seconds.
fn is_length(text: &str, seconds: u32) -> bool {
    length(text) == Some(seconds)
}

#[test]
fn lengths(rt: HostRuntime) {
    let rows = [
        ("90min", 5_400),
        ("2h", 7_200),
        (" 30 ", 30),
        ("4294967295s", 4_294_967_295),
    ];
    assert!(rt; rows.iter().all(|row| is_length(row.0, row.1)));
    let none = ["0", "1.5s", "infinity", "4294967296", "", "-1h", "1x"];
    assert!(rt; none.iter().all(|text| length(*text).is_none()));
}

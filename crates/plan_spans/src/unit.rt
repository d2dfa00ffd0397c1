//! The units of time spans.

ghost use Rattle.std.specs.Prelude.{◌≡◌, ◌<◌, ◌≤◌, true, IfSome, length, map, find};
ghost use Rattle.std.specs.List.{All};
ghost use Rattle.std.specs.Option.{option_map};
ghost use Rattle.plan_spans.specs.Spans.{year, units, has_unit, unit_in_front};

use crate::space::{after_whitespace, is_whitespace};

// The microseconds of the units from a second on.
const SECOND: u64 = 1_000_000;

const MINUTE: u64 = 60_000_000;

const HOUR: u64 = 3_600_000_000;

const DAY: u64 = 86_400_000_000;

const WEEK: u64 = 604_800_000_000;

const MONTH: u64 = 2_629_800_000_000;

const YEAR: u64 = 31_557_600_000_000;

// The units, each with its microseconds, those with longer names first (systemd.time(7), parsing time spans).
static UNITS: [(&str, u64); 30] = [
    ("seconds", SECOND),
    ("minutes", MINUTE),
    ("second", SECOND),
    ("minute", MINUTE),
    ("months", MONTH),
    ("hours", HOUR),
    ("weeks", WEEK),
    ("month", MONTH),
    ("years", YEAR),
    ("usec", 1),
    ("msec", 1_000),
    ("hour", HOUR),
    ("days", DAY),
    ("week", WEEK),
    ("year", YEAR),
    ("\u{b5}s", 1),
    ("\u{3bc}s", 1),
    ("sec", SECOND),
    ("min", MINUTE),
    ("day", DAY),
    ("us", 1),
    ("ms", 1_000),
    ("hr", HOUR),
    ("s", SECOND),
    ("m", MINUTE),
    ("h", HOUR),
    ("d", DAY),
    ("w", WEEK),
    ("M", MONTH),
    ("y", YEAR),
];

// Returns the table of the units.
fn units() -> &'static [(&'static str, u64)]
    ensures { map (λ unit. (unit.0.now, unit.1)) result.now ≡ units }
{
    &UNITS
}

// Returns the unit with the longest name that a text begins with.
fn longest_unit(text: &[u8]) -> Option<(&'static str, u64)>
    ensures value { option_map (λ unit. (unit.0.now, unit.1)) result ≡ find (has_unit text.now) units }
    ensures longest { IfSome result (λ unit.
        All (λ other. has_unit text.now other ≡ true → length other.0 ≤ length unit.0.now) units) }
    ensures inside { IfSome result (λ unit. length unit.0.now ≤ length text.now) }
    ensures some { IfSome result (λ unit. 0 < unit.1) }
    ensures few { IfSome result (λ unit. unit.1 ≤ year) }
{
    units()
        .iter()
        .find(|(name, _)| text.starts_with(name.as_bytes()))
        .copied()
}

// Returns the microseconds of the unit at the start of a text, after white space, and what follows it.
//
// If there is none, it is seconds, and the text must be empty or begin with white space.
#[tactic(auto, unfolding(crate::specs::Spans::unit_in_front))]
pub(crate) fn cut_unit(text: &[u8]) -> Option<(u64, &[u8])>
    ensures value { option_map (λ cut. (cut.0, cut.1.now)) result ≡ unit_in_front text.now }
    ensures some { IfSome result (λ cut. 0 < cut.0) }
    ensures few { IfSome result (λ cut. cut.0 ≤ year) }
    ensures shorter { IfSome result (λ cut. length cut.1.now ≤ length text.now) }
{
    let rest = after_whitespace(text);
    if let Some((name, micros)) = longest_unit(rest) {
        return Some((micros, &rest[name.len()..]));
    }
    match text {
        [first, ..] if !is_whitespace(*first) => None,
        _ => Some((SECOND, rest)),
    }
}

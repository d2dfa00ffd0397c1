//! The time of the line before.

ghost use Rattle.std.specs.Prelude.{◌≡◌, ℕ, ◌++◌, List, ◌<◌, IfNone, IfSome, length};
ghost use Rattle.plan_sets.specs.Limits.{seconds_a_day};
ghost use Rattle.plan_baseline.specs.Reading.{BeginsWithTime};
ghost use Rattle.plan_baseline.specs.Times.{HasClock, IsLater, IsTimeOf, clock_text};

use crate::cuts::{cut, cut_after};
use crate::times::{number, read_time};
use plan_sets::{END_SECOND, SECONDS_A_DAY};
use std::marker::Model;

/// More seconds than a clock is from UTC.
const MOST_DISTANCE: u64 = 360_000;

/// A time that was read. The lines of an agenda often have the time of the line before, or a later one of the same day.
#[derive(Drop)]
pub(crate) struct KnownTime<'a> {
    text: &'a [u8],
    second: u64,
    // The seconds from midnight to its time of day, or those of a day if they aren't known.
    clock: u64,
}

impl<'a> Model for KnownTime<'a> {
    ghost use Rattle.std.specs.Prelude.{ℕ};
    ghost use Rattle.plan_baseline.specs.Times.{HasClock, IsTimeOf};

    ghost Value = { ℕ };

    ghost view = { λ known. known.second };

    ghost invariant = { λ known. IsTimeOf known.text.now known.second × HasClock known.text.now known.clock };
}

impl<'a> KnownTime<'a> {
    /// Returns the start of the planner's years.
    pub(crate) fn first() -> KnownTime<'a>
        ensures { result ≡ 0 }
    {
        KnownTime {
            text: b"1970-01-01T00:00:00Z",
            second: 0,
            clock: 0,
        }
    }

    /// Reads the time that a text starts with, and knows it from then on. Returns its second, and what follows the tab after it.
    #[inline(always)]
    pub(crate) fn read_first(&mut self, line: &'a [u8]) -> Option<(u64, &'a [u8])>
        ensures some { IfSome result (λ parts. BeginsWithTime line.now parts.0 parts.1.now) }
        ensures none { IfNone result ((second : ℕ) (rest : List ℕ) → ¬ BeginsWithTime line.now second rest) }
    {
        let Some((time, rest)) = cut_after(line, self.text.len(), b'\t') else {
            return self.read_other(line);
        };
        if time == self.text {
            return Some((self.second, rest));
        }
        let Some(second) = self.read_later(time) else {
            return self.read_other(line);
        };
        Some((second, rest))
    }

    // Reads a time that is later by its time of day alone, and knows it from then on. Returns its second; or nothing, which
    // says nothing of it.
    #[inline(always)]
    fn read_later(&mut self, time: &'a [u8]) -> Option<u64>
        ensures { IfSome result (IsTimeOf time.now) }
    {
        let Some(clock) = clock_after(self.text, self.second, self.clock, time) else {
            return None;
        };
        let second = self.second + (clock - self.clock);
        *self = KnownTime {
            text: time,
            second,
            clock,
        };
        Some(second)
    }

    // Does the same for any time.
    #[inline(never)]
    fn read_other(&mut self, line: &'a [u8]) -> Option<(u64, &'a [u8])>
        ensures some { IfSome result (λ parts. BeginsWithTime line.now parts.0 parts.1.now) }
        ensures none { IfNone result ((second : ℕ) (rest : List ℕ) → ¬ BeginsWithTime line.now second rest) }
    {
        let Some((text, rest)) = cut(line, b'\t') else {
            return None;
        };
        let Some(second) = read_time(text) else {
            return None;
        };
        let clock = clock_in(text);
        *self = KnownTime {
            text,
            second,
            clock,
        };
        Some((second, rest))
    }
}

// Returns the seconds from midnight to the time of day of a time, if it is of the same day as a known one, and after it.
#[inline(always)]
fn clock_after(known: &[u8], second: u64, clock: u64, time: &[u8]) -> Option<u64>
    requires time { IsTimeOf known.now second }
    requires clock { HasClock known.now clock }
    ensures { IfSome result (IsLater second clock time.now) }
{
    let Some((date, _, zone)) = parts_of(known) else {
        return None;
    };
    let Some((other_date, text, other_zone)) = parts_of(time) else {
        return None;
    };
    if other_date != date || other_zone != zone {
        return None;
    }
    let Some(later) = clock_of(text) else {
        return None;
    };
    if later < clock || second + (later - clock) + MOST_DISTANCE > END_SECOND {
        return None;
    }
    Some(later)
}

// Returns the seconds from midnight to the time of day of a time, or those of a day if they aren't known.
fn clock_in(text: &[u8]) -> u64
    ensures { HasClock text.now result }
{
    let Some((_, clock, _)) = parts_of(text) else {
        return SECONDS_A_DAY;
    };
    match clock_of(clock) {
        Some(clock) => clock,
        None => SECONDS_A_DAY,
    }
}

// Returns the date of a time with the letter after it, the time of day, and what follows that.
#[inline(always)]
fn parts_of(text: &[u8]) -> Option<(&[u8], &[u8], &[u8])>
    ensures whole { IfSome result (λ parts. text.now ≡ parts.0.now ++ (parts.1.now ++ parts.2.now)) }
    ensures date { IfSome result (λ parts. length parts.0.now ≡ 11) }
    ensures clock { IfSome result (λ parts. length parts.1.now ≡ 8) }
{
    if text.len() < 19 {
        return None;
    }
    let (date, rest) = text.split_at(11);
    let (clock, zone) = rest.split_at(8);
    Some((date, clock, zone))
}

// Returns the seconds from midnight to the time of day whose text this is.
#[inline(always)]
fn clock_of(text: &[u8]) -> Option<u64>
    ensures { IfSome result (λ clock. (clock < seconds_a_day) × (text.now ≡ clock_text clock)) }
{
    let [h1, h2, b':', m1, m2, b':', s1, s2] = text else {
        return None;
    };
    let (hour, minute, second) = (number(*h1, *h2)?, number(*m1, *m2)?, number(*s1, *s2)?);
    if hour > 23 || minute > 59 || second > 59 {
        return None;
    }
    Some(u64::from(hour) * 3_600 + u64::from(minute) * 60 + u64::from(second))
}

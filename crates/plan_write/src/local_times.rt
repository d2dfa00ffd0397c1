//! The text of a time by the clock of a zone, such as `2024-03-31T03:00:00+02:00`.

ghost use Rattle.std.specs.Prelude.{◌≡◌, ◌≤◌, ◌++◌, true, false, IfNone, IfSome};
ghost use Rattle.plan_clock.specs.Rows.{is_bounded, is_near, natural, shown};
ghost use Rattle.plan_sets.specs.Limits.{end_second};
ghost use Rattle.plan_streams.specs.Writer.{Takes};
ghost use Rattle.plan_write.specs.LocalTimes.{date_time, is_in_years, local_text, offset_text};
ghost use Rattle.plan_write.specs.Stamp.{bytes_of};

use crate::stamp::{Stamp, digits};
use plan_clock::{Clock, Row};
use plan_sets::END_SECOND;
use plan_streams::{Stream, TextWriter};
use std::marker::Model;

/// What follows the date and the time of day in the text of a time.
#[derive(Clone, Copy, Debug, Drop)]
pub(crate) enum Suffix {
    /// The letter of UTC.
    Utc,
    /// The offset from UTC in hours and minutes.
    Minutes([u8; 6]),
    /// The same with seconds.
    Seconds([u8; 9]),
}

impl Suffix {
    // Returns the text of an offset from UTC, in seconds.
    fn of_offset(offset: i32) -> Suffix
        requires { is_near offset ≡ true }
        ensures { bytes_of result ≡ offset_text offset }
    {
        let sign = if offset < 0 { b'-' } else { b'+' };
        let distance = u64::from(offset.unsigned_abs());
        let [h1, h2] = digits(distance / 3_600);
        let [m1, m2] = digits(distance / 60 % 60);
        let [s1, s2] = digits(distance % 60);
        if distance % 60 == 0 {
            Suffix::Minutes([sign, h1, h2, b':', m1, m2])
        } else {
            Suffix::Seconds([sign, h1, h2, b':', m1, m2, b':', s1, s2])
        }
    }

    // Returns the bytes.
    fn as_bytes(&self) -> &[u8]
        ensures { result.now ≡ bytes_of self.now }
    {
        match self {
            Suffix::Utc => b"Z",
            Suffix::Minutes(bytes) => bytes,
            Suffix::Seconds(bytes) => bytes,
        }
    }
}

/// The text of a time by the clock of a zone. Contracts see this value as the text.
#[derive(Debug, Drop)]
pub struct LocalStamp {
    // What the clock shows, as a second of UTC.
    shown: Stamp,
    suffix: Suffix,
    // The number of changes of the clock up to the time, probably also that of the next time.
    passed: usize,
}

impl Model for LocalStamp {
    ghost use Rattle.std.specs.Prelude.{ℕ, List, ◌++◌};
    ghost use Rattle.plan_write.specs.LocalTimes.{date_time};
    ghost use Rattle.plan_write.specs.Stamp.{bytes_of};

    ghost Value = { List ℕ };

    ghost view = { λ stamp. date_time stamp.shown ++ bytes_of stamp.suffix };
}

impl LocalStamp {
    /// Returns a stamp of any time.
    pub fn new() -> LocalStamp {
        LocalStamp {
            shown: Stamp::new(0),
            suffix: Suffix::Utc,
            passed: 0,
        }
    }

    /// Changes the stamp to that of a second by a clock.
    #[tactic(auto, unfolding(crate::specs::LocalTimes::local_text))]
    pub fn show(&mut self, clock: &Clock, second: u64)
        requires { second ≤ end_second }
        ensures { self.new ≡ local_text clock.now second }
    {
        let row = clock
            .stretch_near(second.min(END_SECOND - 1), END_SECOND, &mut self.passed)
            .row;
        match shown_in_years(row, second) {
            Some(shown) => self.set(shown, Suffix::of_offset(row.offset)),
            None => self.set(second, Suffix::Utc),
        }
    }

    // Changes the stamp to that of what a clock shows, and what follows it.
    fn set(&mut self, shown: u64, suffix: Suffix)
        requires { shown ≤ end_second }
        ensures { self.new ≡ date_time shown ++ bytes_of suffix }
    {
        self.shown.show(shown);
        self.suffix = suffix;
    }

    /// Puts the text.
    #[inline(always)]
    pub fn put<S: Stream>(&self, lines: &mut TextWriter<'_, S>)
        ensures { Takes S.holds S.takes_all lines.old lines.new self.now }
    {
        lines.put_both(self.shown.date_time(), self.suffix.as_bytes());
    }
}

// Returns what the clock of a row shows at a second, as a second of UTC, if that is in the planner's years or at
// their end.
fn shown_in_years(row: Row, second: u64) -> Option<u64>
    requires bounded { is_bounded row ≡ true }
    requires years { second ≤ end_second }
    ensures inside { IfSome result (λ n. is_in_years (shown row second) ≡ true) }
    ensures value { IfSome result (λ n. n ≡ natural (shown row second)) }
    ensures years { IfSome result (λ n. n ≤ end_second) }
    ensures outside { IfNone result (is_in_years (shown row second) ≡ false) }
{
    let shown = second as i64 + i64::from(row.offset);
    if shown < 0 || shown > END_SECOND as i64 {
        return None;
    }
    Some(shown as u64)
}

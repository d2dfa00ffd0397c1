//! The text of a time, made once for all entries that show it.

ghost use Rattle.std.specs.Prelude.{◌≡◌, ◌<◌, ◌≤◌, ◌+◌, ◌⊎◌, IfSome, IfNone};
ghost use Rattle.plan_sets.specs.Limits.{end_second};
ghost use Rattle.plan_sets.specs.Moment.{moment_text_of, two_digits};
ghost use Rattle.plan_write.specs.LocalTimes.{date_time};
ghost use Rattle.plan_write.specs.Stamp.{stamp_text};

use plan_sets::{SECONDS_A_DAY, moment_text};
use std::marker::Model;

/// A second, at most `END_SECOND`, with its text and a tab. The text is made once for all entries of the
/// second, its hour and minute once for all entries of the minute, and its date once for all of the day.
#[derive(Debug, Drop)]
pub(crate) struct Stamp {
    second: u64,
    // The first second of its minute.
    minute: u64,
    // The first second of its day.
    midnight: u64,
    text: [u8; 21],
}

impl Model for Stamp {
    ghost use Rattle.std.specs.Prelude.{◌≡◌, ◌≤◌, ◌*◌, ◌/◌, ℕ};
    ghost use Rattle.plan_sets.specs.Limits.{end_second, seconds_a_day};
    ghost use Rattle.plan_write.specs.Stamp.{stamp_text};

    ghost Value = { ℕ };

    ghost view = { λ stamp. stamp.second };

    ghost invariant = { λ stamp. (stamp.second ≤ end_second)
        × (stamp.minute ≡ stamp.second / 60 * 60)
        × (stamp.midnight ≡ stamp.second / seconds_a_day * seconds_a_day)
        × (stamp.text ≡ stamp_text stamp.second) };
}

impl Stamp {
    /// Returns the stamp of a second.
    pub(crate) fn new(second: u64) -> Stamp
        requires { second ≤ end_second }
        ensures { result ≡ second }
    {
        let mut text = [b'\t'; 21];
        text[..20].copy_from_slice(&moment_text(second));
        Stamp {
            second,
            minute: second / 60 * 60,
            midnight: second / SECONDS_A_DAY * SECONDS_A_DAY,
            text,
        }
    }

    /// Changes the stamp to that of a second.
    #[inline(always)]
    pub(crate) fn show(&mut self, second: u64)
        requires { second ≤ end_second }
        ensures { self.new ≡ second }
    {
        if second != self.second {
            self.change(second);
        }
    }

    // Changes the stamp to that of another second. In the same minute only the digits of its seconds change, and
    // on the same day only the time of day.
    #[inline(never)]
    fn change(&mut self, second: u64)
        requires { second ≤ end_second }
        ensures { self.new ≡ second }
    {
        if let Some(seconds) = place_in(self.minute, 60, second) {
            self.text[17..19].copy_from_slice(&digits(seconds));
            self.second = second;
        } else if let Some(time) = place_in(self.midnight, SECONDS_A_DAY, second) {
            self.text[11..13].copy_from_slice(&digits(time / 3_600));
            self.text[14..16].copy_from_slice(&digits(time / 60 % 60));
            self.text[17..19].copy_from_slice(&digits(time % 60));
            self.minute = second - time % 60;
            self.second = second;
        } else {
            *self = Stamp::new(second);
        }
    }

    /// Returns the text of the time.
    #[inline(always)]
    pub(crate) fn moment(&self) -> &[u8]
        ensures { result.now ≡ moment_text_of self.now }
    {
        &self.text[..20]
    }

    /// Returns the date and the time of day, without the letter of UTC.
    #[inline(always)]
    pub(crate) fn date_time(&self) -> &[u8]
        ensures { result.now ≡ date_time self.now }
    {
        &self.text[..19]
    }

    /// Returns the text of the time, and the tab.
    #[inline(always)]
    pub(crate) fn text(&self) -> &[u8; 21]
        ensures { result.now ≡ stamp_text self.now }
    {
        &self.text
    }
}

// Returns the place of a second, from 0, in the `length` seconds from `start` on, or `None` if it isn't one of
// them.
#[inline(always)]
fn place_in(start: u64, length: u64, second: u64) -> Option<u64>
    ensures within { IfSome result (λ place. (start + place ≡ second) × (place < length)) }
    ensures outside { IfNone result ((second < start) ⊎ (start + length ≤ second)) }
{
    if second < start || length <= second - start {
        return None;
    }
    Some(second - start)
}

/// Returns the two decimal digits of a number below 100.
pub(crate) fn digits(number: u64) -> [u8; 2]
    requires { number < 100 }
    ensures { result ≡ two_digits number }
{
    [b'0' + (number / 10) as u8, b'0' + (number % 10) as u8]
}

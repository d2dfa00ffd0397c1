//! Timestamps as text, such as `2024-01-01T04:30:00Z`.
ghost use Rattle.std.specs.Prelude.{◌≡◌, ◌≢◌, ℕ, ◌<◌, ◌≤◌, ◌↔◌, ◌∷◌, [], IsSome, IfSome, IfNone, IfOk, IfErr, Ok};
ghost use Rattle.plan_sets.specs.Limits.{end_second};
ghost use Rattle.plan_sets.specs.Moment.{moment_text_of, written_second, two_digits, written_fields, HasFault, IsInCalendar, Says, Written};

use crate::civil::{END_SECOND, fields_of, second_from_epoch};
use std::error::Error;
use std::fmt::{self, Display, Formatter};

/// What is wrong with the text of a timestamp: the first of these that applies.
#[derive(Clone, Copy, Debug, PartialEq, Eq)]
pub enum MomentFault {
    /// The text does not have the form `YYYY-MM-DDTHH:MM:SSZ`, which is 20 bytes with decimal digits.
    BadForm,
    /// The calendar of the years 0000 to 9999 has no such date, or a day has no such time.
    NoSuchDate,
    /// The timestamp is before `FIRST_YEAR`, or after `END_SECOND`.
    OutOfYears,
}

impl MomentFault {
    ghost use Rattle.std.specs.Prelude.{◌≡◌};
    ghost use Rattle.plan_sets.specs.Causes.{moment_cause};

    /// Returns the name of the error, as error lines show it.
    pub fn name(&self) -> &'static str
        ensures { result.now ≡ moment_cause self.now }
    {
        match self {
            MomentFault::BadForm => "BadForm",
            MomentFault::NoSuchDate => "NoSuchDate",
            MomentFault::OutOfYears => "OutOfYears",
        }
    }
}

impl Display for MomentFault {
    ghost use Rattle.std.specs.Prelude.{Some};
    ghost use Rattle.plan_sets.specs.Causes.{moment_cause};

    ghost output = { λ fault. Some (moment_cause fault) };

    fn fmt<W: fmt::Write>(&self, f: &mut Formatter<W>) -> fmt::Result {
        f.write_str(self.name())
    }
}

impl Error for MomentFault {}

/// The numbers in a text with the form of a timestamp.
#[derive(Clone, Copy)]
struct Fields {
    year: u16,
    month: u8,
    day: u8,
    hour: u8,
    minute: u8,
    second: u8,
}

impl Fields {
    /// Returns the numbers of a text with the form `YYYY-MM-DDTHH:MM:SSZ`, or `None` for any other text.
    fn read(text: &[u8]) -> Option<Fields>
        ensures some { IfSome result (λ f. Says text.now (written_fields f)) }
        ensures none { IfNone result ((w : Written) → ¬ (Says text.now w)) }
    {
        // Two bytes each for the century, year, month and day, then for the hour, minute and second.
        let [c1, c2, y1, y2, b'-', m1, m2, b'-', d1, d2, time @ ..] = text else {
            return None;
        };
        let [b'T', h1, h2, b':', n1, n2, b':', s1, s2, b'Z'] = time else {
            return None;
        };
        Some(Fields {
            year: u16::from(number(*c1, *c2)?) * 100 + u16::from(number(*y1, *y2)?),
            month: number(*m1, *m2)?,
            day: number(*d1, *d2)?,
            hour: number(*h1, *h2)?,
            minute: number(*n1, *n2)?,
            second: number(*s1, *s2)?,
        })
    }

    /// Returns the seconds since 1970-01-01T00:00:00Z, or `None` if there is no such date or time.
    fn second(self) -> Option<i64>
        ensures some { IsSome result ↔ IsInCalendar (written_fields self) }
        ensures number { IfSome result (λ n. n ≡ written_second (written_fields self)) }
    {
        second_from_epoch(
            self.year,
            self.month,
            self.day,
            self.hour,
            self.minute,
            self.second,
        )
    }
}

/// Returns the number with these two decimal digits, or `None` if a byte is not a digit.
fn number(tens: u8, ones: u8) -> Option<u8>
    ensures value { IfSome result (λ n. (n < 100) × (tens ∷ ones ∷ [] ≡ two_digits n)) }
    ensures none { IfNone result ((n : ℕ) → n < 100 → tens ∷ ones ∷ [] ≢ two_digits n) }
{
    if tens.is_ascii_digit() && ones.is_ascii_digit() {
        Some((tens - b'0') * 10 + (ones - b'0'))
    } else {
        None
    }
}

/// Returns the second of a timestamp up to `END_SECOND`, from its text.
///
/// # Errors
///
/// The first of these that applies: `BadForm` for another form of text, `NoSuchDate` if there is no such date
/// or time, `OutOfYears` for a timestamp before `FIRST_YEAR` or after `END_SECOND`.
pub fn read_moment(text: &str) -> Result<u64, MomentFault>
    ensures ok { IfOk result (λ n. (n ≤ end_second) × (text.now ≡ moment_text_of n)) }
    ensures accepted { (n : ℕ) → n ≤ end_second → text.now ≡ moment_text_of n → result ≡ Ok n }
    ensures fault { IfErr result (HasFault text.now) }
{
    let fields = Fields::read(text.as_bytes()).ok_or(MomentFault::BadForm)?;
    let number = fields.second().ok_or(MomentFault::NoSuchDate)?;
    if number < 0 || number > END_SECOND as i64 {
        return Err(MomentFault::OutOfYears);
    }
    Ok(number as u64)
}

/// Returns the two decimal digits of a number below 100.
fn digits(number: u8) -> [u8; 2]
    requires { number < 100 }
    ensures { result ≡ two_digits number }
{
    [b'0' + number / 10, b'0' + number % 10]
}

/// Returns the timestamp of a second up to `END_SECOND`, as text.
pub fn moment_text(second: u64) -> [u8; 20]
    requires { second ≤ end_second }
    ensures { result ≡ moment_text_of second }
{
    let fields = fields_of(second);
    let [c1, c2] = digits((fields.year / 100) as u8);
    let [y1, y2] = digits((fields.year % 100) as u8);
    let [m1, m2] = digits(fields.month);
    let [d1, d2] = digits(fields.day);
    let [h1, h2] = digits(fields.hour);
    let [n1, n2] = digits(fields.minute);
    let [s1, s2] = digits(fields.second);
    [
        c1, c2, y1, y2, b'-', m1, m2, b'-', d1, d2, b'T', h1, h2, b':', n1, n2, b':', s1, s2, b'Z',
    ]
}

//! The times in the text of an agenda.

ghost use Rattle.std.specs.Prelude.{◌≡◌, ◌≢◌, ◌∷◌, ◌++◌, [], ℕ, ℤ, pos, ◌+ℤ◌, ◌<◌, ◌≤◌, IfNone, IfSome, codes, length, nat_abs};
ghost use Rattle.plan_sets.specs.Limits.{end_second};
ghost use Rattle.plan_sets.specs.Moment.{moment_text_of, two_digits};
ghost use Rattle.plan_write.specs.LocalTimes.{distance_text, offset_seconds, offset_text};
ghost use Rattle.plan_baseline.specs.Times.{IsLocal, IsTimeRead};

use plan_sets::{END_SECOND, read_moment};
use std::str;

/// Returns the second of the planner's years whose text this is, in UTC or by some clock.
pub(crate) fn read_time(text: &[u8]) -> Option<u64>
    ensures { IsTimeRead text.now result }
{
    if text.len() == 20 {
        read_utc(text)
    } else {
        read_local(text)
    }
}

// Returns the second whose text this is in UTC.
fn read_utc(text: &[u8]) -> Option<u64>
    ensures some { IfSome result (λ n. (n ≤ end_second) × (text.now ≡ moment_text_of n)) }
    ensures none { IfNone result ((n : ℕ) → n ≤ end_second → text.now ≢ moment_text_of n) }
{
    read_moment(str::from_utf8(text).ok()?).ok()
}

// Returns the second whose text this is by some clock.
fn read_local(text: &[u8]) -> Option<u64>
    ensures some { IfSome result (λ n. (n ≤ end_second) × IsLocal text.now n) }
    ensures none { IfNone result ((n : ℕ) → n ≤ end_second → ¬ IsLocal text.now n) }
{
    if text.len() < 19 {
        return None;
    }
    let (date_time, offset) = text.split_at(19);
    let Some(shown) = read_utc(&with_z(date_time)) else {
        return None;
    };
    let Some(offset) = read_offset(offset) else {
        return None;
    };
    unshown(shown, offset)
}

// Returns the second at which a clock with this offset shows another one, if that is in the planner's years or at their end.
fn unshown(shown: u64, offset: i64) -> Option<u64>
    requires years { shown ≤ end_second }
    requires near { nat_abs offset < 360000 }
    ensures some { IfSome result (λ n. (n ≤ end_second) × (pos shown ≡ pos n +ℤ offset)) }
    ensures none { IfNone result ((n : ℕ) → n ≤ end_second → pos shown ≢ pos n +ℤ offset) }
{
    let second = shown as i64 - offset;
    if second < 0 || second > END_SECOND as i64 {
        return None;
    }
    Some(second as u64)
}

// Returns a date and a time of day with the letter of UTC after them.
fn with_z(date_time: &[u8]) -> [u8; 20]
    requires { length date_time.now ≡ 19 }
    ensures { result ≡ date_time.now ++ codes "Z" }
{
    let mut text = [b'Z'; 20];
    text[..19].copy_from_slice(date_time);
    text
}

// Returns the offset from UTC in seconds, below 100 hours, whose text this is.
fn read_offset(text: &[u8]) -> Option<i64>
    ensures some { IfSome result (λ offset. (nat_abs offset < 360000) × (text.now ≡ offset_text offset)) }
    ensures none { IfNone result ((offset : ℤ) → nat_abs offset < 360000 → text.now ≢ offset_text offset) }
{
    let [sign, distance @ ..] = text else {
        return None;
    };
    let distance = i64::from(distance_of(distance)?);
    match sign {
        b'+' => Some(distance),
        b'-' if distance > 0 => Some(-distance),
        _ => None,
    }
}

// Returns the distance from UTC in seconds, below 100 hours, whose text this is.
fn distance_of(text: &[u8]) -> Option<u32>
    ensures some { IfSome result (λ distance. (distance < 360000) × (text.now ≡ distance_text distance)) }
    ensures none { IfNone result ((distance : ℕ) → distance < 360000 → text.now ≢ distance_text distance) }
{
    let [h1, h2, b':', m1, m2, seconds @ ..] = text else {
        return None;
    };
    let seconds = seconds_of(seconds)?;
    let (hours, minutes) = (number(*h1, *h2)?, number(*m1, *m2)?);
    if minutes > 59 {
        return None;
    }
    Some(u32::from(hours) * 3_600 + u32::from(minutes) * 60 + u32::from(seconds))
}

// Returns the seconds of an offset, below 60, whose text this is.
fn seconds_of(text: &[u8]) -> Option<u8>
    ensures some { IfSome result (λ seconds. (seconds < 60) × (text.now ≡ offset_seconds seconds)) }
    ensures none { IfNone result ((seconds : ℕ) → seconds < 60 → text.now ≢ offset_seconds seconds) }
{
    match text {
        [] => Some(0),
        [b':', s1, s2] => {
            let seconds = number(*s1, *s2)?;
            if seconds == 0 || seconds > 59 {
                None
            } else {
                Some(seconds)
            }
        }
        _ => None,
    }
}

/// Returns the number with these two decimal digits.
#[inline(always)]
pub(crate) fn number(tens: u8, ones: u8) -> Option<u8>
    ensures value { IfSome result (λ n. (n < 100) × (tens ∷ ones ∷ [] ≡ two_digits n)) }
    ensures none { IfNone result ((n : ℕ) → n < 100 → tens ∷ ones ∷ [] ≢ two_digits n) }
{
    if tens.is_ascii_digit() && ones.is_ascii_digit() {
        Some((tens - b'0') * 10 + (ones - b'0'))
    } else {
        None
    }
}

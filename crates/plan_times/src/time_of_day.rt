//! Reads times of day, and offsets from UTC.

ghost use Rattle.std.specs.Prelude.{◌≡◌, ◌<◌, ◌≤ℤ◌, IfSome, codes, pos, neg_ℤ};
ghost use Rattle.std.specs.Option.{option_map};
ghost use Rattle.plan_texts.specs.Text.{cut_at};
ghost use Rattle.plan_times.specs.TimesOfDay.{hour_of, minutes_of, time_of_day, hours_and_minutes, offset_digits, offset_of_text};

use crate::parts::number_of;
use plan_texts::cut;

// Reads an hour, which has one or two digits.
#[tactic(auto, unfolding(crate::specs::TimesOfDay::hour_of))]
fn hour_of(text: &[u8]) -> Option<u16>
    ensures value { result ≡ hour_of text.now }
    ensures below { IfSome result (λ n. n < 24) }
{
    if let Some(hour) = number_of(1, 24, text) {
        return Some(hour);
    }
    number_of(2, 24, text)
}

// Returns the seconds of minutes, or of minutes and seconds with a colon between them.
#[tactic(auto, unfolding(crate::specs::TimesOfDay::minutes_of))]
fn minutes_of(text: &[u8]) -> Option<u32>
    ensures value { result ≡ minutes_of text.now }
    ensures below { IfSome result (λ n. n < 3600) }
{
    let Some((minute, second)) = cut(text, b":") else {
        let minute = number_of(2, 60, text)?;
        return Some(u32::from(minute) * 60);
    };
    let minute = number_of(2, 60, minute)?;
    let second = number_of(2, 60, second)?;
    Some(u32::from(minute) * 60 + u32::from(second))
}

/// Returns the seconds from midnight to a time of day, such as `22:00` or `22:00:30`, or `None` if the text is none.
#[tactic(auto, unfolding(crate::specs::TimesOfDay::time_of_day))]
pub(crate) fn time_of_day(text: &[u8]) -> Option<u32>
    ensures value { result ≡ time_of_day text.now }
    ensures below { IfSome result (λ n. n < 86_400) }
{
    let (hour, rest) = cut(text, b":")?;
    let hour = hour_of(hour)?;
    let rest = minutes_of(rest)?;
    Some(u32::from(hour) * 3600 + rest)
}

// Returns the hours and the minutes of an offset: with a colon between them, or two digits each.
fn hours_and_minutes(text: &[u8]) -> Option<(&[u8], &[u8])>
    ensures { option_map (λ parts. (parts.0.now, parts.1.now)) result ≡ hours_and_minutes text.now (cut_at (codes ":") text.now) }
{
    if let Some(parts) = cut(text, b":") {
        return Some(parts);
    }
    if text.len() != 4 {
        return None;
    }
    Some(text.split_at(2))
}

// Returns the seconds of an offset's hours and minutes.
#[tactic(auto, unfolding(crate::specs::TimesOfDay::offset_digits))]
fn offset_digits(text: &[u8]) -> Option<u32>
    ensures value { result ≡ offset_digits text.now }
    ensures below { IfSome result (λ n. n < 86_400) }
{
    let (hour, minute) = hours_and_minutes(text)?;
    let hour = number_of(2, 24, hour)?;
    let minute = number_of(2, 60, minute)?;
    Some(u32::from(hour) * 3600 + u32::from(minute) * 60)
}

/// Returns the seconds by which a zone's clock is ahead of UTC, from `Z` or a sign, hours and minutes. Returns `None`
/// if the text is no offset.
#[tactic(auto, unfolding(crate::specs::TimesOfDay::offset_of_text))]
pub(crate) fn offset_of_text(text: &[u8]) -> Option<i32>
    ensures value { result ≡ offset_of_text text.now }
    ensures from { IfSome result (λ n. neg_ℤ (pos 86_400) ≤ℤ n) }
    ensures to { IfSome result (λ n. n ≤ℤ pos 86_400) }
{
    if text.eq_ignore_ascii_case(b"z") {
        return Some(0);
    }
    match text {
        [b'+', digits @ ..] => {
            let ahead = offset_digits(digits)?;
            Some(ahead as i32)
        }
        [b'-', digits @ ..] => {
            let behind = offset_digits(digits)?;
            Some(-(behind as i32))
        }
        _ => None,
    }
}

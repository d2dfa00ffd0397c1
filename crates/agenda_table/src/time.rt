//! The texts of times.

ghost use Rattle.std.specs.Prelude.{◌≡◌, ◌+◌, ◌≤◌, ◌<◌, ◌++◌, ◌-◌, IfSome, drop, if◌then◌else◌, length, take, true};
ghost use Rattle.arrayvec.specs.ArrayString.{array_string_len};
ghost use Rattle.plan_clock.specs.Rows.{is_near};
ghost use Rattle.plan_sets.specs.Limits.{end_second};
ghost use Rattle.plan_sets.specs.Moment.{moment_text_of};
ghost use Rattle.agenda_table.specs.Times.{clock_text, date_text, distance_text, offset_text, time_text, weekday_text, zone_text};

use crate::face::Face;
use crate::short::{Short, push_two_digits};
use arrayvec::ArrayString;
use plan_sets::{SECONDS_A_DAY, moment_text};

// Returns the timestamp of a second in UTC.
fn moment(second: u64) -> ArrayString<20>
    requires { second ≤ end_second }
    ensures { result.bytes ≡ moment_text_of second }
{
    match ArrayString::from_byte_string(&moment_text(second)) {
        Ok(text) => text,
        Err(_) => ArrayString::new(),
    }
}

// Returns a weekday, from 0 for Monday, and a blank.
fn weekday(day: u64) -> &'static str
    requires { day < 7 }
    ensures { result.now ≡ weekday_text day }
{
    match day {
        0 => "Mon ",
        1 => "Tue ",
        2 => "Wed ",
        3 => "Thu ",
        4 => "Fri ",
        5 => "Sat ",
        _ => "Sun ",
    }
}

// Appends the date of a timestamp with its weekday.
fn push_date(text: &mut Short, moment: &ArrayString<20>, second: u64)
    requires years { second ≤ end_second }
    requires moment { moment.now.bytes ≡ moment_text_of second }
    requires room { array_string_len text.old ≤ 10 }
    ensures bytes { text.new.bytes ≡ text.old.bytes ++ date_text second }
    ensures len { array_string_len text.new ≡ array_string_len text.old + 15 }
{
    text.push_str(weekday((second / SECONDS_A_DAY + 3) % 7));
    text.push_str(&moment.as_str()[..10]);
    text.push(' ');
}

// Appends the time of day of a timestamp.
fn push_time_of_day(text: &mut Short, moment: &ArrayString<20>, second: u64)
    requires years { second ≤ end_second }
    requires moment { moment.now.bytes ≡ moment_text_of second }
    requires room { array_string_len text.old ≤ 30 }
    ensures bytes { text.new.bytes ≡ text.old.bytes ++ take 8 (drop 11 (moment_text_of second)) }
    ensures len { array_string_len text.new ≡ array_string_len text.old + 8 }
{
    text.push_str(&moment.as_str()[11..19]);
}

/// Returns the time that a clock shows, with or without its date. On a marked date it has its offset.
pub(crate) fn time_of(face: Face, has_date: bool, marked: bool) -> Short
    requires years { face.shown ≤ end_second }
    requires near { IfSome face.offset (λ offset. is_near offset ≡ true) }
    ensures { result.bytes ≡ (if has_date then time_text marked face else clock_text marked face) }
{
    let mut text = Short::new();
    let moment = moment(face.shown);
    if has_date {
        push_date(&mut text, &moment, face.shown);
    }
    push_time_of_day(&mut text, &moment, face.shown);
    push_zone(&mut text, face.offset, marked);
    text
}

// Appends what follows a time of day.
fn push_zone(text: &mut Short, offset: Option<i32>, marked: bool)
    requires near { IfSome offset (λ offset. is_near offset ≡ true) }
    requires room { array_string_len text.old ≤ 100 }
    ensures { text.new.bytes ≡ text.old.bytes ++ zone_text marked offset }
{
    match offset {
        None => text.push('Z'),
        Some(offset) => {
            if marked {
                push_offset(text, offset);
            }
        }
    }
}

// Appends an offset from UTC.
fn push_offset(text: &mut Short, offset: i32)
    requires near { is_near offset ≡ true }
    requires room { array_string_len text.old ≤ 100 }
    ensures bytes { text.new.bytes ≡ text.old.bytes ++ offset_text offset }
{
    text.push(if offset < 0 { '-' } else { '+' });
    push_offset_distance(text, u64::from(offset.unsigned_abs()));
}

// Appends the hours and minutes of an offset, and its seconds if there are any.
fn push_offset_distance(text: &mut Short, distance: u64)
    requires near { distance < 360_000 }
    requires room { array_string_len text.old ≤ 101 }
    ensures bytes { text.new.bytes ≡ text.old.bytes ++ distance_text distance }
{
    push_two_digits(text, distance / 3_600);
    text.push(':');
    push_two_digits(text, distance / 60 % 60);
    if distance % 60 != 0 {
        text.push(':');
        push_two_digits(text, distance % 60);
    }
}

//! The text of a week: a row for each day with a mark for each hour, or an object for each hour.

ghost use Rattle.std.specs.Prelude.{◌≡◌, ◌<◌, ◌^◌, IsTrue, OnOk, is_some, sum_by};
ghost use Rattle.std.specs.List.{flat_map, list_any};
ghost use Rattle.plan_streams.specs.Stream.{Puts};
ghost use Rattle.plan_streams.specs.Writer.{Takes};
ghost use Rattle.plan_week.specs.Texts.{aligned, all_at, all_hours, all_row, at_hour, column_sum, day_objects, day_row, head_text, hour_object, hour_objects, hours_text, last_line, mark, marks, span_text, starts_text, table_text, week_text, weekday_text, zone_name};
ghost use Rattle.plan_week.specs.Week.{AreInYears, count_of, day_count, week_sum};

use crate::day::Day;
use crate::week::Week;
use itoa::Buffer as Digits;
use plan_collect::Agenda;
use plan_rules::NamedZone;
use plan_sets::{SECONDS_A_DAY, moment_text};
use plan_streams::{Stream, TextWriter, WriteFault};
use plan_write::{Format, Stamps, put_time};

/// Writes the week of an agenda: as a table with a row for each day and a mark for each hour, or, in JSON, as an object for
/// each hour with starts (RFC 8259).
///
/// The table ends with a row for all days, and with a line that says how many starts the agenda has, its span, and the zone
/// by whose clock times are shown: UTC, if the format has none. JSON doesn't have that line. This requests no memory. The
/// stream is flushed once, at the end.
///
/// # Errors
///
/// `Device` or `Closed` if the stream fails. Then only the first bytes of the text were written.
// Not inlined: its buffer of 64 KiB takes stack only while it runs.
#[inline(never)]
pub fn write_week<S: Stream>(
    week: &Week,
    agenda: &Agenda,
    format: &Format,
    out: &mut S,
) -> Result<(), WriteFault>
    ensures text { Puts S.takes_all result (S.holds out.old) (S.holds out.new) (week_text format.now week.now agenda.now) }
    ensures flushed { OnOk result (IsTrue (S.is_flushed out.new)) }
{
    let mut lines = TextWriter::new(out);
    put_week(week.days(), agenda, format, &mut lines);
    lines.finish()
}

// Puts the days of an agenda as objects or as a table.
fn put_week<S: Stream>(
    days: &[Day],
    agenda: &Agenda,
    format: &Format,
    lines: &mut TextWriter<'_, S>,
)
    requires years { AreInYears days.now }
    requires sum { week_sum days.now < 2 ^ 64 }
    ensures { Takes S.holds S.takes_all lines.old lines.new (week_text format.now days.now agenda.now) }
{
    if format.json {
        put_all_objects(days, lines);
    } else {
        put_table(days, agenda, &format.local, lines);
    }
}

// Puts the table of the days of an agenda: its head, a row for each day, a row for all days, and the last line.
fn put_table<S: Stream>(
    days: &[Day],
    agenda: &Agenda,
    local: &Option<NamedZone>,
    lines: &mut TextWriter<'_, S>,
)
    requires years { AreInYears days.now }
    requires sum { week_sum days.now < 2 ^ 64 }
    ensures { Takes S.holds S.takes_all lines.old lines.new (table_text local.now days.now agenda.now) }
{
    put_head(lines);
    put_day_rows(days, lines);
    put_all_row(days, lines);
    put_last(agenda, local, lines);
}

// Puts the last line: how many starts the agenda has, its span, and the zone.
fn put_last<S: Stream>(agenda: &Agenda, local: &Option<NamedZone>, lines: &mut TextWriter<'_, S>)
    ensures { Takes S.holds S.takes_all lines.old lines.new (last_line local.now agenda.now) }
{
    put_starts(agenda.len(), lines);
    put_span(agenda, local, lines);
    lines.put_both(b", ", zone_name(local));
    lines.put(b"\n");
}

// Puts how many starts there are.
fn put_starts<S: Stream>(count: usize, lines: &mut TextWriter<'_, S>)
    ensures { Takes S.holds S.takes_all lines.old lines.new (starts_text count) }
{
    let mut digits = Digits::new();
    let number = digits.format(count).as_bytes();
    if count == 1 {
        lines.put_both(number, b" start from ");
    } else {
        lines.put_both(number, b" starts from ");
    }
}

// Puts the span of an agenda.
fn put_span<S: Stream>(agenda: &Agenda, local: &Option<NamedZone>, lines: &mut TextWriter<'_, S>)
    ensures { Takes S.holds S.takes_all lines.old lines.new (span_text local.now agenda.now.span) }
{
    let upto = agenda.upto();
    let mut stamps = Stamps::new();
    put_time(local, agenda.since(), &mut stamps, lines);
    lines.put(b" to ");
    put_time(local, upto, &mut stamps, lines);
}

// Returns the name of the zone by whose clock times are shown.
fn zone_name(local: &Option<NamedZone>) -> &[u8]
    ensures { result.now ≡ zone_name local.now }
{
    match local {
        Some(zone) => zone.name.as_str().as_bytes(),
        None => b"UTC",
    }
}

// Puts the head of a table.
#[tactic(auto, unfolding(crate::specs::Texts::head_text))]
fn put_head<S: Stream>(lines: &mut TextWriter<'_, S>)
    ensures { Takes S.holds S.takes_all lines.old lines.new head_text }
{
    lines.put(b"                0     3     6     9     12    15    18    21       sum\n");
}

// Puts the row of all days.
fn put_all_row<S: Stream>(days: &[Day], lines: &mut TextWriter<'_, S>)
    requires { week_sum days.now < 2 ^ 64 }
    ensures { Takes S.holds S.takes_all lines.old lines.new (all_row days.now) }
{
    lines.put(b"all days      ");
    put_hours(&all_hours(days), lines);
}

// Puts the rows of days.
fn put_day_rows<S: Stream>(days: &[Day], lines: &mut TextWriter<'_, S>)
    requires years { AreInYears days.now }
    requires sum { week_sum days.now < 2 ^ 64 }
    ensures { Takes S.holds S.takes_all lines.old lines.new (flat_map day_row days.now) }
{
    for day in days {
        put_day_row(day, lines);
    }
}

// Puts the row of a day.
fn put_day_row<S: Stream>(day: &Day, lines: &mut TextWriter<'_, S>)
    requires years { day.now.number < day_count }
    requires sum { sum_by count_of day.now.hours < 2 ^ 64 }
    ensures { Takes S.holds S.takes_all lines.old lines.new (day_row day.now) }
{
    let moment = moment_text(day.number * SECONDS_A_DAY);
    lines.put_both(weekday((day.number + 3) % 7), &moment[..10]);
    put_hours(&day.hours, lines);
}

// Returns a weekday, from 0 for Monday, and a blank.
fn weekday(day: u64) -> &'static [u8]
    requires { day < 7 }
    ensures { result.now ≡ weekday_text day }
{
    match day {
        0 => b"Mon ",
        1 => b"Tue ",
        2 => b"Wed ",
        3 => b"Thu ",
        4 => b"Fri ",
        5 => b"Sat ",
        _ => b"Sun ",
    }
}

// Puts the marks of hours, and their sum.
fn put_hours<S: Stream>(hours: &[Option<u64>], lines: &mut TextWriter<'_, S>)
    requires { sum_by count_of hours.now < 2 ^ 64 }
    ensures { Takes S.holds S.takes_all lines.old lines.new (hours_text hours.now) }
{
    lines.put(b" ");
    put_marks(hours, lines);
    lines.put(b" ");
    put_aligned(sum_of(hours), lines);
    lines.put(b"\n");
}

// Puts the marks of hours, each after a blank.
fn put_marks<S: Stream>(hours: &[Option<u64>], lines: &mut TextWriter<'_, S>)
    ensures { Takes S.holds S.takes_all lines.old lines.new (marks hours.now) }
{
    for hour in hours {
        lines.put(&[b' ', mark(*hour)]);
    }
}

// Returns the mark of an hour.
fn mark(hour: Option<u64>) -> u8
    ensures { result ≡ mark hour }
{
    match hour {
        None => b' ',
        Some(0) => b'.',
        Some(starts) if starts < 10 => b'0' + starts as u8,
        Some(_) => b'#',
    }
}

// Returns the sum of hours.
fn sum_of(hours: &[Option<u64>]) -> u64
    requires { sum_by count_of hours.now < 2 ^ 64 }
    ensures { result ≡ sum_by count_of hours.now }
{
    hours.iter().map(|hour| hour.unwrap_or(0)).sum()
}

// Puts a number after as many blanks as make it 6 characters wide.
fn put_aligned<S: Stream>(number: u64, lines: &mut TextWriter<'_, S>)
    ensures { Takes S.holds S.takes_all lines.old lines.new (aligned number) }
{
    let mut buffer = Digits::new();
    let digits = buffer.format(number).as_bytes();
    let blanks = b"      ";
    lines.put_both(&blanks[digits.len().min(6)..], digits);
}

// Returns the starts that all days have at each hour.
#[tactic(auto, unfolding(crate::specs::Texts::all_hours))]
fn all_hours(days: &[Day]) -> [Option<u64>; 24]
    requires { week_sum days.now < 2 ^ 64 }
    ensures { result ≡ all_hours days.now }
{
    let mut hours = [None; 24];
    for (hour, starts) in hours.iter_mut().enumerate() {
        *starts = all_at(days, hour);
    }
    hours
}

// Returns the starts that all days have at an hour. `None` if the span has that hour of no day.
fn all_at(days: &[Day], hour: usize) -> Option<u64>
    requires hour { hour < 24 }
    requires sum { column_sum hour days.now < 2 ^ 64 }
    ensures { result ≡ all_at days.now hour }
{
    if has_hour(days, hour) {
        Some(column_sum(days, hour))
    } else {
        None
    }
}

// Returns whether an hour of some day is in the span.
fn has_hour(days: &[Day], hour: usize) -> bool
    requires { hour < 24 }
    ensures { result ≡ list_any (λ day. is_some (at_hour hour day)) days.now }
{
    days.iter().any(|day| day.hours[hour].is_some())
}

// Returns the sum of an hour of all days.
fn column_sum(days: &[Day], hour: usize) -> u64
    requires hour { hour < 24 }
    requires sum { column_sum hour days.now < 2 ^ 64 }
    ensures { result ≡ column_sum hour days.now }
{
    days.iter().map(|day| day.hours[hour].unwrap_or(0)).sum()
}

// Puts the objects of the hours of days.
fn put_all_objects<S: Stream>(days: &[Day], lines: &mut TextWriter<'_, S>)
    requires { AreInYears days.now }
    ensures { Takes S.holds S.takes_all lines.old lines.new (flat_map day_objects days.now) }
{
    for day in days {
        put_objects(day, lines);
    }
}

// Puts the objects of the hours of a day.
fn put_objects<S: Stream>(day: &Day, lines: &mut TextWriter<'_, S>)
    requires { day.now.number < day_count }
    ensures { Takes S.holds S.takes_all lines.old lines.new (day_objects day.now) }
{
    let moment = moment_text(day.number * SECONDS_A_DAY);
    put_each_object(&moment[..10], &day.hours, lines);
}

// Puts the objects of the hours of the day with a date.
fn put_each_object<S: Stream>(date: &[u8], hours: &[Option<u64>], lines: &mut TextWriter<'_, S>)
    ensures { Takes S.holds S.takes_all lines.old lines.new (hour_objects date.now hours.now) }
{
    for (hour, starts) in hours.iter().enumerate() {
        put_object(date, hour, starts.unwrap_or(0), lines);
    }
}

// Puts the object of an hour of the day with a date, if it has starts.
fn put_object<S: Stream>(date: &[u8], hour: usize, starts: u64, lines: &mut TextWriter<'_, S>)
    ensures { Takes S.holds S.takes_all lines.old lines.new (hour_object date.now hour starts) }
{
    if starts == 0 {
        return;
    }
    lines.put_both(b"{\"day\":\"", date);
    lines.put_both(b"\",\"hour\":", Digits::new().format(hour).as_bytes());
    lines.put_both(b",\"starts\":", Digits::new().format(starts).as_bytes());
    lines.put(b"}\n");
}

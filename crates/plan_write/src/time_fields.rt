//! The times in the lines of answers, by the format.

ghost use Rattle.std.specs.Prelude.{◌≡◌, ◌≤◌, ◌++◌, None, Some, codes};
ghost use Rattle.plan_sets.specs.Limits.{end_second};
ghost use Rattle.plan_streams.specs.Writer.{Takes};
ghost use Rattle.plan_write.specs.TimeFields.{field_text, local_opening, opening, time_column, time_members, time_text};

use crate::formats::Format;
use crate::local_times::LocalStamp;
use crate::stamp::Stamp;
use plan_rules::NamedZone;
use plan_streams::{Stream, TextWriter};

/// A time in a line.
#[derive(Clone, Copy, Debug)]
pub enum TimeField {
    /// The start of a job.
    Start,
    /// The latest start for it.
    Latest,
    /// The start of a gap.
    From,
    /// The end of a gap.
    Until,
    /// The first start of a job in a span.
    First,
    /// The last one.
    Last,
}

impl TimeField {
    // Returns what opens the member of a time, and the quote of its value.
    fn opening(self) -> &'static [u8]
        ensures { result.now ≡ opening self ++ codes "\"" }
    {
        match self {
            TimeField::Start => b"{\"start\":\"",
            TimeField::Latest => b",\"latest\":\"",
            TimeField::From => b"{\"from\":\"",
            TimeField::Until => b",\"until\":\"",
            TimeField::First => b"{\"first\":\"",
            TimeField::Last => b",\"last\":\"",
        }
    }

    // Returns what opens the member of a local time, and the quote of its value.
    fn local_opening(self) -> &'static [u8]
        ensures { result.now ≡ local_opening self ++ codes "\"" }
    {
        match self {
            TimeField::Start => b",\"local\":\"",
            TimeField::Latest => b",\"latest_local\":\"",
            TimeField::From => b",\"from_local\":\"",
            TimeField::Until => b",\"until_local\":\"",
            TimeField::First => b",\"first_local\":\"",
            TimeField::Last => b",\"last_local\":\"",
        }
    }

    // Returns the member of no time.
    fn without_time(self) -> &'static [u8]
        ensures { result.now ≡ opening self ++ codes "null" }
    {
        match self {
            TimeField::Start => b"{\"start\":null",
            TimeField::Latest => b",\"latest\":null",
            TimeField::From => b"{\"from\":null",
            TimeField::Until => b",\"until\":null",
            TimeField::First => b"{\"first\":null",
            TimeField::Last => b",\"last\":null",
        }
    }

    // Returns the member of no local time.
    fn without_local_time(self) -> &'static [u8]
        ensures { result.now ≡ local_opening self ++ codes "null" }
    {
        match self {
            TimeField::Start => b",\"local\":null",
            TimeField::Latest => b",\"latest_local\":null",
            TimeField::From => b",\"from_local\":null",
            TimeField::Until => b",\"until_local\":null",
            TimeField::First => b",\"first_local\":null",
            TimeField::Last => b",\"last_local\":null",
        }
    }
}

/// The texts of the last time of a field: many lines of an answer show the same time, or one of the same day.
#[derive(Drop)]
pub struct Stamps {
    pub(crate) utc: Stamp,
    local: LocalStamp,
}

impl Stamps {
    /// Returns the texts of any time.
    pub fn new() -> Stamps {
        Stamps {
            utc: Stamp::new(0),
            local: LocalStamp::new(),
        }
    }
}

/// The texts of the last times of the two fields of a line.
#[derive(Drop)]
pub struct LineStamps {
    /// The texts of the first field's time.
    pub first: Stamps,
    /// Those of the second field's.
    pub last: Stamps,
}

impl LineStamps {
    /// Returns the texts of any times.
    pub fn new() -> LineStamps {
        LineStamps {
            first: Stamps::new(),
            last: Stamps::new(),
        }
    }
}

/// Puts a time, and then what follows it in the line.
#[inline(always)]
pub fn put_field<S: Stream>(
    format: &Format,
    field: TimeField,
    second: u64,
    after: &[u8],
    stamps: &mut Stamps,
    lines: &mut TextWriter<'_, S>,
)
    requires { second ≤ end_second }
    ensures { Takes S.holds S.takes_all lines.old lines.new (field_text format.now field (Some second) ++ after.now) }
{
    if format.json {
        put_members(&format.local, field, second, after, stamps, lines);
    } else {
        put_column(&format.local, second, after, stamps, lines);
    }
}

// Puts the members of a time, and then what follows them.
#[inline(always)]
fn put_members<S: Stream>(
    local: &Option<NamedZone>,
    field: TimeField,
    second: u64,
    after: &[u8],
    stamps: &mut Stamps,
    lines: &mut TextWriter<'_, S>,
)
    requires { second ≤ end_second }
    ensures { Takes S.holds S.takes_all lines.old lines.new (time_members local.now field (Some second) ++ after.now) }
{
    stamps.utc.show(second);
    lines.put_both(field.opening(), stamps.utc.moment());
    match local {
        None => lines.put_both(b"\"", after),
        Some(zone) => {
            lines.put_both(b"\"", field.local_opening());
            stamps.local.show(&zone.clock, second);
            stamps.local.put(lines);
            lines.put_both(b"\"", after);
        }
    }
}

/// Puts the column of a time, and then what follows it.
#[inline(always)]
pub(crate) fn put_column<S: Stream>(
    local: &Option<NamedZone>,
    second: u64,
    after: &[u8],
    stamps: &mut Stamps,
    lines: &mut TextWriter<'_, S>,
)
    requires { second ≤ end_second }
    ensures { Takes S.holds S.takes_all lines.old lines.new (time_column local.now (Some second) ++ after.now) }
{
    put_time(local, second, stamps, lines);
    lines.put_both(b"\t", after);
}

/// Puts a time in UTC, or by the clock of a zone if one is given.
#[inline(always)]
pub fn put_time<S: Stream>(
    local: &Option<NamedZone>,
    second: u64,
    stamps: &mut Stamps,
    lines: &mut TextWriter<'_, S>,
)
    requires { second ≤ end_second }
    ensures { Takes S.holds S.takes_all lines.old lines.new (time_text local.now second) }
{
    match local {
        None => {
            stamps.utc.show(second);
            lines.put(stamps.utc.moment());
        }
        Some(zone) => {
            stamps.local.show(&zone.clock, second);
            stamps.local.put(lines);
        }
    }
}

/// Puts that there is no time, and then what follows it in the line.
pub(crate) fn put_no_field<S: Stream>(
    format: &Format,
    field: TimeField,
    after: &[u8],
    lines: &mut TextWriter<'_, S>,
)
    ensures { Takes S.holds S.takes_all lines.old lines.new (field_text format.now field None ++ after.now) }
{
    if !format.json {
        lines.put_both(b"none\t", after);
        return;
    }
    match &format.local {
        None => lines.put_both(field.without_time(), after),
        Some(_) => {
            lines.put_both(field.without_time(), field.without_local_time());
            lines.put(after);
        }
    }
}

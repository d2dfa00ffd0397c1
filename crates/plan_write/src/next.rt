//! The text of the next starts of one rule.

ghost use Rattle.std.specs.Prelude.{◌≡◌, ◌≤◌, IsTrue, OnOk};
ghost use Rattle.plan_sets.specs.Limits.{end_second};
ghost use Rattle.plan_streams.specs.Stream.{Puts};
ghost use Rattle.plan_streams.specs.Writer.{Takes};
ghost use Rattle.plan_write.specs.Next.{moment_line, next_text, none_line};

use crate::formats::Format;
use crate::time_fields::{Stamps, TimeField, put_field, put_time};
use plan_match::Rule;
use plan_next::next_start;
use plan_streams::{Stream, TextWriter, WriteFault};

/// Writes the first `count` starts of a rule that are later than `after`, one timestamp per line, or one object with
/// the member `start` in JSON. If the rule has fewer starts, the line `none` follows them, which JSON doesn't have.
/// This requests no memory. The stream is flushed once, at the end.
///
/// # Errors
///
/// `Device` or `Closed` if the stream fails. Then only the first bytes of the text were written.
// Not inlined: its buffer of 64 KiB takes stack only while it runs.
#[inline(never)]
pub fn write_next<S: Stream>(
    rule: &Rule,
    after: u64,
    count: u64,
    format: &Format,
    out: &mut S,
) -> Result<(), WriteFault>
    ensures text { Puts S.takes_all result (S.holds out.old) (S.holds out.new) (next_text format.now rule.now after count) }
    ensures flushed { OnOk result (IsTrue (S.is_flushed out.new)) }
{
    let mut lines = TextWriter::new(out);
    let mut stamps = Stamps::new();
    let mut latest = after;
    for _listed in 0..count {
        let Some(moment) = next_start(rule, latest) else {
            put_none(format, &mut lines);
            return lines.finish();
        };
        put_moment(moment, format, &mut stamps, &mut lines);
        latest = moment;
    }
    lines.finish()
}

// Puts the line of a start.
fn put_moment<S: Stream>(
    moment: u64,
    format: &Format,
    stamps: &mut Stamps,
    lines: &mut TextWriter<'_, S>,
)
    requires { moment ≤ end_second }
    ensures { Takes S.holds S.takes_all lines.old lines.new (moment_line format.now moment) }
{
    if format.json {
        put_field(format, TimeField::Start, moment, b"}\n", stamps, lines);
    } else {
        put_time(&format.local, moment, stamps, lines);
        lines.put(b"\n");
    }
}

// Puts the line after the last start of a rule, which JSON doesn't have.
fn put_none<S: Stream>(format: &Format, lines: &mut TextWriter<'_, S>)
    ensures { Takes S.holds S.takes_all lines.old lines.new (none_line format.now) }
{
    if !format.json {
        lines.put(b"none\n");
    }
}

//! The lines of errors of questions about a machine, which are in words.

ghost use Rattle.std.specs.Prelude.{◌≡◌};
ghost use Rattle.plan_streams.specs.Writer.{Takes};
ghost use Rattle.agenda_faults.specs.MachineLines.{backwards_line, empty_span_line, machine_line, named_zone_line, no_zone_line, number_line, range_words, time_line, time_words, too_many_line};

use crate::fault_lines::{MEMORY_LINE, put_between};
use crate::machine_faults::{MachineFault, NumberOption, TimeOption};
use itoa::Buffer as Digits;
use plan_rules::Text;
use plan_streams::{Stream, TextWriter};
use plan_times::TimeFault;
use plan_write::LocalStamp;
use plan_zones::ZoneFault;

/// Puts the line of a question about a machine that can't be answered.
pub(crate) fn put_machine_fault<S: Stream>(fault: &MachineFault, line: &mut TextWriter<'_, S>)
    ensures { Takes S.holds S.takes_all line.old line.new (machine_line fault.now) }
{
    match fault {
        MachineFault::Time(option, fault, text) => {
            put_time_fault(*option, *fault, text.as_str(), line);
        }
        MachineFault::Length(text) => put_between(
            b"agenda: --least: not a length: '",
            text.as_str(),
            b"' (such as '90min' or '2h') [BadLength]\n",
            line,
        ),
        MachineFault::Number(option, number) => put_number(*option, *number, line),
        MachineFault::Backwards(since) => put_backwards(since, line),
        MachineFault::EmptySpan(since) => put_empty_span(since, line),
        MachineFault::NothingExcepted(pattern) => put_between(
            b"agenda: --except: nothing is named '",
            pattern.as_str(),
            b"' [NothingNamed]\n",
            line,
        ),
        MachineFault::NothingChosen(pattern) => put_between(
            b"agenda: --only: nothing is named '",
            pattern.as_str(),
            b"' [NothingNamed]\n",
            line,
        ),
        MachineFault::Zone(text, fault, like) => {
            put_named_zone(text.as_str(), *fault, like, line);
        }
        MachineFault::Clock => {
            line.put(b"agenda: the system clock is after 2999: set it [OutOfYears]\n");
        }
    }
}

// Puts the line of an option whose text is not a time.
fn put_time_fault<S: Stream>(
    option: TimeOption,
    fault: TimeFault,
    text: &str,
    line: &mut TextWriter<'_, S>,
)
    ensures { Takes S.holds S.takes_all line.old line.new (time_line option fault text.now) }
{
    line.put_both(b"agenda: ", option.name().as_bytes());
    put_time_words(fault, text, line);
}

// Puts what is wrong with the text of an option.
fn put_time_words<S: Stream>(fault: TimeFault, text: &str, line: &mut TextWriter<'_, S>)
    ensures { Takes S.holds S.takes_all line.old line.new (time_words fault text.now) }
{
    match fault {
        TimeFault::BadTime => put_between(
            b": not a time: '",
            text,
            b"' (such as 'tomorrow 02:00', '+8h', '2026-12-01 22:00') [BadTime]\n",
            line,
        ),
        TimeFault::OutOfYears => {
            put_between(
                b": before 1970 or after 2999: '",
                text,
                b"' [OutOfYears]\n",
                line,
            );
        }
    }
}

// Puts the line of an option whose number is out of its range.
fn put_number<S: Stream>(option: NumberOption, number: u64, line: &mut TextWriter<'_, S>)
    ensures { Takes S.holds S.takes_all line.old line.new (number_line option number) }
{
    line.put_both(b"agenda: ", option.name().as_bytes());
    put_range(option, line);
    line.put_both(Digits::new().format(number).as_bytes(), b"' [");
    line.put_both(option.code().as_bytes(), b"]\n");
}

// Puts the range of an option.
fn put_range<S: Stream>(option: NumberOption, line: &mut TextWriter<'_, S>)
    ensures { Takes S.holds S.takes_all line.old line.new (range_words option) }
{
    put_between(
        b": not from 1 to ",
        Digits::new().format(option.most()),
        b": '",
        line,
    );
}

// Puts the line of a span whose end is before its start.
fn put_backwards<S: Stream>(since: &LocalStamp, line: &mut TextWriter<'_, S>)
    ensures { Takes S.holds S.takes_all line.old line.new (backwards_line since.now) }
{
    line.put(b"agenda: --until is before --since (");
    since.put(line);
    line.put(b") [Backwards]\n");
}

// Puts the line of a span that is to be clear and whose end is its start.
fn put_empty_span<S: Stream>(since: &LocalStamp, line: &mut TextWriter<'_, S>)
    ensures { Takes S.holds S.takes_all line.old line.new (empty_span_line since.now) }
{
    line.put(b"agenda: --until is not after --since (");
    since.put(line);
    line.put(b") [EmptySpan]\n");
}

// Puts the line of a zone that can't be used, with its text.
fn put_named_zone<S: Stream>(
    text: &str,
    fault: ZoneFault,
    like: &Option<Text>,
    line: &mut TextWriter<'_, S>,
)
    ensures { Takes S.holds S.takes_all line.old line.new (named_zone_line text.now fault like.now) }
{
    let about = b"agenda: zone '";
    match fault {
        ZoneFault::NoMemory => line.put(MEMORY_LINE),
        ZoneFault::BadZoneName => {
            put_between(
                about,
                text,
                b"': not the name of a zone [BadZoneName]\n",
                line,
            );
        }
        ZoneFault::NoSuchZone => put_no_zone(text, like, line),
        ZoneFault::TooLarge => {
            put_between(
                about,
                text,
                b"': larger than 1048576 bytes [TooLarge]\n",
                line,
            );
        }
        ZoneFault::BadZone => put_between(about, text, b"': not a TZif file [BadZone]\n", line),
    }
}

// Puts the line of a zone that doesn't exist, with the name of the zone that may be meant, if there is one.
fn put_no_zone<S: Stream>(text: &str, like: &Option<Text>, line: &mut TextWriter<'_, S>)
    ensures { Takes S.holds S.takes_all line.old line.new (no_zone_line text.now like.now) }
{
    let about = b"agenda: zone '";
    match like {
        None => put_between(about, text, b"': no such zone [NoSuchZone]\n", line),
        Some(name) => {
            line.put_both(about, text.as_bytes());
            put_between(
                b"': no such zone; did you mean ",
                name.as_str(),
                b"? [NoSuchZone]\n",
                line,
            );
        }
    }
}

/// Puts the line of an answer that has more starts than a limit.
pub(crate) fn put_too_many<S: Stream>(limit: u64, line: &mut TextWriter<'_, S>)
    ensures { Takes S.holds S.takes_all line.old line.new (too_many_line limit) }
{
    put_between(
        b"agenda: more than ",
        Digits::new().format(limit),
        b" starts: give a shorter span, or --limit N [TooMany]\n",
        line,
    );
}

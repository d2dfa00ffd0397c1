//! The lines of the text of an agenda.

ghost use Rattle.std.specs.Prelude.{◌≡◌, ℕ, ◌<◌, ◌≤◌, IfNone, IfSome, drop, length, option_map};
ghost use Rattle.plan_next.specs.Span.{Bounds};
ghost use Rattle.plan_collect.specs.Limits.{most_entries};
ghost use Rattle.plan_baseline.specs.Reading.{AreBounds, BeginsWithTime, Head, IsCount, IsHeader, IsHeadRead, IsLineRead, columns, first_line, head_of, is_mark};

use crate::cuts::cut;
use crate::known::KnownTime;
use crate::times::read_time;
use itoa::Buffer as Digits;
use plan_collect::MOST_ENTRIES;
use plan_next::Span;
use simdutf8::is_utf8;
use std::str;

/// The maximum number of lines after the header: that of the entries of an agenda.
const MOST_LINES: u32 = MOST_ENTRIES as u32;

/// What a header says.
#[derive(Clone, Copy)]
pub(crate) struct Header {
    /// The span of the agenda.
    pub(crate) span: Span,
    /// The number of its lines.
    pub(crate) count: u32,
    /// Where the lines start in the text.
    pub(crate) start: usize,
}

impl Header {
    /// Returns the span of the agenda.
    pub(crate) fn span(&self) -> Span
        ensures { result ≡ self.now.span }
    {
        self.span
    }
}

/// A line of an agenda.
#[derive(Clone, Copy, Debug)]
pub(crate) struct Place {
    /// The second of the start.
    pub(crate) second: u64,
    /// The number of its tail, which is what follows its time.
    pub(crate) tail: usize,
}

/// Returns what the header of a text says.
pub(crate) fn read_header(text: &[u8]) -> Option<Header>
    ensures read { IsHeadRead text.now (option_map (λ header. (head_of header, drop header.start text.now)) result) }
    ensures start { IfSome result (λ header. header.start ≤ length text.now) }
    ensures few { IfSome result (λ header. header.count ≤ most_entries) }
{
    let Some((line, rest)) = first_line(text) else {
        return None;
    };
    header_of(line, text.len() - rest.len())
}

// Returns what a header says. The lines after it start at `start`.
fn header_of(line: &[u8], start: usize) -> Option<Header>
    ensures some { IfSome result (λ header. IsHeader line.now (head_of header)) }
    ensures start { IfSome result (λ header. header.start ≡ start) }
    ensures none { IfNone result ((head : Head) → ¬ (IsHeader line.now head)) }
{
    let (mark, since, rest) = columns(line)?;
    let (upto, digits) = cut(rest, b'\t')?;
    if !is_mark(mark) {
        return None;
    }
    let count = read_count(digits)?;
    let Some(span) = span_of(since, upto) else {
        return None;
    };
    Some(Header { span, count, start })
}

// Returns the span between two times.
fn span_of(since: &[u8], upto: &[u8]) -> Option<Span>
    ensures some { IfSome result (λ span. AreBounds since.now upto.now span) }
    ensures none { IfNone result ((bounds : Bounds) → ¬ (AreBounds since.now upto.now bounds)) }
{
    let Some(since) = read_time(since) else {
        return None;
    };
    let Some(upto) = read_time(upto) else {
        return None;
    };
    Span::new(since, upto).ok()
}

// Returns whether a text is the version of the text of an agenda, and the name of a zone if one is given.
fn is_mark(mark: &[u8]) -> bool
    ensures { result ≡ is_mark mark.now }
{
    mark == b"agenda 2".as_slice() || (mark.starts_with(b"agenda 2 ") && mark.len() > 9)
}

// Returns the number of lines that a header says, in decimal.
fn read_count(text: &[u8]) -> Option<u32>
    ensures some { IfSome result (λ count. IsCount text.now count) }
    ensures none { IfNone result ((count : ℕ) → ¬ (IsCount text.now count)) }
{
    let Ok(digits) = str::from_utf8(text) else {
        return None;
    };
    match digits.parse::<u32>() {
        Ok(count) if count <= MOST_LINES && Digits::new().format(count) == digits => Some(count),
        _ => None,
    }
}

/// Returns the second of the time that a text starts with, which is from one second on and before another, and what follows the
/// tab after it.
#[inline(always)]
pub(crate) fn read_second<'a>(
    text: &'a [u8],
    from: u64,
    upto: u64,
    known: &mut KnownTime<'a>,
) -> Option<(u64, &'a [u8])>
    ensures time { IfSome result (λ parts. BeginsWithTime text.now parts.0 parts.1.now) }
    ensures within { IfSome result (λ parts. (from ≤ parts.0) × (parts.0 < upto)) }
    ensures none { IfNone result (IsLineRead from upto text.now None) }
{
    let Some((second, rest)) = known.read_first(text) else {
        return None;
    };
    if second < from || second >= upto {
        return None;
    }
    Some((second, rest))
}

// Returns the first line of a text and what follows its newline, if the line is UTF-8.
fn first_line(text: &[u8]) -> Option<(&[u8], &[u8])>
    ensures { option_map (λ parts. (parts.0.now, parts.1.now)) result ≡ first_line text.now }
{
    let Some((line, rest)) = cut(text, b'\n') else {
        return None;
    };
    if !is_utf8(line) {
        return None;
    }
    Some((line, rest))
}

// Returns the first and the second column of a line, and what follows the tab after them.
fn columns(line: &[u8]) -> Option<(&[u8], &[u8], &[u8])>
    ensures { option_map (λ parts. (parts.0.now, (parts.1.now, parts.2.now))) result ≡ columns line.now }
{
    let (first, rest) = cut(line, b'\t')?;
    let (second, rest) = cut(rest, b'\t')?;
    Some((first, second, rest))
}

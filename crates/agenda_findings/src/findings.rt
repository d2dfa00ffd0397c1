//! The text of findings in sources.

ghost use Rattle.std.specs.Prelude.{◌≡◌, [], IsTrue, OnOk, slice_get, unwrap_or};
ghost use Rattle.plan_streams.specs.Stream.{Puts};
ghost use Rattle.plan_streams.specs.Writer.{Takes};
ghost use Rattle.plan_write.specs.Json.{text_in};
ghost use Rattle.agenda_findings.specs.Findings.{after_message, before_message, check_text, finding_in, finding_line, finding_object, found_line, line_mark, line_value, members_before, message_of, kind_members};

use crate::messages::{code_of, put_detail, put_message, severity};
use agenda_sources::{Found, SourcePath};
use itoa::Buffer as Digits;
use plan_check::{Finding, FindingKind};
use plan_rules::SourceKind;
use plan_streams::{Stream, TextWriter, WriteFault};
use plan_write::put_string;

/// Writes findings, one line for each, in order: `PATH:LINE: error: MESSAGE [CODE]`, or an object in JSON.
///
/// A line has the path of the source, which is at the same place in `paths`, then the number of the line,
/// unless the finding is about the whole file, then whether it is an error or a warning, the message in words, and
/// the code. An object has the members `path`, `line`, which is null for a whole file, `severity`, `code` and `text`.
/// This requests no memory. The stream is flushed once, at the end.
///
/// # Errors
///
/// `Device` or `Closed` if the stream fails. Then only the first bytes of the text were written.
// Not inlined: its buffer of 64 KiB takes stack only while it runs.
#[inline(never)]
pub fn write_findings<S: Stream>(
    paths: &[SourcePath],
    found: &[Found],
    json: bool,
    out: &mut S,
) -> Result<(), WriteFault>
    ensures text { Puts S.takes_all result (S.holds out.old) (S.holds out.new) (check_text json paths.now found.now) }
    ensures flushed { OnOk result (IsTrue (S.is_flushed out.new)) }
{
    let mut lines = TextWriter::new(out);
    put_all_found(paths, found, json, &mut lines);
    lines.finish()
}

// Puts the lines of findings, in order.
pub(crate) fn put_all_found<S: Stream>(
    paths: &[SourcePath],
    found: &[Found],
    json: bool,
    lines: &mut TextWriter<'_, S>,
)
    ensures { Takes S.holds S.takes_all lines.old lines.new (check_text json paths.now found.now) }
{
    for one in found {
        put_found(paths, one, json, lines);
    }
}

// Puts the line of a finding, if its source exists.
fn put_found<S: Stream>(
    paths: &[SourcePath],
    one: &Found,
    json: bool,
    lines: &mut TextWriter<'_, S>,
)
    ensures { Takes S.holds S.takes_all lines.old lines.new (found_line json (slice_get paths.now one.now.place) one.now.finding) }
{
    if let Some(source) = paths.get(one.place) {
        put_finding(source.path.as_str(), source.kind, &one.finding, json, lines);
    }
}

// Puts the line of a finding in a source of a kind.
fn put_finding<S: Stream>(
    path: &str,
    source: SourceKind,
    finding: &Finding,
    json: bool,
    lines: &mut TextWriter<'_, S>,
)
    ensures { Takes S.holds S.takes_all lines.old lines.new (finding_in json path.now source finding.now) }
{
    if json {
        put_finding_object(path, source, finding, lines);
    } else {
        put_finding_line(path, source, finding, lines);
    }
}

// Puts the line of a finding in text.
fn put_finding_line<S: Stream>(
    path: &str,
    source: SourceKind,
    finding: &Finding,
    lines: &mut TextWriter<'_, S>,
)
    ensures { Takes S.holds S.takes_all lines.old lines.new (finding_line path.now source finding.now) }
{
    put_before_message(path, finding, lines);
    put_message_of(source, finding, false, lines);
    put_after_message(finding.kind, lines);
}

// Puts the object of a finding.
fn put_finding_object<S: Stream>(
    path: &str,
    source: SourceKind,
    finding: &Finding,
    lines: &mut TextWriter<'_, S>,
)
    ensures { Takes S.holds S.takes_all lines.old lines.new (finding_object path.now source finding.now) }
{
    put_members_before(path, finding, lines);
    lines.put(b",\"text\":\"");
    put_message_of(source, finding, true, lines);
    lines.put(b"\"}\n");
}

// Puts the message of a finding in a source of a kind.
#[tactic(auto, using(crate::proofs::TextLemmas::text_in_both))]
fn put_message_of<S: Stream>(
    source: SourceKind,
    finding: &Finding,
    json: bool,
    lines: &mut TextWriter<'_, S>,
)
    ensures { Takes S.holds S.takes_all lines.old lines.new (text_in json (message_of source finding.now)) }
{
    put_message(source, finding.kind, quote_of(finding), json, lines);
    put_detail(finding.kind, &finding.detail, json, lines);
}

// Puts what comes before the message in an object.
fn put_members_before<S: Stream>(path: &str, finding: &Finding, lines: &mut TextWriter<'_, S>)
    ensures { Takes S.holds S.takes_all lines.old lines.new (members_before path.now finding.now) }
{
    lines.put(b"{\"path\":");
    put_string(path, lines);
    lines.put(b",\"line\":");
    put_line_value(finding.line, lines);
    put_kind_members(finding.kind, lines);
}

// Puts the members of whether a finding is an error or a warning, and of its code.
fn put_kind_members<S: Stream>(kind: FindingKind, lines: &mut TextWriter<'_, S>)
    ensures { Takes S.holds S.takes_all lines.old lines.new (kind_members kind) }
{
    lines.put_both(b",\"severity\":\"", severity(kind).as_bytes());
    lines.put_both(b"\",\"code\":\"", code_of(kind).as_bytes());
    lines.put(b"\"");
}

// Puts the number of a line as a value. It is null if it is 0, which means the whole file.
fn put_line_value<S: Stream>(line: u32, lines: &mut TextWriter<'_, S>)
    ensures { Takes S.holds S.takes_all lines.old lines.new (line_value line) }
{
    if line == 0 {
        lines.put(b"null");
    } else {
        lines.put(Digits::new().format(line).as_bytes());
    }
}

// Puts what comes before a message.
fn put_before_message<S: Stream>(path: &str, finding: &Finding, lines: &mut TextWriter<'_, S>)
    ensures { Takes S.holds S.takes_all lines.old lines.new (before_message path.now finding.now) }
{
    lines.put(path.as_bytes());
    put_line_mark(finding.line, lines);
    lines.put_both(b": ", severity(finding.kind).as_bytes());
    lines.put(b": ");
}

// Puts what comes after a message: the code.
pub(crate) fn put_after_message<S: Stream>(kind: FindingKind, lines: &mut TextWriter<'_, S>)
    ensures { Takes S.holds S.takes_all lines.old lines.new (after_message kind) }
{
    lines.put_both(b" [", code_of(kind).as_bytes());
    lines.put(b"]\n");
}

// Puts the number of a line, unless it is 0, which means the whole file.
fn put_line_mark<S: Stream>(line: u32, lines: &mut TextWriter<'_, S>)
    ensures { Takes S.holds S.takes_all lines.old lines.new (line_mark line) }
{
    if line != 0 {
        lines.put_both(b":", Digits::new().format(line).as_bytes());
    }
}

// Returns the text that a message quotes, or nothing if it quotes none.
fn quote_of(finding: &Finding) -> &str
    ensures { result.now ≡ unwrap_or finding.now.quote [] }
{
    match &finding.quote {
        Some(quote) => quote.as_str(),
        None => "",
    }
}

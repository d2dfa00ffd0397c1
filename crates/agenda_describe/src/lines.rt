//! The descriptions of jobs as lines.

ghost use Rattle.std.specs.Prelude.{◌≡◌, IsTrue, OnOk};
ghost use Rattle.plan_streams.specs.Stream.{Puts};
ghost use Rattle.plan_streams.specs.Writer.{Takes};
ghost use Rattle.plan_write.specs.Json.{json_string};
ghost use Rattle.plan_write.specs.Texts.{user_member};
ghost use Rattle.agenda_describe.specs.Texts.{description_head, description_line, description_object, description_tail, description_text, descriptions_text, sentence_text};

use crate::jobs::{DescribedJob, Descriptions};
use plan_rules::Text;
use plan_streams::{Stream, TextWriter, WriteFault};
use plan_write::put_string;

/// Writes the descriptions of jobs, a line for each, in order: its name, a tab, the sentence of its rule, a tab, and what it
/// runs. With `json` each line is an object with the members `job`, `rule`, `user`, if the job has one, and `run`.
///
/// This requests no memory. The stream is flushed once, at the end.
///
/// # Errors
///
/// `Device` or `Closed` if the stream fails. Then only the first bytes of the text were written.
// Not inlined: its buffer of 64 KiB takes stack only while it runs.
#[inline(never)]
pub fn write_descriptions<S: Stream>(
    descriptions: &Descriptions,
    json: bool,
    out: &mut S,
) -> Result<(), WriteFault>
    ensures text { Puts S.takes_all result (S.holds out.old) (S.holds out.new) (descriptions_text json descriptions.now) }
    ensures flushed { OnOk result (IsTrue (S.is_flushed out.new)) }
{
    let mut lines = TextWriter::new(out);
    put_jobs(descriptions.as_slice(), json, &mut lines);
    lines.finish()
}

// Puts the lines of jobs, in order.
fn put_jobs<S: Stream>(jobs: &[DescribedJob], json: bool, lines: &mut TextWriter<'_, S>)
    ensures { Takes S.holds S.takes_all lines.old lines.new (descriptions_text json jobs.now) }
{
    for job in jobs {
        put_job(job, json, lines);
    }
}

// Puts the line of a job.
fn put_job<S: Stream>(job: &DescribedJob, json: bool, lines: &mut TextWriter<'_, S>)
    ensures { Takes S.holds S.takes_all lines.old lines.new (description_text json job.now) }
{
    if json {
        put_object(job, lines);
    } else {
        put_line(job, lines);
    }
}

// Puts the line of a job in text.
fn put_line<S: Stream>(job: &DescribedJob, lines: &mut TextWriter<'_, S>)
    ensures { Takes S.holds S.takes_all lines.old lines.new (description_line job.now) }
{
    lines.put_both(job.name.as_str().as_bytes(), b"\t");
    lines.put_both(job.rule.as_str().as_bytes(), b"\t");
    lines.put_both(job.runs.as_str().as_bytes(), b"\n");
}

// Puts the object of a job.
fn put_object<S: Stream>(job: &DescribedJob, lines: &mut TextWriter<'_, S>)
    ensures { Takes S.holds S.takes_all lines.old lines.new (description_object job.now) }
{
    put_head(job, lines);
    put_user(&job.user, lines);
    put_tail(job, lines);
}

// Puts the first members of an object: the job and its rule.
fn put_head<S: Stream>(job: &DescribedJob, lines: &mut TextWriter<'_, S>)
    ensures { Takes S.holds S.takes_all lines.old lines.new (description_head job.now) }
{
    lines.put(b"{\"job\":");
    put_string(job.name.as_str(), lines);
    lines.put(b",\"rule\":");
    put_string(job.rule.as_str(), lines);
}

// Puts the last member of an object: what the job runs.
fn put_tail<S: Stream>(job: &DescribedJob, lines: &mut TextWriter<'_, S>)
    ensures { Takes S.holds S.takes_all lines.old lines.new (description_tail job.now) }
{
    lines.put(b",\"run\":");
    put_string(job.command.as_str(), lines);
    lines.put(b"}\n");
}

// Puts the member of a job's user, if it has one.
fn put_user<S: Stream>(user: &Option<Text>, lines: &mut TextWriter<'_, S>)
    ensures { Takes S.holds S.takes_all lines.old lines.new (user_member user.now) }
{
    if let Some(user) = user {
        lines.put(b",\"user\":");
        put_string(user.as_str(), lines);
    }
}

/// Writes the sentence of a rule that is given by itself, as a line. With `json` it is an object with the member `rule`.
///
/// This requests no memory. The stream is flushed once, at the end.
///
/// # Errors
///
/// `Device` or `Closed` if the stream fails. Then only the first bytes of the text were written.
// Not inlined: its buffer of 64 KiB takes stack only while it runs.
#[inline(never)]
pub fn write_sentence<S: Stream>(sentence: &Text, json: bool, out: &mut S) -> Result<(), WriteFault>
    ensures text { Puts S.takes_all result (S.holds out.old) (S.holds out.new) (sentence_text json sentence.now) }
    ensures flushed { OnOk result (IsTrue (S.is_flushed out.new)) }
{
    let mut lines = TextWriter::new(out);
    put_sentence(sentence.as_str(), json, &mut lines);
    lines.finish()
}

// Puts the line of a sentence.
fn put_sentence<S: Stream>(sentence: &str, json: bool, lines: &mut TextWriter<'_, S>)
    ensures { Takes S.holds S.takes_all lines.old lines.new (sentence_text json sentence.now) }
{
    if json {
        lines.put(b"{\"rule\":");
        put_string(sentence, lines);
        lines.put(b"}\n");
    } else {
        lines.put_both(sentence.as_bytes(), b"\n");
    }
}

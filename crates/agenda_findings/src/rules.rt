//! The line of the error of a rule that is given by itself.

ghost use Rattle.std.specs.Prelude.{◌≡◌, IsTrue, OnOk, true};
ghost use Rattle.plan_streams.specs.Stream.{Puts, PutsOrBreaksOff};
ghost use Rattle.plan_streams.specs.Writer.{Takes};
ghost use Rattle.agenda_findings.specs.Rules.{asked_message, rule_line};

use crate::findings::put_after_message;
use crate::messages::put_message;
use agenda_sources::Asked;
use plan_check::FindingKind;
use plan_cron::word_at;
use plan_grammar::RuleFault;
use plan_rules::{LineCause, SourceKind};
use plan_streams::{Stream, TextWriter, WriteFault};

/// Writes the error of a rule that is given by itself: `agenda: rule: MESSAGE [CODE]`.
///
/// The message is that of the same error in a crontab, or in a timer. It quotes the field that the error is about, or
/// the event. An error of this stream is ignored. This requests no memory.
pub fn rule_fault_line<S: Stream>(asked: &Asked, fault: RuleFault, err: &mut S)
    ensures line { PutsOrBreaksOff S.takes_all (S.holds err.old) (S.holds err.new) (rule_line asked.now fault) }
    ensures flushed { S.takes_all ≡ true → IsTrue (S.is_flushed err.new) }
{
    match write_rule_fault(asked, fault, err) {
        Ok(()) | Err(_) => {}
    }
}

// Writes the line of the error of a rule.
// Not inlined: its buffer of 64 KiB takes stack only while it runs.
#[inline(never)]
fn write_rule_fault<S: Stream>(
    asked: &Asked,
    fault: RuleFault,
    err: &mut S,
) -> Result<(), WriteFault>
    ensures text { Puts S.takes_all result (S.holds err.old) (S.holds err.new) (rule_line asked.now fault) }
    ensures flushed { OnOk result (IsTrue (S.is_flushed err.new)) }
{
    let mut line = TextWriter::new(err);
    put_rule_line(asked, fault, &mut line);
    line.finish()
}

// Puts the line of the error of a rule.
fn put_rule_line<S: Stream>(asked: &Asked, fault: RuleFault, line: &mut TextWriter<'_, S>)
    ensures { Takes S.holds S.takes_all line.old line.new (rule_line asked.now fault) }
{
    line.put(b"agenda: rule: ");
    put_asked_message(asked, fault, line);
    put_after_message(kind_of(fault), line);
}

// Puts the message of the error of a rule.
fn put_asked_message<S: Stream>(asked: &Asked, fault: RuleFault, line: &mut TextWriter<'_, S>)
    ensures { Takes S.holds S.takes_all line.old line.new (asked_message asked.now fault) }
{
    let kind = kind_of(fault);
    match asked {
        Asked::Cron(text) => {
            let field = word_at(text.as_str(), fault.part);
            put_message(SourceKind::Crontab, kind, field, false, line);
        }
        Asked::Event(text) => put_message(SourceKind::Timer, kind, text.as_str(), false, line),
    }
}

// Returns the finding of the error of a rule.
fn kind_of(fault: RuleFault) -> FindingKind
    ensures { result ≡ FindingKind.Rejected (LineCause.Rule fault) }
{
    FindingKind::Rejected(LineCause::Rule(fault))
}

//! The crontabs that Debian's cron ignores whole, for a line or for their end (cron 3.0pl1).

ghost use Rattle.std.specs.Prelude.{◌≡◌, ◌≤◌, [], ◌&&◌, ◌||◌, ◌==◌, IfOk, is_ok, length, map, option_map, string_bytes};
ghost use Rattle.std.specs.List.{before_first, position_or_len};
ghost use Rattle.plan_grammar.specs.Cron.{cron_reading};
ghost use Rattle.plan_loads.specs.CronLines.{because_of, beyond_why, cause_decides, cron_loading, end_why, ends_blank, first_why, has_whole_user, ignored_why, is_cut_name, is_decisive, is_odd, is_rule_with, job_why, line_why, loaded_unless, no_command_decides, on_line, rejected_why, rule_decides, rule_with, set_decides, text_why, user_place};
ghost use Rattle.plan_rules.specs.Crontab.{line_reading};
ghost use Rattle.plan_rules.specs.FileText.{text_reading};
ghost use Rattle.plan_texts.specs.Limits.{most_bytes};

use crate::loading::{Loading, all_loaded};
use plan_cron::{begins_with_star, first_beyond, is_too_long, is_unended, setting_fault, word_at};
use plan_rules::{Job, Kind, LineCause, RuleCause, cron_rule, crontab_entry, text_of};
use plan_sets::SetFault;
use plan_texts::lines::lines;
use plan_texts::{Text, begins_with};
use plan_timers::{NotPlanned, Unplanned, copy_of};
use std::alloc::{AllocError, Global};

// Returns what cron loads of a crontab: all of it or nothing.
pub(crate) fn cron_loading(
    alloc: Global,
    kind: Kind,
    path: &str,
    bytes: &[u8],
) -> Result<Loading, AllocError>
    ensures { IfOk result (λ loading. loading ≡ cron_loading kind path.now bytes.now (text_reading bytes.now)) }
{
    let Ok(text) = text_of(bytes) else {
        return all_loaded(alloc, bytes);
    };
    let why = text_why(alloc, kind, text)?;
    loaded_unless(alloc, path, bytes, why)
}

// Returns what is loaded of a file that is ignored for this reason, or not.
fn loaded_unless(
    alloc: Global,
    path: &str,
    bytes: &[u8],
    why: Option<Unplanned>,
) -> Result<Loading, AllocError>
    ensures { IfOk result (λ loading. loading ≡ loaded_unless path.now bytes.now why) }
{
    let Some(why) = why else {
        return all_loaded(alloc, bytes);
    };
    let mut reports = Vec::new(alloc);
    let path = copy_of(alloc, path)?;
    reports.push(NotPlanned { path, why })?;
    Ok(Loading {
        text: None,
        reports,
    })
}

// Returns why cron ignores a crontab with this text.
fn text_why(alloc: Global, kind: Kind, text: &str) -> Result<Option<Unplanned>, AllocError>
    requires { length text.now ≤ most_bytes }
    ensures { IfOk result (λ why. why ≡ text_why kind text.now) }
{
    let lines = lines(alloc, text)?;
    if let Some(why) = first_why(alloc, kind, lines.as_slice())? {
        return Ok(Some(why));
    }
    if let Some(why) = beyond_why(alloc, lines.as_slice())? {
        return Ok(Some(why));
    }
    end_why(alloc, text)
}

// Returns the first of some lines for which cron ignores the file.
fn first_why(alloc: Global, kind: Kind, lines: &[&str]) -> Result<Option<Unplanned>, AllocError>
    requires { length lines.now ≤ most_bytes }
    ensures { IfOk result (λ why. why ≡ first_why kind 1 (map (λ line. line.now) lines.now)) }
{
    for (place, line) in lines.iter().enumerate() {
        if let Some(why) = line_why(alloc, kind, place as u32 + 1, line)? {
            return Ok(Some(why));
        }
    }
    Ok(None)
}

// Returns the line that is too far down in a crontab.
fn beyond_why(alloc: Global, lines: &[&str]) -> Result<Option<Unplanned>, AllocError>
    requires { length lines.now ≤ most_bytes }
    ensures { IfOk result (λ why. why ≡ beyond_why (map (λ line. line.now) lines.now)) }
{
    let Some(number) = first_beyond(lines) else {
        return Ok(None);
    };
    let why = ignored_why(alloc, "more than 10003 lines")?;
    Ok(Some(Unplanned::LineNotLoaded(number, why)))
}

// Returns that a text has no newline at its end.
fn end_why(alloc: Global, text: &str) -> Result<Option<Unplanned>, AllocError>
    ensures { IfOk result (λ why. why ≡ end_why text.now) }
{
    if !is_unended(text) {
        return Ok(None);
    }
    let why = ignored_why(alloc, "no newline at its end")?;
    Ok(Some(Unplanned::NotLoaded(why)))
}

// Returns why cron ignores a file for one of its lines.
fn line_why(
    alloc: Global,
    kind: Kind,
    number: u32,
    line: &str,
) -> Result<Option<Unplanned>, AllocError>
    ensures { IfOk result (λ why. why ≡ line_why kind number line.now (line_reading [] kind number line.now)) }
{
    let Some(entry) = crontab_entry(alloc, "", kind, number, line)? else {
        let fault = setting_fault(alloc, line)?;
        return on_line(alloc, number, fault);
    };
    match entry.read {
        Ok(job) => {
            let why = job_why(alloc, kind, line, &job)?;
            on_line(alloc, number, why)
        }
        Err(cause) => rejected_why(alloc, kind, number, line, cause),
    }
}

// Returns why cron ignores a file for this line, if it does.
fn on_line(alloc: Global, number: u32, why: Option<Text>) -> Result<Option<Unplanned>, AllocError>
    ensures { IfOk result (λ all. all ≡ on_line number why) }
{
    let Some(why) = why else {
        return Ok(None);
    };
    let why = ignored_why(alloc, why.as_str())?;
    Ok(Some(Unplanned::LineNotLoaded(number, why)))
}

// Returns what is wrong with the command of a job.
fn job_why(alloc: Global, kind: Kind, line: &str, job: &Job) -> Result<Option<Text>, AllocError>
    ensures { IfOk result (λ why. why ≡ job_why kind line.now job.now.command) }
{
    if begins_with_star(kind, job.command()) {
        return Ok(Some(copy_of(alloc, "the command begins with *")?));
    }
    if is_too_long(kind, line) {
        return Ok(Some(copy_of(alloc, "command over 998 bytes")?));
    }
    Ok(None)
}

// Returns why cron ignores a file for a line that agenda rejects.
fn rejected_why(
    alloc: Global,
    kind: Kind,
    number: u32,
    line: &str,
    cause: LineCause,
) -> Result<Option<Unplanned>, AllocError>
    ensures { IfOk result (λ why. why ≡ rejected_why kind number line.now cause) }
{
    if !is_decisive(alloc, kind, line, cause)? {
        return Ok(None);
    }
    Ok(Some(Unplanned::NotLoaded(because_of(alloc, number)?)))
}

// Returns whether cron rejects a line that agenda rejects.
fn is_decisive(alloc: Global, kind: Kind, line: &str, cause: LineCause) -> Result<bool, AllocError>
    ensures { IfOk result (λ is. is ≡ is_decisive kind line.now cause) }
{
    if setting_fault(alloc, line)?.is_none() {
        return Ok(false);
    }
    cause_decides(alloc, kind, line, cause)
}

// Returns whether cron rejects a line for this cause.
fn cause_decides(
    alloc: Global,
    kind: Kind,
    line: &str,
    cause: LineCause,
) -> Result<bool, AllocError>
    ensures { IfOk result (λ is. is ≡ cause_decides kind line.now cause) }
{
    match cause {
        LineCause::BadSetting => Ok(true),
        LineCause::Rule(fault) => rule_decides(alloc, line, fault.part, fault.cause),
        LineCause::NoCommand => Ok(no_command_decides(kind, line)),
        _ => Ok(false),
    }
}

// Returns whether cron rejects a rule for this cause.
fn rule_decides(alloc: Global, line: &str, part: u8, cause: RuleCause) -> Result<bool, AllocError>
    ensures { IfOk result (λ is. is ≡ rule_decides line.now part cause) }
{
    match cause {
        RuleCause::WrongParts | RuleCause::UnknownWord => Ok(true),
        RuleCause::BadName => Ok(!is_cut_name(alloc, line, part)?),
        RuleCause::Values(fault) => Ok(set_decides(fault)),
        _ => Ok(false),
    }
}

// Returns whether cron rejects a value or a step for this cause.
fn set_decides(fault: SetFault) -> bool
    ensures { result ≡ set_decides fault }
{
    matches!(fault, SetFault::OutOfRange | SetFault::ZeroStep)
}

// Returns whether a field has valid names, and then text that cron ignores.
fn is_cut_name(alloc: Global, line: &str, part: u8) -> Result<bool, AllocError>
    ensures { IfOk result (λ is. is ≡ is_cut_name line.now part) }
{
    if part != 4 && part != 5 {
        return Ok(false);
    }
    is_rule_with(alloc, part, before_odd(word_at(line, part).as_bytes()))
}

// Returns whether a text is a valid month or day of the week.
#[tactic(auto, using(plan_texts::proofs::Utf8Lemmas::yes_utf8, plan_texts::proofs::Utf8Lemmas::no_utf8))]
fn is_rule_with(alloc: Global, part: u8, field: &[u8]) -> Result<bool, AllocError>
    ensures { IfOk result (λ is. is ≡ is_rule_with part field.now) }
{
    match str::from_utf8(field) {
        Ok(field) => {
            let rule = rule_with(alloc, part, field)?;
            is_rule(alloc, rule.as_str())
        }
        Err(_) => Ok(false),
    }
}

// Returns whether a text is a cron rule.
fn is_rule(alloc: Global, text: &str) -> Result<bool, AllocError>
    ensures { IfOk result (λ is. is ≡ is_ok (cron_reading text.now)) }
{
    match cron_rule(alloc, text) {
        Ok(_) => Ok(true),
        Err(fault) if fault.cause == RuleCause::NoMemory => Err(AllocError),
        Err(_) => Ok(false),
    }
}

// Returns the rule of which only the month or the day of the week isn't `*`.
fn rule_with(alloc: Global, part: u8, field: &str) -> Result<String, AllocError>
    ensures { IfOk result (λ rule. string_bytes rule ≡ rule_with part field.now) }
{
    if part == 4 {
        return format!(in alloc; "* * * {field} *");
    }
    format!(in alloc; "* * * * {field}")
}

// Returns what comes before the first byte of a field that can't be in a list of names and numbers.
fn before_odd(field: &[u8]) -> &[u8]
    ensures { result.now ≡ before_first is_odd field.now }
{
    &field[..odd_at(field)]
}

// Returns how many bytes come before that byte.
fn odd_at(field: &[u8]) -> usize
    ensures count { result ≡ position_or_len is_odd field.now }
    ensures inside { result ≤ length field.now }
{
    field.iter().take_while(|byte| !is_odd(**byte)).count()
}

// Returns whether a byte can't be in a list of names and numbers.
fn is_odd(byte: u8) -> bool
    ensures { result ≡ is_odd byte }
{
    !(byte.is_ascii_alphabetic() || byte.is_ascii_digit() || matches!(byte, b',' | b'/' | b'-'))
}

// Returns whether cron rejects a line without a command.
fn no_command_decides(kind: Kind, line: &str) -> bool
    ensures { result ≡ no_command_decides kind line.now }
{
    match kind {
        Kind::User => false,
        Kind::System => !has_whole_user(line),
    }
}

// Returns whether a line has a user with a blank after it.
fn has_whole_user(line: &str) -> bool
    ensures { result ≡ has_whole_user line.now }
{
    !word_at(line, user_place(line)).is_empty() && ends_blank(line.as_bytes())
}

// Returns the place of the user's word, from 1.
fn user_place(line: &str) -> u8
    ensures { result ≡ user_place line.now }
{
    if begins_with(word_at(line, 1).as_bytes(), b'@') {
        2
    } else {
        6
    }
}

// Returns whether a line ends with a blank.
fn ends_blank(line: &[u8]) -> bool
    ensures { result ≡ ends_blank line.now }
{
    match line.last() {
        Some(last) => *last == b' ' || *last == b'\t',
        None => false,
    }
}

// Returns that a file is ignored for this reason.
fn ignored_why(alloc: Global, why: &str) -> Result<Text, AllocError>
    ensures { IfOk result (λ text. text ≡ ignored_why why.now) }
{
    let mut text = String::from_str(alloc, "cron ignores this file: ")?;
    text.push_str(why)?;
    Ok(Text::new(text))
}

// Returns that a file is ignored because of the line with a number.
fn because_of(alloc: Global, number: u32) -> Result<Text, AllocError>
    ensures { IfOk result (λ text. text ≡ because_of number) }
{
    let text = format!(in alloc; "cron ignores this file because of line {number}")?;
    Ok(Text::new(text))
}

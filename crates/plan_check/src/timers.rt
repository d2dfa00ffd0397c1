//! The findings of the text of a timer file (systemd.timer(5)).

ghost use Rattle.std.specs.Prelude.{◌≡◌, ◌≤◌, ◌++◌, ◌∷◌, ◌&&◌, [], if◌then◌else◌, length, IfOk, OnOk, Ok, map, option_map};
ghost use Rattle.std.specs.List.{cons_option};
ghost use Rattle.plan_match.specs.Zone.{rule_in};
ghost use Rattle.plan_match.specs.declared.rule.Rule.TheVariants as rule;
ghost use Rattle.plan_rules.specs.Timer.{is_timer_name, timer_job, timer_setting};
ghost use Rattle.plan_rules.specs.TimerEntries.{draft_after, draft_of, line_in, line_shown, lines_draft, no_lines, shown_line, state_after, timer_lines};
ghost use Rattle.plan_check.specs.Known.{after_job, after_other, job_findings};
ghost use Rattle.plan_check.specs.TimerWarnings.{timer_text};
ghost use Rattle.plan_check.specs.Timers.{after_timer, difference_findings, event_quote, event_warnings, has_changes, line_findings, lines_findings, read_findings, setting_findings, step_findings, stop_in, timer_findings};
ghost use Rattle.plan_texts.specs.Limits.{most_bytes};
ghost use Rattle.plan_check.specs.Warnings.{never_starts};

use crate::context::TimerContext;
use crate::finding::{Finding, FindingKind, Warning};
use crate::known::Known;
use crate::report::{
    add_all, add_error, add_if, add_job, add_name_fault, add_quoting_if, add_quoting_with, kept,
    kept_hint,
};
use crate::settings::{Standing, delay_after, is_bad_delay, is_unknown_key, value_of};
use crate::timer_warnings::{TimerText, add_timer_warnings};
use plan_clock::Clock;
use plan_next::next_from;
use plan_rules::{
    Calendar, Events, LineCause, LineFault, Rule, TimerDraft, TimerLine, TimerOptions, TimerReader,
    is_timer_name, text_of, timer_job,
};
use plan_systemd::{EventDifferences, event_differences, event_hint};
use plan_texts::Text;
use plan_texts::whole_lines::{WholeLine, whole_lines};
use plan_triggers::{TimerSetting, has_bad_header, is_bad_boolean, is_bad_unit};
use std::alloc::{AllocError, Global};

// Adds the findings of a timer's text, and its job, in this context.
pub(crate) fn add_timer(
    alloc: Global,
    known: &mut Known,
    found: &mut Vec<Finding>,
    name: &str,
    bytes: &[u8],
    context: &TimerContext,
) -> Result<(), AllocError>
    ensures found { OnOk result (found.new.items ≡ found.old.items
        ++ timer_findings context.now known.old name.now bytes.now (timer_lines bytes.now)) }
    ensures known { OnOk result (known.new ≡ after_timer context.now known.old name.now (timer_lines bytes.now)) }
{
    match text_of(bytes) {
        Ok(text) => {
            let lines = whole_lines(alloc, text)?;
            add_lines(alloc, known, found, name, text, lines.as_slice(), context)
        }
        Err(LineFault { line, cause }) => {
            add_error(found, line, cause, None, None)?;
            add_name_fault(alloc, known, found, 0, name)?;
            known.add_other(alloc, name)
        }
    }
}

// Adds the findings of the whole file, whose text and lines are given, then those of its lines, and then its job.
fn add_lines(
    alloc: Global,
    known: &mut Known,
    found: &mut Vec<Finding>,
    name: &str,
    text: &str,
    lines: &[WholeLine],
    context: &TimerContext,
) -> Result<(), AllocError>
    requires { length text.now ≤ most_bytes }
    ensures found { OnOk result (found.new.items ≡ found.old.items
        ++ timer_findings context.now known.old name.now text.now (Ok (map shown_line lines.now))) }
    ensures known { OnOk result (known.new ≡ after_timer context.now known.old name.now (Ok (map shown_line lines.now))) }
{
    let mut later = Vec::new(alloc);
    let (read, draft) = read_lines(alloc, &mut later, known.clock(), lines, context)?;
    let has_section = read.reader.has_section();
    let missing = FindingKind::Rejected(LineCause::NoTimerSection);
    add_if(found, !has_section, 0, missing)?;
    let mut warnings = Vec::new(alloc);
    add_timer_warnings(
        alloc,
        &mut warnings,
        known.clock(),
        name,
        text,
        &read,
        &draft,
    )?;
    let options = read.standing.options;
    add_timer_job(alloc, known, found, name, has_section, draft, options)?;
    add_all(found, warnings)?;
    add_all(found, later)
}

// Adds the job of a timer with these options, unless the whole timer is rejected. Adds what is wrong with its name.
fn add_timer_job(
    alloc: Global,
    known: &mut Known,
    found: &mut Vec<Finding>,
    name: &str,
    has_section: bool,
    draft: TimerDraft,
    options: TimerOptions,
) -> Result<(), AllocError>
    ensures found { OnOk result (found.new.items ≡ found.old.items ++ job_findings known.old 0 name.now) }
    ensures known { OnOk result (known.new ≡ (if is_timer_name name.now && has_section
        then after_job known.old (timer_job name.now (draft_of draft).unit draft.events options) else after_other known.old name.now)) }
{
    if is_timer_name(name) && has_section {
        let job = timer_job(alloc, name, draft.unit, draft.events, options)?;
        return add_job(known, found, 0, job);
    }
    add_name_fault(alloc, known, found, 0, name)?;
    known.add_other(alloc, name)
}

// Adds the findings of lines, in order. Returns what the lines say.
fn read_lines<'z, 'l>(
    alloc: Global,
    found: &mut Vec<Finding>,
    clock: &Option<Clock>,
    lines: &'l [WholeLine],
    context: &'z TimerContext,
) -> Result<(TimerText<'z, 'l>, TimerDraft), AllocError>
    ensures read { IfOk result (λ read. read.0 ≡ timer_text context.now.accuracy (map shown_line lines.now)) }
    ensures draft { IfOk result (λ read. draft_of read.1 ≡ lines_draft context.now.zones (map shown_line lines.now)) }
    ensures found { OnOk result (found.new.items ≡ found.old.items ++ lines_findings clock.now (no_lines context.now.zones) (map shown_line lines.now)) }
{
    let mut reader = TimerReader::new(&context.zones);
    let mut standing = Standing::new(context.accuracy);
    let mut delay = "";
    let mut draft = TimerDraft::new(alloc);
    let mut settings = Vec::new(alloc);
    for line in lines {
        let setting = reader.setting(line);
        standing = standing.after(setting);
        delay = delay_after(delay, setting);
        keep_setting(&mut settings, setting)?;
        add_line(alloc, &mut reader, &mut draft, found, clock, line, setting)?;
    }
    let has_bad_header = has_bad_header(lines);
    let read = TimerText {
        has_bad_header,
        reader,
        standing,
        delay,
        settings,
    };
    Ok((read, draft))
}

// Adds a setting to others, if there is one.
fn keep_setting<'l>(
    settings: &mut Vec<TimerSetting<'l>>,
    setting: Option<(&'l str, &'l str)>,
) -> Result<(), AllocError>
    ensures { OnOk result (settings.new.items ≡ settings.old.items
        ++ cons_option (option_map (λ setting. (setting.0.now, setting.1.now)) setting.entry) []) }
{
    if let Some((key, value)) = setting {
        settings.push(TimerSetting::new(key, value))?;
    }
    Ok(())
}

// Adds the findings of a line with its setting, if it has one, and what it says of the job.
fn add_line(
    alloc: Global,
    reader: &mut TimerReader<'_>,
    draft: &mut TimerDraft,
    found: &mut Vec<Finding>,
    clock: &Option<Clock>,
    line: &WholeLine,
    setting: Option<(&str, &str)>,
) -> Result<(), AllocError>
    requires { option_map (λ setting. (setting.0.now, setting.1.now)) setting ≡ timer_setting reader.old.inside (shown_line line.now).1 }
    ensures found { OnOk result (found.new.items ≡ found.old.items ++ line_findings clock.now reader.old (shown_line line.now)) }
    ensures reader { OnOk result (reader.new ≡ state_after reader.old (shown_line line.now).1) }
    ensures draft { OnOk result (draft_of draft.new ≡ draft_after (draft_of draft.old) (line_in reader.old (shown_line line.now))) }
{
    let step = reader.read(alloc, line)?;
    add_step(alloc, draft, found, clock, setting, step)?;
    add_setting(alloc, found, clock, line.number, setting)
}

// Adds the findings of what a line does, with its setting: those of its event, if there is one. Adds to the draft of the
// job what the line says of it.
fn add_step(
    alloc: Global,
    draft: &mut TimerDraft,
    found: &mut Vec<Finding>,
    clock: &Option<Clock>,
    setting: Option<(&str, &str)>,
    step: TimerLine<'_>,
) -> Result<(), AllocError>
    ensures found { OnOk result (found.new.items ≡ found.old.items ++ step_findings clock.now
        (option_map (λ setting. (setting.0.now, setting.1.now)) setting.entry) (line_shown step.entry)) }
    ensures draft { OnOk result (draft_of draft.new ≡ draft_after (draft_of draft.old) (line_shown step.entry)) }
{
    if let TimerLine::Event(entry) = &step {
        add_event(
            alloc,
            found,
            clock,
            entry.line,
            value_of(setting),
            &entry.read,
        )?;
    }
    draft.add(alloc, step)
}

// Adds the warnings on a line's setting, if there is a clock.
fn add_setting(
    alloc: Global,
    found: &mut Vec<Finding>,
    clock: &Option<Clock>,
    line: u32,
    setting: Option<(&str, &str)>,
) -> Result<(), AllocError>
    ensures { OnOk result (found.new.items ≡ found.old.items ++ setting_findings clock.now line
        (option_map (λ setting. (setting.0.now, setting.1.now)) setting.entry)) }
{
    match setting {
        Some((key, value)) => {
            let is_unknown = clock.is_some() && is_unknown_key(key);
            let unknown = FindingKind::Warned(Warning::UnknownKey);
            add_quoting_if(alloc, found, is_unknown, line, unknown, key)?;
            let is_bad = clock.is_some() && is_bad_delay(key, value);
            let bad = FindingKind::Warned(Warning::BadDelay);
            add_quoting_if(alloc, found, is_bad, line, bad, value)?;
            let is_bad = clock.is_some() && is_bad_boolean(key, value);
            let bad = FindingKind::Warned(Warning::BadBoolean);
            add_quoting_if(alloc, found, is_bad, line, bad, value)?;
            let is_ignored = clock.is_some() && is_bad_unit(key, value);
            let ignored = FindingKind::Warned(Warning::UnitIgnored);
            add_quoting_if(alloc, found, is_ignored, line, ignored, value)
        }
        None => Ok(()),
    }
}

// Adds the findings of an event with this text.
fn add_event(
    alloc: Global,
    found: &mut Vec<Finding>,
    clock: &Option<Clock>,
    line: u32,
    text: &str,
    read: &Result<Calendar, LineCause>,
) -> Result<(), AllocError>
    ensures { OnOk result (found.new.items ≡ found.old.items ++ read_findings clock.now line text.now read.now) }
{
    match read {
        Ok(event) => add_event_warnings(alloc, found, clock, line, text, event),
        Err(cause) => {
            let quote = event_quote(alloc, text, *cause)?;
            let hint = kept_hint(alloc, event_hint(text))?;
            add_error(found, line, *cause, quote, hint)
        }
    }
}

// Returns the text that an error of an event with this text quotes.
fn event_quote(alloc: Global, text: &str, cause: LineCause) -> Result<Option<Text>, AllocError>
    ensures { IfOk result (λ quote. quote ≡ event_quote text.now cause) }
{
    match cause {
        LineCause::Rule(_) => Ok(Some(kept(alloc, text)?)),
        _ => Ok(None),
    }
}

// Adds the warnings on an event with this text, if there is a clock.
fn add_event_warnings(
    alloc: Global,
    found: &mut Vec<Finding>,
    clock: &Option<Clock>,
    line: u32,
    text: &str,
    event: &Calendar,
) -> Result<(), AllocError>
    ensures { OnOk result (found.new.items ≡ found.old.items ++ event_warnings clock.now line text.now event.now) }
{
    let Some(clock) = clock else {
        return Ok(());
    };
    let differences = event_differences(alloc, text, event)?;
    let never_starts = event_never_starts(alloc, clock, event)?;
    let never = FindingKind::Warned(Warning::NeverStarts);
    add_if(found, never_starts, line, never)?;
    add_differences(
        alloc,
        found,
        line,
        text,
        differences,
        has_changes(clock, event),
    )
}

// Adds how systemd reads an event with this text otherwise. The event's clock may have changes.
fn add_differences(
    alloc: Global,
    found: &mut Vec<Finding>,
    line: u32,
    text: &str,
    differences: EventDifferences,
    has_changes: bool,
) -> Result<(), AllocError>
    ensures { OnOk result (found.new.items ≡ found.old.items ++ difference_findings line text.now
        differences.rejected differences.from_end differences.skips (stop_in has_changes differences.stops)) }
{
    let EventDifferences {
        rejected,
        from_end,
        skips,
        stops,
    } = differences;
    add_quoting_with(alloc, found, line, Warning::SystemdRejects, text, rejected)?;
    add_quoting_with(alloc, found, line, Warning::RangeFromEnd, text, from_end)?;
    let skipped = FindingKind::Warned(Warning::SkippedStarts);
    add_quoting_if(alloc, found, skips, line, skipped, text)?;
    let stops = if has_changes { stops } else { None };
    add_quoting_with(alloc, found, line, Warning::MayStop, text, stops)
}

// Returns whether the clock of an event has changes, in the zone of a clock.
fn has_changes(clock: &Clock, event: &Calendar) -> bool
    ensures { result ≡ has_changes clock.now event.now }
{
    if event.names_zone {
        return !event.clock.is_utc();
    }
    !clock.is_utc()
}

// Returns whether a job with only this event never starts from 1970 to 2999, by the clock of a zone.
fn event_never_starts(alloc: Global, clock: &Clock, event: &Calendar) -> Result<bool, AllocError>
    ensures { IfOk result (λ never. never ≡ never_starts (rule_in clock.now (rule.Events (event.now ∷ [])))) }
{
    let events = Events::one(alloc, event.in_zone(clock)?)?;
    Ok(next_from(&Rule::Events(events), 0).is_none())
}

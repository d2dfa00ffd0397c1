//! The warnings on a whole timer (systemd.timer(5)).

ghost use Rattle.std.specs.Prelude.{◌≡◌, ◌≤◌, ◌++◌, IfOk, None, OnOk, Some, length, map, option_map};
ghost use Rattle.plan_match.specs.Zone.{rule_in};
ghost use Rattle.plan_match.specs.declared.rule.Rule.TheVariants as rule;
ghost use Rattle.plan_rules.specs.TimerEntries.{draft_of};
ghost use Rattle.plan_systemd.specs.Merged.{may_merge};
ghost use Rattle.plan_texts.specs.Limits.{most_bytes};
ghost use Rattle.plan_texts.specs.Lines.{lines as lines_of};
ghost use Rattle.plan_triggers.specs.Triggers.{has_trigger};
ghost use Rattle.plan_check.specs.TimerWarnings.{is_eventless, names_itself, notes_from, start_warnings, timer_warnings_by, trigger_warnings};

use crate::finding::{Finding, FindingKind, Warning};
use crate::report::{add_detailed, add_if, add_quoting_if, kept_hint};
use crate::settings::Standing;
use plan_clock::Clock;
use plan_rules::{TimerDraft, TimerReader};
use plan_systemd::may_merge;
use plan_texts::lines::lines;
use plan_triggers::{TimerSetting, has_trigger, line_note, rejected_whole};
use std::alloc::{AllocError, Global};
use std::marker::Model;

// What the lines of a timer say.
#[derive(Drop)]
pub(crate) struct TimerText<'z, 'l> {
    // Whether systemd rejects the header of a section.
    pub(crate) has_bad_header: bool,
    // The state after the last line.
    pub(crate) reader: TimerReader<'z>,
    // What the settings say of the whole timer.
    pub(crate) standing: Standing,
    // The last value of the random delay, as it is written.
    pub(crate) delay: &'l str,
    // The settings in the `[Timer]` sections.
    pub(crate) settings: Vec<TimerSetting<'l>>,
}

impl<'z, 'l> Model for TimerText<'z, 'l> {
    ghost use Rattle.plan_check.specs.TimerWarnings.{TimerText};

    ghost Value = { TimerText };

    ghost view = { λ read. record {
      bad_header = read.has_bad_header;
      has_section = read.reader.found;
      held = read.reader.count.held;
      monotonic = read.standing.monotonic;
      options = read.standing.options;
      delay = read.delay.now;
      settings = read.settings.items;
    } };
}

// Adds the warnings on a timer with this text, if there is a clock.
pub(crate) fn add_timer_warnings(
    alloc: Global,
    found: &mut Vec<Finding>,
    clock: &Option<Clock>,
    name: &str,
    text: &str,
    read: &TimerText<'_, '_>,
    draft: &TimerDraft,
) -> Result<(), AllocError>
    requires { length text.now ≤ most_bytes }
    ensures { OnOk result (found.new.items ≡ found.old.items
        ++ timer_warnings_by clock.now name.now text.now read.now (draft_of draft.now)) }
{
    let Some(clock) = clock else {
        return Ok(());
    };
    add_trigger_warnings(alloc, found, read)?;
    add_start_warnings(alloc, found, clock, name, read, draft)?;
    add_notes(alloc, found, text)
}

// Adds the warnings on what starts a timer.
fn add_trigger_warnings(
    alloc: Global,
    found: &mut Vec<Finding>,
    read: &TimerText<'_, '_>,
) -> Result<(), AllocError>
    ensures { OnOk result (found.new.items ≡ found.old.items ++ trigger_warnings read.now.bad_header
        read.now.has_section read.now.held (has_trigger read.now.settings) read.now.monotonic) }
{
    let has_section = read.reader.has_section();
    let triggered = has_trigger(alloc, read.settings.as_slice())?;
    let why = rejected_whole(read.has_bad_header, has_section, triggered);
    let why = kept_hint(alloc, why)?;
    let rejected = FindingKind::Warned(Warning::TimerRejected);
    add_detailed(found, 0, rejected, None, why)?;
    let is_empty = has_section && read.reader.held() == 0;
    let is_eventless = is_empty && triggered && !read.standing.monotonic;
    let eventless = FindingKind::Warned(Warning::NoEvents);
    add_if(found, is_eventless, 0, eventless)?;
    let monotonic = FindingKind::Warned(Warning::Monotonic);
    add_if(found, read.standing.monotonic, 0, monotonic)
}

// Adds the warnings on when a timer starts, and what.
fn add_start_warnings(
    alloc: Global,
    found: &mut Vec<Finding>,
    clock: &Clock,
    name: &str,
    read: &TimerText<'_, '_>,
    draft: &TimerDraft,
) -> Result<(), AllocError>
    ensures { OnOk result (found.new.items ≡ found.old.items ++ start_warnings clock.now name.now read.now (draft_of draft.now)) }
{
    let options = read.standing.options;
    let merges = may_merge(alloc, clock, &draft.events, options.seconds())?;
    let delayed = FindingKind::Warned(Warning::Delayed);
    add_quoting_if(alloc, found, options.random > 0, 0, delayed, read.delay)?;
    let merged = FindingKind::Warned(Warning::Merged);
    add_if(found, merges, 0, merged)?;
    let ignored = FindingKind::Warned(Warning::UnitIgnored);
    let is_itself = names_itself(name, draft);
    add_quoting_if(alloc, found, is_itself, 0, ignored, name)
}

// Returns whether a timer would start itself.
fn names_itself(name: &str, draft: &TimerDraft) -> bool
    ensures { result ≡ names_itself name.now (draft_of draft.now).unit }
{
    match &draft.unit {
        Some(unit) => unit.as_str() == name,
        None => false,
    }
}

// Adds the lines of a text that systemd reads otherwise.
fn add_notes(alloc: Global, found: &mut Vec<Finding>, text: &str) -> Result<(), AllocError>
    requires { length text.now ≤ most_bytes }
    ensures { OnOk result (found.new.items ≡ found.old.items ++ notes_from 1 (lines_of text.now)) }
{
    let lines = lines(alloc, text)?;
    add_each_note(alloc, found, lines.as_slice())
}

// Adds those of these lines that systemd reads otherwise.
fn add_each_note(alloc: Global, found: &mut Vec<Finding>, lines: &[&str]) -> Result<(), AllocError>
    requires { length lines.now ≤ most_bytes }
    ensures { OnOk result (found.new.items ≡ found.old.items ++ notes_from 1 (map (λ line. line.now) lines.now)) }
{
    for (place, line) in lines.iter().enumerate() {
        let note = kept_hint(alloc, line_note(line))?;
        let ended = FindingKind::Warned(Warning::LineEnd);
        add_detailed(found, place as u32 + 1, ended, None, note)?;
    }
    Ok(())
}

//! What systemd 252 loads of a timer: nothing of a file that it rejects, and only the events that it accepts.

ghost use Rattle.std.specs.Prelude.{◌≡◌, ℕ, List, Option, None, ◌++◌, ◌∷◌, [], ◌≤◌, IfOk, OnOk, is_some, length, map};
ghost use Rattle.std.specs.List.{flat_map};
ghost use Rattle.std.specs.Option.{option_map};
ghost use Rattle.plan_loads.specs.TimerLines.{after_line, after_plain, after_section, after_setting, elapses_after, event_hint, event_otherwise, event_report, event_why, is_event, is_event_otherwise, is_triggered, line_of, line_otherwise, lines_loading, loading_by, no_scan, no_switches, other_triggers, path_at, read_otherwise, scan_from, span_after, span_why, switch_report, switches_after, timer_loading, trimmed_lines, whole_report, with_text, with_text_unless};
ghost use Rattle.plan_parts.specs.Parts.{files_of};
ghost use Rattle.plan_rules.specs.FileText.{text_reading};
ghost use Rattle.plan_texts.specs.Limits.{most_bytes};
ghost use Rattle.plan_texts.specs.WholeLines.{trimmed, whole_text};
ghost use Rattle.plan_triggers.specs.TimerFile.{has_bad_header, line_note};
ghost use Rattle.plan_units.specs.Settings.{section_name, setting_of};

use crate::loading::{Loading, all_loaded};
use plan_parts::Parts;
use plan_rules::{is_reset, text_of};
use plan_spans::boolean_after;
use plan_systemd::{is_read_otherwise, rejection};
use plan_texts::Text;
use plan_texts::lines::lines;
use plan_texts::whole_lines::{WholeLine, trimmed, whole_lines};
use plan_timers::{NotPlanned, Unplanned, copy_of};
use plan_triggers::{has_bad_header, is_elapsing_span, line_note};
use plan_units::{section_name, setting_of};
use std::alloc::{AllocError, Global};
use std::marker::Model;

// What says that a timer elapses.
#[derive(Clone, Copy, Debug, PartialEq, Eq)]
pub(crate) struct Switches {
    // An event that systemd accepts, since the last reset.
    pub(crate) elapses: bool,
    // The changes of the clock.
    pub(crate) on_clock: bool,
    // The changes of the time zone.
    pub(crate) on_zone: bool,
}

// What is known after some lines of a timer.
#[derive(Drop)]
struct Scan {
    // Whether the next line is in a `[Timer]` section.
    inside: bool,
    // Whether there was one.
    found: bool,
    // What triggers the timer.
    switches: Switches,
    // The key of the first monotonic setting with a time span since the last reset.
    span: Option<Text>,
    // The text that is loaded.
    text: Vec<u8>,
    // The lines that aren't.
    reports: Vec<NotPlanned>,
}

impl Model for Scan {
    ghost use Rattle.plan_loads.specs.TimerLines.{Scan};

    ghost Value = { Scan };

    ghost view = { λ scan. record {
      inside = scan.inside;
      found = scan.found;
      switches = scan.switches;
      span = scan.span;
      text = scan.text.items;
      reports = scan.reports.items;
    } };
}

// Returns what systemd loads of a timer, whose first file has this path.
pub(crate) fn timer_loading(
    alloc: Global,
    parts: &Parts,
    path: &str,
    bytes: &[u8],
) -> Result<Loading, AllocError>
    ensures { IfOk result (λ loading. loading ≡ timer_loading parts.now path.now bytes.now (text_reading bytes.now)) }
{
    let Ok(text) = text_of(bytes) else {
        return all_loaded(alloc, bytes);
    };
    let every = lines(alloc, text)?;
    let mut otherwise = read_otherwise(alloc, parts, every.as_slice())?;
    let lines = whole_lines(alloc, text)?;
    let mut events = events_otherwise(alloc, parts, lines.as_slice())?;
    let Loading { text, mut reports } = lines_loading(alloc, parts, path, bytes, lines.as_slice())?;
    reports.append(&mut otherwise)?;
    reports.append(&mut events)?;
    Ok(Loading { text, reports })
}

// Returns the lines of a timer that systemd may read otherwise: with a carriage return, a NUL byte or a byte order mark.
fn read_otherwise(
    alloc: Global,
    parts: &Parts,
    lines: &[&str],
) -> Result<Vec<NotPlanned>, AllocError>
    requires { length lines.now ≤ most_bytes }
    ensures { IfOk result (λ found. found.items ≡ read_otherwise parts.now 1 (map (λ line. line.now) lines.now)) }
{
    let mut found = Vec::new(alloc);
    let mut number = 1;
    for line in lines {
        add_otherwise(alloc, &mut found, parts, number, line_note(line).is_some())?;
        number = number.saturating_add(1);
    }
    Ok(found)
}

// Returns the lines of a timer whose events systemd reads otherwise.
fn events_otherwise(
    alloc: Global,
    parts: &Parts,
    lines: &[WholeLine],
) -> Result<Vec<NotPlanned>, AllocError>
    ensures { IfOk result (λ found. found.items ≡ flat_map (event_otherwise parts.now) (map whole_text lines.now)) }
{
    let mut found = Vec::new(alloc);
    for line in lines {
        let is = is_event_otherwise(alloc, line.text.as_str())?;
        add_otherwise(alloc, &mut found, parts, line.number, is)?;
    }
    Ok(found)
}

// Returns whether a line sets an event that systemd reads otherwise.
fn is_event_otherwise(alloc: Global, line: &str) -> Result<bool, AllocError>
    ensures { IfOk result (λ is. is ≡ is_event_otherwise (setting_of (trimmed line.now))) }
{
    match setting_of(trimmed(line)) {
        Some((key, value)) if is_event(key, value) => is_read_otherwise(alloc, value),
        _ => Ok(false),
    }
}

// Adds a line of a timer, if systemd may read it otherwise.
fn add_otherwise(
    alloc: Global,
    found: &mut Vec<NotPlanned>,
    parts: &Parts,
    number: u32,
    is_otherwise: bool,
) -> Result<(), AllocError>
    ensures { OnOk result (found.new.items ≡ found.old.items ++ line_otherwise parts.now number is_otherwise) }
{
    if is_otherwise {
        let origin = parts.origin(number);
        let why = copy_of(alloc, "systemd may read it otherwise")?;
        found.push(NotPlanned {
            path: path_at(alloc, parts, origin.part)?,
            why: Unplanned::LineUnknown(origin.line, why),
        })?;
    }
    Ok(())
}

// Returns what systemd loads of a timer with these lines.
fn lines_loading(
    alloc: Global,
    parts: &Parts,
    path: &str,
    bytes: &[u8],
    lines: &[WholeLine],
) -> Result<Loading, AllocError>
    ensures { IfOk result (λ loading. loading ≡ lines_loading parts.now path.now bytes.now (map whole_text lines.now)) }
{
    if is_rejected(lines) {
        let reports = Vec::new(alloc);
        let why = "systemd 252 rejects this file: bad section header";
        return nothing_with(alloc, path, why, reports);
    }
    let scan = scanned(alloc, parts, lines)?;
    loading_by(alloc, path, bytes, scan)
}

// Returns whether systemd rejects a file for the header of a section.
fn is_rejected(lines: &[WholeLine]) -> bool
    ensures { result ≡ has_bad_header (trimmed_lines (map whole_text lines.now)) }
{
    has_bad_header(lines)
}

// Returns what is loaded of a timer after all its lines.
fn loading_by(alloc: Global, path: &str, bytes: &[u8], scan: Scan) -> Result<Loading, AllocError>
    ensures { IfOk result (λ loading. loading ≡ loading_by path.now bytes.now scan) }
{
    let Scan {
        found,
        switches,
        span,
        text,
        reports,
        ..
    } = scan;
    if found && !is_triggered(switches, &span) {
        let why = "systemd 252 rejects this timer: it has no valid trigger";
        return nothing_with(alloc, path, why, reports);
    }
    let mut others = other_triggers(alloc, path, switches, &span)?;
    let text = if reports.is_empty() {
        Vec::from_slice(alloc, bytes)?
    } else {
        text
    };
    let mut reports = reports;
    reports.append(&mut others)?;
    Ok(Loading {
        text: Some(text),
        reports,
    })
}

// Returns what else starts a timer, whose first file has this path: a time since the boot or the like, the changes of the clock,
// and those of the time zone.
fn other_triggers(
    alloc: Global,
    path: &str,
    switches: Switches,
    span: &Option<Text>,
) -> Result<Vec<NotPlanned>, AllocError>
    ensures { IfOk result (λ reports. reports.items ≡ other_triggers path.now switches span.now) }
{
    let mut reports = Vec::new(alloc);
    if let Some(key) = span {
        let why = span_why(alloc, switches.elapses, key.as_str())?;
        reports.push(NotPlanned {
            path: copy_of(alloc, path)?,
            why,
        })?;
    }
    add_switch(
        alloc,
        &mut reports,
        path,
        switches.on_clock,
        "OnClockChange",
    )?;
    add_switch(
        alloc,
        &mut reports,
        path,
        switches.on_zone,
        "OnTimezoneChange",
    )?;
    Ok(reports)
}

// Returns that a timer, which may have events, starts by the monotonic setting with this key.
fn span_why(alloc: Global, has_events: bool, key: &str) -> Result<Unplanned, AllocError>
    ensures { IfOk result (λ why. why ≡ span_why has_events key.now) }
{
    let key = copy_of(alloc, key)?;
    if has_events {
        Ok(Unplanned::AlsoStartsBy(key))
    } else {
        Ok(Unplanned::StartsBy(key))
    }
}

// Adds that a timer also starts by the setting with this key, if that is on.
fn add_switch(
    alloc: Global,
    reports: &mut Vec<NotPlanned>,
    path: &str,
    is_on: bool,
    key: &str,
) -> Result<(), AllocError>
    ensures { OnOk result (reports.new.items ≡ reports.old.items ++ switch_report path.now is_on key.now) }
{
    if is_on {
        reports.push(NotPlanned {
            path: copy_of(alloc, path)?,
            why: Unplanned::AlsoStartsBy(copy_of(alloc, key)?),
        })?;
    }
    Ok(())
}

// Returns that nothing is loaded of a file, with a report of it after others.
fn nothing_with(
    alloc: Global,
    path: &str,
    why: &str,
    reports: Vec<NotPlanned>,
) -> Result<Loading, AllocError>
    ensures { IfOk result (λ loading.
        loading ≡ record { text = None; reports = reports.items ++ whole_report path.now why.now ∷ [] }) }
{
    let mut reports = reports;
    reports.push(NotPlanned {
        path: copy_of(alloc, path)?,
        why: Unplanned::NotLoaded(copy_of(alloc, why)?),
    })?;
    Ok(Loading {
        text: None,
        reports,
    })
}

// Returns whether a timer is triggered, which may have a monotonic setting.
fn is_triggered(switches: Switches, span: &Option<Text>) -> bool
    ensures { result ≡ is_triggered switches span.now }
{
    switches.elapses || span.is_some() || switches.on_clock || switches.on_zone
}

// Returns what is known after all lines of a timer.
fn scanned(alloc: Global, parts: &Parts, lines: &[WholeLine]) -> Result<Scan, AllocError>
    ensures { IfOk result (λ scan. scan ≡ scan_from parts.now no_scan (map whole_text lines.now)) }
{
    let mut scan = no_scan(alloc);
    for line in lines {
        scan = after_line(alloc, parts, scan, line)?;
    }
    Ok(scan)
}

// Returns what is known before the first line.
fn no_scan(alloc: Global) -> Scan
    ensures { result ≡ no_scan }
{
    Scan {
        inside: false,
        found: false,
        switches: Switches {
            elapses: false,
            on_clock: false,
            on_zone: false,
        },
        span: None,
        text: Vec::new(alloc),
        reports: Vec::new(alloc),
    }
}

// Returns what is known after a line.
fn after_line(
    alloc: Global,
    parts: &Parts,
    scan: Scan,
    line: &WholeLine,
) -> Result<Scan, AllocError>
    ensures { IfOk result (λ after. after
        ≡ after_line parts.now scan (whole_text line.now) (section_name (trimmed (whole_text line.now).1))) }
{
    let text = trimmed(line.text.as_str());
    match section_name(text.as_bytes()) {
        Some(name) => after_section(scan, line.text.as_str(), name),
        None => after_plain(alloc, parts, scan, line),
    }
}

// Returns what is known after a line that begins the section with a name.
fn after_section(scan: Scan, line: &str, name: &[u8]) -> Result<Scan, AllocError>
    ensures { IfOk result (λ after. after ≡ after_section scan line.now name.now) }
{
    let is_timer = name == b"Timer".as_slice();
    let mut after = scan;
    after.inside = is_timer;
    after.found = after.found || is_timer;
    with_text(after, line)
}

// Returns what is known after a line that begins no section.
fn after_plain(
    alloc: Global,
    parts: &Parts,
    scan: Scan,
    line: &WholeLine,
) -> Result<Scan, AllocError>
    ensures { IfOk result (λ after. after
        ≡ after_plain parts.now scan (whole_text line.now) (setting_of (trimmed (whole_text line.now).1))) }
{
    match setting_of(trimmed(line.text.as_str())) {
        Some((key, value)) if scan.inside => { after_setting(alloc, parts, scan, line, key, value) }
        _ => with_text(scan, line.text.as_str()),
    }
}

// Returns what is known after a setting in a `[Timer]` section.
fn after_setting(
    alloc: Global,
    parts: &Parts,
    scan: Scan,
    line: &WholeLine,
    key: &str,
    value: &str,
) -> Result<Scan, AllocError>
    ensures { IfOk result (λ after. after ≡ after_setting parts.now scan (whole_text line.now) (key.now, value.now)) }
{
    let hint = event_hint(alloc, key, value)?;
    let is_left_out = hint.is_some();
    let mut after = scan;
    after.switches = switches_after(after.switches, key, value, is_left_out);
    after.span = span_after(alloc, after.span, key, value)?;
    let mut more = event_report(alloc, parts, line.number, value, hint)?;
    after.reports.append(&mut more)?;
    with_text_unless(is_left_out, after, line.text.as_str())
}

// Adds a line to the text that is loaded, unless it is left out.
fn with_text_unless(is_left_out: bool, scan: Scan, line: &str) -> Result<Scan, AllocError>
    ensures { IfOk result (λ after. after ≡ with_text_unless is_left_out scan line.now) }
{
    if is_left_out {
        return Ok(scan);
    }
    with_text(scan, line)
}

// Adds a line to the text that is loaded.
fn with_text(scan: Scan, line: &str) -> Result<Scan, AllocError>
    ensures { IfOk result (λ after. after ≡ with_text scan line.now) }
{
    let mut after = scan;
    after.text.extend_from_slice(line.as_bytes())?;
    after.text.push(b'\n')?;
    Ok(after)
}

// Returns what triggers a timer after a setting. An event may be one that systemd rejects.
fn switches_after(before: Switches, key: &str, value: &str, is_rejected: bool) -> Switches
    ensures { (hint : Option (List ℕ)) → is_some hint ≡ is_rejected →
        result ≡ switches_after before (key.now, value.now) hint }
{
    Switches {
        elapses: elapses_after(before.elapses, key, value, is_rejected),
        on_clock: boolean_after("OnClockChange", before.on_clock, key, value),
        on_zone: boolean_after("OnTimezoneChange", before.on_zone, key, value),
    }
}

// Returns whether a timer elapses after a setting.
fn elapses_after(before: bool, key: &str, value: &str, is_rejected: bool) -> bool
    ensures { (hint : Option (List ℕ)) → is_some hint ≡ is_rejected →
        result ≡ elapses_after before (key.now, value.now) hint }
{
    if is_reset(key, value) {
        return false;
    }
    before || (is_event(key, value) && !is_rejected)
}

// Returns the key of the first monotonic setting after one more setting, by that before it.
fn span_after(
    alloc: Global,
    before: Option<Text>,
    key: &str,
    value: &str,
) -> Result<Option<Text>, AllocError>
    ensures { IfOk result (λ after. after ≡ span_after before (key.now, value.now)) }
{
    if is_reset(key, value) {
        return Ok(None);
    }
    if before.is_none() && is_elapsing_span(key, value) {
        return Ok(Some(copy_of(alloc, key)?));
    }
    Ok(before)
}

// Returns whether a setting has an event.
fn is_event(key: &str, value: &str) -> bool
    ensures { result ≡ is_event (key.now, value.now) }
{
    key == "OnCalendar" && !value.is_empty()
}

// Returns why systemd rejects the event of a setting.
fn event_hint(alloc: Global, key: &str, value: &str) -> Result<Option<Text>, AllocError>
    ensures { IfOk result (λ hint. hint ≡ event_hint (key.now, value.now)) }
{
    if !is_event(key, value) {
        return Ok(None);
    }
    rejection(alloc, value)
}

// Returns the report of an event that systemd rejects, if it does.
fn event_report(
    alloc: Global,
    parts: &Parts,
    number: u32,
    value: &str,
    hint: Option<Text>,
) -> Result<Vec<NotPlanned>, AllocError>
    ensures { IfOk result (λ reports. reports.items ≡ event_report parts.now number value.now hint) }
{
    let mut reports = Vec::new(alloc);
    if let Some(hint) = hint {
        let why = event_why(alloc, value, hint.as_str())?;
        reports.push(line_of(alloc, parts, number, why)?)?;
    }
    Ok(reports)
}

// Returns that systemd rejects an event.
fn event_why(alloc: Global, value: &str, hint: &str) -> Result<Text, AllocError>
    ensures { IfOk result (λ why. why ≡ event_why value.now hint.now) }
{
    let mut why = String::from_str(alloc, "systemd 252 rejects '")?;
    why.push_str(value)?;
    why.push_str("': ")?;
    why.push_str(hint)?;
    Ok(Text::new(why))
}

// Returns that a line of a source's text isn't planned, where it comes from.
fn line_of(alloc: Global, parts: &Parts, number: u32, why: Text) -> Result<NotPlanned, AllocError>
    ensures { IfOk result (λ one. one ≡ line_of parts.now number why) }
{
    let origin = parts.origin(number);
    Ok(NotPlanned {
        path: path_at(alloc, parts, origin.part)?,
        why: Unplanned::LineNotLoaded(origin.line, why),
    })
}

// Returns the path of a file of a source.
fn path_at(alloc: Global, parts: &Parts, place: usize) -> Result<Text, AllocError>
    ensures { IfOk result (λ path. path ≡ path_at (files_of parts.now) place) }
{
    match parts.path(place) {
        Some(path) => copy_of(alloc, path),
        None => copy_of(alloc, ""),
    }
}

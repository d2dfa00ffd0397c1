//! The lines of a crontab that cronie starts in the time zone of a setting (crontab(5) of cronie, `CRON_TZ`).

ghost use Rattle.std.specs.Prelude.{◌≡◌, ◌≤◌, ◌+◌, ◌<◌, [], ◌∷◌, if◌then◌else◌, IfOk, OnOk, ◌++◌, length, map, take};
ghost use Rattle.std.specs.List.{list_any};
ghost use Rattle.std.specs.Option.{option_map};
ghost use Rattle.std.specs.Str.{bytes_eq};
ghost use Rattle.plan_loads.specs.ZoneLines.{has_job, jobs_from, names_zone, sets_zone, zone_loading_at, zone_loading_by, zone_names, zone_place, zone_why};
ghost use Rattle.plan_rules.specs.Crontab.{line_reading};
ghost use Rattle.plan_rules.specs.FileText.{text_reading};
ghost use Rattle.plan_rules.specs.LineFaults.{GivesLine};
ghost use Rattle.plan_texts.specs.Lines.{written};
ghost use Rattle.plan_texts.specs.Limits.{most_bytes};
ghost use Rattle.plan_timers.specs.declared.reports.Unplanned.TheVariants.{LineUnknown};

use crate::loading::{Loading, all_loaded};
use plan_rules::{Kind, crontab_entry, setting_of, text_of};
use plan_texts::lines::lines;
use plan_timers::{NotPlanned, Unplanned, copy_of};
use std::alloc::{AllocError, Global};

// Returns what cronie loads of a crontab in this zone: the lines up to the first that sets another one.
pub(crate) fn zone_loading(
    alloc: Global,
    kind: Kind,
    path: &str,
    bytes: &[u8],
) -> Result<Loading, AllocError>
    ensures { IfOk result (λ loading. loading ≡ zone_loading_by kind path.now bytes.now (text_reading bytes.now)) }
{
    let Ok(text) = text_of(bytes) else {
        return all_loaded(alloc, bytes);
    };
    let lines = lines(alloc, text)?;
    zone_loading_of(alloc, kind, path, bytes, lines.as_slice())
}

// Returns the same for a text with these lines.
fn zone_loading_of(
    alloc: Global,
    kind: Kind,
    path: &str,
    bytes: &[u8],
    lines: &[&str],
) -> Result<Loading, AllocError>
    requires { length lines.now ≤ most_bytes }
    ensures { IfOk result (λ loading. loading ≡ zone_loading_at kind path.now bytes.now (map (λ line. line.now) lines.now)
        (zone_place (map (λ line. line.now) lines.now))) }
{
    let place = zone_place(lines);
    if place >= lines.len() {
        return all_loaded(alloc, bytes);
    }
    let (above, below) = lines.split_at(place + 1);
    Ok(Loading {
        text: Some(written(alloc, above)?),
        reports: jobs_from(alloc, kind, path, place as u32 + 2, below)?,
    })
}

// Returns the place, from 0, of the first line that sets the zone, or the number of lines.
fn zone_place(lines: &[&str]) -> usize
    ensures { result ≡ zone_place (map (λ line. line.now) lines.now) }
{
    for (place, line) in lines.iter().enumerate() {
        if sets_zone(line) {
            return place;
        }
    }
    lines.len()
}

// Returns whether a line sets the zone of the lines below it.
fn sets_zone(line: &str) -> bool
    ensures { result ≡ sets_zone line.now }
{
    match setting_of(line) {
        Some((key, _)) => is_zone_name(key),
        None => false,
    }
}

// Returns whether this is the name of the setting, in quotes or without.
fn is_zone_name(name: &str) -> bool
    ensures { result ≡ list_any (bytes_eq name.now) zone_names }
{
    matches!(name, "CRON_TZ" | "\"CRON_TZ\"" | "'CRON_TZ'")
}

// Returns lines with a newline after each.
fn written(alloc: Global, lines: &[&str]) -> Result<Vec<u8>, AllocError>
    ensures { IfOk result (λ text. text.items ≡ written (map (λ line. line.now) lines.now)) }
{
    let mut text = Vec::new(alloc);
    for line in lines {
        text.extend_from_slice(line.as_bytes())?;
        text.push(b'\n')?;
    }
    Ok(text)
}

// Returns those of some lines that have jobs, as what isn't planned. The first line has this number.
fn jobs_from(
    alloc: Global,
    kind: Kind,
    path: &str,
    first: u32,
    lines: &[&str],
) -> Result<Vec<NotPlanned>, AllocError>
    requires { first + length lines.now ≤ most_bytes + 1 }
    ensures { IfOk result (λ jobs. jobs.items ≡ jobs_from kind path.now first (map (λ line. line.now) lines.now)) }
{
    let mut jobs = Vec::new(alloc);
    let mut number = first;
    for line in lines {
        add_line(alloc, &mut jobs, kind, path, number, line)?;
        number = number.saturating_add(1);
    }
    Ok(jobs)
}

// Adds a line that has a job.
fn add_line(
    alloc: Global,
    jobs: &mut Vec<NotPlanned>,
    kind: Kind,
    path: &str,
    number: u32,
    line: &str,
) -> Result<(), AllocError>
    ensures { OnOk result (jobs.new.items ≡ jobs.old.items ++ (if has_job (line_reading [] kind number line.now)
        then record { path = path.now; why = LineUnknown number zone_why } ∷ [] else [])) }
{
    if has_job(alloc, kind, number, line)? {
        jobs.push(not_planned(alloc, path, number)?)?;
    }
    Ok(())
}

// Returns whether a line has a job.
fn has_job(alloc: Global, kind: Kind, number: u32, line: &str) -> Result<bool, AllocError>
    ensures { IfOk result (λ has. has ≡ has_job (line_reading [] kind number line.now)) }
{
    match crontab_entry(alloc, "", kind, number, line)? {
        Some(entry) => Ok(entry.read.is_ok()),
        None => Ok(false),
    }
}

// Returns that a line isn't planned.
fn not_planned(alloc: Global, path: &str, number: u32) -> Result<NotPlanned, AllocError>
    ensures { IfOk result (λ one. one ≡ record { path = path.now; why = LineUnknown number zone_why }) }
{
    let why = copy_of(alloc, "after CRON_TZ=, which agenda does not read")?;
    Ok(NotPlanned {
        path: copy_of(alloc, path)?,
        why: Unplanned::LineUnknown(number, why),
    })
}

//! Timer files, and the job of each (systemd.timer(5), systemd.syntax(7)).

ghost use Rattle.std.specs.Prelude.{◌≡◌, ◌↔◌, Bool, true, false, Err, IfErr, IfOk, IsTrue, map, string_bytes};
ghost use Rattle.std.specs.List.{list_all};
ghost use Rattle.std.specs.Option.{option_map};
ghost use Rattle.std.specs.Str.{is_utf8};
ghost use Rattle.plan_texts.specs.Steps.{GivesUnless};
ghost use Rattle.plan_rules.specs.LineFaults.{of_whole, want_of_memory, IsOwnCause};
ghost use Rattle.plan_texts.specs.Lines.{is_too_large};
ghost use Rattle.plan_rules.specs.TimerEntries.{shown_line, timer_of_lines, timer_reading};
ghost use Rattle.plan_rules.specs.Timer.{is_name_byte, is_timer_file, is_timer_name, is_user_with_timers, service_name, timer_file, timer_job, timer_user, user_and_file};

use crate::file_text::text_of;
use crate::job::Job;
use crate::line_fault::{LineCause, LineFault};
use crate::timer_draft::TimerDraft;
use crate::timer_events::TimerReader;
use crate::timer_options::TimerOptions;
use plan_grammar::EventZones;
use plan_match::{Events, Rule};
use plan_texts::whole_lines::{WholeLine, whole_lines};
use std::alloc::{AllocError, Global};
use std::sync::Arc;

/// The end of the name of a timer.
const ENDING: &str = ".timer";

/// The minimum length of the name of a timer's file, in bytes.
const LEAST_NAME: usize = 7;

/// The maximum length of the name of a timer's file, in bytes.
const MOST_NAME: usize = 255;

/// The maximum number of events in the list of a timer.
pub const MOST_EVENTS: usize = 64;

/// Returns the job of a timer file, by the timer's name (systemd.timer(5)). Its events may name these zones.
///
/// Its rule is the list of the events of `OnCalendar=` in its `[Timer]` sections. An empty value of a time
/// setting, such as `OnCalendar=` or `OnBootSec=`, empties the list. The job starts the first unit that
/// `Unit=` names or, without `Unit=`, the service with the timer's name. Its delay is that of
/// `RandomizedDelaySec=` and `AccuracySec=`, and `Persistent=` says whether it makes up for missed starts.
///
/// # Errors
///
/// The first of these that applies:
///
/// - `BadTimerName` if the name is invalid: see `is_timer_name`
/// - `TooLarge` for more than 1,048,576 bytes
/// - `NotUtf8`
/// - the error of the first bad line, even if a later line empties the list: `TooManyLines` if the list would
///   have more than 64 events, `Rule` if an event is invalid
/// - `NoTimerSection`
///
/// If a line is continued with a backslash, its number is that of its first line. The errors that are not of
/// a line have line 0, and so has `NoMemory`, if an allocation fails.
pub fn timer(alloc: Global, name: &str, bytes: &[u8], zones: &EventZones) -> Result<Job, LineFault>
    ensures meaning { GivesUnless want_of_memory (λ job. job) result (timer_reading zones.now name.now bytes.now) }
    // These three are found before the first allocation.
    ensures bad_name { (result ≡ Err (of_whole LineCause.BadTimerName)) ↔ (is_timer_name name.now ≡ false) }
    ensures too_large { (result ≡ Err (of_whole LineCause.TooLarge))
        ↔ (IsTrue (is_timer_name name.now) × IsTrue (is_too_large bytes.now)) }
    ensures not_utf8 { (result ≡ Err (of_whole LineCause.NotUtf8))
        ↔ (IsTrue (is_timer_name name.now) × ((is_too_large bytes.now ≡ false) × (is_utf8 bytes.now ≡ false))) }
    ensures memory { IfErr result (λ fault. fault.cause ≡ LineCause.NoMemory → fault.line ≡ 0) }
    ensures own_cause { IfErr result (λ fault. IsOwnCause fault.cause) }
{
    if !is_timer_name(name) {
        return Err(LineCause::BadTimerName.on_line(0));
    }
    let text = text_of(bytes)?;
    let lines = whole_lines(alloc, text)?;
    timer_of_lines(alloc, name, lines.as_slice(), zones)
}

/// Returns whether a timer may have this name: that of its file or, of a user's timer, the user's name, a `/`, and that of its
/// file.
///
/// The name of the file has 7 to 255 bytes, and ends in `.timer`. That of the user isn't empty. Both have only letters, digits,
/// `:`, `-`, `_`, `.` and `\`.
#[tactic(auto, unfolding(crate::specs::Timer::is_timer_name))]
pub fn is_timer_name(name: &str) -> bool
    ensures { result ≡ is_timer_name name.now }
{
    match user_and_file(name) {
        None => is_timer_file(name.as_bytes()),
        Some((user, file)) => is_user_with_timers(user) && is_timer_file(file.as_bytes()),
    }
}

/// Returns the user whose timer has this name, if it is a user's: what comes before the first `/`.
pub fn timer_user(name: &str) -> Option<&str>
    ensures { option_map (λ user. user.now) result ≡ timer_user name.now }
{
    match user_and_file(name) {
        Some((user, _)) => Some(user),
        None => None,
    }
}

// Returns the name of the file of the timer with this name.
fn timer_file(name: &str) -> &str
    ensures { result.now ≡ timer_file name.now }
{
    match user_and_file(name) {
        Some((_, file)) => file,
        None => name,
    }
}

// Returns the user and the file of the timer with this name, if it is a user's.
#[tactic(auto, unfolding(crate::specs::Timer::user_and_file))]
fn user_and_file(name: &str) -> Option<(&str, &str)>
    ensures { option_map (λ parts. (parts.0.now, parts.1.now)) result ≡ user_and_file name.now }
{
    let (user, file) = name.split_once('/')?;
    Some((user, file))
}

// Returns whether a user who has timers may have this name.
fn is_user_with_timers(user: &str) -> bool
    ensures { result ≡ is_user_with_timers user.now }
{
    !user.is_empty() && are_name_bytes(user.as_bytes())
}

// Returns whether the file of a timer may have this name.
#[tactic(auto, unfolding(crate::specs::Timer::is_timer_file))]
fn is_timer_file(name: &[u8]) -> bool
    ensures { result ≡ is_timer_file name.now }
{
    (LEAST_NAME..=MOST_NAME).contains(&name.len())
        && name.ends_with(ENDING.as_bytes())
        && are_name_bytes(name)
}

// Returns whether the name of a timer may have all these bytes.
fn are_name_bytes(name: &[u8]) -> bool
    ensures { result ≡ list_all is_name_byte name.now }
{
    name.iter().all(|byte| is_name_byte(*byte))
}

// Returns whether the name of a timer may have this byte.
fn is_name_byte(byte: u8) -> bool
    ensures { result ≡ is_name_byte byte }
{
    byte.is_ascii_alphabetic()
        || byte.is_ascii_digit()
        || matches!(byte, b':' | b'-' | b'_' | b'.' | b'\\')
}

// Returns the job of the whole lines of a timer file, or the error of the first rejected event.
fn timer_of_lines(
    alloc: Global,
    name: &str,
    lines: &[WholeLine],
    zones: &EventZones,
) -> Result<Job, LineFault>
    requires { is_timer_name name.now ≡ true }
    ensures { GivesUnless want_of_memory (λ job. job) result
        (timer_of_lines zones.now name.now (map shown_line lines.now)) }
{
    let mut reader = TimerReader::new(zones);
    let mut draft = TimerDraft::new(alloc);
    let mut options = TimerOptions::new();
    for line in lines {
        options = options.after(reader.setting(line));
        let read = reader.read(alloc, line)?;
        if let Some(fault) = read.fault() {
            return Err(fault);
        }
        draft.add(alloc, read)?;
    }
    if !reader.has_section() {
        return Err(LineCause::NoTimerSection.on_line(0));
    }
    let TimerDraft { events, unit } = draft;
    Ok(timer_job(alloc, name, unit, events, options)?)
}

/// Returns the job of the timer with a valid name, from the unit that it names, if it does, its list of events, and its options
/// (systemd.timer(5)). The user of the job is the one whose timer it is, if it is a user's.
///
/// # Errors
///
/// `AllocError` if an allocation fails.
pub fn timer_job(
    alloc: Global,
    name: &str,
    unit: Option<String>,
    events: Events,
    options: TimerOptions,
) -> Result<Job, AllocError>
    requires { is_timer_name name.now ≡ true }
    ensures { IfOk result (λ job. job ≡ timer_job name.now (option_map (λ unit. string_bytes unit) unit) events options) }
{
    let command = match unit {
        Some(unit) => unit,
        None => service_name(alloc, timer_file(name))?,
    };
    let user = copy_of(alloc, timer_user(name))?;
    let name = String::from_str(alloc, name)?;
    let rule = Arc::new(alloc, Rule::Events(events))?;
    let (delay, is_persistent) = (options.seconds(), options.persistent);
    Ok(Job::new(name, user, command, rule, delay, is_persistent))
}

// Returns a copy of a user's name.
fn copy_of(alloc: Global, user: Option<&str>) -> Result<Option<String>, AllocError>
    ensures { IfOk result (λ copy.
        option_map (λ user. string_bytes user) copy ≡ option_map (λ user. user.now) user.entry) }
{
    match user {
        Some(user) => Ok(Some(String::from_str(alloc, user)?)),
        None => Ok(None),
    }
}

// Returns the name of the service that a timer whose file has this name starts if it names no unit.
fn service_name(alloc: Global, file: &str) -> Result<String, AllocError>
    requires { is_timer_file file.now ≡ true }
    ensures { IfOk result (λ service. string_bytes service ≡ service_name file.now) }
{
    let stem = &file[..file.len() - ENDING.len()];
    format!(in alloc; "{stem}.service")
}

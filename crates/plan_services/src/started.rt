//! The unit that a timer starts (systemd.timer(5), `Unit=`).

ghost use Rattle.std.specs.Prelude.{◌≡◌, false, IfOk, map};
ghost use Rattle.plan_texts.specs.WholeLines.{whole_text};
ghost use Rattle.plan_services.specs.Started.{inside_after, named_in_file, named_in_files, named_in_lines, named_in_setting, other_than, service_of, started_unit, unit_in_line};
ghost use Rattle.plan_units.specs.Settings.{section_name};

use plan_parts::Part;
use plan_texts::whole_lines::{WholeLine, readable_lines, trimmed};
use plan_timers::TimerSource;
use plan_tree::Name;
use plan_units::{name_of_word, section_name, setting_of, stem};
use std::alloc::{AllocError, Global};

/// Returns the name of the unit that a timer starts: that of the first `Unit=` in its files that names a unit other than the
/// timer, or else its own name with `.service`.
///
/// # Errors
///
/// `AllocError` if an allocation fails.
pub fn started_unit(alloc: Global, source: &TimerSource) -> Result<Name, AllocError>
    ensures { IfOk result (λ unit. unit ≡ started_unit source.now) }
{
    let unit = source.unit.as_str();
    if let Some(named) = named_in_file(alloc, unit, &source.file)? {
        return Ok(named);
    }
    match named_in_files(alloc, unit, source.drop_ins.as_slice())? {
        Some(named) => Ok(named),
        None => service_of(alloc, unit),
    }
}

// Returns a timer's name with `.service` in place of its type.
fn service_of(alloc: Global, name: &str) -> Result<Name, AllocError>
    ensures { IfOk result (λ service. service ≡ service_of name.now) }
{
    let mut service = String::from_str(alloc, stem(name))?;
    service.push_str(".service")?;
    Ok(Name::new(service))
}

// Returns the unit that the first of some files of a timer names.
fn named_in_files(alloc: Global, unit: &str, files: &[Part]) -> Result<Option<Name>, AllocError>
    ensures { IfOk result (λ named. named ≡ named_in_files unit.now files.now) }
{
    for file in files {
        if let Some(named) = named_in_file(alloc, unit, file)? {
            return Ok(Some(named));
        }
    }
    Ok(None)
}

// Returns the unit that a file of a timer names.
fn named_in_file(alloc: Global, unit: &str, file: &Part) -> Result<Option<Name>, AllocError>
    ensures { IfOk result (λ named. named ≡ named_in_file unit.now file.now) }
{
    let lines = readable_lines(alloc, file.bytes())?;
    named_in_lines(alloc, unit, lines.as_slice())
}

// Returns the unit that the first of some whole lines of a timer names.
fn named_in_lines(
    alloc: Global,
    unit: &str,
    lines: &[WholeLine],
) -> Result<Option<Name>, AllocError>
    ensures { IfOk result (λ named. named ≡ named_in_lines unit.now false (map whole_text lines.now)) }
{
    let mut inside = false;
    for line in lines {
        let text = trimmed(line.text.as_str());
        if let Some(named) = unit_in_line(alloc, unit, inside, text)? {
            return Ok(Some(named));
        }
        inside = inside_after(inside, text.as_bytes());
    }
    Ok(None)
}

// Returns whether the lines after a line are in a section `[Timer]`.
fn inside_after(inside: bool, text: &[u8]) -> bool
    ensures { result ≡ inside_after inside (section_name text.now) }
{
    match section_name(text) {
        Some(section) => section == b"Timer".as_slice(),
        None => inside,
    }
}

// Returns the unit that a line names.
fn unit_in_line(
    alloc: Global,
    unit: &str,
    inside: bool,
    text: &str,
) -> Result<Option<Name>, AllocError>
    ensures { IfOk result (λ named. named ≡ unit_in_line unit.now inside text.now) }
{
    if !inside {
        return Ok(None);
    }
    match setting_of(text) {
        Some((key, value)) => named_in_setting(alloc, unit, key, value),
        None => Ok(None),
    }
}

// Returns the unit that a setting in a section `[Timer]` names.
fn named_in_setting(
    alloc: Global,
    unit: &str,
    key: &str,
    value: &str,
) -> Result<Option<Name>, AllocError>
    ensures { IfOk result (λ named. named ≡ named_in_setting unit.now (key.now, value.now)) }
{
    if key != "Unit" {
        return Ok(None);
    }
    let named = name_of_word(alloc, unit, value.as_bytes())?;
    Ok(other_than(unit, named))
}

// Returns the unit that is named, if that isn't the timer.
fn other_than(unit: &str, named: Option<Name>) -> Option<Name>
    ensures { result ≡ other_than unit.now named }
{
    match named {
        Some(named) if named.as_str() != unit => Some(named),
        _ => None,
    }
}

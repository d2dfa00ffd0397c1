//! Finds the zone that may be meant by a name that no zone has.
//!
//! The names of the zone database are those in `tzdata.zi`, its source in the form of zic(8).

ghost use Rattle.std.specs.Prelude.{◌≡◌, IfOk, filter, map};
ghost use Rattle.std.specs.Option.{option_map};
ghost use Rattle.agenda_inputs.specs.Suggestion.{database_read, ends_alike, first_word, name_in_line, names_in_lines, second_word, suggested, suggested_by, suggestion, usable};
ghost use Rattle.plan_rules.specs.FileText.{text_reading};

use crate::event_zones::look_up;
use crate::files::{Files, MOST_READ, read_file};
use agenda_faults::{Failure, RunFault};
use agenda_sources::{Bytes, file_name};
use plan_rules::{Text, text_of};
use plan_texts::lines::{cut_word, lines};
use plan_zones::ZoneFault;
use std::alloc::{AllocError, Global};

// The path of the source of the zone database.
const DATABASE: &str = "/usr/share/zoneinfo/tzdata.zi";

/// Returns the name of the zone that may be meant by the name of none: the only one in the zone database that ends in
/// the same part, in any case of ASCII letters. The zone can be used. Without the database there is no such name.
///
/// # Errors
///
/// `Run(NoMemory)` if an allocation failed.
pub(crate) fn suggestion<F: Files>(
    alloc: Global,
    files: &mut F,
    text: &str,
) -> Result<Option<Text>, Failure>
    ensures read { suggestion (F.held files.old) text.now result }
    ensures same { F.held files.new ≡ F.held files.old }
{
    let Some(bytes) = read_database(alloc, files)? else {
        return Ok(None);
    };
    let name = suggested_by(alloc, bytes.as_slice(), text)?;
    usable(alloc, files, name)
}

// Reads the source of the zone database, if it can be read.
fn read_database<F: Files>(alloc: Global, files: &mut F) -> Result<Option<Bytes>, Failure>
    ensures read { database_read (F.held files.old) result }
    ensures same { F.held files.new ≡ F.held files.old }
{
    let unread = Failure::Zone(ZoneFault::NoSuchZone);
    match read_file(alloc, files, DATABASE, unread) {
        Ok(bytes) => Ok(Some(bytes)),
        Err(Failure::Run(RunFault::NoMemory)) => Err(Failure::Run(RunFault::NoMemory)),
        Err(_) => Ok(None),
    }
}

// Returns a name, if its zone can be used.
fn usable<F: Files>(
    alloc: Global,
    files: &mut F,
    name: Option<&str>,
) -> Result<Option<Text>, Failure>
    ensures read { usable (F.held files.old) (option_map (λ name. name.now) name.entry) result }
    ensures same { F.held files.new ≡ F.held files.old }
{
    let Some(name) = name else {
        return Ok(None);
    };
    let zone = look_up(alloc, files, name)?;
    match zone {
        Some(zone) => Ok(Some(zone.name)),
        None => Ok(None),
    }
}

// Returns the one name in the source of the zone database that ends like a text.
fn suggested_by<'t>(
    alloc: Global,
    bytes: &'t [u8],
    text: &str,
) -> Result<Option<&'t str>, AllocError>
    ensures { IfOk result (λ name. option_map (λ name. name.now) name ≡ suggested_by (text_reading bytes.now) text.now) }
{
    let Ok(source) = text_of(bytes) else {
        return Ok(None);
    };
    let lines = lines(alloc, source)?;
    let names = names_in_lines(alloc, lines.as_slice())?;
    suggested(alloc, names.as_slice(), text)
}

// Returns the names in lines of the source of the zone database.
fn names_in_lines<'t>(alloc: Global, lines: &[&'t str]) -> Result<Vec<&'t str>, AllocError>
    ensures { IfOk result (λ names. map (λ name. name.now) names.items ≡ names_in_lines (map (λ line. line.now) lines.now)) }
{
    let mut names = Vec::new(alloc);
    for line in lines {
        if let Some(name) = name_in_line(line) {
            names.push(name)?;
        }
    }
    Ok(names)
}

// Returns the name of a zone or of a link in a line, if it has one.
#[tactic(auto, unfolding(crate::specs::Suggestion::name_in_line))]
fn name_in_line(line: &str) -> Option<&str>
    ensures { option_map (λ name. name.now) result ≡ name_in_line line.now }
{
    let (kind, rest) = cut_word(line)?;
    if kind == "Z" {
        first_word(rest)
    } else if kind == "L" {
        second_word(rest)
    } else {
        None
    }
}

// Returns the first word of a text.
fn first_word(text: &str) -> Option<&str>
    ensures { option_map (λ word. word.now) result ≡ first_word text.now }
{
    let (word, _) = cut_word(text)?;
    Some(word)
}

// Returns the second word of a text.
fn second_word(text: &str) -> Option<&str>
    ensures { option_map (λ word. word.now) result ≡ second_word text.now }
{
    let (_, rest) = cut_word(text)?;
    first_word(rest)
}

// Returns the one name that ends like a text.
fn suggested<'t>(
    alloc: Global,
    names: &[&'t str],
    text: &str,
) -> Result<Option<&'t str>, AllocError>
    ensures { IfOk result (λ name. option_map (λ name. name.now) name ≡ suggested (map (λ name. name.now) names.now) text.now) }
{
    let alike = alike(alloc, names, text)?;
    match alike.as_slice() {
        [name] => Ok(Some(*name)),
        _ => Ok(None),
    }
}

// Returns the names that end like a text.
fn alike<'t>(alloc: Global, names: &[&'t str], text: &str) -> Result<Vec<&'t str>, AllocError>
    ensures { IfOk result (λ alike. map (λ name. name.now) alike.items
        ≡ filter (ends_alike text.now) (map (λ name. name.now) names.now)) }
{
    let mut alike = Vec::new(alloc);
    for name in names {
        if ends_alike(name, text) {
            alike.push(*name)?;
        }
    }
    Ok(alike)
}

// Returns whether a name ends in the same part as a text, in any case of ASCII letters.
fn ends_alike(name: &str, text: &str) -> bool
    ensures { result ≡ ends_alike text.now name.now }
{
    file_name(name).eq_ignore_ascii_case(file_name(text))
}

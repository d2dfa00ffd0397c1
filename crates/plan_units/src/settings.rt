//! The units that the text of a unit's file wants (systemd.unit(5), systemd.syntax(7)).

ghost use Rattle.std.specs.Prelude.{◌≡◌, false, true, IfOk, None, if◌then◌else◌, map};
ghost use Rattle.std.specs.Option.{option_map};
ghost use Rattle.std.specs.Str.{is_utf8};
ghost use Rattle.plan_texts.specs.WholeLines.{whole_text};
ghost use Rattle.plan_units.specs.Settings.{inside_after, is_wanting, lines_at, lines_of_found, name_of_word, names_of_lines, names_of_setting, names_of_words, section_name, set_names, setting_of};
ghost use Rattle.plan_units.specs.Validity.{wanted_unit};

use crate::validity::wanted_unit;
use plan_parts::expanded;
use plan_texts::lines::MOST_BYTES;
use plan_texts::whole_lines::{WholeLine, readable_lines, trimmed};
use plan_texts::words;
use plan_tree::{Name, Tree, contents};
use std::alloc::{AllocError, Global};

// Returns the names of the units that a file of a unit wants.
pub(crate) fn set_names<T: Tree>(
    alloc: Global,
    tree: &T,
    unit: &str,
    path: &str,
) -> Result<Vec<Name>, AllocError>
    ensures { T.is_known ≡ true → IfOk result (λ names.
        names.items ≡ set_names (T.held tree.now) unit.now path.now) }
{
    let lines = lines_at(alloc, tree, path)?;
    names_of_lines(alloc, unit, lines.as_slice())
}

/// Returns the whole lines of the file where a path leads, up to the first that isn't UTF-8; none if it is too large or can't
/// be read.
///
/// # Errors
///
/// `AllocError` if an allocation fails.
pub fn lines_at<T: Tree>(alloc: Global, tree: &T, path: &str) -> Result<Vec<WholeLine>, AllocError>
    ensures { T.is_known ≡ true → IfOk result (λ lines.
        map whole_text lines.items ≡ lines_at (T.held tree.now) path.now) }
{
    let found = contents(alloc, tree, path, MOST_BYTES as u64 + 1)?;
    lines_of_found(alloc, found)
}

// Returns the whole lines of what was read, if anything was.
fn lines_of_found(alloc: Global, found: Option<Vec<u8>>) -> Result<Vec<WholeLine>, AllocError>
    ensures { IfOk result (λ lines. map whole_text lines.items
        ≡ lines_of_found (option_map (λ text. text.items) found)) }
{
    match found {
        None => Ok(Vec::new(alloc)),
        Some(text) => readable_lines(alloc, text.as_slice()),
    }
}

// Returns the names in the sections `[Unit]` of whole lines.
fn names_of_lines(alloc: Global, unit: &str, lines: &[WholeLine]) -> Result<Vec<Name>, AllocError>
    ensures { IfOk result (λ names. names.items ≡ names_of_lines unit.now false (map whole_text lines.now)) }
{
    let mut names = Vec::new(alloc);
    let mut inside = false;
    for line in lines {
        let text = trimmed(line.text.as_str());
        if inside {
            let mut more = names_of_setting(alloc, unit, text)?;
            names.append(&mut more)?;
        }
        inside = inside_after(inside, text.as_bytes());
    }
    Ok(names)
}

// Returns whether the lines after a line are in a section `[Unit]`.
fn inside_after(inside: bool, text: &[u8]) -> bool
    ensures { result ≡ inside_after inside (section_name text.now) }
{
    match section_name(text) {
        Some(section) => section == b"Unit".as_slice(),
        None => inside,
    }
}

/// Returns the name of the section, if the line begins one (systemd.syntax(7)). The line has no blanks at its ends.
#[tactic(auto, unfolding(crate::specs::Settings::section_name))]
pub fn section_name(text: &[u8]) -> Option<&[u8]>
    ensures { option_map (λ name. name.now) result ≡ section_name text.now }
{
    match text {
        [b'[', name @ .., b']'] => Some(name),
        _ => None,
    }
}

/// Returns the key and the value of the setting on a line, without blanks at their ends (systemd.syntax(7)). Returns `None`
/// if the line has no `=`.
#[tactic(auto, unfolding(crate::specs::Settings::setting_of))]
pub fn setting_of(text: &str) -> Option<(&str, &str)>
    ensures { option_map (λ setting. (setting.0.now, setting.1.now)) result ≡ setting_of text.now }
{
    let (key, value) = text.split_once('=')?;
    Some((trimmed(key), trimmed(value)))
}

// Returns the names in the setting on a line, if its units start with the unit.
fn names_of_setting(alloc: Global, unit: &str, text: &str) -> Result<Vec<Name>, AllocError>
    ensures { IfOk result (λ names. names.items ≡ names_of_setting unit.now (setting_of text.now)) }
{
    match setting_of(text) {
        Some((key, value)) if is_wanting(key) => {
            let words = words(alloc, value.as_bytes())?;
            names_of_words(alloc, unit, words.as_slice())
        }
        _ => Ok(Vec::new(alloc)),
    }
}

// Returns whether the units of a setting with this key start with the unit.
fn is_wanting(key: &str) -> bool
    ensures { result ≡ is_wanting key.now }
{
    key == "Wants" || key == "Requires" || key == "BindsTo" || key == "Upholds"
}

// Returns the names that words mean in the file of a unit.
fn names_of_words(alloc: Global, unit: &str, words: &[&[u8]]) -> Result<Vec<Name>, AllocError>
    ensures { IfOk result (λ names. names.items ≡ names_of_words unit.now (map (λ word. word.now) words.now)) }
{
    let mut names = Vec::new(alloc);
    for word in words {
        if let Some(name) = name_of_word(alloc, unit, word)? {
            names.push(name)?;
        }
    }
    Ok(names)
}

/// Returns the name of the unit that a word means in the file of a unit, with the specifiers of an instance replaced, and
/// for a template its instance, as where the unit wants it. Returns `None` if the name is invalid.
///
/// # Errors
///
/// `AllocError` if an allocation fails.
#[tactic(auto, unfolding(crate::specs::Settings::name_of_word))]
pub fn name_of_word(alloc: Global, unit: &str, word: &[u8]) -> Result<Option<Name>, AllocError>
    ensures { IfOk result (λ name. name ≡ name_of_word unit.now word.now) }
{
    let text = expanded(alloc, unit, word)?;
    name_of_text(alloc, unit, text.as_slice())
}

// Returns the name that a text means in the file of a unit, if it is valid.
#[tactic(auto, using(plan_texts::proofs::Utf8Lemmas::yes_utf8, plan_texts::proofs::Utf8Lemmas::no_utf8))]
fn name_of_text(alloc: Global, unit: &str, text: &[u8]) -> Result<Option<Name>, AllocError>
    ensures { IfOk result (λ name. name
        ≡ (if is_utf8 text.now then wanted_unit unit.now text.now else None)) }
{
    match str::from_utf8(text) {
        Ok(text) => wanted_unit(alloc, unit, text),
        Err(_) => Ok(None),
    }
}

//! The accuracy of timers that set none (systemd-system.conf(5), `DefaultTimerAccuracySec=`).

ghost use Rattle.std.specs.Prelude.{◌≡◌, false, true, IfOk, map};
ghost use Rattle.plan_texts.specs.WholeLines.{whole_text};
ghost use Rattle.plan_services.specs.Accuracy.{accuracy_after_file, accuracy_after_files, accuracy_after_line, accuracy_after_lines, accuracy_after_setting, conf_dirs, conf_files, conf_paths, default_accuracy, inside_after};
ghost use Rattle.plan_units.specs.Settings.{section_name};

use plan_spans::time_span;
use plan_texts::whole_lines::{WholeLine, trimmed};
use plan_tree::Tree;
use plan_units::{
    Entry, UnitDir, dir_at, drop_ins_among, entries_among, lines_at, section_name, setting_of,
};
use std::alloc::{AllocError, Global};

/// One minute, in microseconds.
const MINUTE: u64 = 60_000_000;

// Returns the directories of the drop-ins of system.conf, first to last.
fn conf_paths() -> [&'static str; 4]
    ensures { map (λ path. path.now) result ≡ conf_paths }
{
    [
        "etc/systemd/system.conf.d",
        "run/systemd/system.conf.d",
        "usr/local/lib/systemd/system.conf.d",
        "usr/lib/systemd/system.conf.d",
    ]
}

/// Returns the accuracy of timers that set none, in microseconds: that of the configuration of systemd, or else one minute.
/// `infinity` is `u64::MAX`.
///
/// # Errors
///
/// `AllocError` if an allocation fails.
pub fn default_accuracy<T: Tree>(alloc: Global, tree: &T) -> Result<u64, AllocError>
    ensures { T.is_known ≡ true → IfOk result (λ accuracy. accuracy ≡ default_accuracy (T.held tree.now)) }
{
    let accuracy = accuracy_after_file(alloc, tree, MINUTE, "etc/systemd/system.conf")?;
    let files = conf_files(alloc, tree)?;
    accuracy_after_files(alloc, tree, accuracy, files.as_slice())
}

// Returns the drop-ins of system.conf, in the order of their names.
fn conf_files<T: Tree>(alloc: Global, tree: &T) -> Result<Vec<Entry>, AllocError>
    ensures { T.is_known ≡ true → IfOk result (λ files. files.items ≡ conf_files (T.held tree.now)) }
{
    let dirs = conf_dirs(alloc, tree)?;
    let found = entries_among(alloc, tree, dirs.as_slice())?;
    Ok(drop_ins_among(found))
}

// Returns the directories of the drop-ins of system.conf that exist, first to last.
fn conf_dirs<T: Tree>(alloc: Global, tree: &T) -> Result<Vec<UnitDir>, AllocError>
    ensures { T.is_known ≡ true → IfOk result (λ dirs. dirs.items ≡ conf_dirs (T.held tree.now).node conf_paths) }
{
    let mut dirs = Vec::new(alloc);
    for path in &conf_paths() {
        if let Some(dir) = dir_at(alloc, tree, path)? {
            dirs.push(dir)?;
        }
    }
    Ok(dirs)
}

// Returns the accuracy after some files, by that before them.
fn accuracy_after_files<T: Tree>(
    alloc: Global,
    tree: &T,
    before: u64,
    files: &[Entry],
) -> Result<u64, AllocError>
    ensures { T.is_known ≡ true → IfOk result (λ accuracy.
        accuracy ≡ accuracy_after_files (T.held tree.now) before files.now) }
{
    let mut accuracy = before;
    for file in files {
        accuracy = accuracy_after_file(alloc, tree, accuracy, file.real.as_str())?;
    }
    Ok(accuracy)
}

// Returns the accuracy after a file, by that before it.
fn accuracy_after_file<T: Tree>(
    alloc: Global,
    tree: &T,
    before: u64,
    path: &str,
) -> Result<u64, AllocError>
    ensures { T.is_known ≡ true → IfOk result (λ accuracy.
        accuracy ≡ accuracy_after_file (T.held tree.now) before path.now) }
{
    let lines = lines_at(alloc, tree, path)?;
    Ok(accuracy_after_lines(before, lines.as_slice()))
}

// Returns the accuracy after whole lines, by that before them.
fn accuracy_after_lines(before: u64, lines: &[WholeLine]) -> u64
    ensures { result ≡ accuracy_after_lines before false (map whole_text lines.now) }
{
    let mut accuracy = before;
    let mut inside = false;
    for line in lines {
        let text = trimmed(line.text.as_str());
        accuracy = accuracy_after_line(accuracy, inside, text);
        inside = inside_after(inside, text.as_bytes());
    }
    accuracy
}

// Returns whether the lines after a line are in a section `[Manager]`.
fn inside_after(inside: bool, text: &[u8]) -> bool
    ensures { result ≡ inside_after inside (section_name text.now) }
{
    match section_name(text) {
        Some(section) => section == b"Manager".as_slice(),
        None => inside,
    }
}

// Returns the accuracy after a line, by that before it.
fn accuracy_after_line(before: u64, inside: bool, text: &str) -> u64
    ensures { result ≡ accuracy_after_line before inside text.now }
{
    if !inside {
        return before;
    }
    match setting_of(text) {
        Some((key, value)) => accuracy_after_setting(before, key, value),
        None => before,
    }
}

// Returns the accuracy after a setting, by that before it.
fn accuracy_after_setting(before: u64, key: &str, value: &str) -> u64
    ensures { result ≡ accuracy_after_setting before (key.now, value.now) }
{
    if key != "DefaultTimerAccuracySec" {
        return before;
    }
    time_span(value.as_bytes()).unwrap_or(before)
}

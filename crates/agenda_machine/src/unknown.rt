//! What of a machine may start jobs at times that its files don't tell.

ghost use Rattle.std.specs.Prelude.{◌≡◌, ◌++◌, IfOk, OnOk, filter, map};
ghost use Rattle.std.specs.List.{flat_map, list_any};
ghost use Rattle.std.specs.Option.{option_map};
ghost use Rattle.agenda_machine.specs.Unknown.{covers, file_of, has_file, is_unloaded, job_at, line_of, name_at, names_at, unknown_job, unknown_line, unknown_path, unknown_root, unknowns};

use crate::job_files::label_of;
use crate::places::path_in;
use agenda_sources::{Found, SourcePath};
use plan_check::FindingKind;
use plan_machine::{Machine, MachineSource, NotPlanned, Skipped, Unplanned};
use plan_rules::{SourceKind, job_name};
use plan_texts::Text;
use std::alloc::{AllocError, Global};
use std::marker::Model;

/// The name of a timer, or of a crontab or one of its jobs.
#[derive(Debug, Drop)]
pub struct Name {
    /// The name of the timer or crontab: what the names of a crontab's jobs have before the `:`.
    pub label: Text,
    /// The name of the job, which for a timer is that of the timer. A whole crontab has none.
    pub job: Option<Text>,
}

/// Something of a machine that may start jobs at times that its files don't tell.
#[derive(Debug, Drop)]
pub struct Unknown {
    /// The path of its file, as it is printed; of the zone, and of too many jobs, that of the machine's root, which ends with a `/`.
    pub path: Text,
    /// The names that it has: of each timer, crontab or job of a crontab that has it. Many have none, such as a directory or a zone.
    pub names: Vec<Name>,
}

impl Model for Unknown {
    ghost use Rattle.agenda_machine.specs.UnknownParts.{UnknownParts};

    ghost Value = { UnknownParts };

    ghost view = { λ one. record { path = one.path; names = one.names.items } };
}

/// What is known of a machine once its files were read.
#[derive(Clone, Copy)]
pub struct Reading<'a> {
    /// What is before each path as it is printed: the path of the machine's root without a `/` at its end.
    pub root: &'a str,
    /// The machine, with all that isn't planned of it.
    pub machine: &'a Machine,
    /// The paths of the files of its sources, as they are printed.
    pub paths: &'a [SourcePath],
    /// The errors in these files.
    pub errors: &'a [Found],
    /// Whether the machine's zone is unknown.
    pub is_zone_unknown: bool,
}

/// Returns what of a machine may start jobs at times that its files don't tell: what isn't planned or is skipped, unless it surely
/// starts nothing, the errors in what its daemons load, and its zone. A daemon may read what agenda can't.
///
/// # Errors
///
/// `AllocError` if an allocation fails.
pub fn unknowns(alloc: Global, reading: &Reading<'_>) -> Result<Vec<Unknown>, AllocError>
    ensures { IfOk result (λ all. all.items ≡ unknowns reading.now) }
{
    let mut all = Vec::new(alloc);
    add_jobs(alloc, &mut all, reading)?;
    add_paths(
        alloc,
        &mut all,
        reading.root,
        reading.machine.skipped.as_slice(),
    )?;
    add_lines(alloc, &mut all, reading)?;
    if reading.is_zone_unknown {
        all.push(unknown_root(alloc, reading.root)?)?;
    }
    Ok(all)
}

// Returns something unknown that is of the whole machine: it has the path of the root.
fn unknown_root(alloc: Global, root: &str) -> Result<Unknown, AllocError>
    ensures { IfOk result (λ one. one ≡ unknown_root root.now) }
{
    let mut path = String::from_str(alloc, root)?;
    path.push_str("/")?;
    let path = Text::new(path);
    let names = Vec::new(alloc);
    Ok(Unknown { path, names })
}

// Adds what isn't planned, but for what is off.
fn add_jobs(alloc: Global, all: &mut Vec<Unknown>, reading: &Reading<'_>) -> Result<(), AllocError>
    ensures { OnOk result (all.new.items ≡ all.old.items ++ flat_map
        (unknown_job reading.now.root.now reading.now.machine.now.sources.items) reading.now.machine.now.unplanned.items) }
{
    for one in reading.machine.unplanned.as_slice() {
        add_job(
            alloc,
            all,
            reading.root,
            reading.machine.sources.as_slice(),
            one,
        )?;
    }
    Ok(())
}

// Adds something that isn't planned, unless it is off.
fn add_job(
    alloc: Global,
    all: &mut Vec<Unknown>,
    root: &str,
    sources: &[MachineSource],
    one: &NotPlanned,
) -> Result<(), AllocError>
    ensures { OnOk result (all.new.items ≡ all.old.items ++ unknown_job root.now sources.now one.now) }
{
    if !one.why.is_unknown() {
        return Ok(());
    }
    let path = path_in(alloc, root, one.path.as_str(), false)?;
    let names = names_at(alloc, root, sources, path.as_str(), line_of(&one.why))?;
    all.push(Unknown { path, names })?;
    Ok(())
}

// Adds what is skipped, but for what is off.
fn add_paths(
    alloc: Global,
    all: &mut Vec<Unknown>,
    root: &str,
    skipped: &[Skipped],
) -> Result<(), AllocError>
    ensures { OnOk result (all.new.items ≡ all.old.items ++ flat_map (unknown_path root.now) skipped.now) }
{
    for one in skipped {
        add_path(alloc, all, root, one)?;
    }
    Ok(())
}

// Adds something that is skipped, unless it is off.
fn add_path(
    alloc: Global,
    all: &mut Vec<Unknown>,
    root: &str,
    one: &Skipped,
) -> Result<(), AllocError>
    ensures { OnOk result (all.new.items ≡ all.old.items ++ unknown_path root.now one.now) }
{
    if !one.why.is_unknown() {
        return Ok(());
    }
    let path = path_in(alloc, root, one.path.as_str(), false)?;
    let names = Vec::new(alloc);
    all.push(Unknown { path, names })?;
    Ok(())
}

// Adds the errors in what daemons load.
fn add_lines(alloc: Global, all: &mut Vec<Unknown>, reading: &Reading<'_>) -> Result<(), AllocError>
    ensures { OnOk result (all.new.items ≡ all.old.items ++ flat_map
        (unknown_line reading.now.root.now reading.now.machine.now.sources.items reading.now.machine.now.unplanned.items
        reading.now.paths.now) reading.now.errors.now) }
{
    for error in reading.errors {
        add_line(alloc, all, reading, error)?;
    }
    Ok(())
}

// Adds an error, unless no daemon loads what it is in. If there are too many jobs, any job may be missing.
fn add_line(
    alloc: Global,
    all: &mut Vec<Unknown>,
    reading: &Reading<'_>,
    error: &Found,
) -> Result<(), AllocError>
    ensures { OnOk result (all.new.items ≡ all.old.items ++ unknown_line reading.now.root.now reading.now.machine.now.sources.items
        reading.now.machine.now.unplanned.items reading.now.paths.now error.now) }
{
    let line = error.finding.line;
    let machine = reading.machine;
    let Some(file) = file_of(reading.paths, error) else {
        all.push(unknown_root(alloc, reading.root)?)?;
        return Ok(());
    };
    let sources = machine.sources.as_slice();
    let names = names_at(alloc, reading.root, sources, file.path.as_str(), line)?;
    let unplanned = machine.unplanned.as_slice();
    let is_unloaded = is_unloaded(alloc, reading.root, unplanned, file, line)?;
    if is_unloaded && names.len() < 2 {
        return Ok(());
    }
    let path = Text::new(String::from_str(alloc, file.path.as_str())?);
    all.push(Unknown { path, names })?;
    Ok(())
}

// Returns the file of an error, unless it is that there are too many jobs.
fn file_of<'a>(paths: &'a [SourcePath], error: &Found) -> Option<&'a SourcePath>
    ensures { option_map (λ file. file.now) result ≡ file_of paths.now error.now.finding.kind error.now.place }
{
    match error.finding.kind {
        FindingKind::Full => None,
        _ => paths.get(error.place),
    }
}

// Returns whether no daemon loads this line of a file.
fn is_unloaded(
    alloc: Global,
    root: &str,
    unplanned: &[NotPlanned],
    path: &SourcePath,
    line: u32,
) -> Result<bool, AllocError>
    ensures { IfOk result (λ is. is ≡ list_any (is_unloaded root.now path.now line) unplanned.now) }
{
    for one in unplanned {
        if is_unloaded_by(alloc, root, path, line, one)? {
            return Ok(true);
        }
    }
    Ok(false)
}

// Returns whether something that isn't planned is this line of a file.
fn is_unloaded_by(
    alloc: Global,
    root: &str,
    path: &SourcePath,
    line: u32,
    one: &NotPlanned,
) -> Result<bool, AllocError>
    ensures { IfOk result (λ is. is ≡ is_unloaded root.now path.now line one.now) }
{
    if !covers(path.kind, line, &one.why) {
        return Ok(false);
    }
    let whole = path_in(alloc, root, one.path.as_str(), false)?;
    Ok(whole.as_str() == path.path.as_str())
}

// Returns whether what isn't loaded for this reason has the line of a source of a kind: of a crontab each line.
fn covers(kind: SourceKind, line: u32, why: &Unplanned) -> bool
    ensures { result ≡ covers kind line why.now }
{
    match (why, kind) {
        (Unplanned::NotLoaded(_), _) => true,
        (Unplanned::LineNotLoaded(other, _), SourceKind::Timer) => line == *other,
        (Unplanned::LineNotLoaded(..), _) => true,
        _ => false,
    }
}

// Returns the names that a line of a file has, or all of it, by its path as it is printed.
fn names_at(
    alloc: Global,
    root: &str,
    sources: &[MachineSource],
    path: &str,
    line: u32,
) -> Result<Vec<Name>, AllocError>
    ensures { IfOk result (λ names. names.items ≡ names_at root.now sources.now path.now line) }
{
    let mut names = Vec::new(alloc);
    for source in sources {
        if has_file(alloc, root, path, source)? {
            names.push(name_at(alloc, line, source)?)?;
        }
    }
    Ok(names)
}

// Returns the name of a line of a source, or of all of it if that is 0.
fn name_at(alloc: Global, line: u32, source: &MachineSource) -> Result<Name, AllocError>
    ensures { IfOk result (λ name. name ≡ name_at line source.now) }
{
    let label = label_of(source.kind(), source.name());
    let job = job_at(alloc, source.kind(), label, line)?;
    let label = Text::new(String::from_str(alloc, label)?);
    Ok(Name { label, job })
}

// Returns the job of a line of a timer or a crontab with this label.
fn job_at(
    alloc: Global,
    kind: SourceKind,
    label: &str,
    line: u32,
) -> Result<Option<Text>, AllocError>
    ensures { IfOk result (λ job. job ≡ job_at kind label.now line) }
{
    match kind {
        SourceKind::Timer => Ok(Some(Text::new(String::from_str(alloc, label)?))),
        _ if line == 0 => Ok(None),
        _ => Ok(Some(Text::new(job_name(alloc, label, line)?))),
    }
}

// Returns whether a source has a file with this path, as it is printed.
fn has_file(
    alloc: Global,
    root: &str,
    path: &str,
    source: &MachineSource,
) -> Result<bool, AllocError>
    ensures { IfOk result (λ has. has ≡ has_file root.now path.now source.now) }
{
    for file in source.parts().files() {
        let whole = path_in(alloc, root, file.path(), false)?;
        if whole.as_str() == path {
            return Ok(true);
        }
    }
    Ok(false)
}

// Returns the line of something that isn't planned, or 0 if it is no line.
fn line_of(why: &Unplanned) -> u32
    ensures { result ≡ line_of why.now }
{
    match why {
        Unplanned::LineUnknown(line, _) => *line,
        _ => 0,
    }
}

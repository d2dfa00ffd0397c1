//! Reads the clock of the zone, the sources, and the zones of events from files.

ghost use Rattle.std.specs.Prelude.{◌≡◌, ◌≢◌, [], ◌∷◌, ◌++◌, Err, IfErr, IfOk, List, OnOk, true};
ghost use Rattle.agenda_inputs.specs.Opened.{OpensFirst, clock_files, event_files, followed_by, input_files, source_files};
ghost use Rattle.agenda_inputs.specs.Sources.{input_of, name_by, rule_zones, source_of, tried_of, tries_of, with_last};
ghost use Rattle.agenda_faults.specs.declared.faults.Failure.TheVariants.{Run};
ghost use Rattle.agenda_faults.specs.declared.faults.RunFault.TheVariants.{NoMemory};
ghost use Rattle.agenda_sources.specs.ZoneNames.{asked_zones};
ghost use Rattle.agenda_sources.specs.declared.Source.{Source};

use crate::event_zones::{zones_of_rule, zones_of_sources};
use crate::files::{Files, read_path};
use crate::zone::read_clock;
use agenda_arguments::ZonesRequest;
use agenda_faults::Failure;
use agenda_sources::{Asked, Source, SourcePath, SourcePaths, Sources, TimeZones, file_name};
use plan_rules::{SourceKind, Text};
use std::alloc::{AllocError, Global};

/// Sources, some of which can't be read.
#[derive(Drop)]
pub struct Tried {
    /// The sources that were read.
    pub sources: Sources,
    /// Their paths, at the same places.
    pub paths: SourcePaths,
    /// The paths of the files that can't be opened or read.
    pub unread: SourcePaths,
}

/// Reads the clock of the zone that a request gives, then the sources with these paths, in order, each path once. If
/// events may name zones, reads these zones last, each once. Sources that can't be read are skipped if `keep_going`.
///
/// # Errors
///
/// The errors of `read_clock`; then `File` with the first path that can't be opened or read, unless it is skipped, or
/// `Run(NoMemory)` if an allocation failed.
pub fn read_input<F: Files>(
    alloc: Global,
    files: &mut F,
    request: &ZonesRequest,
    paths: &SourcePaths,
    keep_going: bool,
) -> Result<(Tried, TimeZones), Failure>
    ensures read { input_of keep_going (F.held files.old) request.now paths.now result }
    ensures opens { IfOk result (λ read. F.opened files.new ≡ followed_by (F.opened files.old) (input_files request.now paths.now read.0.sources)) }
    ensures first { (sources : List Source) × OpensFirst (input_files request.now paths.now sources) (F.opened files.old) (F.opened files.new) }
{
    let clock = read_clock(alloc, files, &request.zone)?;
    let tried = read_sources(alloc, files, paths.as_slice(), keep_going)?;
    let zones = zones_of_sources(alloc, files, request, clock, &tried.sources)?;
    Ok((tried, zones))
}

/// Reads the clock of the zone that a request gives, and then the zone that a rule ends with, if rules may name zones.
///
/// # Errors
///
/// The errors of `read_clock`; then `Run(NoMemory)` if an allocation failed.
pub fn read_rule_zones<F: Files>(
    alloc: Global,
    files: &mut F,
    request: &ZonesRequest,
    rule: &Asked,
) -> Result<TimeZones, Failure>
    ensures read { rule_zones (F.held files.old) request.now rule.now result }
    ensures opens { OnOk result (F.opened files.new ≡ followed_by (F.opened files.old)
        (clock_files request.now.zone ++ event_files request.now (asked_zones rule.now))) }
    ensures first { OpensFirst (clock_files request.now.zone ++ event_files request.now (asked_zones rule.now))
        (F.opened files.old) (F.opened files.new) }
{
    let clock = read_clock(alloc, files, &request.zone)?;
    zones_of_rule(alloc, files, request, clock, rule)
}

// Reads the sources with these paths, in order, each path once. Those that can't be read are skipped if `keep_going`.
fn read_sources<F: Files>(
    alloc: Global,
    files: &mut F,
    given: &[SourcePath],
    keep_going: bool,
) -> Result<Tried, Failure>
    ensures read { tries_of keep_going (F.held files.old) given.now result }
    ensures same { F.held files.new ≡ F.held files.old }
    ensures opens { OnOk result (F.opened files.new ≡ followed_by (F.opened files.old) (source_files given.now)) }
    ensures first { OpensFirst (source_files given.now) (F.opened files.old) (F.opened files.new) }
{
    let mut sources = Vec::new(alloc);
    let mut paths = SourcePaths::new(alloc);
    let mut unread = SourcePaths::new(alloc);
    for path in given {
        let source = source_if(alloc, files, path, keep_going)?;
        let copy = copy_of(alloc, path)?;
        add_tried(&mut sources, &mut paths, &mut unread, copy, source)?;
    }
    Ok(Tried {
        sources: Sources::new(sources),
        paths,
        unread,
    })
}

// Adds a source with its path, or a path among those of unreadable files if there is no source.
fn add_tried(
    sources: &mut Vec<Source>,
    paths: &mut SourcePaths,
    unread: &mut SourcePaths,
    path: SourcePath,
    source: Option<Source>,
) -> Result<(), Failure>
    ensures added { OnOk result (record { sources = sources.new.items; paths = paths.new; unread = unread.new }
        ≡ with_last (record { sources = sources.old.items; paths = paths.old; unread = unread.old }) path source) }
    ensures memory { IfErr result (λ failure. failure ≡ Run NoMemory) }
{
    match source {
        Some(source) => {
            sources.push(source)?;
            paths.push(path)?;
        }
        None => unread.push(path)?,
    }
    Ok(())
}

// Reads a source. If `keep_going`, there is none if its file can't be opened or read.
fn source_if<F: Files>(
    alloc: Global,
    files: &mut F,
    given: &SourcePath,
    keep_going: bool,
) -> Result<Option<Source>, Failure>
    ensures read { tried_of keep_going (F.held files.old) given.now result }
    ensures same { F.held files.new ≡ F.held files.old }
    ensures opens { OnOk result (F.opened files.new ≡ followed_by (F.opened files.old) (given.now.path ∷ [])) }
    ensures first { OpensFirst (given.now.path ∷ []) (F.opened files.old) (F.opened files.new) }
{
    if keep_going {
        return try_source(alloc, files, given);
    }
    let source = read_source(alloc, files, given)?;
    Ok(Some(source))
}

// Reads a source, if its file can be opened and read.
fn try_source<F: Files>(
    alloc: Global,
    files: &mut F,
    given: &SourcePath,
) -> Result<Option<Source>, Failure>
    ensures read { tried_of true (F.held files.old) given.now result }
    ensures same { F.held files.new ≡ F.held files.old }
    ensures opens { OnOk result (F.opened files.new ≡ followed_by (F.opened files.old) (given.now.path ∷ [])) }
    ensures first { OpensFirst (given.now.path ∷ []) (F.opened files.old) (F.opened files.new) }
{
    match read_source(alloc, files, given) {
        Ok(source) => Ok(Some(source)),
        Err(Failure::File(_)) => Ok(None),
        Err(failure) => Err(failure),
    }
}

// Returns a copy of a path.
fn copy_of(alloc: Global, given: &SourcePath) -> Result<SourcePath, AllocError>
    ensures { IfOk result (λ copy. copy ≡ given.now) }
{
    Ok(SourcePath {
        kind: given.kind,
        path: Text::new(String::from_str(alloc, given.path.as_str())?),
    })
}

// Returns the name of a source by that of its file. A user's crontab has an empty one if `--spool` doesn't take the file's name:
// that is an error of each file of that kind.
fn name_by(kind: SourceKind, name: &str) -> &str
    ensures { result.now ≡ name_by kind name.now }
{
    match kind {
        SourceKind::Spool if kind.name_cause(name).is_some() => "",
        _ => name,
    }
}

// Reads a source. Its name comes from its path.
fn read_source<F: Files>(
    alloc: Global,
    files: &mut F,
    given: &SourcePath,
) -> Result<Source, Failure>
    ensures read { source_of (F.held files.old) given.now result }
    ensures same { F.held files.new ≡ F.held files.old }
    ensures opens { result ≢ Err (Run NoMemory) → F.opened files.new ≡ followed_by (F.opened files.old) (given.now.path ∷ []) }
    ensures first { OpensFirst (given.now.path ∷ []) (F.opened files.old) (F.opened files.new) }
{
    let bytes = read_path(alloc, files, given.path.as_str())?;
    let name = Text::new(String::from_str(
        alloc,
        name_by(given.kind, file_name(given.path.as_str())),
    )?);
    Ok(Source {
        kind: given.kind,
        name,
        bytes,
    })
}

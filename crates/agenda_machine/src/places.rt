//! The sources of a machine for `check`, and the files that its findings come from.

ghost use Rattle.std.specs.Prelude.{◌≡◌, ◌++◌, IfOk, OnOk, get_or, map, slice_get};
ghost use Rattle.agenda_machine.specs.Places.{PlacesHavePaths, counts_before, found_in, located_at, path_in, paths_of, source_of, source_paths};
ghost use Rattle.agenda_machine.specs.Paths.{below};

use crate::paths::push_path;
use agenda_sources::{Bytes, Found, Source, SourcePath, SourcePaths, Sources};
use plan_machine::MachineSource;
use plan_texts::Text;
use std::alloc::{AllocError, Global};

/// Returns the sources of a machine as a plan reads them: each with its kind, its name, and the text of its parts.
///
/// # Errors
///
/// `AllocError` if an allocation fails.
pub fn sources_of(alloc: Global, sources: &[MachineSource]) -> Result<Sources, AllocError>
    ensures { IfOk result (λ all. all ≡ map source_of sources.now) }
{
    let mut all = Vec::with_capacity(alloc, sources.len())?;
    for source in sources {
        all.push(source_of(alloc, source)?)?;
    }
    Ok(Sources::new(all))
}

// Returns a source as a plan reads it.
fn source_of(alloc: Global, source: &MachineSource) -> Result<Source, AllocError>
    ensures { IfOk result (λ one. one ≡ source_of source.now) }
{
    let name = Text::new(String::from_str(alloc, source.name())?);
    let bytes = Bytes::new(Vec::from_slice(alloc, source.parts().text())?);
    Ok(Source {
        kind: source.kind(),
        name,
        bytes,
    })
}

/// Returns the path of each part of the sources, in order, with the kind of the source.
///
/// A path is `root`, a `/`, and the path on the machine. Without `json`, control characters in it are written as `\xNN`
/// for each of their bytes, and a backslash as `\\`.
///
/// # Errors
///
/// `AllocError` if an allocation fails.
pub fn paths_of(
    alloc: Global,
    root: &str,
    sources: &[MachineSource],
    json: bool,
) -> Result<SourcePaths, AllocError>
    ensures { IfOk result (λ paths. paths ≡ paths_of json root.now sources.now) }
{
    let mut paths = SourcePaths::new(alloc);
    for source in sources {
        add_paths(alloc, root, source, json, &mut paths)?;
    }
    Ok(paths)
}

// Adds the paths of the parts of a source.
fn add_paths(
    alloc: Global,
    root: &str,
    source: &MachineSource,
    json: bool,
    paths: &mut SourcePaths,
) -> Result<(), AllocError>
    ensures { OnOk result (paths.new ≡ paths.old ++ source_paths json root.now source.now) }
{
    let parts = source.parts().files();
    for part in parts {
        let path = path_in(alloc, root, part.path(), json)?;
        let kind = source.kind();
        paths.push(SourcePath { kind, path })?;
    }
    Ok(())
}

// Returns a path below a root: as it is for JSON, and otherwise as people are shown it.
pub(crate) fn path_in(alloc: Global, root: &str, path: &str, json: bool) -> Result<Text, AllocError>
    ensures { IfOk result (λ text. text ≡ path_in json (below root.now path.now)) }
{
    let mut text = String::new(alloc);
    if json {
        text.push_str(root)?;
        text.push_str("/")?;
        text.push_str(path)?;
    } else {
        push_path(&mut text, root, path)?;
    }
    Ok(Text::new(text))
}

/// Returns the findings of a machine's sources with the places of the files that they come from.
///
/// Each place is that of a path of `paths_of`, and each line one of that file: where the line of the source's text comes
/// from, as `Parts::origin` says. A finding about a whole source is about its first file. Findings of no source stay as
/// they are.
///
/// # Errors
///
/// `AllocError` if an allocation fails, or if there are more parts than a list can have.
pub fn located(sources: &[MachineSource], found: Vec<Found>) -> Result<Vec<Found>, AllocError>
    ensures { IfOk result (λ moved. moved.items ≡ map (located_at sources.now) found.items) }
{
    let counts = counts_before(*found.allocator(), sources)?;
    let mut moved = found;
    for one in moved.iter_mut() {
        locate(sources, counts.as_slice(), one)?;
    }
    Ok(moved)
}

/// States the law of places: the path at the place of a finding that `located` returns, among those of `paths_of`, is the
/// path of the file that the finding comes from.
///
/// The function does nothing: its contract is the law.
pub fn places_have_paths()
    ensures { PlacesHavePaths }
{}

// Moves a finding to the file that it comes from, by how many parts come before each source.
fn locate(sources: &[MachineSource], counts: &[usize], one: &mut Found) -> Result<(), AllocError>
    ensures { OnOk result (one.new
        ≡ found_in (get_or counts.now one.old.place 0) (slice_get sources.now one.old.place) one.old) }
{
    let Some(source) = sources.get(one.place) else {
        return Ok(());
    };
    let before = count_at(counts, one.place);
    let origin = source.parts().origin(one.finding.line);
    one.place = before.checked_add(origin.part).ok_or(AllocError)?;
    one.finding.line = origin.line;
    Ok(())
}

// Returns the count at a place, or 0 if there is none.
fn count_at(counts: &[usize], place: usize) -> usize
    ensures { result ≡ get_or counts.now place 0 }
{
    counts.get(place).copied().unwrap_or(0)
}

// Returns how many parts come before each source.
fn counts_before(alloc: Global, sources: &[MachineSource]) -> Result<Vec<usize>, AllocError>
    ensures { IfOk result (λ counts. counts.items ≡ counts_before 0 sources.now) }
{
    let mut counts = Vec::with_capacity(alloc, sources.len())?;
    let mut count = 0usize;
    for source in sources {
        counts.push(count)?;
        let parts = source.parts().files();
        count = count.checked_add(parts.len()).ok_or(AllocError)?;
    }
    Ok(counts)
}

//! The paths of the sources that the arguments name.
ghost use Rattle.std.specs.Prelude.{◌≡◌, ◌++◌, ◌∷◌, [], IfOk, OnOk, map};
ghost use Rattle.std.specs.List.{flat_map};
ghost use Rattle.clap.specs.Words.{found_of, rows_of};
ghost use Rattle.agenda_arguments.specs.Arguments.{path_of, paths_in, sources_in};

use crate::values::{text, value_of, values_of};
use agenda_sources::{SourcePath, SourcePaths};
use clap::ArgMatches;
use plan_rules::SourceKind;
use std::alloc::{AllocError, Global};

/// Returns the paths of the given sources, in the order of their kinds. Those of one kind are in the order of
/// the arguments.
///
/// # Errors
///
/// An allocation failed.
pub(crate) fn sources_of(alloc: Global, given: &ArgMatches<'_>) -> Result<SourcePaths, AllocError>
    ensures { IfOk result (λ paths. paths ≡ sources_in (rows_of (found_of given.now))) }
{
    let mut paths = SourcePaths::new(alloc);
    add_kinds(alloc, given, &SourceKind::all(), &mut paths)?;
    Ok(paths)
}

// Adds the paths of the sources of these kinds, in order.
fn add_kinds(
    alloc: Global,
    given: &ArgMatches<'_>,
    kinds: &[SourceKind],
    paths: &mut SourcePaths,
) -> Result<(), AllocError>
    ensures { OnOk result (paths.new
        ≡ paths.old ++ flat_map (λ kind. map (path_of kind) (paths_in kind (rows_of (found_of given.now)))) kinds.now) }
{
    for kind in kinds {
        add_paths(alloc, given, *kind, paths)?;
    }
    Ok(())
}

// Adds the paths of the sources of a kind.
fn add_paths(
    alloc: Global,
    given: &ArgMatches<'_>,
    kind: SourceKind,
    paths: &mut SourcePaths,
) -> Result<(), AllocError>
    ensures { OnOk result (paths.new
        ≡ paths.old ++ map (path_of kind) (paths_in kind (rows_of (found_of given.now)))) }
{
    if kind.is_many() {
        return match values_of(given, kind.option()) {
            Some(written) => add_all(alloc, kind, written, paths),
            None => Ok(()),
        };
    }
    match value_of(given, kind.option()) {
        Some(path) => add_path(alloc, kind, path, paths),
        None => Ok(()),
    }
}

// Adds these paths of sources of a kind, in order.
fn add_all(
    alloc: Global,
    kind: SourceKind,
    written: &[&str],
    paths: &mut SourcePaths,
) -> Result<(), AllocError>
    ensures { OnOk result (paths.new
        ≡ paths.old ++ map (path_of kind) (map (λ path. path.now) written.now)) }
{
    for path in written {
        add_path(alloc, kind, path, paths)?;
    }
    Ok(())
}

// Adds the path of a source.
fn add_path(
    alloc: Global,
    kind: SourceKind,
    path: &str,
    paths: &mut SourcePaths,
) -> Result<(), AllocError>
    ensures { OnOk result (paths.new ≡ paths.old ++ path_of kind path.now ∷ []) }
{
    let path = text(alloc, path)?;
    paths.push(SourcePath { kind, path })?;
    Ok(())
}

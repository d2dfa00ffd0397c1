//! The scripts that a command may run.

ghost use Rattle.std.specs.Prelude.{◌≡◌, true, IfOk, map, flat_map};
ghost use Rattle.plan_shell.specs.Tree.{tree_of};
ghost use Rattle.plan_idle.specs.Scripts.{script_path, script_paths, scripts_run, slash_after};

use crate::known::KnownPlaces;
use crate::run_parts::scripts;
use crate::tree_looks::{Asker, TreeLooks};
use crate::weighing::gathered_of;
use plan_shell::ShellList;
use plan_texts::Text;
use plan_tree::{Name, Tree};
use std::alloc::{AllocError, Global};

/// Returns the paths of the scripts that a command may run: those of all its `run-parts [-OPTION ..] PATH` commands that
/// may run, in order (run-parts(8) of Debian), if this user runs it, and what is at these places is known.
///
/// # Errors
///
/// `AllocError` if an allocation fails.
#[tactic(auto, using(crate::proofs::RunLemmas::directories_weighed))]
pub fn scripts_run<T: Tree>(
    alloc: Global,
    list: &ShellList,
    tree: &T,
    places: &KnownPlaces,
    asker: Asker<'_>,
) -> Result<Vec<Text>, AllocError>
    ensures { T.is_known ≡ true → IfOk result (λ scripts.
        scripts.items ≡ scripts_run (T.held tree.now) places.now asker.entry (tree_of list.now)) }
{
    let looks = TreeLooks::new(tree, places, asker);
    let gathered = gathered_of(alloc, list.steps(), &looks)?;
    paths_in_all(alloc, tree, gathered.dirs.as_slice())
}

// Returns the paths of the scripts of some directories.
fn paths_in_all<T: Tree>(alloc: Global, tree: &T, dirs: &[Text]) -> Result<Vec<Text>, AllocError>
    ensures { T.is_known ≡ true → IfOk result (λ paths.
        paths.items ≡ flat_map (script_paths (T.held tree.now)) dirs.now) }
{
    let mut paths = Vec::new(alloc);
    for dir in dirs {
        let mut more = script_paths(alloc, tree, dir.as_str())?;
        paths.append(&mut more)?;
    }
    Ok(paths)
}

// Returns the paths of the scripts of a directory.
fn script_paths<T: Tree>(alloc: Global, tree: &T, dir: &str) -> Result<Vec<Text>, AllocError>
    ensures { T.is_known ≡ true → IfOk result (λ paths. paths.items ≡ script_paths (T.held tree.now) dir.now) }
{
    let names = scripts(alloc, tree, dir)?;
    paths_of(alloc, dir, names.as_slice())
}

// Returns the paths of some names in a directory.
fn paths_of(alloc: Global, dir: &str, names: &[Name]) -> Result<Vec<Text>, AllocError>
    ensures { IfOk result (λ paths. paths.items ≡ map (script_path dir.now) names.now) }
{
    let mut paths = Vec::new(alloc);
    for name in names {
        paths.push(script_path(alloc, dir, name.as_str())?)?;
    }
    Ok(paths)
}

// Returns the path of a name in a directory.
fn script_path(alloc: Global, dir: &str, name: &str) -> Result<Text, AllocError>
    ensures { IfOk result (λ path. path ≡ script_path dir.now name.now) }
{
    let mut path = String::from_str(alloc, dir)?;
    path.push_str(slash_after(dir))?;
    path.push_str(name)?;
    Ok(Text::new(path))
}

// Returns what is between a directory and a name in it.
fn slash_after(dir: &str) -> &'static str
    ensures { result.now ≡ slash_after dir.now }
{
    if dir.as_bytes().ends_with(b"/") {
        ""
    } else {
        "/"
    }
}

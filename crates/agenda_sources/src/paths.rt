//! The paths of a plan's sources, as they are given on the command line.

ghost use Rattle.std.specs.Prelude.{◌≡◌, ◌++◌, ◌∷◌, [], IfErr, is_ok, if◌then◌else◌};

use plan_rules::SourceKind;
use plan_texts::Text;
use std::alloc::{AllocFailed, Global};
use std::marker::Model;

/// The path of a source.
#[derive(Debug, Drop)]
pub struct SourcePath {
    /// The kind of source in the file.
    pub kind: SourceKind,
    /// The path of the file.
    pub path: Text,
}

/// Paths in the order in which a plan reads them. Contracts see this value as a list.
#[derive(Debug, Drop)]
pub struct SourcePaths {
    kept: Vec<SourcePath>,
}

impl Model for SourcePaths {
    ghost use Rattle.std.specs.Prelude.{List};
    ghost use Rattle.agenda_sources.specs.declared.paths.SourcePath.{SourcePath};

    ghost Value = { List SourcePath };

    ghost view = { λ paths. paths.kept.items };
}

impl SourcePaths {
    /// Returns an empty list. This requests no memory; `push` requests what it needs from `alloc`.
    pub fn new(alloc: Global) -> SourcePaths
        ensures { result ≡ [] }
    {
        SourcePaths {
            kept: Vec::new(alloc),
        }
    }

    /// Appends a path.
    ///
    /// # Errors
    ///
    /// `AllocFailed`, with the path, if an allocation fails. The list is unchanged then.
    pub fn push(&mut self, path: SourcePath) -> Result<(), AllocFailed<SourcePath>>
        ensures list { self.new ≡ (if is_ok result then self.old ++ path ∷ [] else self.old) }
        ensures returned { IfErr result (λ failed. failed.value ≡ path) }
    {
        self.kept.push(path)
    }

    /// Lends the paths.
    pub fn as_slice(&self) -> &[SourcePath]
        ensures { result.now ≡ self.now }
    {
        self.kept.as_slice()
    }
}

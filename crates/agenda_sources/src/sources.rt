//! The sources of a plan, with their bytes.

ghost use Rattle.std.specs.Prelude.{◌≡◌};

use crate::bytes::Bytes;
use plan_rules::SourceKind;
use plan_texts::Text;
use std::marker::Model;

/// A source: its kind, its name and its bytes.
#[derive(Debug, Drop)]
pub struct Source {
    /// The kind of the source.
    pub kind: SourceKind,
    /// The name of the file, without its directories.
    pub name: Text,
    /// The bytes of the file.
    pub bytes: Bytes,
}

/// Sources in the order in which a plan reads them. Contracts see this value as a list.
#[derive(Debug, Drop)]
pub struct Sources {
    kept: Vec<Source>,
}

impl Model for Sources {
    ghost use Rattle.std.specs.Prelude.{List};
    ghost use Rattle.agenda_sources.specs.declared.sources.Source.{Source};

    ghost Value = { List Source };

    ghost view = { λ sources. sources.kept.items };
}

impl Sources {
    /// Keeps the sources.
    pub fn new(sources: Vec<Source>) -> Sources
        ensures { result ≡ sources.items }
    {
        Sources { kept: sources }
    }

    /// Lends the sources.
    pub fn as_slice(&self) -> &[Source]
        ensures { result.now ≡ self.now }
    {
        self.kept.as_slice()
    }
}

//! A source of a machine: its kind, the name that its jobs get, and its parts.

ghost use Rattle.std.specs.Prelude.{◌≡◌};
ghost use Rattle.plan_machine.specs.Source.{is_bad_name, taken_name};

use plan_parts::Parts;
use plan_rules::SourceKind;
use plan_texts::Text;
use std::marker::Model;

/// A source of a machine.
#[derive(Debug, Drop)]
pub struct MachineSource {
    kind: SourceKind,
    name: Text,
    parts: Parts,
}

impl Model for MachineSource {
    ghost use Rattle.plan_machine.specs.Source.{SourceParts};

    ghost Value = { SourceParts };

    ghost view = { λ source. record { kind = source.kind; name = source.name; parts = source.parts } };
}

impl MachineSource {
    /// Makes a source.
    pub fn new(kind: SourceKind, name: Text, parts: Parts) -> MachineSource
        ensures { result ≡ record { kind = kind; name = name; parts = parts } }
    {
        MachineSource { kind, name, parts }
    }

    /// Returns the kind of the source.
    pub fn kind(&self) -> SourceKind
        ensures { result ≡ self.now.kind }
    {
        self.kind
    }

    /// Returns the name that the jobs of the source get.
    pub fn name(&self) -> &str
        ensures { result.now ≡ self.now.name }
    {
        self.name.as_str()
    }

    /// Returns the parts of the source: of a crontab one file, of a timer its file and then its drop-ins, in the order
    /// in which they are merged.
    pub fn parts(&self) -> &Parts
        ensures { result.now ≡ self.now.parts }
    {
        &self.parts
    }

    // Returns the name that no other crontab may have: what comes before the line number in the names of its jobs.
    pub(crate) fn taken_name(&self) -> &str
        ensures { result.now ≡ taken_name self.now }
    {
        match self.kind {
            SourceKind::System => "system",
            _ => self.name.as_str(),
        }
    }
}

// Returns whether a source of this kind may not have this name.
#[tactic(auto, unfolding(crate::specs::Source::is_bad_name))]
pub(crate) fn is_bad_name(kind: SourceKind, name: &str) -> bool
    ensures { result ≡ is_bad_name kind name.now }
{
    kind.name_cause(name).is_some()
}

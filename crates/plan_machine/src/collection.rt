//! The sources of a machine and what is skipped, as they are found.

ghost use Rattle.std.specs.Prelude.{◌≡◌, IfOk};
ghost use Rattle.plan_machine.specs.Collection.{has_package, is_package, is_taken, no_sources, with_crontab, with_file, with_skipped, with_source};

use crate::source::MachineSource;
use plan_parts::{Part, Parts};
use plan_rules::SourceKind;
use plan_timers::{Skipped, Why, copy_of};
use std::alloc::{AllocError, Global};
use std::marker::Model;

/// The sources of a machine, and what is skipped, each in the order in which it was found.
#[derive(Debug, Drop)]
pub struct MachineSources {
    found: Vec<MachineSource>,
    skipped: Vec<Skipped>,
}

impl Model for MachineSources {
    ghost use Rattle.plan_machine.specs.Collection.{Sources};

    ghost Value = { Sources };

    ghost view = { λ sources. record { found = sources.found.items; skipped = sources.skipped.items } };
}

impl MachineSources {
    // Returns an empty list of each. This requests no memory.
    pub(crate) fn new(alloc: Global) -> MachineSources
        ensures { result ≡ no_sources }
    {
        MachineSources {
            found: Vec::new(alloc),
            skipped: Vec::new(alloc),
        }
    }

    // Returns the sources, and what is skipped.
    pub(crate) fn into_lists(self) -> (Vec<MachineSource>, Vec<Skipped>)
        ensures found { result.0.items ≡ self.found }
        ensures skipped { result.1.items ≡ self.skipped }
    {
        (self.found, self.skipped)
    }

    /// Returns the sources.
    pub fn found(&self) -> &[MachineSource]
        ensures { result.now ≡ self.now.found }
    {
        self.found.as_slice()
    }

    /// Returns what is skipped.
    pub fn skipped(&self) -> &[Skipped]
        ensures { result.now ≡ self.now.skipped }
    {
        self.skipped.as_slice()
    }

    // Adds a source.
    pub(crate) fn with_source(self, source: MachineSource) -> Result<MachineSources, AllocError>
        ensures { IfOk result (λ all. all ≡ with_source self source) }
    {
        let MachineSources { found, skipped } = self;
        let mut found = found;
        found.push(source)?;
        Ok(MachineSources { found, skipped })
    }

    // Adds something that is skipped.
    pub(crate) fn with_skipped(
        self,
        alloc: Global,
        path: &str,
        why: Why,
    ) -> Result<MachineSources, AllocError>
        ensures { IfOk result (λ all. all ≡ with_skipped self path.now why) }
    {
        let path = copy_of(alloc, path)?;
        let MachineSources { found, skipped } = self;
        let mut skipped = skipped;
        skipped.push(Skipped { path, why })?;
        Ok(MachineSources { found, skipped })
    }

    // Adds a crontab, or why it is skipped. `file` is `None` if it can't be read.
    pub(crate) fn with_file(
        self,
        alloc: Global,
        kind: SourceKind,
        path: &str,
        name: &str,
        file: Option<Part>,
    ) -> Result<MachineSources, AllocError>
        ensures { IfOk result (λ all. all ≡ with_file self kind path.now name.now file) }
    {
        let Some(file) = file else {
            return self.with_skipped(alloc, path, Why::NotReadable);
        };
        let source = MachineSource::new(kind, copy_of(alloc, name)?, Parts::One(file));
        self.with_crontab(alloc, path, source)
    }

    // Adds a crontab that can be read, or that an earlier one has its name.
    fn with_crontab(
        self,
        alloc: Global,
        path: &str,
        source: MachineSource,
    ) -> Result<MachineSources, AllocError>
        ensures { IfOk result (λ all. all ≡ with_crontab self path.now source) }
    {
        if is_taken(self.found(), source.taken_name()) {
            return self.with_skipped(alloc, path, Why::NameTaken);
        }
        self.with_source(source)
    }
}

// Returns whether an earlier crontab has a name.
fn is_taken(sources: &[MachineSource], name: &str) -> bool
    ensures { result ≡ is_taken sources.now name.now }
{
    sources.iter().any(|source| source.taken_name() == name)
}

// Returns whether a crontab of a package has a name.
pub(crate) fn has_package(sources: &[MachineSource], name: &str) -> bool
    ensures { result ≡ has_package sources.now name.now }
{
    sources.iter().any(|source| is_package(source, name))
}

// Returns whether a source is the crontab of a package with this name.
fn is_package(source: &MachineSource, name: &str) -> bool
    ensures { result ≡ is_package source.now name.now }
{
    match source.kind() {
        SourceKind::CronD => source.name() == name,
        _ => false,
    }
}

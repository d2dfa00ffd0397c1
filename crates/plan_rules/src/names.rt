//! Names, each once.

ghost use Rattle.std.specs.Prelude.{◌≡◌, [], OnErr, OnOk, length, slice_get, take};
ghost use Rattle.std.specs.List.{list_any};
ghost use Rattle.std.specs.Option.{option_map};
ghost use Rattle.std.specs.Str.{bytes_eq};
ghost use Rattle.plan_rules.specs.Names.{with_name};

use indexmap::IndexSet;
use std::alloc::{AllocError, Global};
use std::marker::Model;

/// Names, each once, in the order in which they were added. Contracts see this value as a list.
#[derive(Drop)]
pub struct Names {
    kept: IndexSet<String>,
}

impl Model for Names {
    ghost use Rattle.std.specs.Prelude.{ℕ, List, map, string_bytes};

    ghost Value = { List (List ℕ) };

    ghost view = { λ names. map string_bytes names.kept.keys };
}

impl Names {
    /// Returns an empty list. This allocates nothing.
    pub fn new(alloc: Global) -> Names
        ensures { result ≡ [] }
    {
        Names {
            kept: IndexSet::new(alloc),
        }
    }

    /// Returns the number of names.
    pub fn len(&self) -> usize
        ensures { result ≡ length self.now }
    {
        self.kept.len()
    }

    /// Returns the name at a place, from 0.
    pub fn get(&self, place: usize) -> Option<&str>
        ensures { option_map (λ name. name.now) result ≡ slice_get self.now place }
    {
        let name = self.kept.get_index(place)?;
        Some(name.as_str())
    }

    /// Returns whether a name is among them.
    pub fn contains(&self, name: &str) -> bool
        ensures { result ≡ list_any (bytes_eq name.now) self.now }
    {
        self.kept.contains(name)
    }

    /// Adds a name at the end, unless it is among them.
    ///
    /// # Errors
    ///
    /// `AllocError` if an allocation fails. The names are unchanged then.
    pub fn add(&mut self, alloc: Global, name: &str) -> Result<(), AllocError>
        ensures added { OnOk result (self.new ≡ with_name self.old name.now) }
        ensures unchanged { OnErr result (self.new ≡ self.old) }
    {
        if self.contains(name) {
            return Ok(());
        }
        let name = String::from_str(alloc, name)?;
        self.kept.insert(name)?;
        Ok(())
    }

    // Keeps the first names, as many as given, and removes the others.
    pub(crate) fn truncate(&mut self, len: usize)
        ensures { self.new ≡ take len self.old }
    {
        self.kept.truncate(len);
    }
}

//! The names of jobs that the arguments give.
ghost use Rattle.std.specs.Prelude.{◌≡◌, ◌++◌, ◌∷◌, [], IfErr, IfOk, if◌then◌else◌, is_ok};
ghost use Rattle.clap.specs.Words.{found_of, rows_of};
ghost use Rattle.agenda_arguments.specs.Values.{all_values};

use crate::values::{text, values_of};
use clap::ArgMatches;
use plan_texts::Text;
use std::alloc::{AllocError, AllocFailed, Global};
use std::marker::Model;

/// Names of jobs, in the order of the arguments. Contracts see this value as a list.
#[derive(Debug, Drop)]
pub struct JobNames {
    kept: Vec<Text>,
}

impl Model for JobNames {
    ghost use Rattle.std.specs.Prelude.{List, ℕ};

    ghost Value = { List (List ℕ) };

    ghost view = { λ names. names.kept.items };
}

impl JobNames {
    /// Returns an empty list. This requests no memory; `push` requests what it needs from `alloc`.
    pub fn new(alloc: Global) -> JobNames
        ensures { result ≡ [] }
    {
        JobNames {
            kept: Vec::new(alloc),
        }
    }

    /// Appends a name.
    ///
    /// # Errors
    ///
    /// `AllocFailed`, with the name, if an allocation fails. The list is unchanged then.
    pub fn push(&mut self, name: Text) -> Result<(), AllocFailed<Text>>
        ensures list { self.new ≡ (if is_ok result then self.old ++ name ∷ [] else self.old) }
        ensures returned { IfErr result (λ failed. failed.value ≡ name) }
    {
        self.kept.push(name)
    }

    /// Lends the names.
    pub fn as_slice(&self) -> &[Text]
        ensures { result.now ≡ self.now }
    {
        self.kept.as_slice()
    }
}

/// Returns the names that are the values of an option, which may be given any number of times.
///
/// # Errors
///
/// An allocation failed.
pub(crate) fn names_of(
    alloc: Global,
    given: &ArgMatches<'_>,
    option: &str,
) -> Result<JobNames, AllocError>
    ensures { IfOk result (λ names. names ≡ all_values option.now (rows_of (found_of given.now))) }
{
    let mut names = JobNames::new(alloc);
    let Some(written) = values_of(given, option) else {
        return Ok(names);
    };
    for name in written {
        names.push(text(alloc, name)?)?;
    }
    Ok(names)
}

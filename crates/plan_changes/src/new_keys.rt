//! The keys of the starts of a new agenda.

ghost use Rattle.std.specs.Prelude.{IfOk, OnOk, map};
ghost use Rattle.plan_changes.specs.Keys.{AreKeysOf, AreNumbersOf, HaveStayed, key_of_entry};
ghost use Rattle.plan_changes.specs.Lines.{lines_of};

use crate::job_lines::JobLines;
use crate::keys::{Key, Keys, RunTexts};
use plan_collect::Start;
use std::alloc::{AllocError, Global};

/// The keys of the starts of a new agenda, by its entries.
#[derive(Drop)]
pub(crate) struct NewKeys<'a> {
    entries: &'a [Start],
    // The numbers of what jobs run, by the numbers of the jobs.
    numbers: Vec<usize>,
    // The number of the empty text, which other jobs run.
    empty: usize,
}

impl<'a> NewKeys<'a> {
    /// Makes the keys of entries, in order, of jobs with these lines. What the jobs run is added to texts.
    ///
    /// # Errors
    ///
    /// `AllocError` if an allocation fails.
    pub(crate) fn new<'b>(
        alloc: Global,
        entries: &'a [Start],
        jobs: &'b JobLines,
        texts: &mut RunTexts<'b>,
    ) -> Result<NewKeys<'a>, AllocError>
        ensures keys { IfOk result (λ keys. AreKeysOf texts.new (lines_of jobs.now entries.now)
            (map (key_of_entry keys.numbers.items keys.empty) keys.entries.now)) }
        ensures stay { OnOk result (HaveStayed texts.old texts.new) }
    {
        let numbers = numbers_of(alloc, jobs, texts)?;
        let empty = texts.number_of(b"")?;
        Ok(NewKeys {
            entries,
            numbers,
            empty,
        })
    }
}

impl<'a> Keys for NewKeys<'a> {
    ghost use Rattle.std.specs.Prelude.{map};
    ghost use Rattle.plan_changes.specs.Keys.{key_of_entry};

    ghost keys = { λ keys. map (key_of_entry keys.numbers.items keys.empty) keys.entries.now };

    #[inline(always)]
    fn len(&self) -> usize {
        self.entries.len()
    }

    #[inline(always)]
    fn at(&self, place: usize) -> Key {
        let entry = self.entries[place];
        let runs = match self.numbers.get(entry.job() as usize) {
            Some(number) => *number,
            None => self.empty,
        };
        Key {
            second: entry.second(),
            runs,
        }
    }
}

// Returns the numbers of what jobs run, by the numbers of the jobs.
fn numbers_of<'a>(
    alloc: Global,
    jobs: &'a JobLines,
    texts: &mut RunTexts<'a>,
) -> Result<Vec<usize>, AllocError>
    ensures numbers { IfOk result (λ numbers. AreNumbersOf texts.new jobs.now numbers.items) }
    ensures stay { OnOk result (HaveStayed texts.old texts.new) }
{
    let mut numbers = Vec::with_capacity(alloc, jobs.len())?;
    for job in 0..jobs.len() {
        let (_, runs) = jobs.get(job);
        let number = texts.number_of(runs)?;
        numbers.push(number)?;
    }
    Ok(numbers)
}

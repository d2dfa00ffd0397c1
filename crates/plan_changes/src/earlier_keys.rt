//! The keys of the starts of an earlier agenda.

ghost use Rattle.std.specs.Prelude.{◌≡◌, ◌≤◌, IfOk, OnOk, map};
ghost use Rattle.plan_sets.specs.Limits.{end_second};
ghost use Rattle.plan_changes.specs.Changes.{AreAscending};
ghost use Rattle.plan_changes.specs.Keys.{AreKeysOf, HaveStayed, key_of_start};

use crate::keys::{Key, Keys, RunTexts};
use plan_baseline::Baseline;
use plan_collect::Start;
use std::alloc::{AllocError, Global};

// The numbers of texts are below this, as those of jobs are in a `Start`.
const MOST_TEXTS: usize = 1_048_576;

/// The keys of the starts of an earlier agenda. A key takes 8 bytes.
#[derive(Drop)]
pub(crate) struct EarlierKeys {
    // Each start has the number of what it runs in place of that of its job.
    starts: Vec<Start>,
}

impl EarlierKeys {
    /// Makes the keys of the starts of an agenda, in order. What they run is added to texts.
    ///
    /// # Errors
    ///
    /// `AllocError` if an allocation fails.
    pub(crate) fn new<'a>(
        alloc: Global,
        agenda: &'a Baseline,
        texts: &mut RunTexts<'a>,
    ) -> Result<EarlierKeys, AllocError>
        ensures keys { IfOk result (λ keys. AreKeysOf texts.new agenda.now.lines (map key_of_start keys.starts.items)) }
        ensures ascending { AreAscending agenda.now.lines }
        ensures stay { OnOk result (HaveStayed texts.old texts.new) }
    {
        let mut starts = Vec::with_capacity(alloc, agenda.len())?;
        for place in 0..agenda.len() {
            if let Some(line) = agenda.get(place) {
                let runs = texts.number_of(line.runs)?;
                let start = start_of(line.second, runs)?;
                starts.push(start)?;
            }
        }
        Ok(EarlierKeys { starts })
    }
}

impl Keys for EarlierKeys {
    ghost use Rattle.std.specs.Prelude.{map};
    ghost use Rattle.plan_changes.specs.Keys.{key_of_start};

    ghost keys = { λ keys. map key_of_start keys.starts.items };

    #[inline(always)]
    fn len(&self) -> usize {
        self.starts.len()
    }

    #[inline(always)]
    fn at(&self, place: usize) -> Key {
        let start = self.starts[place];
        Key {
            second: start.second(),
            runs: start.job() as usize,
        }
    }
}

// Returns a start with the number of what it runs. The number is never too high: an agenda has at most 1,000,000 starts.
fn start_of(second: u64, runs: usize) -> Result<Start, AllocError>
    requires { second ≤ end_second }
    ensures { IfOk result (λ start. start ≡ (second, runs)) }
{
    if runs >= MOST_TEXTS {
        return Err(AllocError);
    }
    Ok(Start::new(second, runs as u32))
}

//! What the lines of an agenda say of each job.

ghost use Rattle.std.specs.Prelude.{◌≡◌, IfOk, length, map};
ghost use Rattle.plan_changes.specs.Lines.{job_texts, texts_at};

use plan_rules::{Job, Jobs};
use std::alloc::{AllocError, Global};
use std::marker::Model;

/// For each job of an agenda, by its number, its name and what it runs: its user, if it has one, a space, and its command.
#[derive(Debug, Drop)]
pub struct JobLines {
    texts: Vec<JobTexts>,
}

impl Model for JobLines {
    ghost use Rattle.std.specs.Prelude.{ℕ, List};

    ghost Value = { List (List ℕ × List ℕ) };

    ghost view = { λ jobs. jobs.texts.items };
}

impl JobLines {
    /// Makes the lines of jobs.
    ///
    /// # Errors
    ///
    /// `AllocError` if an allocation fails.
    pub fn new(alloc: Global, jobs: &Jobs) -> Result<JobLines, AllocError>
        ensures { IfOk result (λ lines. lines ≡ map job_texts jobs.now) }
    {
        let mut texts = Vec::with_capacity(alloc, jobs.len())?;
        for number in 0..jobs.len() {
            if let Some(job) = jobs.get(number) {
                texts.push(JobTexts::new(alloc, job)?)?;
            }
        }
        Ok(JobLines { texts })
    }

    /// Returns the number of jobs.
    pub fn len(&self) -> usize
        ensures { result ≡ length self.now }
    {
        self.texts.len()
    }

    /// Returns the name of the job with a number, from 0, and what it runs. Both are empty if there is no such job.
    pub fn get(&self, number: usize) -> (&[u8], &[u8])
        ensures { (result.0.now, result.1.now) ≡ texts_at self.now number }
    {
        match self.texts.get(number) {
            Some(texts) => (&texts.name, &texts.runs),
            None => (b"", b""),
        }
    }
}

// The name of a job and what it runs.
#[derive(Debug, Drop)]
struct JobTexts {
    name: Vec<u8>,
    runs: Vec<u8>,
}

impl Model for JobTexts {
    ghost use Rattle.std.specs.Prelude.{ℕ, List};

    ghost Value = { List ℕ × List ℕ };

    ghost view = { λ texts. (texts.name.items, texts.runs.items) };
}

impl JobTexts {
    // Makes the texts of a job.
    fn new(alloc: Global, job: &Job) -> Result<JobTexts, AllocError>
        ensures { IfOk result (λ texts. texts ≡ job_texts job.now) }
    {
        let (name, command) = (job.name(), job.command());
        let name = format!(in alloc; "{name}")?;
        let runs = match job.user() {
            Some(user) => format!(in alloc; "{user} {command}")?,
            None => format!(in alloc; "{command}")?,
        };
        Ok(JobTexts {
            name: name.into_bytes(),
            runs: runs.into_bytes(),
        })
    }
}

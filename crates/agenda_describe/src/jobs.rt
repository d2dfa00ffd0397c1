//! The sentences of jobs.

ghost use Rattle.std.specs.Prelude.{◌≡◌, IfOk, map, option_map};
ghost use Rattle.agenda_describe.specs.Jobs.{bytes_of_timer, described, is_timer_named, job_sentence, rule_sentence};

use crate::known::KnownRules;
use crate::timer::timer_sentence;
use agenda_sources::{Source, Sources};
use agenda_table::runs_of;
use plan_rules::{EventZones, Job, Jobs, Rule, SourceKind, Text};
use std::alloc::{AllocError, Global};
use std::marker::Model;

/// A job, with what its rule means.
#[derive(Debug, Drop)]
pub struct DescribedJob {
    /// The name of the job.
    pub name: Text,
    /// The sentence of its rule. For a timer these are the sentences of its events, joined by `; `.
    pub rule: Text,
    /// The user that runs the command, if the job's line names one.
    pub user: Option<Text>,
    /// The command, or the unit that a timer starts.
    pub command: Text,
    /// What the job runs: its user, if it has one, a space, and its command.
    pub runs: Text,
}

/// Jobs, each with what its rule means. Contracts see this value as a list.
#[derive(Drop)]
pub struct Descriptions {
    jobs: Vec<DescribedJob>,
}

impl Model for Descriptions {
    ghost use Rattle.std.specs.Prelude.{List};
    ghost use Rattle.agenda_describe.specs.declared.jobs.DescribedJob.{DescribedJob};

    ghost Value = { List DescribedJob };

    ghost view = { λ descriptions. descriptions.jobs.items };
}

impl Descriptions {
    /// Describes jobs, in order, which were read from these sources. Events may name these zones.
    ///
    /// # Errors
    ///
    /// `AllocError` if an allocation fails.
    pub fn new(
        alloc: Global,
        jobs: &Jobs,
        sources: &Sources,
        zones: &EventZones,
    ) -> Result<Descriptions, AllocError>
        ensures { IfOk result (λ descriptions. descriptions ≡ map (described zones.now sources.now) jobs.now) }
    {
        let mut known = KnownRules::new(alloc);
        let mut found = Vec::with_capacity(alloc, jobs.len())?;
        for number in 0..jobs.len() {
            if let Some(job) = jobs.get(number) {
                found.push(described(alloc, job, &mut known, sources, zones)?)?;
            }
        }
        Ok(Descriptions { jobs: found })
    }

    /// Returns the jobs, in order.
    pub fn as_slice(&self) -> &[DescribedJob]
        ensures { result.now ≡ self.now }
    {
        &self.jobs
    }
}

// Describes a job.
fn described<'a>(
    alloc: Global,
    job: &'a Job,
    known: &mut KnownRules<'a>,
    sources: &Sources,
    zones: &EventZones,
) -> Result<DescribedJob, AllocError>
    ensures { IfOk result (λ one. one ≡ described zones.now sources.now job.now) }
{
    let rule = job_sentence(alloc, job, known, sources, zones)?;
    let user = match job.user() {
        Some(user) => Some(copy_of(alloc, user)?),
        None => None,
    };
    Ok(DescribedJob {
        name: copy_of(alloc, job.name())?,
        rule,
        user,
        command: copy_of(alloc, job.command())?,
        runs: runs_of(alloc, job)?,
    })
}

/// Returns a copy of a text.
///
/// # Errors
///
/// `AllocError` if an allocation fails.
pub(crate) fn copy_of(alloc: Global, text: &str) -> Result<Text, AllocError>
    ensures { IfOk result (λ copy. copy ≡ text.now) }
{
    Ok(Text::new(String::from_str(alloc, text)?))
}

// Returns the sentence of a job.
fn job_sentence<'a>(
    alloc: Global,
    job: &'a Job,
    known: &mut KnownRules<'a>,
    sources: &Sources,
    zones: &EventZones,
) -> Result<Text, AllocError>
    ensures { IfOk result (λ text. text ≡ job_sentence zones.now sources.now job.now) }
{
    let bytes = bytes_of_timer(sources.as_slice(), job.name());
    rule_sentence(alloc, job.rule(), known, bytes, zones)
}

// Returns the sentence of a rule. That of events is the one of the timer with these bytes.
fn rule_sentence<'a>(
    alloc: Global,
    rule: &'a Rule,
    known: &mut KnownRules<'a>,
    bytes: &[u8],
    zones: &EventZones,
) -> Result<Text, AllocError>
    ensures { IfOk result (λ text. text ≡ rule_sentence zones.now bytes.now rule.now) }
{
    match rule {
        Rule::Events(_) => timer_sentence(alloc, bytes, zones),
        Rule::Cron(_) | Rule::Never => known.sentence(alloc, rule),
    }
}

// Returns the bytes of the timer with a name, which are empty if there is none.
fn bytes_of_timer<'a>(sources: &'a [Source], name: &str) -> &'a [u8]
    ensures { result.now ≡ bytes_of_timer sources.now name.now }
{
    for source in sources {
        if is_timer_named(source, name) {
            return source.bytes.as_slice();
        }
    }
    &[]
}

// Returns whether a source is the timer with a name.
fn is_timer_named(source: &Source, name: &str) -> bool
    ensures { result ≡ is_timer_named name.now source.now }
{
    matches!(source.kind, SourceKind::Timer) && source.name.as_str() == name
}

//! The idle jobs in what the daemons of a machine load: they start, but run nothing that has an effect.

ghost use Rattle.std.specs.Prelude.{◌≡◌, true, IfOk, map};
ghost use Rattle.agenda_machine.specs.Idle.{idle_report, kept_text, path_of, whose_crontab, whose_idle};
ghost use Rattle.plan_rules.specs.FileText.{text_reading};
ghost use Rattle.plan_runs.specs.Idle.{active_crontab};

use plan_machine::{MachineSource, NotPlanned, Unplanned};
use plan_rules::{Kind, SourceKind};
use plan_runs::{ActiveCrontab, IdleJob, active_crontab};
use plan_texts::Text;
use plan_tree::Tree;
use std::alloc::{AllocError, Global};

// What a plan reads of a text that is loaded, and what isn't planned of it.
#[derive(Drop)]
pub(crate) struct Kept {
    // The text.
    pub(crate) text: Vec<u8>,
    // The idle jobs that aren't planned.
    pub(crate) reports: Vec<NotPlanned>,
}

// Returns what a plan reads of a text that is loaded of a source: all of it with `idle`, and otherwise what isn't idle.
pub(crate) fn kept_of<T: Tree>(
    alloc: Global,
    tree: &T,
    idle: bool,
    source: &MachineSource,
    text: Vec<u8>,
) -> Result<Kept, AllocError>
    ensures text { T.is_known ≡ true → IfOk result (λ kept.
        kept.text.items ≡ (kept_text (T.held tree.now) idle source.now.kind source.now.name text.items).text) }
    ensures reports { T.is_known ≡ true → IfOk result (λ kept.
        kept.reports.items
        ≡ map (idle_report (path_of source.now)) (kept_text (T.held tree.now) idle source.now.kind source.now.name text.items).idle) }
{
    match whose_idle(idle, source.kind()) {
        None => Ok(Kept {
            text,
            reports: Vec::new(alloc),
        }),
        Some(kind) => without_idle(alloc, tree, kind, source, text.as_slice()),
    }
}

// Returns whose crontab a source of a kind is, if its idle jobs aren't planned.
fn whose_idle(idle: bool, kind: SourceKind) -> Option<Kind>
    ensures { result ≡ whose_idle idle kind }
{
    if idle { None } else { whose_crontab(kind) }
}

// Returns whose crontab a source of a kind is, if it is one.
pub(crate) fn whose_crontab(kind: SourceKind) -> Option<Kind>
    ensures { result ≡ whose_crontab kind }
{
    match kind {
        SourceKind::Crontab | SourceKind::Spool => Some(Kind::User),
        SourceKind::System | SourceKind::CronD => Some(Kind::System),
        SourceKind::Timer => None,
    }
}

// Returns a crontab without its idle jobs, which aren't planned.
fn without_idle<T: Tree>(
    alloc: Global,
    tree: &T,
    kind: Kind,
    source: &MachineSource,
    text: &[u8],
) -> Result<Kept, AllocError>
    ensures text { T.is_known ≡ true → IfOk result (λ kept.
        kept.text.items ≡ (active_crontab (T.held tree.now) kind source.now.name text.now (text_reading text.now)).text) }
    ensures reports { T.is_known ≡ true → IfOk result (λ kept.
        kept.reports.items
        ≡ map (idle_report (path_of source.now)) (active_crontab (T.held tree.now) kind source.now.name text.now (text_reading text.now)).idle) }
{
    let ActiveCrontab { text, idle } = active_crontab(alloc, tree, kind, source.name(), text)?;
    let reports = reports_of(alloc, path_of(source), idle)?;
    Ok(Kept { text, reports })
}

// Returns the path of the first file of a source, or the empty text if it has none.
fn path_of(source: &MachineSource) -> &str
    ensures { result.now ≡ path_of source.now }
{
    match source.parts().files().first() {
        Some(file) => file.path(),
        None => "",
    }
}

// Returns that some idle jobs of the file with this path aren't planned.
fn reports_of(alloc: Global, path: &str, jobs: Vec<IdleJob>) -> Result<Vec<NotPlanned>, AllocError>
    ensures { IfOk result (λ reports. reports.items ≡ map (idle_report path.now) jobs.items) }
{
    let mut reports = Vec::with_capacity(alloc, jobs.len())?;
    for job in jobs {
        reports.push(idle_report(alloc, path, job)?)?;
    }
    Ok(reports)
}

// Returns that an idle job of the file with this path isn't planned.
fn idle_report(alloc: Global, path: &str, job: IdleJob) -> Result<NotPlanned, AllocError>
    ensures { IfOk result (λ report. report ≡ idle_report path.now job) }
{
    let IdleJob { line, why } = job;
    Ok(NotPlanned {
        path: Text::new(String::from_str(alloc, path)?),
        why: Unplanned::Idle(line, why),
    })
}

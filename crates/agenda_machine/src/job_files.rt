//! The files that the jobs of a machine come from, their lines there, by the names of the jobs, and the scripts of these lines.

ghost use Rattle.std.specs.Prelude.{◌≡◌, true, IfOk};
ghost use Rattle.std.specs.Char.{is_ascii_digit};
ghost use Rattle.std.specs.List.{list_all};
ghost use Rattle.std.specs.Option.{option_map};
ghost use Rattle.agenda_machine.specs.JobFiles.{LinesAreInNames, cut_name, file_among, file_in, file_with, files_among, files_of_jobs, label_of, line_by};

use crate::places::path_in;
use crate::scripts::{ScriptedSource, scripted_sources, scripts_of};
use plan_machine::MachineSource;
use plan_rules::{Jobs, SourceKind};
use plan_texts::Text;
use plan_tree::Tree;
use plan_write::JobFile;
use std::alloc::{AllocError, Global};

/// Returns the file that each job of a machine's sources comes from, in the order of the jobs.
///
/// A path is `root`, a `/`, and the path on the machine: of a crontab, or of the unit file of a timer. The line is the number
/// at the end of the name of a crontab's job; the job of a timer has no line. The scripts are those that the job's line runs by
/// run-parts, as `scripts_of_lines` of plan_runs finds them: their paths are those on the machine, without `root`.
///
/// # Errors
///
/// `AllocError` if an allocation fails.
pub fn files_of_jobs<T: Tree>(
    alloc: Global,
    tree: &T,
    root: &str,
    sources: &[MachineSource],
    jobs: &Jobs,
) -> Result<Vec<JobFile>, AllocError>
    ensures { T.is_known ≡ true → IfOk result (λ files.
        files.items ≡ files_of_jobs (T.held tree.now) root.now sources.now jobs.now) }
{
    let scripted = scripted_sources(alloc, tree, sources)?;
    files_among(alloc, root, scripted.as_slice(), jobs)
}

/// States the law of lines: the line that `files_of_jobs` reads from the name of a crontab's job is the one that the name was
/// made with.
///
/// The function does nothing: its contract is the law.
pub fn lines_are_in_names()
    ensures { LinesAreInNames }
{}

// Returns the file of each job, which is one of these sources.
fn files_among(
    alloc: Global,
    root: &str,
    sources: &[ScriptedSource<'_>],
    jobs: &Jobs,
) -> Result<Vec<JobFile>, AllocError>
    ensures { IfOk result (λ files. files.items ≡ files_among root.now sources.now jobs.now) }
{
    let mut files = Vec::with_capacity(alloc, jobs.len())?;
    for number in 0..jobs.len() {
        if let Some(job) = jobs.get(number) {
            files.push(file_among(alloc, root, sources, job.name())?)?;
        }
    }
    Ok(files)
}

// Returns the file of the job with a name, which is one of these sources.
fn file_among(
    alloc: Global,
    root: &str,
    sources: &[ScriptedSource<'_>],
    job: &str,
) -> Result<JobFile, AllocError>
    ensures { IfOk result (λ file. file ≡ file_among root.now sources.now job.now) }
{
    for source in sources {
        if let Some(file) = file_in(alloc, root, source, job)? {
            return Ok(file);
        }
    }
    Ok(JobFile {
        path: Text::new(String::new(alloc)),
        line: None,
        scripts: Vec::new(alloc),
    })
}

// Returns the file of the job with a name, if the job is one of this source.
fn file_in(
    alloc: Global,
    root: &str,
    known: &ScriptedSource<'_>,
    job: &str,
) -> Result<Option<JobFile>, AllocError>
    ensures { IfOk result (λ file. file ≡ file_in root.now known.now job.now) }
{
    let source = known.source;
    match source.kind() {
        SourceKind::Timer => {
            if source.name() == job {
                file_with(alloc, root, known, None)
            } else {
                Ok(None)
            }
        }
        kind => match line_in(label_of(kind, source.name()), job) {
            Some(line) => file_with(alloc, root, known, Some(line)),
            None => Ok(None),
        },
    }
}

// Returns what comes before the colon in the names of a crontab's jobs.
pub(crate) fn label_of(kind: SourceKind, name: &str) -> &str
    ensures { result.now ≡ label_of kind name.now }
{
    match kind {
        SourceKind::Crontab => "cron",
        SourceKind::System => "system",
        SourceKind::CronD | SourceKind::Spool | SourceKind::Timer => name,
    }
}

// Returns the number of the line of the job with a name, if it is a job of the crontab with this label.
fn line_in<'a>(label: &str, job: &'a str) -> Option<&'a str>
    ensures { option_map (λ line. line.now) result ≡ line_by label.now (cut_name job.now) }
{
    match cut_name(job) {
        Some((name, line)) if name == label && has_only_digits(line) => Some(line),
        _ => None,
    }
}

// Returns what comes before and after the first colon of a name.
#[tactic(auto, unfolding(crate::specs::JobFiles::cut_name))]
pub(crate) fn cut_name(name: &str) -> Option<(&str, &str)>
    ensures { option_map (λ cut. (cut.0.now, cut.1.now)) result ≡ cut_name name.now }
{
    let (label, line) = name.split_once(':')?;
    Some((label, line))
}

// Returns whether a text has only digits.
pub(crate) fn has_only_digits(text: &str) -> bool
    ensures { result ≡ list_all is_ascii_digit text.now }
{
    text.as_bytes().iter().all(|byte| byte.is_ascii_digit())
}

// Returns the first file of a source, with the line of a job and its scripts.
fn file_with(
    alloc: Global,
    root: &str,
    known: &ScriptedSource<'_>,
    line: Option<&str>,
) -> Result<Option<JobFile>, AllocError>
    ensures { IfOk result (λ file. file ≡ file_with root.now known.now (option_map (λ line. line.now) line.entry)) }
{
    let source = known.source;
    let Some(file) = source.parts().files().first() else {
        return Ok(None);
    };
    let path = path_in(alloc, root, file.path(), true)?;
    let scripts = scripts_of(alloc, known.lines.as_slice(), line)?;
    let line = copy_of(alloc, line)?;
    Ok(Some(JobFile {
        path,
        line,
        scripts,
    }))
}

// Returns a copy of the line of a job.
fn copy_of(alloc: Global, line: Option<&str>) -> Result<Option<Text>, AllocError>
    ensures { IfOk result (λ copy. copy ≡ option_map (λ line. line.now) line.entry) }
{
    match line {
        Some(line) => Ok(Some(Text::new(String::from_str(alloc, line)?))),
        None => Ok(None),
    }
}

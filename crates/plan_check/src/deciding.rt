//! The one error that decides among the findings of a file, for a reader that makes jobs of whole files only.

ghost use Rattle.std.specs.Prelude.{◌≡◌, [], unwrap_or};
ghost use Rattle.plan_rules.specs.LineFaults.{fault_on_line};
ghost use Rattle.plan_check.specs.Deciding.{deciding, early_fault, first_early, late_fault};

use crate::finding::{Finding, FindingKind};
use plan_rules::{LineCause, LineFault, Text};
use std::alloc::Global;

/// Why no jobs are made of a file: the error that decides.
#[derive(Debug, Drop)]
pub enum FileFault {
    /// The file's name, its text or one of its lines is rejected. The cause is never `NoMemory`.
    Rejected(LineFault),
    /// A job has this name, which another job has.
    SameName(Text),
    /// There are more than 1,000 jobs.
    Full,
}

/// Returns the error that decides among the findings of a file, which are errors, if no file before it has any: the
/// first error of its name, of its text or of a line; else that a timer file has no `[Timer]` section; else the first
/// error of a job's name. This requests no memory.
pub fn deciding_fault(alloc: Global, found: Vec<Finding>) -> Option<FileFault>
    ensures { result ≡ deciding found.items }
{
    if let Some(fault) = first_early(found.as_slice()) {
        return Some(FileFault::Rejected(fault));
    }
    let first = found.into_iter().next()?;
    Some(late_fault(alloc, first))
}

// Returns the error of a finding that decides if no error of the file's name, of its text or of a line does.
fn late_fault(alloc: Global, finding: Finding) -> FileFault
    ensures { result ≡ late_fault finding.line finding.kind finding.quote }
{
    match finding.kind {
        FindingKind::Rejected(cause) => FileFault::Rejected(fault_on(finding.line, cause)),
        FindingKind::SameName => FileFault::SameName(name_in(alloc, finding.quote)),
        FindingKind::Full | FindingKind::Warned(_) | FindingKind::Denied(_) => FileFault::Full,
    }
}

// Returns the name that a finding quotes, or an empty text.
fn name_in(alloc: Global, quote: Option<Text>) -> Text
    ensures { result ≡ unwrap_or quote [] }
{
    match quote {
        Some(name) => name,
        None => Text::new(String::new(alloc)),
    }
}

// Returns the first error among findings that decides before any other.
fn first_early(found: &[Finding]) -> Option<LineFault>
    ensures { result ≡ first_early found.now }
{
    for finding in found {
        let fault = early_fault(finding);
        if fault.is_some() {
            return fault;
        }
    }
    None
}

// Returns the error of a finding that decides before any other: of a file's name, of its text or of a line.
fn early_fault(finding: &Finding) -> Option<LineFault>
    ensures { result ≡ early_fault finding.now.line finding.now.kind }
{
    match (finding.line, finding.kind) {
        (0, FindingKind::Rejected(LineCause::NoTimerSection)) => None,
        (line, FindingKind::Rejected(cause)) => Some(fault_on(line, cause)),
        _ => None,
    }
}

// Returns the error of a line with a number, from 1, or of the whole file, which is 0.
fn fault_on(line: u32, cause: LineCause) -> LineFault
    ensures { result ≡ fault_on_line line cause }
{
    match cause {
        LineCause::NoMemory => LineFault { line: 0, cause },
        _ => LineFault { line, cause },
    }
}

//! Finds all errors of crontabs and timer files, and warns of what may not be meant.

ghost use Rattle.std.specs.Prelude.{◌≡◌, [], IfOk, IsTrue, OnOk, false};
ghost use Rattle.std.specs.List.{list_all};
ghost use Rattle.plan_check.specs.Finding.{is_warning};
ghost use Rattle.agenda_sources.specs.Findings.{is_all_clean};
ghost use Rattle.agenda_commands.specs.Command.{Outputs};
ghost use Rattle.agenda_commands.specs.Check.{check_output, reading_checked, sources_checked, checked_of};

use agenda_faults::RunFault;
use agenda_findings::write_findings;
use agenda_policy::{Policy, errors_need_no_policy, judged};
use agenda_sources::{Found, SourcePath, Sources, TimeZones, findings_of_sources};
use plan_check::FindingKind;
use plan_streams::Stream;
use std::alloc::Global;

/// Whether a check found an error.
#[derive(Clone, Copy, Debug, PartialEq, Eq)]
pub enum Checked {
    /// There is no error.
    WithoutErrors,
    /// There is at least one error.
    WithErrors,
}

/// Writes the findings on the sources that are reported under a policy, one line for each, in the order of the
/// sources. Returns whether there is an error.
///
/// A warning that the policy denies is an error. Without such a warning, there is an error exactly if the sources make no
/// list of jobs.
///
/// A line has the path of the source, which is at the same place in `paths`, then the number of the line,
/// unless the finding is about the whole file, then whether it is an error or a warning, the message in words, and
/// the code: `PATH:LINE: error: MESSAGE [CODE]`. In JSON it is an object.
///
/// # Errors
///
/// `NoMemory` if an allocation failed; nothing is written then. `Device` if the stream failed, which then
/// accepted the first bytes of the text.
pub fn run_check<S: Stream>(
    alloc: Global,
    paths: &[SourcePath],
    sources: &Sources,
    zones: &TimeZones,
    policy: &Policy,
    json: bool,
    out: &mut S,
) -> Result<Checked, RunFault>
    ensures checked { IfOk result (λ checked. checked ≡ sources_checked policy.now zones.now sources.now) }
    ensures reading { policy.now.denies_all ≡ false → policy.now.denied ≡ []
        → IfOk result (λ checked. checked ≡ reading_checked zones.now sources.now) }
    ensures output { Outputs S.takes_all (check_output policy.now zones.now paths.now sources.now json) result (S.holds out.old) (S.holds out.new) }
    ensures flushed { OnOk result (IsTrue (S.is_flushed out.new)) }
{
    errors_need_no_policy();
    let found = findings_of_sources(alloc, sources, zones)?;
    let found = judged(alloc, policy, sources, found)?;
    write_findings(paths, found.as_slice(), json, out)?;
    Ok(checked_on(found.as_slice()))
}

// Returns whether there is an error among findings.
fn checked_on(found: &[Found]) -> Checked
    ensures { result ≡ checked_of (is_all_clean found.now) }
{
    if are_warnings(found) {
        Checked::WithoutErrors
    } else {
        Checked::WithErrors
    }
}

/// Returns whether all findings are warnings, so that none is an error.
pub fn are_warnings(found: &[Found]) -> bool
    ensures { result ≡ is_all_clean found.now }
{
    all_warned(found)
}

// Does the same, finding by finding.
fn all_warned(found: &[Found]) -> bool
    ensures { result ≡ list_all (λ one. is_warning one.finding.kind) found.now }
{
    found.iter().all(|one| is_warning(one.finding.kind))
}

// Returns whether a finding is a warning, which is no error.
fn is_warning(kind: FindingKind) -> bool
    ensures { result ≡ is_warning kind }
{
    matches!(kind, FindingKind::Warned(_))
}

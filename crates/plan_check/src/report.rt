//! Functions that append a finding to those before it.

ghost use Rattle.std.specs.Prelude.{◌≡◌, ◌<◌, ◌++◌, ◌∷◌, [], IfOk, IfSome, IsOk, None, OnOk, Some, option_map, vec_capacity, vec_len};
ghost use Rattle.plan_check.specs.Finding.{detailed_if, error_at, finding_at, found_if, found_with};
ghost use Rattle.plan_check.specs.Known.{after_job, job_findings, name_fault, name_quote};
ghost use Rattle.plan_check.specs.declared.finding.FindingKind.TheVariants as kind;

use crate::finding::{Finding, FindingKind, Warning};
use crate::known::Known;
use plan_rules::{Job, LineCause};
use plan_texts::Text;
use std::alloc::{AllocError, Global};

// Adds a finding of a line, or of the whole file, which is line 0, if `is_so`. Its message quotes nothing.
pub(crate) fn add_if(
    found: &mut Vec<Finding>,
    is_so: bool,
    line: u32,
    kind: FindingKind,
) -> Result<(), AllocError>
    ensures { OnOk result (found.new.items ≡ found.old.items ++ found_if is_so line kind None) }
{
    if is_so {
        let quote = None;
        found.push(Finding {
            line,
            kind,
            quote,
            detail: None,
        })?;
    }
    Ok(())
}

// Adds a finding of a line, or of the whole file, which is line 0, whose message quotes a text, if `is_so`.
pub(crate) fn add_quoting_if(
    alloc: Global,
    found: &mut Vec<Finding>,
    is_so: bool,
    line: u32,
    kind: FindingKind,
    quote: &str,
) -> Result<(), AllocError>
    ensures { OnOk result (found.new.items ≡ found.old.items ++ found_if is_so line kind (Some quote.now)) }
{
    if is_so {
        let quote = Some(kept(alloc, quote)?);
        found.push(Finding {
            line,
            kind,
            quote,
            detail: None,
        })?;
    }
    Ok(())
}

// Adds a finding of a line, or of the whole file, which is line 0, if there is something that its message ends with.
pub(crate) fn add_detailed(
    found: &mut Vec<Finding>,
    line: u32,
    kind: FindingKind,
    quote: Option<Text>,
    detail: Option<Text>,
) -> Result<(), AllocError>
    ensures { OnOk result (found.new.items ≡ found.old.items
        ++ found_with detail line kind quote) }
{
    if let Some(detail) = detail {
        found.push(Finding {
            line,
            kind,
            quote,
            detail: Some(detail),
        })?;
    }
    Ok(())
}

// Adds a finding of a line, or of the whole file, which is line 0, whose message quotes a text, if there is something that
// the message ends with.
pub(crate) fn add_quoting_with(
    alloc: Global,
    found: &mut Vec<Finding>,
    line: u32,
    warning: Warning,
    quote: &str,
    detail: Option<Text>,
) -> Result<(), AllocError>
    ensures { OnOk result (found.new.items ≡ found.old.items
        ++ found_with detail line (kind.Warned warning) (Some quote.now)) }
{
    if let Some(detail) = detail {
        let quote = Some(kept(alloc, quote)?);
        found.push(Finding {
            line,
            kind: FindingKind::Warned(warning),
            quote,
            detail: Some(detail),
        })?;
    }
    Ok(())
}

// Adds a finding of a line, or of the whole file, which is line 0, whose message ends with a text, if `is_so`.
pub(crate) fn add_detailed_if(
    alloc: Global,
    found: &mut Vec<Finding>,
    is_so: bool,
    line: u32,
    kind: FindingKind,
    detail: &str,
) -> Result<(), AllocError>
    ensures { OnOk result (found.new.items ≡ found.old.items ++ detailed_if is_so line kind detail.now) }
{
    if is_so {
        let detail = Some(kept(alloc, detail)?);
        found.push(Finding {
            line,
            kind,
            quote: None,
            detail,
        })?;
    }
    Ok(())
}

// Adds an error of a line, with the text that its message quotes, and what the message ends with.
pub(crate) fn add_error(
    found: &mut Vec<Finding>,
    line: u32,
    cause: LineCause,
    quote: Option<Text>,
    detail: Option<Text>,
) -> Result<(), AllocError>
    ensures { OnOk result (found.new.items ≡ found.old.items ++ error_at line cause quote detail ∷ []) }
{
    let kind = FindingKind::Rejected(cause);
    found.push(Finding {
        line,
        kind,
        quote,
        detail,
    })?;
    Ok(())
}

// Adds a finding of a line, or of the whole file, which is line 0.
fn add(
    found: &mut Vec<Finding>,
    line: u32,
    kind: FindingKind,
    quote: Option<Text>,
) -> Result<(), AllocError>
    ensures found { OnOk result (found.new.items ≡ found.old.items ++ finding_at line kind quote ∷ []) }
    // If there is room for it, no memory is requested.
    ensures at_once { vec_len found.old < vec_capacity found.old → IsOk result }
{
    found.push(Finding {
        line,
        kind,
        quote,
        detail: None,
    })?;
    Ok(())
}

// Adds findings, in order.
pub(crate) fn add_all(found: &mut Vec<Finding>, mut more: Vec<Finding>) -> Result<(), AllocError>
    ensures found { OnOk result (found.new.items ≡ found.old.items ++ more.items) }
    // If there are none, no memory is requested.
    ensures at_once { more.items ≡ [] → IsOk result }
{
    if more.as_slice().is_empty() {
        return Ok(());
    }
    found.append(&mut more)
}

// Adds a job of a line, or of a timer, which is line 0, or else what is wrong with its name.
pub(crate) fn add_job(
    known: &mut Known,
    found: &mut Vec<Finding>,
    line: u32,
    job: Job,
) -> Result<(), AllocError>
    ensures found { OnOk result (found.new.items ≡ found.old.items ++ job_findings known.old line job.name) }
    ensures known { OnOk result (known.new ≡ after_job known.old job) }
    // If something is wrong with its name, and there is room for one finding, no memory is requested.
    ensures at_once { vec_len found.old < vec_capacity found.old → IfSome (name_fault known.old job.name) (λ _. IsOk result) }
{
    match known.name_fault(job.name()) {
        Some(FindingKind::SameName) => {
            add(found, line, FindingKind::SameName, Some(job.into_name()))
        }
        Some(kind) => {
            add(found, line, kind, None)?;
            known.add(job)
        }
        None => known.add(job),
    }
}

// Adds what is wrong with the name of a job of a line, or of a timer, which is line 0. The job isn't made.
pub(crate) fn add_name_fault(
    alloc: Global,
    known: &Known,
    found: &mut Vec<Finding>,
    line: u32,
    name: &str,
) -> Result<(), AllocError>
    ensures { OnOk result (found.new.items ≡ found.old.items ++ job_findings known.now line name.now) }
{
    if let Some(kind) = known.name_fault(name) {
        let quote = name_quote(alloc, name, kind)?;
        found.push(Finding {
            line,
            kind,
            quote,
            detail: None,
        })?;
    }
    Ok(())
}

// Returns the text that an error of a job's name quotes.
fn name_quote(alloc: Global, name: &str, kind: FindingKind) -> Result<Option<Text>, AllocError>
    ensures { IfOk result (λ quote. quote ≡ name_quote name.now kind) }
{
    match kind {
        FindingKind::SameName => Ok(Some(kept(alloc, name)?)),
        _ => Ok(None),
    }
}

// Returns a text that keeps a hint, if there is one.
pub(crate) fn kept_hint(
    alloc: Global,
    hint: Option<&'static str>,
) -> Result<Option<Text>, AllocError>
    ensures { IfOk result (λ text. text ≡ option_map (λ hint. hint.now) hint.entry) }
{
    match hint {
        Some(hint) => Ok(Some(kept(alloc, hint)?)),
        None => Ok(None),
    }
}

// Returns a text that keeps what is quoted.
pub(crate) fn kept(alloc: Global, quote: &str) -> Result<Text, AllocError>
    ensures { IfOk result (λ text. text ≡ quote.now) }
{
    Ok(Text::new(String::from_str(alloc, quote)?))
}

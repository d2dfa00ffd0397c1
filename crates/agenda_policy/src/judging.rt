//! Applies a policy, and the comments of the sources, to findings.
ghost use Rattle.std.specs.Prelude.{◌≡◌, [], IfOk, List, false};
ghost use Rattle.std.specs.Option.{option_map_or};
ghost use Rattle.agenda_sources.specs.Findings.{is_all_clean};
ghost use Rattle.agenda_sources.specs.declared.Found.{Found};
ghost use Rattle.agenda_sources.specs.declared.Source.{Source};
ghost use Rattle.agenda_policy.specs.declared.policy.Policy.{Policy};
ghost use Rattle.agenda_policy.specs.Comments.{is_allowed_on};
ghost use Rattle.agenda_policy.specs.Judged.{IsAt, IsJudged, IsOf, IsWarningJudged, denied_at, judged, judged_as};

use crate::comments::Comments;
use crate::policy::Policy;
use agenda_sources::{Found, Source, Sources};
use plan_check::{FindingKind, Warning};
use std::alloc::{AllocError, Global};

/// Returns the findings that are reported under a policy, in order.
///
/// A warning that the policy allows, or that a comment of its source allows, is left out. Any other warning that the
/// policy denies is an error. All other findings stay as they are.
///
/// # Errors
///
/// `AllocError` if an allocation fails.
pub fn judged(
    alloc: Global,
    policy: &Policy,
    sources: &Sources,
    found: Vec<Found>,
) -> Result<Vec<Found>, AllocError>
    ensures { IfOk result (λ kept. kept.items ≡ judged policy.now sources.now found.items) }
{
    let sources = sources.as_slice();
    let mut last = None;
    let mut kept = Vec::with_capacity(alloc, found.len())?;
    for one in found {
        let judgement = judge(alloc, policy, sources, last, one)?;
        last = judgement.last;
        if let Some(one) = judgement.kept {
            kept.push(one)?;
        }
    }
    Ok(kept)
}

// The comments of the source at a place.
#[derive(Drop)]
struct Read<'a> {
    place: usize,
    comments: Comments<'a>,
}

// A finding as it is reported, unless it is left out, and the comments that were read last: most often the next finding
// is in the same source.
#[derive(Drop)]
struct Judgement<'a> {
    kept: Option<Found>,
    last: Option<Read<'a>>,
}

// Returns a finding as it is reported under a policy.
fn judge<'a>(
    alloc: Global,
    policy: &Policy,
    sources: &'a [Source],
    last: Option<Read<'a>>,
    one: Found,
) -> Result<Judgement<'a>, AllocError>
    requires { IsOf sources.now last }
    ensures { IfOk result (IsJudged policy.now sources.entry.now one) }
{
    match one.finding.kind {
        FindingKind::Warned(warning) => judge_warning(alloc, policy, sources, last, one, warning),
        _ => Ok(Judgement {
            kept: Some(one),
            last,
        }),
    }
}

// Returns a finding that is this warning as it is reported under a policy.
fn judge_warning<'a>(
    alloc: Global,
    policy: &Policy,
    sources: &'a [Source],
    last: Option<Read<'a>>,
    one: Found,
    warning: Warning,
) -> Result<Judgement<'a>, AllocError>
    requires { IsOf sources.now last }
    ensures { IfOk result (IsWarningJudged policy.now sources.entry.now one warning) }
{
    if policy.allows(warning) {
        return Ok(Judgement { kept: None, last });
    }
    let last = read_at(alloc, sources, one.place, last)?;
    let allowed = is_allowed_by(alloc, &last, one.finding.line, warning)?;
    let kept = judged_as(allowed, policy.denies(warning), warning, one);
    Ok(Judgement { kept, last })
}

// Returns the comments of the source at a place, if there is one.
fn read_at<'a>(
    alloc: Global,
    sources: &'a [Source],
    place: usize,
    last: Option<Read<'a>>,
) -> Result<Option<Read<'a>>, AllocError>
    requires { IsOf sources.now last }
    ensures { IfOk result (IsAt sources.entry.now place) }
{
    match last {
        Some(read) if read.place == place => Ok(Some(read)),
        _ => match sources.get(place) {
            Some(source) => {
                let comments = Comments::new(alloc, source)?;
                Ok(Some(Read { place, comments }))
            }
            None => Ok(None),
        },
    }
}

// Returns whether comments allow a warning on the line with this number.
fn is_allowed_by(
    alloc: Global,
    read: &Option<Read<'_>>,
    number: u32,
    warning: Warning,
) -> Result<bool, AllocError>
    ensures { IfOk result (λ allowed. allowed
        ≡ option_map_or (λ read. is_allowed_on read.comments number warning) read.now false) }
{
    match read {
        Some(read) => read.comments.allow(alloc, number, warning),
        None => Ok(false),
    }
}

// Returns a finding that is this warning, by whether it is allowed and whether it is denied.
fn judged_as(allowed: bool, denied: bool, warning: Warning, one: Found) -> Option<Found>
    ensures { result ≡ judged_as allowed denied warning one }
{
    if allowed {
        None
    } else if denied {
        Some(denied_at(warning, one))
    } else {
        Some(one)
    }
}

// Returns a finding as an error.
fn denied_at(warning: Warning, one: Found) -> Found
    ensures { result ≡ denied_at warning one }
{
    let mut denied = one;
    denied.finding.kind = FindingKind::Denied(warning);
    denied
}

/// States the law of errors: without a denied warning, there is an error among the findings that are reported exactly
/// if there is one among all.
///
/// The function does nothing: its contract is the law.
pub fn errors_need_no_policy()
    ensures { (policy : Policy) → (sources : List Source) → (found : List Found) → policy.denies_all ≡ false → policy.denied ≡ []
        → is_all_clean (judged policy sources found) ≡ is_all_clean found }
{}

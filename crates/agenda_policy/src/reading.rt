//! Makes a policy of the values of `--deny` and `--allow`.
ghost use Rattle.std.specs.Prelude.{◌≡◌, IfOk, find, map};
ghost use Rattle.std.specs.List.{list_any};
ghost use Rattle.agenda_policy.specs.Policy.{has_code};
ghost use Rattle.agenda_policy.specs.Reading.{Reads, both_text, code_reading, codes_reading, is_all, is_all_of, may_name, not_warning_text, option_name, policy_reading, policy_unless, unknown_text};

use crate::code_list::CodeList;
use crate::nearest::nearest;
use crate::policy::{Policy, has_code};
use agenda_codes::Code;
use plan_texts::Text;
use std::alloc::{AllocError, Global};
use thiserror::Error;

// The value of `--deny` that stands for all warnings.
const ALL: &str = "all";

/// Why the values of `--deny` and `--allow` make no policy.
#[derive(Debug, Drop, Error)]
pub enum PolicyFault {
    /// An allocation failed.
    #[error("NoMemory")]
    NoMemory,
    /// A value is invalid. The text is that of a usage error.
    #[error("Usage")]
    Usage(Text),
}

impl From<AllocError> for PolicyFault {
    ghost use Rattle.std.specs.Prelude.{◌≡◌};
    ghost use Rattle.agenda_policy.specs.declared.reading.PolicyFault.TheVariants.{NoMemory};

    ghost from_gives = { λ _ fault. fault ≡ NoMemory };

    fn from(_error: AllocError) -> PolicyFault {
        PolicyFault::NoMemory
    }
}

// An option that names codes.
#[derive(Clone, Copy)]
enum CodeOption {
    Deny,
    Allow,
}

/// Returns the policy that the values of `--deny` and `--allow` make, in the order of the arguments.
///
/// # Errors
///
/// `Usage` if a value isn't a code, if a value of `--allow` is the code of an error, or if a code is both denied and
/// allowed; `NoMemory` if an allocation failed.
#[tactic(auto, unfolding(crate::specs::Reading::policy_reading))]
pub fn read_policy(alloc: Global, deny: &[&str], allow: &[&str]) -> Result<Policy, PolicyFault>
    ensures { Reads result (policy_reading (map (λ value. value.now) deny.now) (map (λ value. value.now) allow.now)) }
{
    let denied = codes_of(alloc, CodeOption::Deny, deny)?;
    let allowed = codes_of(alloc, CodeOption::Allow, allow)?;
    policy_unless(
        alloc,
        Policy {
            denies_all: has_all(deny),
            denied,
            allowed,
        },
    )
}

// Returns a policy, unless it both denies and allows a code.
fn policy_unless(alloc: Global, policy: Policy) -> Result<Policy, PolicyFault>
    ensures { Reads result (policy_unless policy) }
{
    match in_both(policy.denied.as_slice(), policy.allowed.as_slice()) {
        Some(code) => Err(PolicyFault::Usage(both_text(alloc, code)?)),
        None => Ok(policy),
    }
}

// Returns the first of the allowed codes that is also denied.
fn in_both(denied: &[Code], allowed: &[Code]) -> Option<Code>
    ensures { result ≡ find (has_code denied.now) allowed.now }
{
    allowed
        .iter()
        .find(|code| has_code(denied, **code))
        .copied()
}

// Returns whether one of the values of `--deny` is `all`.
fn has_all(values: &[&str]) -> bool
    ensures { result ≡ list_any is_all (map (λ value. value.now) values.now) }
{
    any_all(values)
}

// Does the same, value by value.
fn any_all(values: &[&str]) -> bool
    ensures { result ≡ list_any (λ value. is_all value.now) values.now }
{
    values.iter().any(|value| is_all(value))
}

// Returns whether a value of `--deny` is `all`, in upper or lower case.
fn is_all(value: &str) -> bool
    ensures { result ≡ is_all value.now }
{
    value.eq_ignore_ascii_case(ALL)
}

// Returns the codes that the values of an option name, without `all`.
fn codes_of(alloc: Global, option: CodeOption, values: &[&str]) -> Result<CodeList, PolicyFault>
    ensures { Reads result (codes_reading option (map (λ value. value.now) values.now)) }
{
    let mut codes = CodeList::new(alloc);
    for value in values {
        if let Some(code) = code_of(alloc, option, value)? {
            codes.push(code)?;
        }
    }
    Ok(codes)
}

// Returns the code that a value of an option names, or `None` for `all` of `--deny`.
fn code_of(alloc: Global, option: CodeOption, value: &str) -> Result<Option<Code>, PolicyFault>
    ensures { Reads result (code_reading option value.now) }
{
    if option.is_all(value) {
        return Ok(None);
    }
    match Code::named(value) {
        None => Err(PolicyFault::Usage(unknown_text(alloc, option, value)?)),
        Some(code) if option.may_name(code) => Ok(Some(code)),
        Some(_) => Err(PolicyFault::Usage(not_warning_text(alloc, value)?)),
    }
}

// Returns the text of usage for a value that isn't a code.
#[tactic(auto, unfolding(crate::specs::Reading::unknown_text))]
fn unknown_text(alloc: Global, option: CodeOption, value: &str) -> Result<Text, AllocError>
    ensures { IfOk result (λ text. text ≡ unknown_text option value.now) }
{
    let like = nearest(alloc, value)?.name();
    let option = option.name();
    let text = format!(in alloc;
        "error: invalid value '{value}' for '{option} <CODE>'\n\n  tip: a similar code exists: '{like}'\n\nFor more information, try '--help'.\n"
    )?;
    Ok(Text::new(text))
}

// Returns the text of usage for a value of `--allow` that is the code of an error.
#[tactic(auto, unfolding(crate::specs::Reading::not_warning_text))]
fn not_warning_text(alloc: Global, value: &str) -> Result<Text, AllocError>
    ensures { IfOk result (λ text. text ≡ not_warning_text value.now) }
{
    let text = format!(in alloc;
        "error: invalid value '{value}' for '--allow <CODE>': an error can't be allowed, only a warning\n\nFor more information, try '--help'.\n"
    )?;
    Ok(Text::new(text))
}

// Returns the text of usage for a code that is both denied and allowed.
#[tactic(auto, unfolding(crate::specs::Reading::both_text))]
fn both_text(alloc: Global, code: Code) -> Result<Text, AllocError>
    ensures { IfOk result (λ text. text ≡ both_text code) }
{
    let name = code.name();
    let text = format!(in alloc;
        "error: the argument '--deny {name}' cannot be used with '--allow {name}'\n\nFor more information, try '--help'.\n"
    )?;
    Ok(Text::new(text))
}

impl CodeOption {
    // Returns the option as it is written.
    fn name(self) -> &'static str
        ensures { result.now ≡ option_name self }
    {
        match self {
            CodeOption::Deny => "--deny",
            CodeOption::Allow => "--allow",
        }
    }

    // Returns whether a value of the option stands for all warnings.
    fn is_all(self, value: &str) -> bool
        ensures { result ≡ is_all_of self value.now }
    {
        match self {
            CodeOption::Deny => is_all(value),
            CodeOption::Allow => false,
        }
    }

    // Returns whether the option may name a code.
    fn may_name(self, code: Code) -> bool
        ensures { result ≡ may_name self code }
    {
        match self {
            CodeOption::Deny => true,
            CodeOption::Allow => code.is_of_warning(),
        }
    }
}

//! The codes that the command line names.
ghost use Rattle.std.specs.Prelude.{◌≡◌, IfOk, map};
ghost use Rattle.agenda_policy.specs.Reading.{policy_reading};
ghost use Rattle.clap.specs.Words.{found_of, rows_of};
ghost use Rattle.agenda_arguments.specs.Arguments.{Follows, code_in};
ghost use Rattle.agenda_arguments.specs.Values.{policy_in, policy_or_usage};
ghost use Rattle.agenda_arguments.specs.Codes.{unknown_code};

use crate::ask::UsageFault;
use crate::values::values_of;
use agenda_codes::Code;
use agenda_policy::{Policy, PolicyFault, read_policy};
use clap::ArgMatches;
use plan_texts::Text;
use std::alloc::{AllocError, Global};

/// Returns the code with this name, if a name is given.
///
/// # Errors
///
/// `Usage` if no code has this name; `NoMemory` if an allocation failed.
pub(crate) fn code_of(alloc: Global, name: &Option<Text>) -> Result<Option<Code>, UsageFault>
    ensures { Follows result (code_in name.now) }
{
    let Some(name) = name else {
        return Ok(None);
    };
    match Code::named(name.as_str()) {
        Some(code) => Ok(Some(code)),
        None => Err(UsageFault::Usage(unknown_code(alloc, name.as_str())?)),
    }
}

/// Returns which warnings `--deny` makes errors, and which `--allow` leaves out.
///
/// # Errors
///
/// `Usage` if a value isn't a code, or as `read_policy` says; `NoMemory` if an allocation failed.
pub(crate) fn policy_of(alloc: Global, given: &ArgMatches<'_>) -> Result<Policy, UsageFault>
    ensures { Follows result (policy_in (rows_of (found_of given.now))) }
{
    match (values_of(given, "deny"), values_of(given, "allow")) {
        (None, None) => policy_by(alloc, &[], &[]),
        (Some(deny), None) => policy_by(alloc, deny, &[]),
        (None, Some(allow)) => policy_by(alloc, &[], allow),
        (Some(deny), Some(allow)) => policy_by(alloc, deny, allow),
    }
}

// Does the same, by the values of the two options.
fn policy_by(alloc: Global, deny: &[&str], allow: &[&str]) -> Result<Policy, UsageFault>
    ensures { Follows result (policy_or_usage
        (policy_reading (map (λ value. value.now) deny.now) (map (λ value. value.now) allow.now))) }
{
    match read_policy(alloc, deny, allow) {
        Ok(policy) => Ok(policy),
        Err(PolicyFault::Usage(text)) => Err(UsageFault::Usage(text)),
        Err(PolicyFault::NoMemory) => Err(UsageFault::NoMemory),
    }
}

// Returns the text of usage for a name that no code has. Its tip lists the codes.
fn unknown_code(alloc: Global, name: &str) -> Result<Text, AllocError>
    ensures { IfOk result (λ text. text ≡ unknown_code name.now) }
{
    let codes = Code::all().join(alloc, ", ")?;
    let text = format!(in alloc;
        "error: invalid value '{name}' for '[CODE]'\n\n  tip: the codes are {codes}\n\nFor more information, try '--help'.\n"
    )?;
    Ok(Text::new(text))
}

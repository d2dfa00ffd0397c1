//! The values of a subcommand's options and arguments.
ghost use Rattle.std.specs.Prelude.{◌≡◌, IfOk, map, option_map};
ghost use Rattle.clap.specs.Words.{all_of, first_of, found_of, one_of, rows_of};
ghost use Rattle.agenda_arguments.specs.Arguments.{Follows};
ghost use Rattle.agenda_arguments.specs.Values.{is_given, number_in, wanted};

use crate::ask::UsageFault;
use clap::ArgMatches;
use plan_texts::Text;
use std::alloc::{AllocError, Global};

/// Returns the value of an option, if it is given, as `clap` lends it.
pub(crate) fn value_of<'a>(given: &ArgMatches<'a>, option: &str) -> Option<&'a str>
    ensures { option_map (λ value. value.now) result ≡ first_of option.now (rows_of (found_of given.now)) }
{
    given.get_str(option)
}

/// Returns all values of an option, in the order of the arguments, if it is given, as `clap` lends them.
pub(crate) fn values_of<'a, 'b>(given: &'b ArgMatches<'a>, option: &str) -> Option<&'b [&'a str]>
    ensures { option_map (λ values. map (λ value. value.now) values.now) result ≡ all_of option.now (rows_of (found_of given.now)) }
{
    given.get_strs(option)
}

/// Returns a copy of the value of an option, if it is given.
///
/// # Errors
///
/// An allocation failed.
pub(crate) fn text_if_given(
    alloc: Global,
    given: &ArgMatches<'_>,
    option: &str,
) -> Result<Option<Text>, AllocError>
    ensures { IfOk result (λ value. first_of option.now (rows_of (found_of given.now)) ≡ value) }
{
    match value_of(given, option) {
        Some(value) => Ok(Some(text(alloc, value)?)),
        None => Ok(None),
    }
}

/// Returns the value of a required option or argument.
///
/// # Errors
///
/// `Usage` if the value is missing; `NoMemory` if an allocation failed.
pub(crate) fn text_of(
    alloc: Global,
    given: &ArgMatches<'_>,
    option: &str,
) -> Result<Text, UsageFault>
    ensures { Follows result (wanted (first_of option.now (rows_of (found_of given.now)))) }
{
    match value_of(given, option) {
        Some(value) => Ok(text(alloc, value)?),
        None => Err(UsageFault::Usage(missing(alloc, option)?)),
    }
}

/// Returns the number that is the value of an option, which is required or has a default.
///
/// # Errors
///
/// `Usage` if the value is missing; `NoMemory` if an allocation failed.
pub(crate) fn number_argument(
    alloc: Global,
    given: &ArgMatches<'_>,
    option: &str,
) -> Result<u32, UsageFault>
    ensures { Follows result (wanted (number_in (one_of option.now (rows_of (found_of given.now))))) }
{
    match given.get_one::<u32>(option) {
        Some(number) => Ok(number),
        None => Err(UsageFault::Usage(missing(alloc, option)?)),
    }
}

/// Returns whether a flag, an option without a value, is given. The value of the flag is `true` if it is.
pub(crate) fn is_given(given: &ArgMatches<'_>, option: &str) -> bool
    ensures { result ≡ is_given option.now (rows_of (found_of given.now)) }
{
    match value_of(given, option) {
        Some(value) => value == "true",
        None => false,
    }
}

// Returns the text of usage for a missing value. No arguments lead here: `clap` rejects a missing value
// itself, or uses the default.
fn missing(alloc: Global, option: &str) -> Result<Text, AllocError> {
    let text = format!(in alloc;
        "error: the option '--{option}' is missing\n\nFor more information, try '--help'.\n"
    )?;
    Ok(Text::new(text))
}

/// Returns a copy of the text.
///
/// # Errors
///
/// An allocation failed.
pub(crate) fn text(alloc: Global, written: &str) -> Result<Text, AllocError>
    ensures { IfOk result (λ text. text ≡ written.now) }
{
    Ok(Text::new(String::from_str(alloc, written)?))
}

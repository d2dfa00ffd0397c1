//! The names of timers, and of their jobs.

ghost use Rattle.std.specs.Prelude.{◌≡◌, ◌==◌, IfOk};
ghost use Rattle.std.specs.List.{list_any};
ghost use Rattle.std.specs.Str.{byte};
ghost use Rattle.plan_timers.specs.Names.{dashed, job_of, name_fault};

use crate::order::has_at;
use crate::reports::Why;
use plan_texts::Text;
use std::alloc::{AllocError, Global};

/// Returns the name that a timer's job gets: its own with `-` for each `@`.
///
/// # Errors
///
/// `AllocError` if an allocation fails.
pub fn job_name(alloc: Global, name: &str) -> Result<Text, AllocError>
    ensures { IfOk result (λ job. job ≡ job_of name.now) }
{
    let mut job = String::with_capacity(alloc, name.len())?;
    for letter in name.chars() {
        job.push(dashed(letter))?;
    }
    Ok(Text::new(job))
}

// Returns `-` for `@`, and any other character as it is.
fn dashed(letter: char) -> char
    ensures { result ≡ dashed letter }
{
    if letter == '@' { '-' } else { letter }
}

// Returns why a timer with this name is no source, if its name alone says so: it is that of an instance and has a `\`.
pub(crate) fn name_fault(name: &str) -> Option<Why>
    ensures { result ≡ name_fault name.now }
{
    if has_at(name) && has_backslash(name) {
        return Some(Why::Escape);
    }
    None
}

// Returns whether a name has a `\`.
fn has_backslash(name: &str) -> bool
    ensures { result ≡ list_any (λ b. b == byte "\\") name.now }
{
    name.as_bytes().iter().any(|byte| *byte == b'\\')
}

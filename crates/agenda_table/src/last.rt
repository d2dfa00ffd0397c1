//! The last lines of tables.

ghost use Rattle.std.specs.Prelude.{◌≡◌, ◌≤◌, IfOk, string_bytes};
ghost use Rattle.plan_sets.specs.Limits.{end_second};
ghost use Rattle.agenda_table.specs.Last.{after_text, plural, span_text};

use crate::look::Look;
use std::alloc::{AllocError, Global};

/// Returns the last line of a table of a span: how many there are of something, the span, and the zone.
///
/// # Errors
///
/// `AllocError` if an allocation fails.
pub fn span_text(
    alloc: Global,
    look: &Look<'_>,
    count: usize,
    what: &str,
    since: u64,
    upto: u64,
    zone: &str,
) -> Result<String, AllocError>
    requires since { since ≤ end_second }
    requires upto { upto ≤ end_second }
    ensures { IfOk result (λ text. string_bytes text ≡ span_text look.now count what.now since upto zone.now) }
{
    let s = plural(count);
    let mut passed = 0;
    let from = look.start_text(since, &mut passed);
    let to = look.start_text(upto, &mut passed);
    let (from, to) = (from.as_str(), to.as_str());
    format!(in alloc; "{count} {what}{s} from {from} to {to}, {zone}")
}

/// Returns the last line of a table of what comes after a time: how many there are of something, the time, and the zone.
///
/// # Errors
///
/// `AllocError` if an allocation fails.
pub fn after_text(
    alloc: Global,
    look: &Look<'_>,
    count: usize,
    what: &str,
    after: u64,
    zone: &str,
) -> Result<String, AllocError>
    requires { after ≤ end_second }
    ensures { IfOk result (λ text. string_bytes text ≡ after_text look.now count what.now after zone.now) }
{
    let s = plural(count);
    let mut passed = 0;
    let time = look.start_text(after, &mut passed);
    let time = time.as_str();
    format!(in alloc; "{count} {what}{s} after {time}, {zone}")
}

/// Returns the ending of the name of so many things.
pub fn plural(count: usize) -> &'static str
    ensures { result.now ≡ plural count }
{
    if count == 1 { "" } else { "s" }
}

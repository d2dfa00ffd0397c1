//! Finds starts of a rule that are close together.

ghost use Rattle.std.specs.Prelude.{◌≡◌, ◌<◌, ◌≤◌};
ghost use Rattle.plan_sets.specs.Limits.{end_second};
ghost use Rattle.plan_next.specs.Close.{has_close_starts};

use crate::nexts::{MOST_KEPT, Starts};
use plan_match::Rule;
use plan_sets::END_SECOND;

/// Returns whether a rule has a start at or after `since` and before `until`, and another start less than `apart`
/// seconds after it.
///
/// The search ends with the first such pair. No memory is requested.
pub fn has_close_starts(rule: &Rule, since: u64, until: u64, apart: u64) -> bool
    requires part { since ≤ until }
    requires years { until ≤ end_second }
    ensures { result ≡ has_close_starts rule.now since until apart }
{
    let end = END_SECOND.min(until.saturating_add(apart));
    let mut kept = [end; MOST_KEPT];
    let mut starts = Starts::first(rule, since, end, &mut kept);
    while starts.start() < until {
        let start = starts.start();
        starts.next();
        let next = starts.start();
        if next == end {
            return false;
        }
        if next - start < apart {
            return true;
        }
    }
    false
}

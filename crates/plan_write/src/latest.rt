//! The latest start for a time at which a job starts.

ghost use Rattle.std.specs.Prelude.{◌≡◌, ◌≤◌};
ghost use Rattle.plan_collect.specs.Windows.{latest_start};

use plan_sets::END_SECOND;

// Returns the latest start for a time of a job with this delay, both in seconds. It is at most `END_SECOND`.
#[inline(always)]
pub(crate) fn latest_start(delay: u64, second: u64) -> u64
    ensures value { result ≡ latest_start delay second }
    ensures years { result ≤ END_SECOND }
{
    second.saturating_add(delay).min(END_SECOND)
}

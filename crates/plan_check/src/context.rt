//! What a timer's file doesn't say, but its machine does.

ghost use Rattle.std.specs.Prelude.{◌≡◌};
ghost use Rattle.plan_check.specs.Context.{context_of};

use plan_rules::{EventZones, TimerOptions};

/// What a machine says of all its timers.
#[derive(Debug, Drop)]
pub struct TimerContext {
    /// The zones that calendar events may name.
    pub zones: EventZones,
    /// The accuracy of timers that set none, in microseconds. `infinity` is `u64::MAX`.
    pub accuracy: u64,
}

impl TimerContext {
    /// Returns the context of timers whose events may name these zones, without any configuration: their accuracy is a
    /// minute, unless they set one.
    pub fn new(zones: EventZones) -> TimerContext
        ensures { result ≡ context_of zones }
    {
        TimerContext {
            zones,
            accuracy: TimerOptions::new().accuracy,
        }
    }
}

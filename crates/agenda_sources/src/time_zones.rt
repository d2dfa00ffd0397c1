//! The time zones of rules.

use plan_check::TimerContext;
use plan_clock::Clock;

/// The time zones of rules.
#[derive(Debug, Drop)]
pub struct TimeZones {
    /// The clock of the zone in which rules start, unless they name a zone.
    pub clock: Clock,
    /// The context of timers, with the zones that calendar events may name.
    pub timers: TimerContext,
}

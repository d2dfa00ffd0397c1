//! Lists of calendar events.
ghost use Rattle.std.specs.Prelude.{◌≡◌, ◌++◌, ◌∷◌, [], length, map, slice_get, IfOk, IfErr, is_ok, if◌then◌else◌};
ghost use Rattle.std.specs.Option.{option_copied};
ghost use Rattle.plan_match.specs.EventMatch.{some_event_matches};
ghost use Rattle.plan_match.specs.Zone.{event_in};

use crate::event::Calendar;
use plan_clock::Clock;
use plan_sets::Civil;
use std::alloc::{AllocError, AllocFailed, Global};
use std::marker::Model;

/// A list of calendar events. A job with it starts when any of them matches.
#[derive(Debug, Drop)]
pub struct Events {
    calendars: Vec<Calendar>,
}

impl Model for Events {
    ghost use Rattle.std.specs.Prelude.{List};
    ghost use Rattle.plan_match.specs.declared.event.Calendar.{Calendar};

    ghost Value = { List Calendar };

    ghost use Rattle.std.specs.Coded.{coded_list};
    ghost use Rattle.plan_match.specs.CalendarCode.{calendar_code};

    ghost coded = { coded_list calendar_code };

    ghost view = { λ events. events.calendars.items };
}

// Two lists are equal if they have equal events in the same order.
impl PartialEq for Events {
    ghost use Rattle.std.specs.Prelude.{◌≡◌};
    ghost use Rattle.plan_match.specs.Equal.{same_events, same_events_laws};

    ghost eq = { same_events };

    ghost laws = { same_events_laws };

    fn eq(&self, other: &Events) -> bool
        ensures { result ≡ same_events self.now other.now }
    {
        self.calendars == other.calendars
    }
}

impl Eq for Events {
    ghost use Rattle.plan_match.specs.Equal.{same_events_equivalence};

    ghost laws = { same_events_equivalence };
}

impl Events {
    /// Returns a list without events.
    pub fn new(alloc: Global) -> Events
        ensures { result ≡ [] }
    {
        Events {
            calendars: Vec::new(alloc),
        }
    }

    /// Returns a list of one event.
    ///
    /// # Errors
    ///
    /// If an allocation fails, the error returns the event.
    pub fn one(alloc: Global, event: Calendar) -> Result<Events, AllocFailed<Calendar>>
        ensures list { IfOk result (λ events. events ≡ event ∷ []) }
        ensures returned { IfErr result (λ rejected. rejected.value ≡ event) }
    {
        let mut events = Events::new(alloc);
        events.push(event)?;
        Ok(events)
    }

    /// Adds an event at the end.
    ///
    /// # Errors
    ///
    /// If an allocation fails, the error returns the event, and the list is unchanged.
    pub fn push(&mut self, event: Calendar) -> Result<(), AllocFailed<Calendar>>
        ensures list { self.new ≡ (if is_ok result then self.old ++ event ∷ [] else self.old) }
        ensures returned { IfErr result (λ rejected. rejected.value ≡ event) }
    {
        self.calendars.push(event)
    }

    /// Removes all events.
    pub fn clear(&mut self)
        ensures { self.new ≡ [] }
    {
        self.calendars.clear();
    }

    /// Returns the same list with each event in the zone of a clock, or in its own zone if it names one
    /// (systemd.time(7)).
    ///
    /// # Errors
    ///
    /// `AllocError` if an allocation fails.
    pub fn in_zone(&self, alloc: Global, clock: &Clock) -> Result<Events, AllocError>
        ensures { IfOk result (λ events. events ≡ map (event_in clock.now) self.now) }
    {
        let mut calendars = Vec::with_capacity(alloc, self.len())?;
        for event in &self.calendars {
            calendars.push(event.in_zone(clock)?)?;
        }
        Ok(Events { calendars })
    }

    /// Returns the number of events.
    pub fn len(&self) -> usize
        ensures { result ≡ length self.now }
    {
        self.calendars.len()
    }

    /// Returns the event at a place, from 0, or `None` after the last.
    pub fn get(&self, i: usize) -> Option<&Calendar>
        ensures { option_copied result ≡ slice_get self.now i }
    {
        self.calendars.get(i)
    }

    /// Returns whether some event matches the second that has these civil fields.
    pub fn matches(&self, civil: &Civil) -> bool
        ensures { result ≡ some_event_matches self.now civil.now }
    {
        self.calendars.iter().any(|event| event.matches(civil))
    }
}

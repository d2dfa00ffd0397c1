//! What the lines of a timer file say of its job so far, without the events that are rejected (systemd.timer(5)).

ghost use Rattle.std.specs.Prelude.{◌≡◌, OnOk};
ghost use Rattle.plan_rules.specs.TimerEntries.{Names, draft_after, draft_of, line_shown, no_draft, with_event};

use crate::line_fault::LineCause;
use crate::timer_events::TimerLine;
use plan_match::{Calendar, Events};
use std::alloc::{AllocError, Global};

/// The parts of a timer's job that its lines say: its events, and the unit that it starts.
#[derive(Drop)]
pub struct TimerDraft {
    /// The events in the list that aren't rejected.
    pub events: Events,
    /// The first unit that was named.
    pub unit: Option<String>,
}

impl TimerDraft {
    /// Returns the parts before the first line.
    pub fn new(alloc: Global) -> TimerDraft
        ensures { draft_of result ≡ no_draft }
    {
        TimerDraft {
            events: Events::new(alloc),
            unit: None,
        }
    }

    /// Adds what a line says: its event, unless it is rejected; that the list of events is empty; or the unit, if it is
    /// the first one.
    ///
    /// # Errors
    ///
    /// Fails if an allocation fails.
    pub fn add(&mut self, alloc: Global, line: TimerLine<'_>) -> Result<(), AllocError>
        ensures { OnOk result (draft_of self.new ≡ draft_after (draft_of self.old) (line_shown line.entry)) }
    {
        match line {
            TimerLine::Empties => {
                self.events.clear();
                Ok(())
            }
            TimerLine::Event(entry) => self.add_event(entry.read),
            TimerLine::Starts(unit) => self.name_unit(alloc, unit),
            TimerLine::Nothing => Ok(()),
        }
    }

    // Adds an event to the list, unless it is rejected.
    fn add_event(&mut self, read: Result<Calendar, LineCause>) -> Result<(), AllocError>
        ensures { OnOk result (draft_of self.new ≡ with_event (draft_of self.old) read) }
    {
        match read {
            Ok(event) => {
                self.events.push(event)?;
                Ok(())
            }
            Err(_) => Ok(()),
        }
    }

    // Names a unit: the first one counts.
    fn name_unit(&mut self, alloc: Global, unit: &str) -> Result<(), AllocError>
        ensures { OnOk result (draft_of self.new ≡ draft_after (draft_of self.old) (Names unit.now)) }
    {
        if self.unit.is_none() {
            self.unit = Some(String::from_str(alloc, unit)?);
        }
        Ok(())
    }
}

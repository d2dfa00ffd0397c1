//! The lines of a timer file, read one after the other, each by itself (systemd.timer(5)).

ghost use Rattle.std.specs.Prelude.{◌≡◌, ◌+◌, ◌<◌, IfOk, OnOk};
ghost use Rattle.plan_grammar.specs.Event.{event_reading};
ghost use Rattle.plan_rules.specs.LineFaults.{in_line};
ghost use Rattle.plan_rules.specs.TimerEntries.{line_shown, fault_in_line};

use crate::entry::Entry;
use crate::line_fault::{LineCause, LineFault};
use crate::timer_lines::{LineEffect, Sections};
use crate::timers::MOST_EVENTS;
use plan_grammar::{EventZones, calendar_event};
use plan_match::Calendar;
use plan_texts::whole_lines::{WholeLine, trimmed};
use std::alloc::{AllocError, Global};
use std::marker::Model;

/// What a whole line of a timer file does to the timer's job (systemd.timer(5)).
#[derive(Debug, Drop)]
pub enum TimerLine<'a> {
    /// Nothing.
    Nothing,
    /// Empties the list of events.
    Empties,
    /// Has an event of the list, or what is wrong with it.
    Event(Entry<Calendar>),
    /// Names the unit that is started.
    Starts(&'a str),
}

impl TimerLine<'_> {
    // Returns the error of the line, if it has an event that is rejected.
    pub(crate) fn fault(&self) -> Option<LineFault>
        ensures { result ≡ fault_in_line (line_shown self.now) }
    {
        match self {
            TimerLine::Event(entry) => entry.fault(),
            _ => None,
        }
    }
}

/// Reads the whole lines of a timer file one after the other, each event by itself (systemd.timer(5)).
///
/// A rejected event counts in the list like a valid one. While the list has 64 events, no further event is
/// read. The first event of the file that isn't read gets the entry `TooManyLines`; the others get none.
#[derive(Drop)]
pub struct TimerReader<'z> {
    // The zones that events may name.
    zones: &'z EventZones,
    sections: Sections,
    // The number of events in the list.
    held: usize,
    // Whether there already was an entry for too many events.
    told: bool,
}

impl<'z> Model for TimerReader<'z> {
    ghost use Rattle.plan_rules.specs.TimerEntries.{TimerState};

    ghost Value = { TimerState };

    ghost view = { λ reader. record {
      zones = reader.zones.now;
      inside = reader.sections.inside;
      found = reader.sections.found;
      count = record { held = reader.held; told = reader.told };
    } };
}

impl<'z> TimerReader<'z> {
    ghost use Rattle.std.specs.Option.{option_map};
    ghost use Rattle.plan_rules.specs.Limits.{most_events};
    ghost use Rattle.plan_rules.specs.Timer.{timer_setting};
    ghost use Rattle.plan_rules.specs.TimerEntries.{after_event_text, event_by, line_in, no_events, no_lines, shown_line, state_after};

    /// Returns a reader that has read no line yet. Events may name these zones.
    pub fn new(zones: &'z EventZones) -> TimerReader<'z>
        ensures { result ≡ no_lines zones.now }
    {
        TimerReader {
            zones,
            sections: Sections::new(),
            held: 0,
            told: false,
        }
    }

    /// Returns whether there was a `[Timer]` section.
    pub fn has_section(&self) -> bool
        ensures { result ≡ self.now.found }
    {
        self.sections.found
    }

    /// Returns the number of events in the list, at most 64.
    pub fn held(&self) -> usize
        ensures { result ≡ self.now.count.held }
    {
        self.held
    }

    /// Returns the key and the value of the next whole line, if it is a setting in a `[Timer]` section
    /// (systemd.syntax(7)). The line isn't read.
    pub fn setting<'a>(&self, line: &'a WholeLine) -> Option<(&'a str, &'a str)>
        ensures { option_map (λ setting. (setting.0.now, setting.1.now)) result
            ≡ timer_setting self.now.inside (shown_line line.now).1 }
    {
        self.sections.setting(trimmed(line.text.as_str()))
    }

    /// Reads the next whole line, and returns what it does.
    ///
    /// # Errors
    ///
    /// Fails if an allocation fails.
    pub fn read<'a>(
        &mut self,
        alloc: Global,
        line: &'a WholeLine,
    ) -> Result<TimerLine<'a>, AllocError>
        ensures line { IfOk result (λ read. line_shown read ≡ line_in self.old (shown_line line.now)) }
        ensures after { OnOk result (self.new ≡ state_after self.old (shown_line line.now).1) }
    {
        match self.sections.effect(trimmed(line.text.as_str())) {
            LineEffect::Reset => {
                self.empty();
                Ok(TimerLine::Empties)
            }
            LineEffect::Event(text) => self.read_event(alloc, line.number, text),
            LineEffect::Starts(unit) => Ok(TimerLine::Starts(unit)),
            LineEffect::Nothing => Ok(TimerLine::Nothing),
        }
    }

    // Empties the list.
    fn empty(&mut self)
        ensures { self.new ≡ record self.old { count = record self.old.count { held = 0 } } }
    {
        self.held = 0;
    }

    // Counts an event of the list.
    fn count_event(&mut self)
        requires { self.old.count.held < most_events }
        ensures { self.new ≡ record self.old { count = record self.old.count { held = self.old.count.held + 1 } } }
    {
        self.held += 1;
    }

    // Reads an event, unless the list is full.
    fn read_event<'a>(
        &mut self,
        alloc: Global,
        number: u32,
        text: &str,
    ) -> Result<TimerLine<'a>, AllocError>
        ensures line { IfOk result (λ read. line_shown read ≡ event_by self.old.zones number self.old.count text.now) }
        ensures after { OnOk result (self.new ≡ record self.old { count = after_event_text self.old.count }) }
    {
        if self.held < MOST_EVENTS {
            let read = event_in_line(alloc, text, self.zones)?;
            self.count_event();
            return Ok(TimerLine::Event(Entry { line: number, read }));
        }
        if self.told {
            return Ok(TimerLine::Nothing);
        }
        self.told = true;
        Ok(TimerLine::Event(Entry {
            line: number,
            read: Err(LineCause::TooManyLines),
        }))
    }
}

// Returns the event of a text in a line, or what is wrong with it. The event may name these zones. The outer error is a
// failed allocation.
fn event_in_line(
    alloc: Global,
    text: &str,
    zones: &EventZones,
) -> Result<Result<Calendar, LineCause>, AllocError>
    ensures { IfOk result (λ read. read ≡ in_line (event_reading zones.now text.now)) }
{
    match calendar_event(alloc, text, zones) {
        Ok(event) => Ok(Ok(event)),
        Err(fault) => match LineCause::from(fault) {
            LineCause::NoMemory => Err(AllocError),
            cause => Ok(Err(cause)),
        },
    }
}

//! The time zones that calendar events may name (systemd.time(7)).

ghost use Rattle.std.specs.Prelude.{◌≡◌};
ghost use Rattle.std.specs.Option.{option_map};
ghost use Rattle.std.specs.Str.{bytes_eq};
ghost use Rattle.plan_grammar.specs.EventZones.{clock_named, is_utc};

use crate::fault::{RuleCause, RuleFault};
use plan_clock::Clock;
use plan_texts::Text;
use std::marker::Model;

/// A time zone with its name.
#[derive(Debug, Drop)]
pub struct NamedZone {
    /// The name, such as `Europe/Berlin`. Upper and lower case are different.
    pub name: Text,
    /// The clock of the zone.
    pub clock: Clock,
}

/// The time zones that events may name besides UTC, which they always may. Contracts see this value as a list, or as
/// `None` if events may name no other zone.
#[derive(Debug, Drop)]
pub struct EventZones {
    known: Option<Vec<NamedZone>>,
}

impl Model for EventZones {
    ghost use Rattle.std.specs.Prelude.{List, Option};
    ghost use Rattle.std.specs.Option.{option_map};
    ghost use Rattle.plan_grammar.specs.declared.event_zones.NamedZone.{NamedZone};

    ghost Value = { Option (List NamedZone) };

    ghost view = { λ zones. option_map (λ known. known.items) zones.known };
}

impl EventZones {
    ghost use Rattle.std.specs.Prelude.{None, Some};
    ghost use Rattle.plan_grammar.specs.EventZones.{zone_clock};
    ghost use Rattle.plan_grammar.specs.Readings.{Gives};

    /// Lets events name no zone but UTC.
    pub fn utc_alone() -> EventZones
        ensures { result ≡ None }
    {
        EventZones { known: None }
    }

    /// Lets events name these zones too. Of several with one name, the first counts.
    pub fn new(known: Vec<NamedZone>) -> EventZones
        ensures { result ≡ Some known.items }
    {
        EventZones { known: Some(known) }
    }

    // Returns the clock of the zone with this name.
    #[tactic(auto, unfolding(crate::specs::EventZones::zone_clock))]
    pub(crate) fn clock(&self, name: &[u8]) -> Result<Clock, RuleFault>
        ensures { Gives result (zone_clock self.now name.now) }
    {
        if is_utc(name) {
            return Ok(Clock::utc());
        }
        let Some(known) = &self.known else {
            return Err(RuleFault {
                part: 8,
                cause: RuleCause::Zone,
            });
        };
        match clock_named(name, known.as_slice()) {
            Some(clock) => Ok(clock.try_clone()?),
            None => Err(RuleFault {
                part: 8,
                cause: RuleCause::UnknownZone,
            }),
        }
    }
}

// Returns the clock of the zone with this name.
fn clock_named<'z>(name: &[u8], known: &'z [NamedZone]) -> Option<&'z Clock>
    ensures { option_map (λ clock. clock.now) result ≡ clock_named name.now known.now }
{
    let zone = known.iter().find(|zone| is_named(zone, name))?;
    Some(&zone.clock)
}

// Returns whether a zone has this name.
fn is_named(zone: &NamedZone, name: &[u8]) -> bool
    ensures { result ≡ bytes_eq zone.now.name name.now }
{
    zone.name.as_str().as_bytes() == name
}

// Returns whether a zone is UTC. Upper and lower case are the same.
pub(crate) fn is_utc(name: &[u8]) -> bool
    ensures { result ≡ is_utc name.now }
{
    name.eq_ignore_ascii_case(b"utc")
}

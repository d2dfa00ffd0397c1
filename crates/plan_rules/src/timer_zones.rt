//! The time zones that the events of timer files end with (systemd.time(7)).

ghost use Rattle.std.specs.Prelude.{◌≡◌, ℕ, IsTrue, List, OnErr, OnOk, Some, false, length, map, take};
ghost use Rattle.plan_grammar.specs.declared.NamedZone.{NamedZone};
ghost use Rattle.plan_rules.specs.Names.{with_found, with_names};
ghost use Rattle.plan_rules.specs.Timer.{effect_shown};
ghost use Rattle.plan_rules.specs.TimerEntries.{shown_line, timer_reading};
ghost use Rattle.plan_rules.specs.TimerZones.{HaveSameClocks, are_ascii, effect_zone, timer_zones, zones_from};

use crate::file_text::text_of;
use crate::names::Names;
use crate::timer_lines::{LineEffect, Sections};
use plan_grammar::zone_name;
use plan_texts::whole_lines::{WholeLine, trimmed, whole_lines};
use std::alloc::{AllocError, Global};

/// Adds the names of the time zones that the events of a timer file end with, but for UTC (systemd.time(7)).
///
/// These are the names by which zones are looked up, as `zone_name` returns them. The events are those of
/// `OnCalendar=` in `[Timer]` sections, even if they are rejected. A text that is too large or not UTF-8 has none.
///
/// # Errors
///
/// `AllocError` if an allocation fails. The names are unchanged then.
pub fn add_timer_zones(alloc: Global, names: &mut Names, bytes: &[u8]) -> Result<(), AllocError>
    ensures added { OnOk result (names.new ≡ with_names names.old (timer_zones bytes.now)) }
    ensures unchanged { OnErr result (names.new ≡ names.old) }
{
    let Ok(text) = text_of(bytes) else {
        return Ok(());
    };
    let lines = whole_lines(alloc, text)?;
    let present = names.len();
    if let Err(error) = add_lines_zones(alloc, names, lines.as_slice()) {
        names.truncate(present);
        return Err(error);
    }
    Ok(())
}

/// States the law of zones: which zones events may name makes no difference to a timer, but for the zones whose names
/// `add_timer_zones` adds. So a timer that is read with those that are found among them means what it would mean with
/// all zones of the time zone database.
///
/// The function does nothing: its contract is the law.
pub fn only_named_zones_matter()
    ensures { (zones others : List NamedZone) → (name bytes : List ℕ) → IsTrue (are_ascii zones) → IsTrue (are_ascii others)
        → HaveSameClocks zones others (timer_zones bytes)
        → timer_reading (Some zones) name bytes ≡ timer_reading (Some others) name bytes }
{}

// Adds the names of the zones that the events of whole lines end with. If an allocation fails, some may be added.
fn add_lines_zones(alloc: Global, names: &mut Names, lines: &[WholeLine]) -> Result<(), AllocError>
    ensures added { OnOk result (names.new ≡ with_names names.old (zones_from false (map shown_line lines.now))) }
    ensures kept { take (length names.old) names.new ≡ names.old }
{
    let mut sections = Sections::new();
    for line in lines {
        let effect = sections.effect(trimmed(line.text.as_str()));
        add_effect_zone(alloc, names, effect)?;
    }
    Ok(())
}

// Adds the name of the zone that the event of a line ends with, if it does.
fn add_effect_zone(
    alloc: Global,
    names: &mut Names,
    effect: LineEffect<'_>,
) -> Result<(), AllocError>
    ensures added { OnOk result (names.new ≡ with_found names.old (effect_zone (effect_shown effect.entry))) }
    ensures unchanged { OnErr result (names.new ≡ names.old) }
{
    let LineEffect::Event(text) = effect else {
        return Ok(());
    };
    match zone_name(alloc, text)? {
        Some(name) => names.add(alloc, name),
        None => Ok(()),
    }
}

//! The names of the time zones that calendar events end with (systemd.time(7)).

ghost use Rattle.std.specs.Prelude.{◌≡◌, [], IfOk, OnErr, OnOk, option_map};
ghost use Rattle.plan_rules.specs.Names.{with_found, with_names};
ghost use Rattle.agenda_sources.specs.ZoneNames.{asked_zones, source_zones, zone_names};

use crate::asked::Asked;
use crate::sources::{Source, Sources};
use plan_rules::{Names, SourceKind, add_timer_zones, zone_name};
use std::alloc::{AllocError, Global};

/// Returns the names of the time zones that the calendar events of sources end with, but for UTC, each once, in the order
/// of the sources.
///
/// These are the names by which zones are looked up. Events that are rejected may have one too.
///
/// # Errors
///
/// `AllocError` if an allocation fails.
pub fn zone_names(alloc: Global, sources: &Sources) -> Result<Names, AllocError>
    ensures { IfOk result (λ names. names ≡ zone_names sources.now) }
{
    let mut names = Names::new(alloc);
    let sources = sources.as_slice();
    for source in sources {
        add_source_zones(alloc, &mut names, source)?;
    }
    Ok(names)
}

// Adds the names of the zones of a source's events. If an allocation fails, the names are unchanged.
fn add_source_zones(alloc: Global, names: &mut Names, source: &Source) -> Result<(), AllocError>
    ensures added { OnOk result (names.new ≡ with_names names.old (source_zones source.now)) }
    ensures unchanged { OnErr result (names.new ≡ names.old) }
{
    match source.kind {
        SourceKind::Timer => add_timer_zones(alloc, names, source.bytes.as_slice()),
        _ => Ok(()),
    }
}

/// Returns the name of the time zone of a rule that is given by itself, as a list: of a calendar event that ends with a
/// zone other than UTC.
///
/// # Errors
///
/// `AllocError` if an allocation fails.
pub fn asked_zones(alloc: Global, asked: &Asked) -> Result<Names, AllocError>
    ensures { IfOk result (λ names. names ≡ asked_zones asked.now) }
{
    match asked {
        Asked::Cron(_) => Ok(Names::new(alloc)),
        Asked::Event(text) => names_with(alloc, zone_name(alloc, text.as_str())?),
    }
}

// Returns a name as a list, if there is one.
fn names_with(alloc: Global, name: Option<&str>) -> Result<Names, AllocError>
    ensures { IfOk result (λ names. names ≡ with_found [] (option_map (λ name. name.now) name.entry)) }
{
    let mut names = Names::new(alloc);
    if let Some(name) = name {
        names.add(alloc, name)?;
    }
    Ok(names)
}

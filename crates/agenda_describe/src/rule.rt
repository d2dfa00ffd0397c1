//! The sentences of cron rules and of calendar events.

ghost use Rattle.std.specs.Prelude.{◌≡◌, IfOk};
ghost use Rattle.plan_rules.specs.Readings.{Gives};
ghost use Rattle.agenda_describe.specs.Sentences.{asked_sentence, crontab_sentence, event_sentence, zone_of};

use agenda_sources::Asked;
use plan_describe::{describe_cron, describe_event};
use plan_rules::{
    Calendar, EventZones, Rule, RuleFault, Text, calendar_event, cron_rule, zone_name,
};
use plan_words::{Description, sentence};
use std::alloc::{AllocError, Global};

/// Returns the sentence of a rule that is given by itself. An event may name these zones.
///
/// # Errors
///
/// Those of `cron_rule` and of `calendar_event`.
pub fn describe_asked(alloc: Global, asked: &Asked, zones: &EventZones) -> Result<Text, RuleFault>
    ensures { Gives result (asked_sentence zones.now asked.now) }
{
    match asked {
        Asked::Cron(text) => {
            let rule = cron_rule(alloc, text.as_str())?;
            Ok(crontab_sentence(alloc, &rule)?)
        }
        Asked::Event(text) => {
            let event = calendar_event(alloc, text.as_str(), zones)?;
            Ok(event_sentence(alloc, &event, text.as_str())?)
        }
    }
}

/// Returns the sentence of the rule of a line in a crontab.
///
/// # Errors
///
/// `AllocError` if an allocation fails.
pub(crate) fn crontab_sentence(alloc: Global, rule: &Rule) -> Result<Text, AllocError>
    ensures { IfOk result (λ text. text ≡ crontab_sentence rule.now) }
{
    let description = match rule {
        Rule::Cron(rule) => describe_cron(alloc, rule)?,
        Rule::Events(_) | Rule::Never => Description::Reboot,
    };
    Ok(Text::new(sentence(alloc, &description)?))
}

/// Returns the sentence of an event, which was read from this text.
///
/// # Errors
///
/// `AllocError` if an allocation fails.
pub(crate) fn event_sentence(
    alloc: Global,
    event: &Calendar,
    text: &str,
) -> Result<Text, AllocError>
    ensures { IfOk result (λ sentence. sentence ≡ event_sentence event.now text.now) }
{
    let zone = zone_of(alloc, event, text)?;
    let description = describe_event(alloc, event, zone)?;
    Ok(Text::new(sentence(alloc, &description)?))
}

// Returns the name of the zone that an event ends with, which was read from this text, if it ends with one.
fn zone_of(alloc: Global, event: &Calendar, text: &str) -> Result<Option<Text>, AllocError>
    ensures { IfOk result (λ zone. zone ≡ zone_of event.now text.now) }
{
    if !event.names_zone {
        return Ok(None);
    }
    let name = match zone_name(alloc, text)? {
        Some(name) => name,
        None => "UTC",
    };
    Ok(Some(Text::new(String::from_str(alloc, name)?)))
}

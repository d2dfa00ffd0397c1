//! The sentence of a description.

ghost use Rattle.std.specs.Prelude.{◌≡◌, ◌++◌, IfOk, OnOk};
ghost use Rattle.std.specs.String.{string_bytes};
ghost use Rattle.plan_words.specs.Sentence.{sentence_of, void_text, zone_text};
ghost use Rattle.plan_words.specs.Tree.{Scheduled};
ghost use Rattle.plan_words.specs.View.{schedule_of, tree_of};

use crate::days::say_days;
use crate::existing::{is_void, lacks};
use crate::spelling::text_of_words;
use crate::time::say_time;
use crate::tree::{Description, Schedule};
use plan_texts::Text;
use std::alloc::{AllocError, Global};

/// The number of words that most sentences don't exceed.
const FEW_WORDS: usize = 32;

/// Returns the sentence of a description: what the rule means, in English.
///
/// The sentence says exactly when the rule starts its job. Different well-formed descriptions have different sentences
/// (see `sentences_differ`).
///
/// # Errors
///
/// `AllocError` if an allocation fails.
pub fn sentence(alloc: Global, description: &Description) -> Result<String, AllocError>
    ensures { IfOk result (λ text. string_bytes text ≡ sentence_of (tree_of description.now)) }
{
    match description {
        Description::Reboot => {
            let mut text = String::new(alloc);
            text.push_str("never by the clock; when cron starts")?;
            Ok(text)
        }
        Description::Scheduled(schedule) => sentence_of_schedule(alloc, schedule),
    }
}

// Appends the zone that a rule names.
fn push_zone(text: &mut String, zone: &Option<Text>) -> Result<(), AllocError>
    ensures { OnOk result (string_bytes text.new ≡ string_bytes text.old ++ zone_text zone.now) }
{
    if let Some(name) = zone {
        text.push_str(" (")?;
        text.push_str(name.as_str())?;
        text.push_str(")")?;
    }
    Ok(())
}

// Appends that no day matches.
fn push_void(text: &mut String, is_void: bool) -> Result<(), AllocError>
    ensures { OnOk result (string_bytes text.new ≡ string_bytes text.old ++ void_text is_void) }
{
    if is_void {
        text.push_str(" (no such day)")?;
    }
    Ok(())
}

// Returns the sentence of a schedule.
fn sentence_of_schedule(alloc: Global, schedule: &Schedule) -> Result<String, AllocError>
    ensures { IfOk result (λ text. string_bytes text ≡ sentence_of (Scheduled (schedule_of schedule.now))) }
{
    let void = is_void(schedule);
    let mut words = Vec::with_capacity(alloc, FEW_WORDS)?;
    say_time(&schedule.time, &mut words)?;
    say_days(
        lacks(schedule, void),
        &schedule.days,
        &schedule.months,
        &schedule.years,
        &mut words,
    )?;
    let mut text = text_of_words(alloc, words.as_slice())?;
    push_zone(&mut text, &schedule.zone)?;
    push_void(&mut text, void)?;
    Ok(text)
}

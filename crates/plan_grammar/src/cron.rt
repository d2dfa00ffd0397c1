//! Parses cron rules (crontab(5)).

ghost use Rattle.std.specs.Prelude.{◌≡◌, IfErr, IfOk, map};
ghost use Rattle.std.specs.Option.{option_map};
ghost use Rattle.plan_grammar.specs.Readings.{Gives, GivesBy};
ghost use Rattle.plan_match.specs.WithinLimits.{RuleIsWithinLimits};
ghost use Rattle.plan_grammar.specs.Cron.{has_week_day, week_days_of, five_fields, fields_in_front, fields_alone, at_words, at_word, at_reading, rule_in_front, rule_reading, cron_reading};

use crate::fault::{RuleCause, RuleFault};
use crate::field::{Field, is_restricted};
use plan_clock::Clock;
use plan_match::{CronRule, Rule};
use plan_sets::ValueSet;
use plan_texts::begins_with;
use plan_texts::lines::cut_word;
use plan_texts::whole_lines::trimmed;
use std::alloc::Global;

// The words that begin with `@`, each with the five fields that it abbreviates (crontab(5), extensions).
// `@reboot` has no fields.
static AT_WORDS: [(&str, Option<&str>); 8] = [
    ("@yearly", Some("0 0 1 1 *")),
    ("@annually", Some("0 0 1 1 *")),
    ("@monthly", Some("0 0 1 * *")),
    ("@weekly", Some("0 0 * * 0")),
    ("@daily", Some("0 0 * * *")),
    ("@midnight", Some("0 0 * * *")),
    ("@hourly", Some("0 * * * *")),
    ("@reboot", None),
];

// The error of a text that doesn't have five fields.
const WRONG_PARTS: RuleFault = RuleFault {
    part: 0,
    cause: RuleCause::WrongParts,
};

// The error of a text that begins with `@` and isn't a word of the table.
const UNKNOWN_WORD: RuleFault = RuleFault {
    part: 0,
    cause: RuleCause::UnknownWord,
};

/// Parses a cron rule (crontab(5)).
///
/// The text has five fields with blanks between and around them, or is one of the words `@yearly`, `@annually`,
/// `@monthly`, `@weekly`, `@daily`, `@midnight`, `@hourly` and `@reboot`. Months and days of the week may be
/// written as names.
///
/// # Errors
///
/// The first of these, with its part:
///
/// - `UnknownWord`, part 0: the text begins with `@` and isn't one of those words.
/// - `WrongParts`, part 0: the text doesn't have five fields.
/// - The errors of the fields, from left to right. The part is the field's number, from 1.
///
/// In a field, the first element with an invalid form decides. The checks in it are in this order: the first
/// value, the second value, the step, and then whether a step is allowed there. `WrongParts` is an empty value
/// or step, or a step after one value. `BadName` is a value that begins with a letter and isn't a name of the
/// field. `BadNumber` is any other value, or a step, that isn't 1 to 4 digits. If all forms are valid, `Values`
/// has the error that `plan_sets::set_of` finds in the field's items.
///
/// `NoMemory`, part 0, means that an allocation failed. It can come before an error that isn't found yet.
pub fn cron_rule(alloc: Global, text: &str) -> Result<Rule, RuleFault>
    ensures meaning { Gives result (cron_reading text.now) }
    ensures within { IfOk result RuleIsWithinLimits }
    ensures memory { IfErr result (λ fault. fault.cause ≡ RuleCause.NoMemory → fault.part ≡ 0) }
{
    rule_of(alloc, trimmed(text))
}

// Parses a text without blanks around it.
#[tactic(auto, unfolding(crate::specs::Cron::rule_reading))]
fn rule_of(alloc: Global, text: &str) -> Result<Rule, RuleFault>
    ensures { Gives result (rule_reading text.now) }
{
    if begins_with(text.as_bytes(), b'@') {
        at_rule(alloc, text.as_bytes())
    } else {
        fields_alone(alloc, text)
    }
}

/// Parses the rule at the start of a text without leading blanks, and returns it and what follows it (crontab(5)).
///
/// The rule is one word if the text begins with `@`, and five fields otherwise, as `cron_rule` reads them.
///
/// # Errors
///
/// Those of `cron_rule`.
#[tactic(auto, unfolding(crate::specs::Cron::rule_in_front))]
pub fn rule_in_front(alloc: Global, text: &str) -> Result<(Rule, &str), RuleFault>
    ensures { GivesBy (λ front. (front.0, front.1.now)) result (rule_in_front text.now) }
{
    if begins_with(text.as_bytes(), b'@') {
        let (word, rest) = cut_word(text).ok_or(WRONG_PARTS)?;
        return Ok((at_rule(alloc, word.as_bytes())?, rest));
    }
    let (fields, rest) = fields_in_front(text)?;
    Ok((five_fields(alloc, fields)?, rest))
}

// Parses a text that has five fields and nothing after them.
fn fields_alone(alloc: Global, text: &str) -> Result<Rule, RuleFault>
    ensures { Gives result (fields_alone text.now) }
{
    let (fields, rest) = fields_in_front(text)?;
    if !rest.is_empty() {
        return Err(WRONG_PARTS);
    }
    five_fields(alloc, fields)
}

// Returns the first five fields of a text, and what follows them.
#[tactic(auto, unfolding(crate::specs::Cron::fields_in_front))]
fn fields_in_front(text: &str) -> Result<([&[u8]; 5], &str), RuleFault>
    ensures { GivesBy (λ front. (map (λ field. field.now) front.0, front.1.now)) result (fields_in_front text.now) }
{
    let (minute, rest) = cut_word(text).ok_or(WRONG_PARTS)?;
    let (hour, rest) = cut_word(rest).ok_or(WRONG_PARTS)?;
    let (month_day, rest) = cut_word(rest).ok_or(WRONG_PARTS)?;
    let (month, rest) = cut_word(rest).ok_or(WRONG_PARTS)?;
    let (week_day, rest) = cut_word(rest).ok_or(WRONG_PARTS)?;
    let fields = [
        minute.as_bytes(),
        hour.as_bytes(),
        month_day.as_bytes(),
        month.as_bytes(),
        week_day.as_bytes(),
    ];
    Ok((fields, rest))
}

// Returns the table of the words that begin with `@`.
fn at_words() -> &'static [(&'static str, Option<&'static str>)]
    ensures { map (λ row. (row.0.now, option_map (λ text. text.now) row.1)) result.now ≡ at_words }
{
    &AT_WORDS
}

// Returns what a word that begins with `@` abbreviates, or `None` if it isn't in the table.
fn at_word(word: &[u8]) -> Option<Option<&'static str>>
    ensures { option_map (λ fields. option_map (λ text. text.now) fields) result ≡ at_word word.now }
{
    let (_, fields) = at_words()
        .iter()
        .find(|(known, _)| known.as_bytes() == word)?;
    Some(*fields)
}

// Returns the rule of a word that begins with `@` (crontab(5), extensions).
#[tactic(auto, unfolding(crate::specs::Cron::at_reading))]
fn at_rule(alloc: Global, word: &[u8]) -> Result<Rule, RuleFault>
    ensures { Gives result (at_reading word.now) }
{
    let Some(fields) = at_word(word) else {
        return Err(UNKNOWN_WORD);
    };
    let Some(fields) = fields else {
        return Ok(Rule::Never);
    };
    fields_alone(alloc, fields)
}

// Parses the five fields of a rule.
#[tactic(auto, unfolding(crate::specs::Cron::five_fields))]
fn five_fields(alloc: Global, fields: [&[u8]; 5]) -> Result<Rule, RuleFault>
    ensures { Gives result (five_fields (map (λ field. field.now) fields.entry)) }
{
    let [minute, hour, month_day, month, week_day] = fields;
    Ok(Rule::Cron(CronRule {
        minutes: Field::Minute.values(alloc, minute)?,
        hours: Field::Hour.values(alloc, hour)?,
        month_days: Field::MonthDay.values(alloc, month_day)?,
        months: Field::Month.values(alloc, month)?,
        week_days: week_days(&Field::WeekDay.values(alloc, week_day)?),
        month_days_restricted: is_restricted(month_day),
        week_days_restricted: is_restricted(week_day),
        is_wildcard: !(is_restricted(minute) && is_restricted(hour)),
        clock: Clock::utc(),
    }))
}

// Returns the days of the week, from 0 for Sunday to 6.
fn week_days(written: &ValueSet) -> ValueSet
    ensures { result ≡ week_days_of written.now }
{
    let mut days = ValueSet::empty(0);
    for day in 0..7 {
        if has_week_day(written, day) {
            days.insert(day);
        }
    }
    days
}

// Returns whether a day of the week, from 0 for Sunday to 6, is among the written days, in which 7 is Sunday too.
fn has_week_day(written: &ValueSet, day: u16) -> bool
    ensures { result ≡ has_week_day written.now day }
{
    written.contains(day) || day == 0 && written.contains(7)
}

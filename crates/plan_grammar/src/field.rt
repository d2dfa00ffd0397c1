//! The five fields of a cron rule: their limits, and the values that a field's text stands for.

ghost use Rattle.std.specs.Prelude.{◌≡◌, Bool, IsTrue, map};
ghost use Rattle.std.specs.Str.{bytes_eq};
ghost use Rattle.plan_sets.specs.Items.{set_reading};
ghost use Rattle.plan_grammar.specs.Readings.{Gives, GivesBy};
ghost use Rattle.plan_grammar.specs.Elements.{set_in_part};
ghost use Rattle.plan_grammar.specs.Cron.{part_of, lowest, highest, names_of, named_value, value_reading, step_reading, side_reading, item_of, item_reading, items_reading, field_reading, is_restricted};

use crate::element::{Side, number_in};
use crate::fault::{RuleCause, RuleFault};
use plan_sets::{Item, ValueSet, set_of};
use plan_texts::{begins_with, cut, number};
use std::alloc::Global;

// The names of the months, from 1 for January (crontab(5), names).
const MONTHS: [&str; 12] = [
    "jan", "feb", "mar", "apr", "may", "jun", "jul", "aug", "sep", "oct", "nov", "dec",
];

// The names of the days of the week, from 0 for Sunday (crontab(5), names).
const WEEK_DAYS: [&str; 7] = ["sun", "mon", "tue", "wed", "thu", "fri", "sat"];

/// A field of a cron rule.
#[derive(Clone, Copy)]
pub enum Field {
    Minute,
    Hour,
    MonthDay,
    Month,
    WeekDay,
}

impl Field {
    /// Returns the place of the field in a rule's text, from 1.
    pub fn part(self) -> u8
        ensures { result ≡ part_of self }
    {
        match self {
            Field::Minute => 1,
            Field::Hour => 2,
            Field::MonthDay => 3,
            Field::Month => 4,
            Field::WeekDay => 5,
        }
    }

    /// Returns the minimum value of the field.
    pub fn lowest(self) -> u16
        ensures { result ≡ lowest self }
    {
        match self {
            Field::Minute | Field::Hour | Field::WeekDay => 0,
            Field::MonthDay | Field::Month => 1,
        }
    }

    /// Returns the maximum value of the field. Day of week 7 is Sunday, as 0 is.
    pub fn highest(self) -> u16
        ensures { result ≡ highest self }
    {
        match self {
            Field::Minute => 59,
            Field::Hour => 23,
            Field::MonthDay => 31,
            Field::Month => 12,
            Field::WeekDay => 7,
        }
    }

    // Returns the names of the field's values, in order from its minimum.
    fn names(self) -> &'static [&'static str]
        ensures { map (λ name. name.now) result.now ≡ names_of self }
    {
        match self {
            Field::Month => &MONTHS,
            Field::WeekDay => &WEEK_DAYS,
            Field::Minute | Field::Hour | Field::MonthDay => &[],
        }
    }

    // Returns the value of a name of the field. Upper and lower case are the same.
    fn named_value(self, name: &[u8]) -> Option<u16>
        ensures { result ≡ named_value self name.now }
    {
        let place = self
            .names()
            .iter()
            .position(|known| name.eq_ignore_ascii_case(known.as_bytes()))?;
        Some(self.lowest() + place as u16)
    }

    // Returns an error of this field.
    fn fault(self, cause: RuleCause) -> RuleFault
        ensures part { result.part ≡ part_of self }
        ensures cause { result.cause ≡ cause }
    {
        RuleFault {
            part: self.part(),
            cause,
        }
    }

    // Reads a value. It is a name if it begins with a letter, else a number.
    #[tactic(auto, unfolding(crate::specs::Cron::value_reading))]
    fn value(self, text: &[u8]) -> Result<u16, RuleFault>
        ensures { result ≡ value_reading self text.now }
    {
        match text {
            [] => Err(self.fault(RuleCause::WrongParts)),
            [first, ..] if first.is_ascii_alphabetic() => self
                .named_value(text)
                .ok_or(self.fault(RuleCause::BadName)),
            _ => number(text).ok_or(self.fault(RuleCause::BadNumber)),
        }
    }

    // Reads a step, the number after `/`.
    #[tactic(auto, unfolding(crate::specs::Cron::step_reading))]
    fn step(self, text: &[u8]) -> Result<u16, RuleFault>
        ensures { result ≡ step_reading self text.now }
    {
        number_in(self.part(), text)
    }

    // Reads what comes before the step of an element.
    #[tactic(auto, unfolding(crate::specs::Cron::side_reading))]
    fn side(self, text: &[u8]) -> Result<Side, RuleFault>
        ensures { result ≡ side_reading self text.now }
    {
        if text == b"*".as_slice() {
            return Ok(Side::Star);
        }
        let Some((first, last)) = cut(text, b"-") else {
            return Ok(Side::Value(self.value(text)?));
        };
        let first = self.value(first)?;
        let last = self.value(last)?;
        Ok(Side::Between(first, last))
    }

    // Returns the item of an element. `side` is what comes before its step.
    fn item_of(self, side: Side, step: Option<u16>) -> Result<Item, RuleFault>
        ensures { result ≡ item_of self side step }
    {
        match (side, step) {
            (Side::Star, step) => Ok(Item::Range(self.lowest(), self.highest(), step.unwrap_or(1))),
            (Side::Value(value), None) => Ok(Item::One(value)),
            (Side::Value(_), Some(_)) => Err(self.fault(RuleCause::WrongParts)),
            (Side::Between(first, last), step) => {
                Ok(Item::Range(first, last, step.unwrap_or(1)))
            }
        }
    }

    // Reads an element of the field.
    #[tactic(auto, unfolding(crate::specs::Cron::item_reading))]
    fn item(self, text: &[u8]) -> Result<Item, RuleFault>
        ensures { result ≡ item_reading self text.now }
    {
        let Some((left, step)) = cut(text, b"/") else {
            return self.item_of(self.side(text)?, None);
        };
        let side = self.side(left)?;
        let step = self.step(step)?;
        self.item_of(side, Some(step))
    }

    // Reads the elements of the field, which commas separate.
    #[tactic(auto, unfolding(crate::specs::Cron::items_reading))]
    fn items(self, alloc: Global, text: &[u8]) -> Result<Vec<Item>, RuleFault>
        ensures { GivesBy (λ items. items.items) result (items_reading self text.now) }
    {
        let mut items = Vec::new(alloc);
        for element in text.split(|byte| *byte == b',') {
            items.push(self.item(element)?)?;
        }
        Ok(items)
    }

    // Returns the set of the values of the field's items.
    fn set_of_items(self, items: &[Item]) -> Result<ValueSet, RuleFault>
        ensures { result ≡ set_in_part (part_of self) (set_reading items.now (lowest self) (highest self)) }
    {
        match set_of(items, self.lowest(), self.highest()) {
            Ok(values) => Ok(values),
            Err(fault) => Err(self.fault(RuleCause::Values(fault))),
        }
    }

    /// Returns the values that the field's text stands for. No memory is requested for a text without a comma,
    /// which is one element.
    ///
    /// # Errors
    ///
    /// Those that `cron_rule` describes for a field.
    #[tactic(auto, unfolding(crate::specs::Cron::field_reading))]
    pub fn values(self, alloc: Global, text: &[u8]) -> Result<ValueSet, RuleFault>
        ensures { Gives result (field_reading self text.now) }
    {
        if !text.contains(&b',') {
            let item = self.item(text)?;
            return self.set_of_items(&[item]);
        }
        let items = self.items(alloc, text)?;
        self.set_of_items(items.as_slice())
    }
}

/// Returns whether a day field is restricted: its first character isn't `*`.
pub fn is_restricted(text: &[u8]) -> bool
    ensures { result ≡ is_restricted text.now }
{
    !begins_with(text, b'*')
}

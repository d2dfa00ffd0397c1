//! The components of a calendar event: their limits, and the values that a component's text stands for
//! (systemd.time(7)).

ghost use Rattle.std.specs.Prelude.{◌≡◌, ◌<◌, ◌^◌, IfOk};
ghost use Rattle.plan_texts.specs.Limits.{most_digits};
ghost use Rattle.plan_grammar.specs.Readings.{Gives, GivesBy};
ghost use Rattle.plan_grammar.specs.Event.{component_part, least_of, greatest_of, component_number, full_year, component_value, component_side, spread_item, component_item_of, component_item, component_items, component_set, component_reading};

use crate::element::{Side, number_in};
use crate::fault::{RuleCause, RuleFault};
use crate::places::places_of;
use plan_sets::{FIRST_YEAR, Item, LAST_YEAR, SetFault, ValueSet, set_of};
use plan_texts::cut;
use std::alloc::Global;

/// A component of a calendar event.
#[derive(Clone, Copy)]
pub enum Component {
    Year,
    Month,
    /// The day, counted from the start of the month.
    Day,
    /// The day, counted from the end of the month: 1 is the last day.
    Place,
    Hour,
    Minute,
    Second,
}

impl Component {
    // Returns the number of the component's part of the text.
    fn part(self) -> u8
        ensures { result ≡ component_part self }
    {
        match self {
            Component::Year => 2,
            Component::Month => 3,
            Component::Day | Component::Place => 4,
            Component::Hour => 5,
            Component::Minute => 6,
            Component::Second => 7,
        }
    }

    /// Returns the minimum value of the component.
    pub fn lowest(self) -> u16
        ensures { result ≡ least_of self }
    {
        match self {
            Component::Year => FIRST_YEAR,
            Component::Month | Component::Day | Component::Place => 1,
            Component::Hour | Component::Minute | Component::Second => 0,
        }
    }

    /// Returns the maximum value of the component.
    pub fn highest(self) -> u16
        ensures { result ≡ greatest_of self }
    {
        match self {
            Component::Year => LAST_YEAR,
            Component::Month => 12,
            Component::Day | Component::Place => 31,
            Component::Hour => 23,
            Component::Minute | Component::Second => 59,
        }
    }

    // Returns an error of this component.
    fn fault(self, cause: RuleCause) -> RuleFault
        ensures part { result.part ≡ component_part self }
        ensures cause { result.cause ≡ cause }
    {
        RuleFault {
            part: self.part(),
            cause,
        }
    }

    // Reads a number. A number of seconds must not have a fraction.
    #[tactic(auto, unfolding(crate::specs::Event::component_number))]
    fn number(self, text: &[u8]) -> Result<u16, RuleFault>
        ensures value { result ≡ component_number self text.now }
        ensures small { IfOk result (λ n. n < 10 ^ most_digits) }
    {
        match self {
            Component::Second if text.contains(&b'.') => Err(self.fault(RuleCause::Fraction)),
            _ => number_in(self.part(), text),
        }
    }

    // Reads a value. A year of one or two digits is from 1970 to 2069.
    #[tactic(auto, unfolding(crate::specs::Event::component_value))]
    fn value(self, text: &[u8]) -> Result<u16, RuleFault>
        ensures { result ≡ component_value self text.now }
    {
        let number = self.number(text)?;
        match self {
            Component::Year => Ok(full_year(text, number)),
            _ => Ok(number),
        }
    }

    // Reads what comes before the step of an element.
    #[tactic(auto, unfolding(crate::specs::Event::component_side))]
    fn side(self, text: &[u8]) -> Result<Side, RuleFault>
        ensures { result ≡ component_side self text.now }
    {
        if text == b"*".as_slice() {
            return Ok(Side::Star);
        }
        let Some((first, last)) = cut(text, b"..") else {
            return Ok(Side::Value(self.value(text)?));
        };
        let first = self.value(first)?;
        let last = self.value(last)?;
        Ok(Side::Between(first, last))
    }

    // Returns the item of an element. `side` is what comes before its step.
    fn item_of(self, side: Side, step: Option<u16>) -> Result<Item, RuleFault>
        ensures { result ≡ component_item_of self side step }
    {
        match (self, side, step) {
            (Component::Place, Side::Star, Some(_)) => Err(self.fault(RuleCause::WrongParts)),
            _ => Ok(self.spread(side, step)),
        }
    }

    // Returns the item of an element that may have a step.
    fn spread(self, side: Side, step: Option<u16>) -> Item
        ensures { result ≡ spread_item self side step }
    {
        match (side, step) {
            (Side::Star, None) => Item::Range(self.lowest(), self.highest(), 1),
            (Side::Star, Some(step)) => Item::Onward(self.lowest(), step),
            (Side::Value(value), None) => Item::One(value),
            (Side::Value(value), Some(step)) => Item::Onward(value, step),
            (Side::Between(first, last), step) => Item::Range(first, last, step.unwrap_or(1)),
        }
    }

    // Reads an element of the component.
    #[tactic(auto, unfolding(crate::specs::Event::component_item))]
    fn item(self, text: &[u8]) -> Result<Item, RuleFault>
        ensures { result ≡ component_item self text.now }
    {
        let Some((left, step)) = cut(text, b"/") else {
            return self.item_of(self.side(text)?, None);
        };
        let side = self.side(left)?;
        let step = self.number(step)?;
        self.item_of(side, Some(step))
    }

    // Reads the elements of the component, which commas separate.
    #[tactic(auto, unfolding(crate::specs::Event::component_items))]
    pub(crate) fn items(self, alloc: Global, text: &[u8]) -> Result<Vec<Item>, RuleFault>
        ensures { GivesBy (λ items. items.items) result (component_items self text.now) }
    {
        let mut items = Vec::new(alloc);
        for element in text.split(|byte| *byte == b',') {
            items.push(self.item(element)?)?;
        }
        Ok(items)
    }

    // Returns the set of the values of the component's items.
    fn set_of_items(self, items: &[Item]) -> Result<ValueSet, SetFault>
        ensures { result ≡ component_set self items.now }
    {
        match self {
            Component::Place => places_of(items),
            _ => set_of(items, self.lowest(), self.highest()),
        }
    }

    /// Returns the values that the component's text stands for.
    ///
    /// # Errors
    ///
    /// Those that `calendar_event` describes for a part.
    #[tactic(auto, unfolding(crate::specs::Event::component_reading))]
    pub fn values(self, alloc: Global, text: &[u8]) -> Result<ValueSet, RuleFault>
        ensures { Gives result (component_reading self text.now) }
    {
        let items = self.items(alloc, text)?;
        match self.set_of_items(items.as_slice()) {
            Ok(values) => Ok(values),
            Err(fault) => Err(self.fault(RuleCause::Values(fault))),
        }
    }
}

// Returns the year that a number stands for. `text` is how the number was written.
fn full_year(text: &[u8], number: u16) -> u16
    requires { number < 10 ^ most_digits }
    ensures { result ≡ full_year text.now number }
{
    if text.len() > 2 {
        number
    } else if number < 70 {
        number + 2000
    } else {
        number + 1900
    }
}

//! The elements of calendar events that systemd 252 rejects or reads otherwise.

ghost use Rattle.std.specs.Prelude.{◌≡◌, ◌&&◌, not, find};
ghost use Rattle.std.specs.Option.{option_map};
ghost use Rattle.std.specs.Str.{byte};
ghost use Rattle.plan_grammar.specs.Event.{holds_byte};
ghost use Rattle.plan_grammar.specs.EventItems.{elements_of};
ghost use Rattle.plan_systemd.specs.Flaws.{elements_in, found_hint, has_flaw, hint_in, is_backwards, is_late_year, is_long_step, is_one_value, is_read_otherwise, last_in_range, never_fits, systemd_greatest};

use plan_grammar::{Component, ComponentElements};
use plan_sets::Item;
use plan_texts::begins_with;

/// The last year of systemd 252.
const LAST_YEAR: u16 = 2199;

/// The greatest step of seconds in systemd 252, which counts them in microseconds, up to 2 ^ 31.
const LONGEST_STEP: u16 = 2147;

/// What is wrong with an element.
#[derive(Clone, Copy)]
pub(crate) enum Flaw {
    /// It begins with `*`, but isn't all of its component.
    Star(Component),
    /// It is `a/r` and has no second value.
    NeverFits(Component),
    /// A year after 2199.
    LateYear,
    /// A range of seconds from one second to the same.
    OneSecond,
    /// A step of seconds that is too large.
    LongStep,
    /// A range of days from the end of the month that ends before it begins.
    Backwards,
    /// A range of days from the end of the month that systemd reads as other days.
    ReadOtherwise,
}

/// An element with a flaw.
#[derive(Clone, Copy)]
pub(crate) struct Flawed<'a> {
    pub(crate) flaw: Flaw,
    /// The element as it is written.
    pub(crate) text: &'a [u8],
    pub(crate) item: Item,
}

// Returns the greatest value of a component in systemd 252.
fn greatest(component: Component) -> u16
    ensures { result ≡ systemd_greatest component }
{
    match component {
        Component::Year => LAST_YEAR,
        Component::Month
        | Component::Day
        | Component::Place
        | Component::Hour
        | Component::Minute
        | Component::Second => component.highest(),
    }
}

/// Returns the last value of a range with a step.
pub(crate) fn last_in_range(first: u16, last: u16, step: u16) -> u16
    ensures { result ≡ last_in_range first last step }
{
    let span = last.saturating_sub(first);
    last.saturating_sub(span.checked_rem(step).unwrap_or(span))
}

// Returns whether `a/r` has no second value.
fn never_fits(component: Component, item: Item) -> bool
    ensures { result ≡ never_fits component item }
{
    let Item::Onward(first, step) = item else {
        return false;
    };
    match component {
        Component::Place => first <= step,
        _ => u32::from(first) + u32::from(step) > u32::from(greatest(component)),
    }
}

// Returns whether a year, or the last one of a range, is after systemd's last year.
fn is_late_year(item: Item) -> bool
    ensures { result ≡ is_late_year item }
{
    match item {
        Item::One(year) | Item::Onward(year, _) => year > LAST_YEAR,
        Item::Range(first, last, step) => last_in_range(first, last, step) > LAST_YEAR,
    }
}

// Returns whether a range is from a value to the same value.
fn is_one_value(item: Item) -> bool
    ensures { result ≡ is_one_value item }
{
    matches!(item, Item::Range(first, last, _) if first == last)
}

// Returns whether a step is too large for seconds.
fn is_long_step(item: Item) -> bool
    ensures { result ≡ is_long_step item }
{
    match item {
        Item::One(_) => false,
        Item::Onward(_, step) | Item::Range(_, _, step) => step > LONGEST_STEP,
    }
}

// Returns whether a range ends before it begins.
fn is_backwards(item: Item) -> bool
    ensures { result ≡ is_backwards item }
{
    matches!(item, Item::Range(first, last, _) if last < first)
}

// Returns whether the step of a range doesn't lead from its first to its last value.
fn is_read_otherwise(item: Item) -> bool
    ensures { result ≡ is_read_otherwise item }
{
    let Item::Range(first, last, step) = item else {
        return false;
    };
    let span = last.saturating_sub(first);
    span.checked_rem(step).unwrap_or(span) != 0
}

impl Flaw {
    // Returns whether an element has this flaw.
    fn is_in(self, text: &[u8], item: Item) -> bool
        ensures { result ≡ has_flaw self (text.now, item) }
    {
        match self {
            Flaw::Star(_) => begins_with(text, b'*'),
            Flaw::NeverFits(component) => never_fits(component, item),
            Flaw::LateYear => is_late_year(item),
            Flaw::OneSecond => is_one_value(item) && !text.contains(&b'/'),
            Flaw::LongStep => is_long_step(item),
            Flaw::Backwards => is_backwards(item),
            Flaw::ReadOtherwise => is_read_otherwise(item),
        }
    }

    // Returns the first element of a component that has this flaw.
    fn first_element<'e, 'a>(
        self,
        elements: &'e ComponentElements<'a>,
    ) -> Option<(&'a [u8], &'e Item)>
        ensures { option_map (λ element. (element.0.now, element.1.now)) result
            ≡ find (has_flaw self) (elements_in (elements_of elements.now)) }
    {
        elements
            .text
            .split(|byte| *byte == b',')
            .zip(elements.items.iter())
            .find(|(text, item)| self.is_in(text, **item))
    }

    /// Returns the first element of a component that has this flaw, unless the component is `*` alone.
    pub(crate) fn find_in<'a>(self, elements: &ComponentElements<'a>) -> Option<Flawed<'a>>
        ensures { option_map found_hint result ≡ hint_in self (elements_of elements.now) }
    {
        if elements.text == b"*".as_slice() {
            return None;
        }
        let (text, item) = self.first_element(elements)?;
        Some(Flawed {
            flaw: self,
            text,
            item: *item,
        })
    }
}

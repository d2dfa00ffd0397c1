//! The days after `~` in a calendar event, which are counted from the end of their month (systemd.time(7)).

ghost use Rattle.std.specs.Prelude.{◌≡◌};
ghost use Rattle.plan_sets.specs.Values.{values_where};
ghost use Rattle.plan_grammar.specs.Event.{place_belongs, place_fault, first_place_fault, is_listed_place, places_reading};

use plan_sets::{Item, SetFault, ValueSet};

/// The place of the first day of the longest month. The last day of a month has place 1.
const LAST_PLACE: u16 = 31;

/// Returns the set of the places from 1 to 31 that belong to one of the items.
///
/// # Errors
///
/// The first invalid item decides: a place outside 1 to 31 is `OutOfRange`, else a step of 0 is `ZeroStep`.
#[tactic(auto, unfolding(crate::specs::Event::places_reading))]
pub fn places_of(items: &[Item]) -> Result<ValueSet, SetFault>
    ensures { result ≡ places_reading items.now }
{
    if let Some(fault) = first_fault(items) {
        return Err(fault);
    }
    Ok(listed_places(items))
}

// Returns the error of the first invalid item.
fn first_fault(items: &[Item]) -> Option<SetFault>
    ensures { result ≡ first_place_fault items.now }
{
    for item in items {
        if let Some(fault) = fault_of(*item) {
            return Some(fault);
        }
    }
    None
}

// Returns what is wrong with an item.
fn fault_of(item: Item) -> Option<SetFault>
    ensures { result ≡ place_fault item }
{
    let (first, last, step) = match item {
        Item::One(place) => (place, place, 1),
        Item::Onward(first, step) => (first, first, step),
        Item::Range(first, last, step) => (first, last, step),
    };
    if first < 1 || first > LAST_PLACE || last < 1 || last > LAST_PLACE {
        Some(SetFault::OutOfRange)
    } else if step == 0 {
        Some(SetFault::ZeroStep)
    } else {
        None
    }
}

// Returns the places from 1 to 31 that belong to one of the items.
fn listed_places(items: &[Item]) -> ValueSet
    ensures { result ≡ values_where 1 31 (is_listed_place items.now) }
{
    let mut places = ValueSet::empty(1);
    for place in 1..LAST_PLACE + 1 {
        if is_listed(items, place) {
            places.insert(place);
        }
    }
    places
}

// Returns whether a place belongs to one of the items.
fn is_listed(items: &[Item], place: u16) -> bool
    ensures { result ≡ is_listed_place items.now place }
{
    items.iter().any(|item| belongs(*item, place))
}

// Returns whether a place belongs to an item. Steps go from the greater place down, towards the last day of the month.
fn belongs(item: Item, place: u16) -> bool
    ensures { result ≡ place_belongs item place }
{
    match item {
        Item::One(only) => place == only,
        Item::Onward(first, step) => place <= first && (first - place).is_multiple_of(step),
        Item::Range(first, last, step) => {
            let farthest = first.max(last);
            first.min(last) <= place && place <= farthest && (farthest - place).is_multiple_of(step)
        }
    }
}

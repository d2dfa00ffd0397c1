//! Events at which systemd 252 may stop for good, in a zone with summer time.

ghost use Rattle.std.specs.Prelude.{◌≡◌, ◌≤◌, ◌++◌, codes, string_bytes, [], find, map, position, slice_index_or, IfOk, OnOk};
ghost use Rattle.std.specs.List.{list_any, range_with_len};
ghost use Rattle.plan_grammar.specs.EventItems.{elements_of, item_lists};
ghost use Rattle.plan_systemd.specs.MayStop.{closed_text, closing_hint, component_stop, day_limit, event_stop, first_text, items_stop, later_value, places_text, stops_above, stops_at, values_text};

use crate::flaw_hint::instead;
use crate::skipped::{event_skips, is_onward, is_open};
use plan_grammar::{ComponentElements, EventItems};
use plan_match::{Calendar, DayCount};
use plan_sets::Item;
use plan_texts::{Text, pieces};
use std::alloc::{AllocError, Global};
use std::fmt::Write;

/// The limit past which systemd carries a step without an end.
#[derive(Clone, Copy)]
pub(crate) enum Limit {
    /// The greatest value of a component.
    Value(u16),
    /// The last day of a month, 28 to 31.
    LastDay,
    /// The first day of a month, for days that are counted from its end.
    FirstDay,
}

/// Returns what to write for the first element of an event at which systemd 252 may stop, unless it may skip starts of
/// the event.
pub(crate) fn event_stop(
    alloc: Global,
    event: &Calendar,
    items: &EventItems<'_>,
) -> Result<Option<Text>, AllocError>
    ensures { IfOk result (λ hint. hint ≡ event_stop event.now (item_lists items.now)) }
{
    if event_skips(event, items) {
        return Ok(None);
    }
    items_stop(alloc, items)
}

// Returns the same for these elements, whatever their event is.
fn items_stop(alloc: Global, items: &EventItems<'_>) -> Result<Option<Text>, AllocError>
    ensures { IfOk result (λ hint. hint ≡ items_stop (item_lists items.now)) }
{
    if let Some(hint) = component_stop(alloc, Limit::Value(12), &items.months)? {
        return Ok(Some(hint));
    }
    if let Some(hint) = component_stop(alloc, day_limit(items.count), &items.days)? {
        return Ok(Some(hint));
    }
    if let Some(hint) = component_stop(alloc, Limit::Value(23), &items.hours)? {
        return Ok(Some(hint));
    }
    if let Some(hint) = component_stop(alloc, Limit::Value(59), &items.minutes)? {
        return Ok(Some(hint));
    }
    component_stop(alloc, Limit::Value(59), &items.seconds)
}

// Returns the limit of the days.
fn day_limit(count: DayCount) -> Limit
    ensures { result ≡ day_limit count }
{
    match count {
        DayCount::FromStart => Limit::LastDay,
        DayCount::FromEnd => Limit::FirstDay,
    }
}

// Returns what to write for the first element of a component at which systemd may stop.
fn component_stop(
    alloc: Global,
    limit: Limit,
    elements: &ComponentElements<'_>,
) -> Result<Option<Text>, AllocError>
    ensures { IfOk result (λ hint. hint ≡ component_stop limit (elements_of elements.now)) }
{
    match first_item(limit, elements.items.as_slice()) {
        Some(item) => {
            let text = first_text(alloc, limit, elements)?;
            Ok(Some(closing_hint(alloc, limit, item, text)?))
        }
        None => Ok(None),
    }
}

// Returns the first element at which systemd may stop.
fn first_item(limit: Limit, items: &[Item]) -> Option<Item>
    ensures { result ≡ find (stops_at limit) items.now }
{
    items.iter().copied().find(|item| stops_at(limit, *item))
}

// Returns its place, from 0.
fn first_place(limit: Limit, items: &[Item]) -> Option<usize>
    ensures { result ≡ position (stops_at limit) items.now }
{
    items.iter().position(|item| stops_at(limit, *item))
}

// Returns the text of the first element of a component at which systemd may stop.
fn first_text<'a>(
    alloc: Global,
    limit: Limit,
    elements: &ComponentElements<'a>,
) -> Result<&'a [u8], AllocError>
    ensures { IfOk result (λ text. text.now ≡ first_text limit (elements_of elements.now)) }
{
    let place = first_place(limit, elements.items.as_slice()).unwrap_or(0);
    let pieces = pieces(alloc, elements.text, b',')?;
    Ok(piece_at(pieces.as_slice(), place))
}

// Returns the piece at a place, or an empty one after the last.
fn piece_at<'a>(pieces: &[&'a [u8]], place: usize) -> &'a [u8]
    ensures { result.now ≡ slice_index_or (map (λ piece. piece.now) pieces.now) place [] }
{
    match pieces.get(place) {
        Some(piece) => piece,
        None => b"",
    }
}

// Returns whether systemd may stop at an element.
fn stops_at(limit: Limit, item: Item) -> bool
    ensures { result ≡ stops_at limit item }
{
    match limit {
        Limit::Value(hi) => stops_above(item, hi),
        Limit::LastDay => stops_in_some_month(item),
        Limit::FirstDay => is_open(item),
    }
}

// Returns whether an element's step without an end doesn't go on from the last day of some month by one.
fn stops_in_some_month(item: Item) -> bool
    ensures { result ≡ list_any (stops_above item) (range_with_len 28 4) }
{
    (28..32).any(|hi| stops_above(item, hi))
}

// Returns whether an element's step without an end doesn't go on from a limit by one.
fn stops_above(item: Item, hi: u16) -> bool
    ensures { result ≡ stops_above item hi }
{
    match item {
        Item::Onward(first, step) => {
            !is_onward(u32::from(first), u32::from(step), u32::from(hi) + 1)
        }
        Item::One(_) | Item::Range(_, _, _) => false,
    }
}

// Returns what to write for an element with this text.
fn closing_hint(alloc: Global, limit: Limit, item: Item, text: &[u8]) -> Result<Text, AllocError>
    ensures { IfOk result (λ hint. hint ≡ closing_hint limit item text.now) }
{
    let new = closed_text(alloc, limit, item)?;
    Ok(Text::new(instead(alloc, new.as_str(), text)?))
}

// Returns an element with the same values and an end.
fn closed_text(alloc: Global, limit: Limit, item: Item) -> Result<String, AllocError>
    ensures { IfOk result (λ text. string_bytes text ≡ closed_text limit item) }
{
    let Item::Onward(first, step) = item else {
        return Ok(String::new(alloc));
    };
    let (first, step) = (u32::from(first), u32::from(step));
    match limit {
        Limit::Value(hi) => values_text(alloc, first, step, u32::from(hi)),
        Limit::LastDay => values_text(alloc, first, step, 31),
        Limit::FirstDay => places_text(alloc, first, step),
    }
}

// Returns the values up to `hi` of a step without an end, with commas between them.
fn values_text(alloc: Global, first: u32, step: u32, hi: u32) -> Result<String, AllocError>
    requires first { first ≤ 65535 }
    requires hi { hi ≤ 65535 }
    ensures { IfOk result (λ text. string_bytes text ≡ values_text first step hi) }
{
    let mut text = format!(in alloc; "{first}")?;
    for v in first + 1..hi.max(first) + 1 {
        add_later(&mut text, first, step, v)?;
    }
    Ok(text)
}

// Adds a number after the first value, if it is a value.
fn add_later(text: &mut String, first: u32, step: u32, v: u32) -> Result<(), AllocError>
    requires { first ≤ v }
    ensures { OnOk result (string_bytes text.new ≡ string_bytes text.old ++ later_value first step v) }
{
    if !(v - first).is_multiple_of(step) {
        return Ok(());
    }
    write!(text, ",{v}")
}

// Returns the range of the days of a step without an end, which are counted from the end of the month.
fn places_text(alloc: Global, first: u32, step: u32) -> Result<String, AllocError>
    ensures { IfOk result (λ text. string_bytes text ≡ places_text first step) }
{
    let before = first.saturating_sub(1);
    let least = before.checked_rem(step).unwrap_or(before);
    format!(in alloc; "{}..{first}/{step}", u64::from(least) + 1)
}

//! Starts of an event that systemd 252 may skip (docs/DIFFERENCES.md, calendar events).

ghost use Rattle.std.specs.Prelude.{◌≡◌, ◌<◌, ◌-◌, ◌%◌, ◌&&◌, ◌==◌, nat_le};
ghost use Rattle.std.specs.List.{list_any, range_with_len};
ghost use Rattle.plan_grammar.specs.EventItems.{item_lists};
ghost use Rattle.plan_systemd.specs.Skipped.{counted, days_follow, days_skip, event_skips, has_both, has_month_ends, has_neighbours, has_successor, hours_skip, is_open, is_reached, is_skipped, least_value, minutes_skip, reaches, seconds_skip, skips_unless_last, skips_values, weekdays_follow};

use plan_grammar::EventItems;
use plan_match::{Calendar, DayCount};
use plan_sets::{FIRST_YEAR, Item, LAST_YEAR, ValueSet};

/// Returns whether systemd 252 may skip starts of an event with these elements.
pub(crate) fn event_skips(event: &Calendar, items: &EventItems<'_>) -> bool
    ensures { result ≡ event_skips event.now (item_lists items.now) }
{
    seconds_skip(event, items)
        || minutes_skip(event, items)
        || hours_skip(event, items)
        || days_skip(event, items)
}

// Returns whether seconds are skipped where the last minute of an hour goes on to the next hour.
fn seconds_skip(event: &Calendar, items: &EventItems<'_>) -> bool
    ensures { result ≡ seconds_skip event.now (item_lists items.now) }
{
    skips_values(
        DayCount::FromStart,
        &event.seconds,
        items.seconds.items.as_slice(),
        0,
        59,
    ) && has_both(&event.minutes, 0, 59)
        && has_neighbours(&event.hours, 0, 23)
}

// Returns whether minutes are skipped where the last hour of a day goes on to the next day.
fn minutes_skip(event: &Calendar, items: &EventItems<'_>) -> bool
    ensures { result ≡ minutes_skip event.now (item_lists items.now) }
{
    skips_unless_last(
        DayCount::FromStart,
        &event.minutes,
        items.minutes.items.as_slice(),
        0,
        59,
    ) && has_both(&event.hours, 0, 23)
        && days_follow(&event.days)
        && weekdays_follow(&event.weekdays)
}

// Returns whether hours are skipped where the last day of a month goes on to the next month.
fn hours_skip(event: &Calendar, items: &EventItems<'_>) -> bool
    ensures { result ≡ hours_skip event.now (item_lists items.now) }
{
    skips_unless_last(
        DayCount::FromStart,
        &event.hours,
        items.hours.items.as_slice(),
        0,
        23,
    ) && has_month_ends(&event.days)
        && has_neighbours(&event.months, 1, 12)
        && weekdays_follow(&event.weekdays)
}

// Returns whether days are skipped where December goes on to the next year.
fn days_skip(event: &Calendar, items: &EventItems<'_>) -> bool
    ensures { result ≡ days_skip event.now (item_lists items.now) }
{
    skips_unless_last(
        event.day_count,
        &event.days,
        items.days.items.as_slice(),
        1,
        31,
    ) && has_both(&event.months, 1, 12)
        && has_successor(&event.years, FIRST_YEAR, LAST_YEAR)
}

// Returns whether some element has a step without an end.
fn has_open_step(items: &[Item]) -> bool
    ensures { result ≡ list_any is_open items.now }
{
    items.iter().any(|item| is_open(*item))
}

/// Returns whether an element's step has no end.
pub(crate) fn is_open(item: Item) -> bool
    ensures { result ≡ is_open item }
{
    matches!(item, Item::Onward(_, _))
}

// Returns the number that a value stands for where systemd counts upwards.
fn counted(count: DayCount, v: u16) -> u16
    ensures { result ≡ counted count v }
{
    match count {
        DayCount::FromStart => v,
        DayCount::FromEnd => 32u16.saturating_sub(v),
    }
}

// Returns whether an element's step without an end reaches a number, which may be past the limit.
fn item_reaches(count: DayCount, item: Item, n: u32) -> bool
    ensures { result ≡ reaches count item n }
{
    match item {
        Item::Onward(first, step) => is_onward(
            u32::from(counted(count, first)),
            u32::from(step),
            n,
        ),
        Item::One(_) | Item::Range(_, _, _) => false,
    }
}

/// Returns whether a number is a first one, or follows it by a multiple of a step.
pub(crate) fn is_onward(first: u32, step: u32, n: u32) -> bool
    ensures { result ≡ (nat_le first n && ((n - first) % step == 0)) }
{
    if n < first {
        return false;
    }
    match (n - first).checked_rem(step) {
        Some(rest) => rest == 0,
        None => n == first,
    }
}

// Returns whether a step without an end reaches a number.
fn is_reached(count: DayCount, items: &[Item], n: u32) -> bool
    ensures { result ≡ is_reached count items.now n }
{
    items.iter().any(|item| item_reaches(count, *item, n))
}

// Returns whether a step without an end reaches a number from `first` on, before `end`.
fn is_any_reached(count: DayCount, items: &[Item], first: u32, end: u32) -> bool
    ensures { result ≡ list_any (is_reached count items.now) (range_with_len first (end - first)) }
{
    (first..end).any(|n| is_reached(count, items, n))
}

// Returns whether a value of the next round is skipped, in a component with values from `lo` to `hi`.
fn is_skipped(count: DayCount, items: &[Item], lo: u16, hi: u16, v: u16) -> bool
    ensures { result ≡ is_skipped count items.now lo hi v }
{
    let first = u32::from(hi) + 1;
    let places = (u32::from(v) + 1).saturating_sub(u32::from(lo));
    !is_any_reached(count, items, first, first + places)
}

// Returns the least value of a set from `lo` to `hi`.
fn least_value(count: DayCount, values: &ValueSet, lo: u16, hi: u16) -> Option<u16>
    requires { hi < 3000 }
    ensures { result ≡ least_value count values.now lo hi }
{
    (lo..hi + 1).find(|v| values.contains(counted(count, *v)))
}

// Returns whether a step without an end skips values from `lo` to `hi`.
fn skips_values(count: DayCount, values: &ValueSet, items: &[Item], lo: u16, hi: u16) -> bool
    requires { hi < 3000 }
    ensures { result ≡ skips_values count values.now items.now lo hi }
{
    if !has_open_step(items) {
        return false;
    }
    match least_value(count, values, lo, hi) {
        Some(least) => is_skipped(count, items, lo, hi, least),
        None => false,
    }
}

// Returns the same, if the limit isn't a value.
fn skips_unless_last(count: DayCount, values: &ValueSet, items: &[Item], lo: u16, hi: u16) -> bool
    requires { hi < 3000 }
    ensures { result ≡ skips_unless_last count values.now items.now lo hi }
{
    !values.contains(counted(count, hi)) && skips_values(count, values, items, lo, hi)
}

// Returns whether both values are in a set.
fn has_both(values: &ValueSet, first: u16, last: u16) -> bool
    ensures { result ≡ has_both values.now first last }
{
    values.contains(first) && values.contains(last)
}

// Returns whether some value of a set follows another one, from `lo` to `hi`.
fn has_successor(values: &ValueSet, lo: u16, hi: u16) -> bool
    requires { hi < 3000 }
    ensures { result ≡ has_successor values.now lo hi }
{
    (lo..hi).any(|v| has_both(values, v, v + 1))
}

// Returns the same, if `lo` also follows `hi`.
fn has_neighbours(values: &ValueSet, lo: u16, hi: u16) -> bool
    requires { hi < 3000 }
    ensures { result ≡ has_neighbours values.now lo hi }
{
    has_successor(values, lo, hi) || has_both(values, lo, hi)
}

// Returns whether the days contain the first day of a month, and one that can be the last.
fn has_month_ends(days: &ValueSet) -> bool
    ensures { result ≡ has_month_ends days.now }
{
    days.contains(1) && (28..32).any(|day| days.contains(day))
}

// Returns whether two days may follow each other.
fn days_follow(days: &ValueSet) -> bool
    ensures { result ≡ days_follow days.now }
{
    has_successor(days, 1, 31) || has_month_ends(days)
}

// Returns whether two weekdays follow each other.
fn weekdays_follow(weekdays: &Option<ValueSet>) -> bool
    ensures { result ≡ weekdays_follow weekdays.now }
{
    match weekdays {
        Some(weekdays) => has_neighbours(weekdays, 0, 6),
        None => true,
    }
}

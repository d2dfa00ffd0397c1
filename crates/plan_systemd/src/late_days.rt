//! Days from the end of the month that systemd 252 rejects, since they are too far from it.

ghost use Rattle.std.specs.Prelude.{◌≡◌, ◌<◌, ◌^◌, None, IfSome, fold, map};
ghost use Rattle.plan_systemd.specs.LateDays.{element_order, farthest, has_late_days, least_by, order_of};

use crate::flaw::last_in_range;
use plan_sets::Item;

/// The farthest day from the end of the month that systemd 252 accepts.
const FARTHEST_DAY: u64 = 28;

/// How many days less far each later element may be.
const LESS_FAR: u64 = 3;

// Returns the number that has the first day, the last day and the step of an element.
fn order_of(first: u16, last: u16, step: u16) -> u64
    ensures value { result ≡ order_of first last step }
    ensures small { result < 2 ^ 48 }
{
    (u64::from(first) * 65_536 + u64::from(last)) * 65_536 + u64::from(step)
}

// Returns the order of an element among the others.
fn element_order(item: Item) -> u64
    ensures value { result ≡ element_order item }
    ensures small { result < 2 ^ 48 }
{
    match item {
        Item::One(day) => order_of(day, 0, 0),
        Item::Onward(first, step) => order_of(first, 0, step),
        Item::Range(first, last, step) => {
            let last = last_in_range(first, last, step);
            if first == last {
                order_of(first, 0, 0)
            } else {
                order_of(first, last, step)
            }
        }
    }
}

// Returns the day of an element that is farthest from the end of the month.
fn farthest(order: u64) -> u64
    requires { order < 2 ^ 48 }
    ensures value { result ≡ farthest order }
    ensures small { result < 2 ^ 16 }
{
    let (first, last) = (order / 65_536 / 65_536, order / 65_536 % 65_536);
    if first < last { last } else { first }
}

// Returns the order of an element if it is from `from` on and less than `least`, else `least`.
fn least_by(from: u64, least: Option<u64>, order: u64) -> Option<u64>
    ensures value { result ≡ least_by from least order }
    ensures small { order < 2 ^ 48 → IfSome least (λ least. least < 2 ^ 48) → IfSome result (λ least. least < 2 ^ 48) }
{
    if order < from {
        return least;
    }
    match least {
        Some(least) if least <= order => Some(least),
        _ => Some(order),
    }
}

// Returns the least order of an element from `from` on, if there is one.
fn least_from(items: &[Item], from: u64) -> Option<u64>
    ensures value { result ≡ fold (least_by from) None (map element_order items.now) }
    ensures small { IfSome result (λ order. order < 2 ^ 48) }
{
    let mut least = None;
    for item in items {
        least = least_by(from, least, element_order(*item));
    }
    least
}

/// Returns whether some element is too far from the end of the month. Each different element, in their order, may be 3
/// days less far than the one before.
pub(crate) fn has_late_days(items: &[Item]) -> bool
    ensures { result ≡ has_late_days items.now }
{
    let mut from = 0;
    let mut before = 0;
    while let Some(order) = least_from(items, from) {
        if farthest(order) + LESS_FAR * before > FARTHEST_DAY {
            return true;
        }
        from = order + 1;
        before += 1;
    }
    false
}

//! Items of a field, and the set of all values in a list of items.

ghost use Rattle.std.specs.Prelude.{◌≡◌, ℕ, ◌+◌, ◌^◌, ◌≤◌, ◌<◌, ◌&&◌, ◌||◌, None};
ghost use Rattle.plan_sets.specs.Limits.{set_span};
ghost use Rattle.plan_sets.specs.Values.{has_value};
ghost use Rattle.plan_sets.specs.Items.{belongs, is_step, item_fault, is_within, set_reading};

use crate::value_set::ValueSet;
use std::error::Error;
use std::fmt::{self, Display, Formatter};

/// One element of a field, with its numbers.
#[derive(Clone, Copy, Debug, PartialEq, Eq)]
pub enum Item {
    /// A single value.
    One(u16),
    /// Every value from the first number on, in steps of the second.
    Onward(u16, u16),
    /// Every value from the first number to the second, in steps of the third.
    Range(u16, u16, u16),
}

/// Why a list of items gives no set.
#[derive(Clone, Copy, Debug, PartialEq, Eq)]
pub enum SetFault {
    /// The list is empty.
    NoItem,
    /// A value is outside the limits of the field.
    OutOfRange,
    /// The end of a range is before its start.
    Backwards,
    /// A step is 0.
    ZeroStep,
}

impl SetFault {
    ghost use Rattle.std.specs.Prelude.{◌≡◌};
    ghost use Rattle.plan_sets.specs.Causes.{set_cause};

    /// Returns the name of the error, as error lines show it.
    pub fn name(&self) -> &'static str
        ensures { result.now ≡ set_cause self.now }
    {
        match self {
            SetFault::NoItem => "NoItem",
            SetFault::OutOfRange => "OutOfRange",
            SetFault::Backwards => "Backwards",
            SetFault::ZeroStep => "ZeroStep",
        }
    }
}

impl Display for SetFault {
    ghost use Rattle.std.specs.Prelude.{Some};
    ghost use Rattle.plan_sets.specs.Causes.{set_cause};

    ghost output = { λ fault. Some (set_cause fault) };

    fn fmt<W: fmt::Write>(&self, f: &mut Formatter<W>) -> fmt::Result {
        f.write_str(self.name())
    }
}

impl Error for SetFault {}

impl Item {
    // Returns what is wrong with the item in a field whose values are from `lo` to `hi`.
    fn fault(self, lo: u16, hi: u16) -> Option<SetFault>
        ensures { result ≡ item_fault lo hi self }
    {
        let (first, last, step) = match self {
            Item::One(value) => (value, value, 1),
            Item::Onward(first, step) => (first, first, step),
            Item::Range(first, last, step) => (first, last, step),
        };
        if first < lo || first > hi || last < lo || last > hi {
            Some(SetFault::OutOfRange)
        } else if last < first {
            Some(SetFault::Backwards)
        } else if step == 0 {
            Some(SetFault::ZeroStep)
        } else {
            None
        }
    }

    // Adds the item's values up to `hi` to a set.
    fn add_to(self, values: &mut ValueSet, lo: u16, hi: u16)
        requires limits { lo ≤ hi }
        requires span { hi < lo + set_span }
        requires starts { values.old.base ≡ lo }
        requires faultless { item_fault lo hi self ≡ None }
        ensures base { values.new.base ≡ lo }
        ensures added { (v : ℕ) → has_value values.new v ≡ (has_value values.old v || (is_within lo hi v && belongs self v)) }
    {
        match self {
            Item::One(value) => values.insert(value),
            Item::Onward(first, step) => add_steps(values, first, hi, step),
            Item::Range(first, last, step) => add_steps(values, first, last, step),
        }
    }
}

// Adds every `step`th value from `first` to `last`.
fn add_steps(values: &mut ValueSet, first: u16, last: u16, step: u16)
    requires from { values.old.base ≤ first }
    requires forwards { first ≤ last }
    requires to { last < values.old.base + set_span }
    requires moves { 0 < step }
    ensures base { values.new.base ≡ values.old.base }
    ensures added { (v : ℕ) → has_value values.new v ≡ (has_value values.old v || is_step first last step v) }
{
    if step == 1 {
        values.insert_range(first, last);
        return;
    }
    let mut value = first;
    loop {
        values.insert(value);
        if last - value < step {
            return;
        }
        value += step;
    }
}

/// Returns the set of the values from `lo` to `hi` that belong to at least one item. Its base is `lo`.
///
/// # Errors
///
/// `NoItem` if the list is empty. Otherwise the error of the first invalid item, which is the first of these
/// that applies: `OutOfRange` if a number is not from `lo` to `hi`, `Backwards` if the end of a range is
/// before its start, `ZeroStep` if a step is 0.
pub fn set_of(items: &[Item], lo: u16, hi: u16) -> Result<ValueSet, SetFault>
    requires base { lo + set_span ≤ 2 ^ 16 }
    requires limits { lo ≤ hi }
    requires span { hi < lo + set_span }
    ensures { result ≡ set_reading items.now lo hi }
{
    if items.is_empty() {
        return Err(SetFault::NoItem);
    }
    let mut values = ValueSet::empty(lo);
    for item in items {
        if let Some(fault) = item.fault(lo, hi) {
            return Err(fault);
        }
        item.add_to(&mut values, lo, hi);
    }
    Ok(values)
}

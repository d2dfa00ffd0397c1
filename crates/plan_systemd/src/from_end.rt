//! Days from the end of the month that systemd 252 reads otherwise.

ghost use Rattle.std.specs.Prelude.{◌≡◌};
ghost use Rattle.std.specs.Option.{option_map};
ghost use Rattle.plan_grammar.specs.EventItems.{item_lists};
ghost use Rattle.plan_systemd.specs.Flaws.{found_hint};
ghost use Rattle.plan_systemd.specs.FromEnd.{from_end_hint};

use crate::flaw::{Flaw, Flawed};
use plan_grammar::EventItems;
use plan_match::DayCount;

/// Returns the first range of days from the end of the month that systemd reads as other days.
pub(crate) fn read_otherwise<'a>(items: &EventItems<'a>) -> Option<Flawed<'a>>
    ensures { option_map found_hint result ≡ from_end_hint (item_lists items.now) }
{
    match items.count {
        DayCount::FromStart => None,
        DayCount::FromEnd => Flaw::ReadOtherwise.find_in(&items.days),
    }
}

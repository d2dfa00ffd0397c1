//! The elements of a calendar event's components, for what depends on how the values are written (systemd.time(7)).

ghost use Rattle.std.specs.Prelude.{◌≡◌};
ghost use Rattle.plan_grammar.specs.Readings.{GivesBy};
ghost use Rattle.plan_grammar.specs.Shape.{shape_text};
ghost use Rattle.plan_grammar.specs.EventItems.{component_elements, elements_of, event_items_reading, item_lists, items_of};

use crate::component::Component;
use crate::event::{cut_zone, day_component};
use crate::fault::RuleFault;
use crate::shape::{Shape, shape_of};
use plan_match::DayCount;
use plan_sets::Item;
use plan_texts::words;
use std::alloc::Global;

/// A component of a calendar event.
#[derive(Debug, Drop)]
pub struct ComponentElements<'a> {
    /// The component as it is written. A missing component has the text that it stands for, such as `*`.
    pub text: &'a [u8],
    /// Its elements, in the order of the text. Commas separate them there.
    pub items: Vec<Item>,
}

/// The components of a calendar event with their elements.
#[derive(Debug, Drop)]
pub struct EventItems<'a> {
    /// The years.
    pub years: ComponentElements<'a>,
    /// The months.
    pub months: ComponentElements<'a>,
    /// The days.
    pub days: ComponentElements<'a>,
    /// Whether the days count from the start or from the end of the month.
    pub count: DayCount,
    /// The hours.
    pub hours: ComponentElements<'a>,
    /// The minutes.
    pub minutes: ComponentElements<'a>,
    /// The seconds.
    pub seconds: ComponentElements<'a>,
}

/// Returns the components of the text of a calendar event with their elements (systemd.time(7)).
///
/// The weekday part, the zone and the values' limits aren't checked: see `calendar_event`. One of the words that
/// abbreviate an event counts as a weekday part, so it has the elements of each day at midnight.
///
/// # Errors
///
/// The first error of `calendar_event` but for those of the limits, of the weekday part and of the zone. `NoMemory`,
/// part 0, if an allocation fails.
#[tactic(auto, unfolding(crate::specs::EventItems::event_items_reading))]
pub fn event_items(alloc: Global, text: &str) -> Result<EventItems<'_>, RuleFault>
    ensures { GivesBy item_lists result (event_items_reading text.now) }
{
    let words = words(alloc, text.as_bytes())?;
    let (left, _) = cut_zone(words.as_slice());
    let shape = shape_of(alloc, left)?;
    items_of(alloc, shape)
}

// Returns the elements of a shape.
#[tactic(auto, unfolding(crate::specs::EventItems::items_of))]
fn items_of(alloc: Global, shape: Shape<'_>) -> Result<EventItems<'_>, RuleFault>
    ensures { GivesBy item_lists result (items_of (shape_text shape.entry)) }
{
    Ok(EventItems {
        years: Component::Year.elements(alloc, shape.date.year)?,
        months: Component::Month.elements(alloc, shape.date.month)?,
        days: day_component(shape.date.count).elements(alloc, shape.date.day)?,
        count: shape.date.count,
        hours: Component::Hour.elements(alloc, shape.time.hour)?,
        minutes: Component::Minute.elements(alloc, shape.time.minute)?,
        seconds: Component::Second.elements(alloc, shape.time.second)?,
    })
}

impl Component {
    // Returns the component's text with its elements.
    #[tactic(auto, unfolding(crate::specs::EventItems::component_elements))]
    fn elements(self, alloc: Global, text: &[u8]) -> Result<ComponentElements<'_>, RuleFault>
        ensures { GivesBy elements_of result (component_elements self text.now) }
    {
        let items = self.items(alloc, text)?;
        Ok(ComponentElements { text, items })
    }
}

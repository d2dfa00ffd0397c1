//! How systemd 252 reads a calendar event, where that differs from how agenda reads it.

ghost use Rattle.std.specs.Prelude.{◌≡◌, ◌&&◌, IfOk, None, false, is_none, is_some};
ghost use Rattle.plan_grammar.specs.EventItems.{item_lists};
ghost use Rattle.plan_systemd.specs.FromEnd.{from_end_hint, from_end_of};
ghost use Rattle.plan_systemd.specs.MayStop.{event_stop, may_stop};
ghost use Rattle.plan_systemd.specs.Rejection.{event_hint, rejection_of};
ghost use Rattle.plan_systemd.specs.Skipped.{event_skips, may_skip_starts};

use crate::flaw_hint::flaw_hint;
use crate::from_end::read_otherwise;
use crate::may_stop::event_stop;
use crate::rejected::event_rejection;
use crate::skipped::event_skips;
use plan_grammar::{EventItems, RuleCause, event_items};
use plan_match::Calendar;
use plan_texts::Text;
use std::alloc::{AllocError, Global};

/// How systemd 252 reads an event that agenda accepts. Each text says what to write instead, such as
/// `write 0/15 for */15`.
#[derive(Debug, Drop)]
pub struct EventDifferences {
    /// Systemd rejects the event.
    pub rejected: Option<Text>,
    /// It reads a range of days from the end of the month as other days.
    pub from_end: Option<Text>,
    /// It may skip starts.
    pub skips: bool,
    /// It may stop for good in a zone with summer time. Not told beside `skips`.
    pub stops: Option<Text>,
}

impl EventDifferences {
    // Returns no difference.
    fn none() -> Self
        ensures rejected { result.rejected ≡ None }
        ensures from_end { result.from_end ≡ None }
        ensures skips { result.skips ≡ false }
        ensures stops { result.stops ≡ None }
    {
        EventDifferences {
            rejected: None,
            from_end: None,
            skips: false,
            stops: None,
        }
    }
}

// Returns what to write for days that systemd reads otherwise.
fn from_end_hint(alloc: Global, items: &EventItems<'_>) -> Result<Option<Text>, AllocError>
    ensures { IfOk result (λ hint. hint ≡ from_end_hint (item_lists items.now)) }
{
    match read_otherwise(items) {
        Some(found) => Ok(Some(Text::new(flaw_hint(alloc, found)?))),
        None => Ok(None),
    }
}

// Returns how systemd reads an event with this text and these elements.
fn differences_of(
    alloc: Global,
    text: &str,
    event: &Calendar,
    items: &EventItems<'_>,
) -> Result<EventDifferences, AllocError>
    ensures rejected { IfOk result (λ found. found.rejected ≡ event_hint text.now (item_lists items.now)) }
    ensures from_end { IfOk result (λ found. found.from_end ≡ from_end_hint (item_lists items.now)) }
    ensures skips { IfOk result (λ found. found.skips ≡ event_skips event.now (item_lists items.now)) }
    ensures stops { IfOk result (λ found. found.stops ≡ event_stop event.now (item_lists items.now)) }
{
    Ok(EventDifferences {
        rejected: event_rejection(alloc, text, items)?,
        from_end: from_end_hint(alloc, items)?,
        skips: event_skips(event, items),
        stops: event_stop(alloc, event, items)?,
    })
}

/// Returns how systemd 252 reads an event that agenda accepts, where that differs. `text` is how the event is written.
///
/// # Errors
///
/// `AllocError` if an allocation fails.
pub fn event_differences(
    alloc: Global,
    text: &str,
    event: &Calendar,
) -> Result<EventDifferences, AllocError>
    ensures rejected { IfOk result (λ found. found.rejected ≡ rejection_of text.now) }
    ensures from_end { IfOk result (λ found. found.from_end ≡ from_end_of text.now) }
    ensures skips { IfOk result (λ found. found.skips ≡ may_skip_starts text.now event.now) }
    ensures stops { IfOk result (λ found. found.stops ≡ may_stop text.now event.now) }
{
    match event_items(alloc, text) {
        Ok(items) => differences_of(alloc, text, event, &items),
        Err(fault) => match fault.cause {
            RuleCause::NoMemory => Err(AllocError),
            _ => Ok(EventDifferences::none()),
        },
    }
}

/// Returns whether systemd 252 accepts an event, but reads its days from the end of the month as other days than agenda does.
///
/// # Errors
///
/// `AllocError` if an allocation fails.
pub fn is_read_otherwise(alloc: Global, text: &str) -> Result<bool, AllocError>
    ensures { IfOk result (λ is. is ≡ (is_none (rejection_of text.now) && is_some (from_end_of text.now))) }
{
    match event_items(alloc, text) {
        Ok(items) => {
            let rejected = event_rejection(alloc, text, &items)?;
            let from_end = from_end_hint(alloc, &items)?;
            Ok(rejected.is_none() && from_end.is_some())
        }
        Err(fault) => match fault.cause {
            RuleCause::NoMemory => Err(AllocError),
            _ => Ok(false),
        },
    }
}

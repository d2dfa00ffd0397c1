//! What to write in place of an element that systemd 252 rejects or reads otherwise.

ghost use Rattle.std.specs.Prelude.{◌≡◌, IfOk, codes, string_bytes};
ghost use Rattle.std.specs.Option.{option_map};
ghost use Rattle.plan_texts.specs.Text.{cut_at};
ghost use Rattle.plan_systemd.specs.Flaws.{before_mark, found_hint, instead, range_text, shortened, shown, star_hint, step_text, turned};

use crate::flaw::{Flaw, Flawed, last_in_range};
use plan_sets::Item;
use plan_texts::cut;
use std::alloc::{AllocError, Global};

// Returns a part of an element, as it is shown.
fn shown(alloc: Global, text: &[u8]) -> Result<String, AllocError>
    ensures { IfOk result (λ part. string_bytes part ≡ shown text.now) }
{
    String::from_utf8_lossy(alloc, text)
}

/// Returns what to write, and for what.
pub(crate) fn instead(alloc: Global, new: &str, old: &[u8]) -> Result<String, AllocError>
    ensures { IfOk result (λ hint. string_bytes hint ≡ instead new.now old.now) }
{
    let old = shown(alloc, old)?;
    let old = old.as_str();
    format!(in alloc; "write {new} for {old}")
}

// Returns what comes before a mark.
fn before_mark(alloc: Global, cut: Option<(&[u8], &[u8])>) -> Result<String, AllocError>
    ensures { IfOk result (λ part. string_bytes part
        ≡ before_mark (option_map (λ cut. (cut.0.now, cut.1.now)) cut.entry)) }
{
    match cut {
        Some((before, _)) => shown(alloc, before),
        None => Ok(String::new(alloc)),
    }
}

// Returns the step of an element, with its slash.
fn step_text(alloc: Global, cut: Option<(&[u8], &[u8])>) -> Result<String, AllocError>
    ensures { IfOk result (λ part. string_bytes part
        ≡ step_text (option_map (λ cut. (cut.0.now, cut.1.now)) cut.entry)) }
{
    let Some((_, step)) = cut else {
        return Ok(String::new(alloc));
    };
    let step = shown(alloc, step)?;
    let step = step.as_str();
    format!(in alloc; "/{step}")
}

// Returns what to write for an element that begins with `*`.
fn star_hint(alloc: Global, least: u16, text: &[u8]) -> Result<String, AllocError>
    ensures { IfOk result (λ hint. string_bytes hint
        ≡ star_hint least text.now (cut_at (codes "/") text.now)) }
{
    let cut = cut(text, b"/");
    if cut.is_none() {
        return String::from_str(alloc, "write * alone");
    }
    let step = step_text(alloc, cut)?;
    let step = step.as_str();
    let new = format!(in alloc; "{least}{step}")?;
    instead(alloc, new.as_str(), text)
}

// Returns a range of numbers with the step of an element.
fn range_text(alloc: Global, first: u32, last: u16, text: &[u8]) -> Result<String, AllocError>
    ensures { IfOk result (λ range. string_bytes range ≡ range_text first last text.now) }
{
    let step = step_text(alloc, cut(text, b"/"))?;
    let step = step.as_str();
    format!(in alloc; "{first}..{last}{step}")
}

// Returns the range that ends with the first value of a backwards range and has the same days.
fn turned(alloc: Global, item: Item, text: &[u8]) -> Result<String, AllocError>
    ensures { IfOk result (λ range. string_bytes range ≡ turned item text.now) }
{
    let Item::Range(first, last, step) = item else {
        return shown(alloc, text);
    };
    let span = first.saturating_sub(last);
    let rest = span.checked_rem(step).unwrap_or(span);
    range_text(alloc, u32::from(last) + u32::from(rest), first, text)
}

// Returns the range that ends with the last value that systemd takes.
fn shortened(alloc: Global, item: Item, text: &[u8]) -> Result<String, AllocError>
    ensures { IfOk result (λ range. string_bytes range ≡ shortened item text.now) }
{
    let Item::Range(first, last, step) = item else {
        return shown(alloc, text);
    };
    range_text(
        alloc,
        u32::from(first),
        last_in_range(first, last, step),
        text,
    )
}

/// Returns what to do about an element with a flaw.
///
/// # Errors
///
/// `AllocError` if an allocation fails.
pub(crate) fn flaw_hint(alloc: Global, found: Flawed<'_>) -> Result<String, AllocError>
    ensures { IfOk result (λ hint. string_bytes hint ≡ found_hint found.entry) }
{
    let text = found.text;
    match found.flaw {
        Flaw::Star(component) => star_hint(alloc, component.lowest(), text),
        Flaw::NeverFits(_) => {
            let value = before_mark(alloc, cut(text, b"/"))?;
            let hint = instead(alloc, value.as_str(), text)?;
            let hint = hint.as_str();
            format!(in alloc; "the step never fits: {hint}")
        }
        Flaw::LateYear => String::from_str(alloc, "years end at 2199"),
        Flaw::OneSecond => {
            let value = before_mark(alloc, cut(text, b".."))?;
            instead(alloc, value.as_str(), text)
        }
        Flaw::LongStep => String::from_str(alloc, "a step of seconds is at most 2147"),
        Flaw::Backwards => {
            let new = turned(alloc, found.item, text)?;
            instead(alloc, new.as_str(), text)
        }
        Flaw::ReadOtherwise => {
            let new = shortened(alloc, found.item, text)?;
            instead(alloc, new.as_str(), text)
        }
    }
}

//! Why an event may be rejected: it has a form of weekdays that agenda does not read.

ghost use Rattle.std.specs.Prelude.{◌≡◌, option_map};
ghost use Rattle.std.specs.List.{list_any};
ghost use Rattle.std.specs.Str.{byte};
ghost use Rattle.plan_grammar.specs.Event.{names_weekday};
ghost use Rattle.plan_texts.specs.Text.{pieces};
ghost use Rattle.plan_systemd.specs.EventHint.{event_hint, has_old_range, is_old_range, is_weekday};

use plan_texts::cut;
use plan_texts::lines::cut_word;

/// Returns a hint for a rejected event, or `None`: it has a range of weekdays such as `Mon-Fri`.
pub fn event_hint(event: &str) -> Option<&'static str>
    ensures { option_map (λ hint. hint.now) result ≡ event_hint event.now }
{
    if has_old_range(event) {
        return Some("write Mon..Fri");
    }
    None
}

// Returns whether the first word of an event has a range of weekdays with `-`.
fn has_old_range(event: &str) -> bool
    ensures { result ≡ has_old_range event.now }
{
    match cut_word(event) {
        Some((word, _)) => lists_old_range(word.as_bytes()),
        None => false,
    }
}

// Returns whether one of the elements of a word, which commas separate, is a range of weekdays with `-`.
fn lists_old_range(word: &[u8]) -> bool
    ensures { result ≡ list_any is_old_range (pieces (byte ",") word.now) }
{
    word.split(|byte| *byte == b',')
        .any(|element| is_old_range(element))
}

// Returns whether a text is two names of weekdays with `-` between them.
fn is_old_range(element: &[u8]) -> bool
    ensures { result ≡ is_old_range element.now }
{
    match cut(element, b"-") {
        Some((first, last)) => is_weekday(first) && is_weekday(last),
        None => false,
    }
}

// Returns whether a text is the name of a weekday.
fn is_weekday(name: &[u8]) -> bool
    ensures { result ≡ is_weekday name.now }
{
    names_weekday(name, b"monday")
        || names_weekday(name, b"tuesday")
        || names_weekday(name, b"wednesday")
        || names_weekday(name, b"thursday")
        || names_weekday(name, b"friday")
        || names_weekday(name, b"saturday")
        || names_weekday(name, b"sunday")
}

// Returns whether a name is a weekday's full name or its first three letters, in any case.
fn names_weekday(name: &[u8], full: &[u8]) -> bool
    ensures { result ≡ names_weekday name.now full.now }
{
    name.eq_ignore_ascii_case(full) || full.len() >= 3 && name.eq_ignore_ascii_case(&full[..3])
}

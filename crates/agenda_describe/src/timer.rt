//! The sentences of the events of a timer.

ghost use Rattle.std.specs.Prelude.{◌≡◌, ◌++◌, [], IfOk, OnOk, map, option_map, string_bytes};
ghost use Rattle.std.specs.List.{list_any};
ghost use Rattle.std.specs.Str.{bytes_eq};
ghost use Rattle.plan_rules.specs.Names.{with_name};
ghost use Rattle.plan_rules.specs.TimerEntries.{line_shown, no_lines, shown_line, state_after, timer_lines};
ghost use Rattle.agenda_describe.specs.Timers.{joined, more_sentences, next_sentence, sentences_after, sentences_by, sentences_from, sentences_in, timer_sentence, value_of, with_reading};

use crate::rule::event_sentence;
use plan_rules::{Calendar, EventZones, LineCause, Text, TimerLine, TimerReader, text_of};
use plan_texts::whole_lines::{WholeLine, whole_lines};
use std::alloc::{AllocError, Global};

/// Returns the sentences of the events in a timer file, joined by `; `, each once: those of the list after the last line, without
/// events that are rejected. Without any it is `never`. Events may name these zones.
///
/// # Errors
///
/// `AllocError` if an allocation fails.
pub(crate) fn timer_sentence(
    alloc: Global,
    bytes: &[u8],
    zones: &EventZones,
) -> Result<Text, AllocError>
    ensures { IfOk result (λ text. text ≡ timer_sentence zones.now bytes.now) }
{
    let found = sentences_of(alloc, bytes, zones)?;
    joined(alloc, found.as_slice())
}

// Returns the sentences of the events in a timer file.
fn sentences_of(alloc: Global, bytes: &[u8], zones: &EventZones) -> Result<Vec<Text>, AllocError>
    ensures { IfOk result (λ found. found.items ≡ sentences_in zones.now (timer_lines bytes.now)) }
{
    match text_of(bytes) {
        Ok(text) => {
            let lines = whole_lines(alloc, text)?;
            sentences_of_lines(alloc, lines.as_slice(), zones)
        }
        Err(_) => Ok(Vec::new(alloc)),
    }
}

// Returns the sentences of the events of whole lines.
fn sentences_of_lines(
    alloc: Global,
    lines: &[WholeLine],
    zones: &EventZones,
) -> Result<Vec<Text>, AllocError>
    ensures { IfOk result (λ found. found.items ≡ sentences_from (no_lines zones.now) [] (map shown_line lines.now)) }
{
    let mut reader = TimerReader::new(zones);
    let mut found = Vec::new(alloc);
    for line in lines {
        add_line(alloc, &mut reader, &mut found, line)?;
    }
    Ok(found)
}

// Adds what the next line says to the sentences of the lines before it.
fn add_line(
    alloc: Global,
    reader: &mut TimerReader<'_>,
    found: &mut Vec<Text>,
    line: &WholeLine,
) -> Result<(), AllocError>
    ensures found { OnOk result (found.new.items ≡ sentences_after reader.old found.old.items (shown_line line.now)) }
    ensures reader { OnOk result (reader.new ≡ state_after reader.old (shown_line line.now).1) }
{
    let setting = reader.setting(line);
    let step = reader.read(alloc, line)?;
    add_step(alloc, found, setting, step)
}

// Adds what a line does, with its setting, to the sentences of the lines before it.
fn add_step(
    alloc: Global,
    found: &mut Vec<Text>,
    setting: Option<(&str, &str)>,
    step: TimerLine<'_>,
) -> Result<(), AllocError>
    ensures { OnOk result (found.new.items ≡ sentences_by found.old.items
        (option_map (λ setting. (setting.0.now, setting.1.now)) setting.entry) (line_shown step.entry)) }
{
    match step {
        TimerLine::Empties => {
            found.clear();
            Ok(())
        }
        TimerLine::Event(entry) => add_event(alloc, found, value_of(setting), entry.read),
        TimerLine::Nothing | TimerLine::Starts(_) => Ok(()),
    }
}

// Returns the value of a setting, which is empty if there is none.
fn value_of<'a>(setting: Option<(&'a str, &'a str)>) -> &'a str
    ensures { result.now ≡ value_of (option_map (λ setting. (setting.0.now, setting.1.now)) setting.entry) }
{
    match setting {
        Some((_, value)) => value,
        None => "",
    }
}

// Adds the sentence of an event that was read from this text, unless the event is rejected.
fn add_event(
    alloc: Global,
    found: &mut Vec<Text>,
    text: &str,
    read: Result<Calendar, LineCause>,
) -> Result<(), AllocError>
    ensures { OnOk result (found.new.items ≡ with_reading found.old.items text.now read) }
{
    match read {
        Ok(event) => {
            let sentence = event_sentence(alloc, &event, text)?;
            add_once(found, sentence)
        }
        Err(_) => Ok(()),
    }
}

// Adds a sentence at the end, unless it is among the others.
fn add_once(found: &mut Vec<Text>, sentence: Text) -> Result<(), AllocError>
    ensures { OnOk result (found.new.items ≡ with_name found.old.items sentence) }
{
    if has(found.as_slice(), sentence.as_str()) {
        return Ok(());
    }
    found.push(sentence)?;
    Ok(())
}

// Returns whether a sentence is among others.
fn has(found: &[Text], sentence: &str) -> bool
    ensures { result ≡ list_any (bytes_eq sentence.now) found.now }
{
    found.iter().any(|one| sentence == one.as_str())
}

// Joins sentences.
fn joined(alloc: Global, found: &[Text]) -> Result<Text, AllocError>
    ensures { IfOk result (λ text. text ≡ joined found.now) }
{
    let Some((first, more)) = found.split_first() else {
        return Ok(Text::new(String::from_str(alloc, "never")?));
    };
    let mut text = String::from_str(alloc, first.as_str())?;
    add_all(&mut text, more)?;
    Ok(Text::new(text))
}

// Adds sentences to a text that has one.
fn add_all(text: &mut String, more: &[Text]) -> Result<(), AllocError>
    ensures { OnOk result (string_bytes text.new ≡ string_bytes text.old ++ more_sentences more.now) }
{
    for sentence in more {
        add_next(text, sentence.as_str())?;
    }
    Ok(())
}

// Adds a sentence to a text that has one.
fn add_next(text: &mut String, sentence: &str) -> Result<(), AllocError>
    ensures { OnOk result (string_bytes text.new ≡ string_bytes text.old ++ next_sentence sentence.now) }
{
    text.push_str("; ")?;
    text.push_str(sentence)
}

//! The reader of scripts: the first line makes a mailbox, and each further line is a step on it.

ghost use Rattle.std.specs.Prelude.{◌≡◌, ◌+◌, ◌≤◌, IfOk, OnOk, false, map, true};
ghost use Rattle.std.specs.Str.{is_utf8};
ghost use Rattle.plan_mailbox.specs.Mailbox.{IsNew};
ghost use Rattle.plan_mailbox.specs.Lanes.{mailbox_of};
ghost use Rattle.plan_texts.specs.Lines.{is_too_large};
ghost use Rattle.plan_texts.specs.Steps.{GivesUnless};
ghost use Rattle.agenda_script.specs.Script.{fault_on, lines_reading, mailbox_in, mailbox_line, meaning_of, memory_fault, most_steps};
ghost use Rattle.agenda_script.specs.Script.{script_reading, send_of, size_reading, sizes_in, sizes_of, step_of, step_on, steps_reading};

use crate::fault::{ScriptCause, ScriptFault};
use crate::message::Message;
use plan_mailbox::{Rings, Step};
use plan_texts::lines::{is_too_large, lines};
use plan_texts::{cut, number};
use std::alloc::Global;

/// The maximum number of steps of a script.
pub const MOST_STEPS: u32 = 10_000;

/// A script that was read: a new mailbox of rings, and the steps on it.
#[derive(Drop)]
pub struct Script<'a> {
    /// The mailbox, with the sizes in the first line.
    pub mailbox: Rings<Message<'a>>,
    /// The steps, one for each further line. Their messages are borrowed from the script.
    pub steps: Vec<Step<Message<'a>>>,
}

/// Reads a script from its bytes.
///
/// # Errors
///
/// The script's first error, or `NoMemory` if an allocation fails. `TooLarge` and `NotUtf8` are found before
/// any memory is requested.
#[tactic(auto, unfolding(crate::specs::Script::script_reading))]
pub fn read_script<'a>(alloc: Global, script: &'a [u8]) -> Result<Script<'a>, ScriptFault>
    ensures meaning { GivesUnless memory_fault meaning_of result (script_reading script.now) }
    ensures new { IfOk result (λ read. IsNew (mailbox_in read)) }

    // These two are found before any memory is requested.
    ensures too_large { is_too_large script.now ≡ true
        → result ≡ fault_on 0 ScriptCause.TooLarge }
    ensures not_utf8 { is_too_large script.now ≡ false → is_utf8 script.now ≡ false
        → result ≡ fault_on 0 ScriptCause.NotUtf8 }
{
    if is_too_large(script) {
        return Err(fault_on(0, ScriptCause::TooLarge));
    }
    let Ok(text) = str::from_utf8(script) else {
        return Err(fault_on(0, ScriptCause::NotUtf8));
    };
    let lines = lines(alloc, text)?;
    read_lines(alloc, lines.as_slice())
}

// Reads a script from its lines.
#[tactic(auto, unfolding(crate::specs::Script::lines_reading))]
fn read_lines<'a>(alloc: Global, lines: &[&'a str]) -> Result<Script<'a>, ScriptFault>
    ensures meaning { GivesUnless memory_fault meaning_of result
        (lines_reading (map (λ line. line.now) lines.now)) }
    ensures new { IfOk result (λ read. IsNew (mailbox_in read)) }
{
    let [first, later @ ..] = lines else {
        return Err(fault_on(1, ScriptCause::BadLine));
    };
    let mailbox = new_mailbox(alloc, first.as_bytes())?;
    let steps = read_steps(alloc, later)?;
    Ok(Script { mailbox, steps })
}

fn fault_on(line: u32, cause: ScriptCause) -> ScriptFault
    ensures { result ≡ record { line = line; cause = cause } }
{
    ScriptFault { line, cause }
}

// Makes the new mailbox of the first line.
#[tactic(auto, unfolding(crate::specs::Script::size_reading))]
fn new_mailbox<'a>(alloc: Global, line: &[u8]) -> Result<Rings<Message<'a>>, ScriptFault>
    ensures size { GivesUnless memory_fault (λ rings. sizes_in (mailbox_of rings)) result
        (size_reading line.now) }
    ensures new { IfOk result (λ rings. IsNew (mailbox_of rings)) }
{
    let Some((senders, room)) = read_mailbox(line) else {
        return Err(fault_on(1, ScriptCause::BadLine));
    };
    let mailbox = Rings::new(alloc, senders, room)?;
    Ok(mailbox)
}

// Reads the sizes in `mailbox SENDERS ROOM`.
#[tactic(auto, unfolding(crate::specs::Script::mailbox_line))]
fn read_mailbox(line: &[u8]) -> Option<(usize, usize)>
    ensures { result ≡ mailbox_line line.now }
{
    match cut(line, b" ") {
        Some((word, sizes)) if word == b"mailbox".as_slice() => read_sizes(sizes),
        _ => None,
    }
}

// Reads `SENDERS ROOM`.
#[tactic(auto, unfolding(crate::specs::Script::sizes_of))]
fn read_sizes(text: &[u8]) -> Option<(usize, usize)>
    ensures { result ≡ sizes_of text.now }
{
    let Some((senders, room)) = cut(text, b" ") else {
        return None;
    };
    match (number(senders), number(room)) {
        (Some(senders), Some(room)) => Some((usize::from(senders), usize::from(room))),
        _ => None,
    }
}

// Reads the steps of the lines after the first.
fn read_steps<'a>(alloc: Global, lines: &[&'a str]) -> Result<Vec<Step<Message<'a>>>, ScriptFault>
    ensures { GivesUnless memory_fault (λ steps. steps.items) result
        (steps_reading (map (λ line. line.now) lines.now)) }
{
    let mut steps = Vec::new(alloc);
    let mut number = 2;
    for line in lines {
        let step = step_on(number, line.as_bytes())?;
        steps.push(step)?;
        number += 1;
    }
    Ok(steps)
}

// Reads the step of the line with this number.
#[tactic(auto, unfolding(crate::specs::Script::step_on))]
fn step_on(number: u32, line: &[u8]) -> Result<Step<Message<'_>>, ScriptFault>
    ensures reading { result ≡ step_on number line.now }
    ensures few { OnOk result (number ≤ most_steps + 1) }
{
    if number > MOST_STEPS + 1 {
        return Err(fault_on(number, ScriptCause::TooManySteps));
    }
    match read_step(line) {
        Some(step) => Ok(step),
        None => Err(fault_on(number, ScriptCause::BadLine)),
    }
}

// Reads `take`, `send S TEXT` or `close S`.
#[tactic(auto, unfolding(crate::specs::Script::step_of))]
fn read_step(line: &[u8]) -> Option<Step<Message<'_>>>
    ensures { result ≡ step_of line.now }
{
    if line == b"take".as_slice() {
        return Some(Step::Take);
    }
    let Some((word, rest)) = cut(line, b" ") else {
        return None;
    };
    if word == b"send".as_slice() {
        return read_send(rest);
    }
    if word != b"close".as_slice() {
        return None;
    }
    match number(rest) {
        Some(sender) => Some(Step::Close(usize::from(sender))),
        None => None,
    }
}

// Reads `S TEXT`. The text is everything after the one space.
#[tactic(auto, unfolding(crate::specs::Script::send_of))]
fn read_send(text: &[u8]) -> Option<Step<Message<'_>>>
    ensures { result ≡ send_of text.now }
{
    let Some((sender, message)) = cut(text, b" ") else {
        return None;
    };
    if message.is_empty() {
        return None;
    }
    match number(sender) {
        Some(sender) => Some(Step::Send(usize::from(sender), Message::new(message))),
        None => None,
    }
}

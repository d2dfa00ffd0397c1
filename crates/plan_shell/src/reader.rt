//! How the pieces of a command are read, from left to right.

ghost use Rattle.std.specs.Prelude.{◌≡◌, ◌&&◌, IfOk, OnOk, map, option_map};
ghost use Rattle.plan_shell.specs.Reading.{after_token, at_close, at_elif, at_fi, at_join, at_not, at_open, at_part, at_pipe, at_semicolon, at_token, at_word, ended, is_in, left, may_begin, may_end, start, state_of, token_at, whole, with_end, words_after};

use crate::commands::steps_of;
use crate::level::{
    Inside, Join, Level, Outer, is_in, push_ending, push_ifs, push_pipe, push_pipeline,
};
use crate::step::Step;
use crate::tokens::{Token, token_at};
use std::alloc::{AllocError, Global};

// The maximum number of lists that a list is in, and of `elif`s of an `if`.
const MOST_NESTED: usize = 64;

const MOST_ELIFS: u32 = 64;

/// What may come next.
#[derive(Clone, Copy)]
pub(crate) enum Place {
    /// A command.
    Command,
    /// A command, or the end of a list.
    CommandOrEnd,
    /// More words of a simple command, an operator, or the end of a list.
    Words,
    /// An operator, or the end of a list.
    Operator,
}

/// A command, as far as it has been read.
#[derive(Drop)]
pub(crate) struct Reader {
    steps: Vec<Step>,
    outer: Outer,
    level: Level,
    place: Place,
}

impl Reader {
    /// Returns a command of which nothing has been read.
    pub(crate) fn new(alloc: Global) -> Reader
        ensures { state_of result ≡ start }
    {
        Reader {
            steps: Vec::new(alloc),
            outer: Outer::new(alloc),
            level: Level::new(Inside::Whole, 0),
            place: Place::Command,
        }
    }
}

/// Reads a piece. `words` are those of a simple command that may go on. Returns `None` if the command isn't read.
///
/// # Errors
///
/// `AllocError` if an allocation fails.
pub(crate) fn after_piece<'a>(
    alloc: Global,
    reader: Reader,
    words: &mut Vec<&'a [u8]>,
    piece: &'a [u8],
) -> Result<Option<Reader>, AllocError>
    ensures next { IfOk result (λ next. option_map state_of next
        ≡ after_token (token_at reader.place piece.now) (map (λ word. word.now) words.old.items) (state_of reader)) }
    ensures words { OnOk result (map (λ word. word.now) words.new.items
        ≡ words_after (token_at reader.place piece.now) piece.now (map (λ word. word.now) words.old.items)) }
{
    let token = token_at(reader.place, piece);
    if let Token::Word = token {
        words.push(piece)?;
        return Ok(at_word(reader));
    }
    let found = ended(alloc, reader, words.as_slice())?;
    words.clear();
    let Some(reader) = found else {
        return Ok(None);
    };
    let next = at_token(token, reader)?;
    Ok(next)
}

/// Returns the steps of a command that has ended, or `None` if it isn't closed.
///
/// # Errors
///
/// `AllocError` if an allocation fails.
pub(crate) fn whole(reader: Reader) -> Result<Option<Vec<Step>>, AllocError>
    ensures { IfOk result (λ steps. option_map (λ steps. steps.items) steps ≡ whole (state_of reader)) }
{
    if !ends_in(Inside::Whole, reader.place, reader.level) {
        return Ok(None);
    }
    let reader = with_end(reader)?;
    Ok(Some(reader.steps))
}

/// Ends the simple command, if there is one, before an operator. Returns `None` if it isn't read.
///
/// # Errors
///
/// `AllocError` if an allocation fails.
pub(crate) fn ended(
    alloc: Global,
    reader: Reader,
    words: &[&[u8]],
) -> Result<Option<Reader>, AllocError>
    ensures { IfOk result (λ next.
        option_map state_of next ≡ ended reader.place (map (λ word. word.now) words.now) (state_of reader)) }
{
    match reader.place {
        Place::Words => match steps_of(alloc, words)? {
            None => Ok(None),
            Some(mut steps) => {
                let mut reader = reader;
                reader.steps.append(&mut steps)?;
                reader.place = Place::Operator;
                Ok(Some(reader))
            }
        },
        _ => Ok(Some(reader)),
    }
}

// Reads a token that isn't a word of a simple command.
fn at_token(token: Token, reader: Reader) -> Result<Option<Reader>, AllocError>
    ensures { IfOk result (λ next. option_map state_of next ≡ at_token token (state_of reader)) }
{
    let elifs = reader.level.elifs;
    match token {
        Token::Word => Ok(None),
        Token::Semicolon => at_semicolon(reader),
        Token::And => at_join(Join::And, reader),
        Token::Or => at_join(Join::Or, reader),
        Token::Pipe => at_pipe(reader),
        Token::Not => Ok(at_not(reader)),
        Token::Opens(inside) => at_open(inside, reader),
        Token::Closes(inside) => at_close(inside, reader),
        Token::Then => at_part(Inside::Condition, Inside::Then, elifs, reader),
        Token::Elif => at_elif(reader),
        Token::Else => at_part(Inside::Then, Inside::Else, elifs, reader),
        Token::Fi => at_fi(reader),
    }
}

// Reads a word of a simple command.
fn at_word(reader: Reader) -> Option<Reader>
    ensures { option_map state_of result ≡ at_word reader.place (state_of reader) }
{
    match reader.place {
        Place::Operator => None,
        _ => {
            let mut reader = reader;
            reader.place = Place::Words;
            Some(reader)
        }
    }
}

// Reads `;`.
fn at_semicolon(reader: Reader) -> Result<Option<Reader>, AllocError>
    ensures { IfOk result (λ next. option_map state_of next ≡ at_semicolon reader.place (state_of reader)) }
{
    match reader.place {
        Place::Operator => {
            let mut reader = reader;
            push_ending(&mut reader.steps, reader.level)?;
            reader.level = Level::new(reader.level.inside, reader.level.elifs);
            reader.level.is_second = true;
            reader.place = Place::CommandOrEnd;
            Ok(Some(reader))
        }
        _ => Ok(None),
    }
}

// Reads `&&` or `||`.
fn at_join(join: Join, reader: Reader) -> Result<Option<Reader>, AllocError>
    ensures { IfOk result (λ next. option_map state_of next ≡ at_join reader.place join (state_of reader)) }
{
    match reader.place {
        Place::Operator => {
            let mut reader = reader;
            push_pipeline(&mut reader.steps, reader.level)?;
            reader.level.join = join;
            reader.level.is_negated = false;
            reader.level.is_piped = false;
            reader.place = Place::Command;
            Ok(Some(reader))
        }
        _ => Ok(None),
    }
}

// Reads `|`.
fn at_pipe(reader: Reader) -> Result<Option<Reader>, AllocError>
    ensures { IfOk result (λ next. option_map state_of next ≡ at_pipe reader.place (state_of reader)) }
{
    match reader.place {
        Place::Operator => {
            let mut reader = reader;
            push_pipe(&mut reader.steps, reader.level)?;
            reader.level.is_piped = true;
            reader.place = Place::Command;
            Ok(Some(reader))
        }
        _ => Ok(None),
    }
}

// Reads `!`.
fn at_not(reader: Reader) -> Option<Reader>
    ensures { option_map state_of result ≡ at_not (state_of reader) }
{
    if !may_begin(reader.place) || reader.level.is_negated || reader.level.is_piped {
        return None;
    }
    let mut reader = reader;
    reader.level.is_negated = true;
    reader.place = Place::Command;
    Some(reader)
}

// Reads `(`, `{` or `if`.
fn at_open(inside: Inside, reader: Reader) -> Result<Option<Reader>, AllocError>
    ensures { IfOk result (λ next. option_map state_of next ≡ at_open inside (state_of reader)) }
{
    if !may_begin(reader.place) || reader.outer.len() >= MOST_NESTED {
        return Ok(None);
    }
    let mut reader = reader;
    reader.outer.push(reader.level)?;
    reader.level = Level::new(inside, 0);
    reader.place = Place::Command;
    Ok(Some(reader))
}

// Reads `)` or `}`.
fn at_close(inside: Inside, reader: Reader) -> Result<Option<Reader>, AllocError>
    ensures { IfOk result (λ next. option_map state_of next ≡ at_close inside (state_of reader)) }
{
    if !ends_in(inside, reader.place, reader.level) {
        return Ok(None);
    }
    Ok(left(with_end(reader)?))
}

// Reads `then`, `elif` or `else`.
fn at_part(
    from: Inside,
    to: Inside,
    elifs: u32,
    reader: Reader,
) -> Result<Option<Reader>, AllocError>
    ensures { IfOk result (λ next. option_map state_of next ≡ at_part from to elifs (state_of reader)) }
{
    if !ends_in(from, reader.place, reader.level) {
        return Ok(None);
    }
    let mut reader = with_end(reader)?;
    reader.level = Level::new(to, elifs);
    reader.place = Place::Command;
    Ok(Some(reader))
}

// Reads `elif`.
fn at_elif(reader: Reader) -> Result<Option<Reader>, AllocError>
    ensures { IfOk result (λ next. option_map state_of next ≡ at_elif (state_of reader)) }
{
    let elifs = reader.level.elifs;
    if elifs < MOST_ELIFS {
        at_part(Inside::Then, Inside::Condition, elifs + 1, reader)
    } else {
        Ok(None)
    }
}

// Reads `fi`.
fn at_fi(reader: Reader) -> Result<Option<Reader>, AllocError>
    ensures { IfOk result (λ next. option_map state_of next ≡ at_fi (state_of reader)) }
{
    let elifs = reader.level.elifs;
    if ends_in(Inside::Then, reader.place, reader.level) {
        let mut reader = with_end(reader)?;
        reader.steps.push(Step::Known(true))?;
        push_ifs(&mut reader.steps, elifs)?;
        return Ok(left(reader));
    }
    if ends_in(Inside::Else, reader.place, reader.level) {
        let mut reader = with_end(reader)?;
        push_ifs(&mut reader.steps, elifs)?;
        return Ok(left(reader));
    }
    Ok(None)
}

// Ends a list.
fn with_end(reader: Reader) -> Result<Reader, AllocError>
    ensures { IfOk result (λ next. state_of next ≡ with_end (state_of reader)) }
{
    let mut reader = reader;
    if let Place::Operator = reader.place {
        push_ending(&mut reader.steps, reader.level)?;
    }
    Ok(reader)
}

// Ends a command with the list that was begun in it.
fn left(reader: Reader) -> Option<Reader>
    ensures { option_map state_of result ≡ left (state_of reader).outer (state_of reader) }
{
    let mut reader = reader;
    let level = reader.outer.pop()?;
    reader.level = level;
    reader.place = Place::Operator;
    Some(reader)
}

// Returns whether a list inside `kind` may end.
fn ends_in(kind: Inside, place: Place, level: Level) -> bool
    ensures { result ≡ (may_end place && is_in kind level.inside) }
{
    may_end(place) && is_in(kind, level.inside)
}

// Returns whether a command may begin.
fn may_begin(place: Place) -> bool
    ensures { result ≡ may_begin place }
{
    match place {
        Place::Command | Place::CommandOrEnd => true,
        Place::Words | Place::Operator => false,
    }
}

// Returns whether a list may end.
fn may_end(place: Place) -> bool
    ensures { result ≡ may_end place }
{
    match place {
        Place::CommandOrEnd | Place::Operator => true,
        Place::Command | Place::Words => false,
    }
}

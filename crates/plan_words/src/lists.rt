//! How lists are said.

ghost use Rattle.std.specs.Prelude.{◌≡◌, ◌++◌, OnOk};
ghost use Rattle.plan_words.specs.Appends.{joined_after, value_words};
ghost use Rattle.plan_words.specs.Sentence.{clock, clock_word, is_one, joined, month_name, number, span_words, weekday_name, weekday_names, window_words};

use crate::names::{Month, Weekday};
use crate::tree::{Span, TimeOfDay, Window};
use crate::words::{Keyword, Word};
use std::alloc::AllocError;

/// Says the items of a list.
pub trait Says<T> {
    ghost use Rattle.std.specs.Prelude.{◌≡◌, ◌++◌, List, OnOk};
    ghost use Rattle.plan_words.specs.Words.{Word};

    /// The words of an item.
    ghost item_words: { Self → T → List Word };

    /// Appends the words of an item.
    ///
    /// # Errors
    ///
    /// `AllocError` if an allocation fails.
    fn say(&self, item: &T, out: &mut Vec<Word>) -> Result<(), AllocError>
        ensures { OnOk result (out.new.items ≡ out.old.items ++ item_words self.now item.now) };
}

/// Appends a list: `a`, `a and b`, `a, b and c`.
///
/// # Errors
///
/// `AllocError` if an allocation fails.
#[tactic(auto, using(crate::proofs::ListLemmas::joined_cons))]
pub fn say_list<T, S: Says<T>>(
    sayer: &S,
    items: &[T],
    out: &mut Vec<Word>,
) -> Result<(), AllocError>
    ensures { OnOk result (out.new.items ≡ out.old.items ++ joined (S.item_words sayer.now) items.now) }
{
    match items {
        [first, rest @ ..] => {
            sayer.say(first, out)?;
            say_rest(sayer, rest, out)
        }
        [] => Ok(()),
    }
}

// Appends the items after the first.
fn say_rest<T, S: Says<T>>(sayer: &S, rest: &[T], out: &mut Vec<Word>) -> Result<(), AllocError>
    ensures { OnOk result (out.new.items ≡ out.old.items ++ joined_after (S.item_words sayer.now) rest.now) }
{
    for (index, item) in rest.iter().enumerate() {
        if rest.len() - index == 1 {
            out.push(Word::Key(Keyword::And))?;
        } else {
            out.push(Word::Key(Keyword::Comma))?;
        }
        sayer.say(item, out)?;
    }
    Ok(())
}

/// Says numbers: `2`.
#[derive(Clone, Copy)]
pub struct PlainNumbers;

impl Says<u16> for PlainNumbers {
    ghost item_words = { λ _ n. number n };

    fn say(&self, item: &u16, out: &mut Vec<Word>) -> Result<(), AllocError> {
        out.push(Word::Number(*item))?;
        Ok(())
    }
}

/// Says times of the day, with or without their seconds.
#[derive(Clone, Copy)]
pub struct Clocks {
    pub seconds: bool,
}

impl Clocks {
    // Returns the word of a time of day.
    fn word(self, time: TimeOfDay) -> Word
        ensures { result ≡ clock_word self.seconds time }
    {
        if self.seconds {
            Word::ClockSeconds(time.hour, time.minute, time.second)
        } else {
            Word::Clock(time.hour, time.minute)
        }
    }
}

impl Says<TimeOfDay> for Clocks {
    ghost item_words = { λ clocks time. clock clocks.seconds time };

    fn say(&self, item: &TimeOfDay, out: &mut Vec<Word>) -> Result<(), AllocError> {
        out.push(self.word(*item))?;
        Ok(())
    }
}

impl Says<Window> for Clocks {
    ghost item_words = { λ clocks window. window_words clocks.seconds window };

    fn say(&self, item: &Window, out: &mut Vec<Word>) -> Result<(), AllocError> {
        let first = self.word(item.first);
        let last = self.word(item.last);
        out.extend_from_slice(&[
            Word::Key(Keyword::From),
            first,
            Word::Key(Keyword::To),
            last,
        ])
    }
}

/// Says weekdays in the plural: `Mondays`.
#[derive(Clone, Copy)]
pub struct Plurals;

impl Says<Weekday> for Plurals {
    ghost item_words = { λ _ weekday. weekday_names weekday };

    fn say(&self, item: &Weekday, out: &mut Vec<Word>) -> Result<(), AllocError> {
        out.push(Word::DaysOfWeek(*item))?;
        Ok(())
    }
}

/// Says weekdays and months: `Monday`, `May`.
#[derive(Clone, Copy)]
pub struct Names;

impl Says<Weekday> for Names {
    ghost item_words = { λ _ weekday. weekday_name weekday };

    fn say(&self, item: &Weekday, out: &mut Vec<Word>) -> Result<(), AllocError> {
        out.push(Word::ADayOfWeek(*item))?;
        Ok(())
    }
}

impl Says<Month> for Names {
    ghost item_words = { λ _ month. month_name month };

    fn say(&self, item: &Month, out: &mut Vec<Word>) -> Result<(), AllocError> {
        out.push(Word::NameOfMonth(*item))?;
        Ok(())
    }
}

/// How the numbers of spans are said.
#[derive(Clone, Copy)]
pub enum Naming {
    /// `2`.
    Numbers,
    /// `2nd`.
    Ordinals,
    /// `2nd last`, and `last`.
    Places,
}

/// Appends a number.
///
/// # Errors
///
/// `AllocError` if an allocation fails.
pub fn say_value(naming: Naming, n: u16, out: &mut Vec<Word>) -> Result<(), AllocError>
    ensures { OnOk result (out.new.items ≡ out.old.items ++ value_words naming n) }
{
    match naming {
        Naming::Numbers => out.push(Word::Number(n))?,
        Naming::Ordinals => out.push(Word::Ordinal(n))?,
        Naming::Places => {
            if n != 1 {
                out.push(Word::Ordinal(n))?;
            }
            out.push(Word::Key(Keyword::Last))?;
        }
    }
    Ok(())
}

impl Says<Span> for Naming {
    ghost item_words = { λ naming span. span_words (value_words naming) span };

    fn say(&self, item: &Span, out: &mut Vec<Word>) -> Result<(), AllocError> {
        say_value(*self, item.first, out)?;
        if item.first != item.last {
            out.push(Word::Key(Keyword::To))?;
            say_value(*self, item.last, out)?;
        }
        Ok(())
    }
}

/// Returns whether spans are a single number.
pub fn is_one(spans: &[Span]) -> bool
    ensures { result ≡ is_one spans.now }
{
    match spans {
        [span] => span.first == span.last,
        _ => false,
    }
}

//! What follows the times of lines.

ghost use Rattle.std.specs.Prelude.{◌≡◌, List, ℕ, ◌<◌, ◌++◌, All, IfNone, IfOk, IfSome, option_map};
ghost use Rattle.plan_baseline.specs.Tails.{BeginsWithRest, BeginsWithTail, IsEnd, IsTail, IsTailRead};

use crate::cuts::{cut, cut_after};
use simdutf8::is_utf8;
use std::alloc::AllocError;

/// Where the text of an agenda has the tail of a line: what follows the tab after its time.
#[derive(Clone, Copy, Debug)]
pub(crate) struct Tail {
    /// Where the name of the job starts.
    pub(crate) job: usize,
    /// Where what the job runs starts, after a tab.
    pub(crate) runs: usize,
    /// Where that ends, before a newline.
    pub(crate) end: usize,
}

/// The number of guesses.
pub(crate) const GUESSES: usize = 4096;

/// Returns the number of the tail that starts the end of a text, and what follows its newline. `last` is the number of the tail
/// before it, and `guesses` has that of the last new tail with a name. A tail that isn't found by these is put after the others.
#[inline(always)]
pub(crate) fn tail_of<'a>(
    text: &[u8],
    tails: &mut Vec<Tail>,
    guesses: &mut [usize; GUESSES],
    last: usize,
    rest: &'a [u8],
) -> Result<Option<(usize, &'a [u8])>, AllocError>
    requires end { IsEnd text.now rest.now }
    requires tails { All (IsTail text.now) tails.old.items }
    ensures tails { IfOk result (λ _. All (IsTail text.now) tails.new.items) }
    ensures kept { IfOk result (λ _. (added : List Tail) × (tails.new.items ≡ tails.old.items ++ added)) }
    ensures read { IfOk result (λ read. IsTailRead text.now tails.new.items rest.now (option_map (λ parts. (parts.0, parts.1.now)) read)) }
{
    if let Some(known) = known_tail(text, tails, last, rest) {
        return Ok(Some(known));
    }
    let guess = guess_of(rest);
    let number = guesses[guess];
    if let Some(after) = after_tail(text, tails, number, rest) {
        return Ok(Some((number, after)));
    }
    let Some((tail, after)) = read_tail(text, rest) else {
        return Ok(None);
    };
    let number = tails.len();
    tails.push(tail)?;
    guesses[guess] = number;
    Ok(Some((number, after)))
}

// Returns where the guess of a text is: by the name that it starts with, before a tab.
fn guess_of(text: &[u8]) -> usize
    ensures { result < 4096 }
{
    let mut sum = 0_usize;
    for byte in text {
        if *byte == b'\t' {
            break;
        }
        sum = sum.wrapping_mul(31).wrapping_add(usize::from(*byte));
    }
    sum % GUESSES
}

// Returns the number of the tail that a text starts with, and what follows its newline, if it is the one before, or the one
// that came after that: the lines of jobs that start together go round in the same order.
#[inline(always)]
fn known_tail<'a>(
    text: &[u8],
    tails: &[Tail],
    last: usize,
    rest: &'a [u8],
) -> Option<(usize, &'a [u8])>
    requires { All (IsTail text.now) tails.now }
    ensures { IfSome result (λ parts. IsTailRead text.now tails.now rest.now (Some (parts.0, parts.1.now))) }
{
    if let Some(after) = after_tail(text, tails, last, rest) {
        return Some((last, after));
    }
    let next = last.saturating_add(1);
    let next = if next < tails.len() { next } else { 0 };
    let Some(after) = after_tail(text, tails, next, rest) else {
        return None;
    };
    Some((next, after))
}

// Returns what follows the tail with this number and its newline, if a text starts with them.
#[inline(always)]
fn after_tail<'a>(text: &[u8], tails: &[Tail], number: usize, rest: &'a [u8]) -> Option<&'a [u8]>
    requires { All (IsTail text.now) tails.now }
    ensures { IfSome result (λ after. IsTailRead text.now tails.now rest.now (Some (number, after.now))) }
{
    let Some(tail) = tails.get(number) else {
        return None;
    };
    let known = &text[tail.job..tail.end];
    let Some((same, after)) = cut_after(rest, known.len(), b'\n') else {
        return None;
    };
    if same != known {
        return None;
    }
    Some(after)
}

// Returns the tail that starts the end of a text, and what follows its newline.
fn read_tail<'a>(text: &[u8], rest: &'a [u8]) -> Option<(Tail, &'a [u8])>
    requires { IsEnd text.now rest.now }
    ensures tail { IfSome result (λ parts. IsTail text.now parts.0) }
    ensures some { IfSome result (λ parts. BeginsWithTail text.now parts.0 rest.now parts.1.now) }
    ensures none { IfNone result ((job runs after : List ℕ) → ¬ BeginsWithRest rest.now job runs after) }
{
    let Some((line, after)) = cut(rest, b'\n') else {
        return None;
    };
    let Some((name, _)) = cut(line, b'\t') else {
        return None;
    };
    if !is_utf8(line) {
        return None;
    }
    let job = text.len() - rest.len();
    let tail = Tail {
        job,
        runs: job + name.len() + 1,
        end: job + line.len(),
    };
    Some((tail, after))
}

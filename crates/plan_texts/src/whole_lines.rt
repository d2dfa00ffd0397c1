//! Merges the lines of a unit file into whole lines (systemd.syntax(7)).

ghost use Rattle.std.specs.Prelude.{◌≡◌, ◌≤◌, ◌==◌, IfOk, OnOk, [], ℕ, List, length, map, take, ◌-◌, if◌then◌else◌, Some, None};
ghost use Rattle.std.specs.List.{suffix_len};
ghost use Rattle.std.specs.Option.{option_map};
ghost use Rattle.plan_texts.specs.Limits.{most_bytes};
ghost use Rattle.plan_texts.specs.Text.{is_blank};
ghost use Rattle.plan_texts.specs.WholeLines.{before_bad, line_text, is_comment, is_joined, numbered_texts, joined, readable_lines, whole_lines, trimmed, whole_text};

use crate::lines::{after_blanks, blanks_in_front, byte_lines, is_too_large, lines};
use crate::parts::is_blank;
use std::alloc::{AllocError, Global};

/// A whole line: a line of a unit file, or several lines that are merged.
#[derive(Debug, Drop)]
pub struct WholeLine {
    /// The number of its first line, from 1.
    pub number: u32,
    /// Its text, with a space for each backslash that continued a line.
    pub text: String,
}

/// Returns the whole lines of a text of at most 1,048,576 bytes.
///
/// One carriage return at the end of a line, and blanks at its start, aren't part of it; other blanks at its
/// end are. Comments, which begin with `#` or `;`, are skipped. A line that ends in an odd number of
/// backslashes is merged with the next line that isn't skipped, and its last backslash is replaced by a space.
///
/// # Errors
///
/// `AllocError` if an allocation fails.
#[tactic(auto, unfolding(crate::specs::WholeLines::whole_lines))]
pub fn whole_lines(alloc: Global, text: &str) -> Result<Vec<WholeLine>, AllocError>
    requires { length text.now ≤ most_bytes }
    ensures { IfOk result (λ whole. map whole_text whole.items ≡ whole_lines text.now) }
{
    let lines = lines(alloc, text)?;
    joined(alloc, lines.as_slice())
}

// Merges lines into whole lines.
fn joined(alloc: Global, lines: &[&str]) -> Result<Vec<WholeLine>, AllocError>
    requires { length lines.now ≤ most_bytes }
    ensures { IfOk result (λ whole. map whole_text whole.items
        ≡ joined (numbered_texts (map (λ line. line.now) lines.now))) }
{
    let mut joiner = Joiner {
        whole: Vec::new(alloc),
        open: None,
    };
    for (place, line) in lines.iter().enumerate() {
        joiner.add(alloc, place as u32 + 1, line)?;
    }
    joiner.end()
}

/// Returns the whole lines of the bytes of a unit file, up to the first that isn't UTF-8: systemd stops reading there.
/// Comments may have any bytes. A text of more than 1,048,576 bytes has none.
///
/// # Errors
///
/// `AllocError` if an allocation fails.
#[tactic(auto, unfolding(crate::specs::WholeLines::readable_lines, crate::specs::WholeLines::whole_lines))]
pub fn readable_lines(alloc: Global, text: &[u8]) -> Result<Vec<WholeLine>, AllocError>
    ensures { IfOk result (λ whole. map whole_text whole.items ≡ readable_lines text.now) }
{
    if is_too_large(text) {
        return Ok(Vec::new(alloc));
    }
    let lines = byte_lines(alloc, text)?;
    joined_bytes(alloc, lines.as_slice())
}

// Merges lines into whole lines, up to the first whole line that isn't UTF-8.
fn joined_bytes(alloc: Global, lines: &[&[u8]]) -> Result<Vec<WholeLine>, AllocError>
    requires { length lines.now ≤ most_bytes }
    ensures { IfOk result (λ whole. map whole_text whole.items
        ≡ before_bad (joined (numbered_texts (map (λ line. line.now) lines.now)))) }
{
    let mut joiner = Joiner {
        whole: Vec::new(alloc),
        open: None,
    };
    for (place, line) in lines.iter().enumerate() {
        match str::from_utf8(line) {
            Ok(line) => joiner.add(alloc, place as u32 + 1, line)?,
            Err(_) if is_comment_line(line) => {}
            Err(_) => return Ok(joiner.whole),
        }
    }
    joiner.end()
}

// Returns whether a line, with its blanks, is a comment.
fn is_comment_line(line: &[u8]) -> bool
    ensures { result ≡ is_comment (line_text line.now) }
{
    let line = match line {
        [front @ .., b'\r'] => front,
        _ => line,
    };
    matches!(&line[blanks_in_front(line)..], [b'#' | b';', ..])
}

/// Returns a text without the blanks at both ends.
pub fn trimmed(text: &str) -> &str
    ensures { result.now ≡ trimmed text.now }
{
    let text = after_blanks(text);
    &text[..text.len() - blanks_at_end(text.as_bytes())]
}

// Returns how many blanks a text ends with.
fn blanks_at_end(text: &[u8]) -> usize
    ensures { result ≡ suffix_len is_blank text.now }
{
    text.iter()
        .rev()
        .take_while(|byte| is_blank(**byte))
        .count()
}

// Returns how many backslashes a text ends with.
fn backslashes_at_end(text: &[u8]) -> usize
    ensures { result ≡ suffix_len (λ b. b == 92) text.now }
{
    text.iter().rev().take_while(|byte| **byte == b'\\').count()
}

// Returns the text of a line: without one carriage return at its end, and without its leading blanks.
fn line_text(line: &str) -> &str
    ensures { result.now ≡ line_text line.now }
{
    let line = match line.as_bytes() {
        [.., b'\r'] => &line[..line.len() - 1],
        _ => line,
    };
    after_blanks(line)
}

// Returns whether a line is a comment.
fn is_comment(text: &str) -> bool
    ensures { result ≡ is_comment text.now }
{
    matches!(text.as_bytes(), [b'#' | b';', ..])
}

// Returns what comes before the last backslash of a line that the next line continues, or `None` for any other line.
fn before_backslash(text: &str) -> Option<&str>
    ensures { option_map (λ front. front.now) result
        ≡ (if is_joined text.now then Some (take (length text.now - 1) text.now) else None) }
{
    if backslashes_at_end(text.as_bytes()) % 2 == 0 {
        return None;
    }
    Some(&text[..text.len() - 1])
}

// The whole lines so far, and the one that the next line continues.
#[derive(Drop)]
struct Joiner {
    whole: Vec<WholeLine>,
    open: Option<WholeLine>,
}

impl Joiner {
    ghost use Rattle.plan_texts.specs.Joining.{whole_with, with_raw_line};

    // Adds a line.
    fn add(&mut self, alloc: Global, number: u32, line: &str) -> Result<(), AllocError>
        ensures { OnOk result ((rest : List (ℕ × List ℕ))
            → whole_with self.new rest ≡ whole_with self.old (with_raw_line number line.now rest)) }
    {
        let text = line_text(line);
        if is_comment(text) {
            return Ok(());
        }
        let mut whole = self.open.take().unwrap_or(WholeLine {
            number,
            text: String::new(alloc),
        });
        if let Some(front) = before_backslash(text) {
            whole.text.push_str(front)?;
            whole.text.push_str(" ")?;
            self.open = Some(whole);
            return Ok(());
        }
        whole.text.push_str(text)?;
        self.whole.push(whole)?;
        Ok(())
    }

    // Returns the whole lines, after all lines were added.
    fn end(self) -> Result<Vec<WholeLine>, AllocError>
        ensures { IfOk result (λ whole. map whole_text whole.items ≡ whole_with self []) }
    {
        let Joiner { mut whole, open } = self;
        if let Some(line) = open {
            whole.push(line)?;
        }
        Ok(whole)
    }
}

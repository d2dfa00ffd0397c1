//! The pieces of a command: its words, with their quotes, and its operators.

ghost use Rattle.std.specs.Prelude.{◌≡◌, ◌+◌, ◌<◌, ◌≤◌, IfOk, OnOk, length, map, option_map, slice_index};
ghost use Rattle.std.specs.List.{list_any, slice_range};
ghost use Rattle.plan_shell.specs.Pieces.{add, closed, cut_at, is_unread, pieces_of};

use crate::modes::{Action, Mode, after_byte, may_end};
use std::alloc::{AllocError, Global};

/// Returns the pieces of a command, or `None` if the text isn't read.
///
/// # Errors
///
/// `AllocError` if an allocation fails.
pub(crate) fn pieces(alloc: Global, text: &[u8]) -> Result<Option<Vec<&[u8]>>, AllocError>
    ensures { IfOk result (λ found.
        option_map (λ pieces. map (λ piece. piece.now) pieces.items) found ≡ pieces_of text.now) }
{
    if has_unread(text) {
        return Ok(None);
    }
    let mut pieces = Vec::new(alloc);
    let mut mode = Mode::Between;
    let mut start = 0;
    for (i, byte) in text.iter().enumerate() {
        let Some((next, action)) = after_byte(mode, *byte) else {
            return Ok(None);
        };
        mode = next;
        start = act(&mut pieces, text, start, i, action)?;
    }
    if !may_end(mode) {
        return Ok(None);
    }
    keep(&mut pieces, &text[start..])?;
    Ok(Some(pieces))
}

// Returns whether a text has a byte that no command is read with.
fn has_unread(text: &[u8]) -> bool
    ensures { result ≡ list_any is_unread text.now }
{
    text.iter().any(|byte| *byte == b'\n' || *byte == 0)
}

// Does what the byte at a position does to the pieces, of which the last one begins at `start`. Returns where the last one
// begins then.
fn act<'a>(
    pieces: &mut Vec<&'a [u8]>,
    text: &'a [u8],
    start: usize,
    i: usize,
    action: Action,
) -> Result<usize, AllocError>
    requires begun { start ≤ i }
    requires within { i < length text.now }
    ensures begun { IfOk result (λ next. next ≤ i + 1) }
    ensures cut { IfOk result (λ next.
        cut_at (map (λ piece. piece.now) pieces.new.items) (slice_range text.now next (i + 1))
        ≡ add action (slice_index text.now i) (cut_at (map (λ piece. piece.now) pieces.old.items) (slice_range text.now start i))) }
{
    match action {
        Action::Extend => Ok(start),
        Action::Begin => {
            keep(pieces, &text[start..i])?;
            Ok(i)
        }
        Action::Skip => {
            keep(pieces, &text[start..i])?;
            Ok(i + 1)
        }
    }
}

// Adds a piece, if it has bytes.
fn keep<'a>(pieces: &mut Vec<&'a [u8]>, piece: &'a [u8]) -> Result<(), AllocError>
    ensures { OnOk result (map (λ piece. piece.now) pieces.new.items
        ≡ closed (cut_at (map (λ piece. piece.now) pieces.old.items) piece.now)) }
{
    if !piece.is_empty() {
        pieces.push(piece)?;
    }
    Ok(())
}

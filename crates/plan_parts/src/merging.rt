//! Merges the files of a source into one text.

ghost use Rattle.std.specs.Prelude.{◌≡◌, ◌++◌, IfOk, OnOk};
ghost use Rattle.plan_texts.specs.Lines.{with_newline};
ghost use Rattle.plan_parts.specs.Files.{texts_of};
ghost use Rattle.plan_parts.specs.Merging.{added, between, merged};

use crate::counting::ends_line;
use crate::part::Part;
use std::alloc::{AllocError, Global};

// What is before each file but the first: an empty line, and a line that begins a section.
const BETWEEN: &[u8] = b"\n[Unit]\n";

/// Returns the text that parts are merged into.
///
/// Before each part but the first there is an empty line and a line `[Unit]`. A last line without a newline gets one.
/// So no line of a part continues in the next one, and what is before the first section of a drop-in doesn't count.
///
/// # Errors
///
/// `AllocError` if an allocation fails.
pub fn merged(alloc: Global, parts: &[Part]) -> Result<Vec<u8>, AllocError>
    ensures { IfOk result (λ text. text.items ≡ merged (texts_of parts.now)) }
{
    let mut text = Vec::with_capacity(alloc, most_len(parts))?;
    let Some((first, more)) = parts.split_first() else {
        return Ok(text);
    };
    add_text(&mut text, first.bytes())?;
    for part in more {
        text.extend_from_slice(BETWEEN)?;
        add_text(&mut text, part.bytes())?;
    }
    Ok(text)
}

// Returns how many bytes suffice for the text that parts are merged into.
fn most_len(parts: &[Part]) -> usize {
    let mut len = 0usize;
    for part in parts {
        len = len.saturating_add(part.bytes().len() + BETWEEN.len() + 1);
    }
    len
}

// Adds a text, with a newline at its end.
#[tactic(auto, using(crate::proofs::LinesLemmas::with_newline_is, crate::proofs::LinesLemmas::with_newline_added))]
fn add_text(text: &mut Vec<u8>, more: &[u8]) -> Result<(), AllocError>
    ensures { OnOk result (text.new.items ≡ text.old.items ++ with_newline more.now) }
{
    text.extend_from_slice(more)?;
    if !ends_line(more) {
        text.push(b'\n')?;
    }
    Ok(())
}

//! The comments of a source that allow warnings.
ghost use Rattle.std.specs.Prelude.{◌≡◌, ◌≤◌, ◌++◌, ◌∷◌, [], IfOk, OnOk, drop, length, map};
ghost use Rattle.std.specs.List.{filter_map, prefix_len, suffix_len};
ghost use Rattle.std.specs.Str.Lines.{strip_carriage_return};
ghost use Rattle.plan_texts.specs.Lines.{after_blanks};
ghost use Rattle.plan_texts.specs.Text.{is_blank};
ghost use Rattle.plan_texts.specs.WholeLines.{line_text};
ghost use Rattle.agenda_codes.specs.Codes.{code_named};
ghost use Rattle.agenda_policy.specs.Comments.{AreSame, begins_comment, codes_in_comment, codes_in_lines, codes_in_words, comments_above};
ghost use Rattle.agenda_policy.specs.Comments.{head_of, is_allowed_on, is_comment, is_comment_or_blank, last_comments, lines_of};
ghost use Rattle.agenda_policy.specs.Policy.{has_warning};

use crate::policy::{has_code, has_warning};
use agenda_codes::Code;
use agenda_sources::Source;
use plan_check::Warning;
use plan_rules::SourceKind;
use plan_texts::{pieces, words};
use std::alloc::{AllocError, Global};
use std::marker::Model;

// The first word of a comment that allows warnings.
const AGENDA: &[u8] = b"agenda:";

// The second word of a comment that allows warnings.
const ALLOW: &[u8] = b"allow";

/// The lines of a source, and what the comments at its head allow. Contracts see this value as its kind and its lines.
#[derive(Drop)]
pub(crate) struct Comments<'a> {
    kind: SourceKind,
    lines: Vec<&'a [u8]>,
    head: Vec<Code>,
}

impl<'a> Model for Comments<'a> {
    ghost use Rattle.std.specs.Prelude.{map};
    ghost use Rattle.agenda_policy.specs.Comments.{AreSame, SourceLines, codes_in_lines, head_of};

    ghost Value = { SourceLines };

    ghost view = { λ comments. record { kind = comments.kind; lines = map (λ line. line.now) comments.lines.items } };

    ghost invariant = { λ comments. AreSame comments.head.items
        (codes_in_lines (head_of comments.kind (map (λ line. line.now) comments.lines.items))) };
}

impl<'a> Comments<'a> {
    /// Finds the lines of a source, and reads the comments at its head.
    ///
    /// # Errors
    ///
    /// `AllocError` if an allocation fails.
    pub(crate) fn new(alloc: Global, source: &'a Source) -> Result<Comments<'a>, AllocError>
        ensures { IfOk result (λ comments. comments ≡ lines_of source.entry.now) }
    {
        let kind = source.kind;
        let lines = pieces(alloc, source.bytes.as_slice(), b'\n')?;
        let head = codes_in_lines(alloc, head_of(kind, lines.as_slice()))?;
        Ok(Comments { kind, lines, head })
    }

    /// Returns whether comments allow a warning on the line with this number, from 1. The whole file is 0.
    ///
    /// # Errors
    ///
    /// `AllocError` if an allocation fails.
    pub(crate) fn allow(
        &self,
        alloc: Global,
        number: u32,
        warning: Warning,
    ) -> Result<bool, AllocError>
        ensures { IfOk result (λ allowed. allowed ≡ is_allowed_on self.now number warning) }
    {
        if self.head_allows(warning) {
            return Ok(true);
        }
        let above = comments_above(self.kind, self.lines.as_slice(), number);
        let codes = codes_in_lines(alloc, above)?;
        Ok(has_warning(codes.as_slice(), warning))
    }

    // Returns whether the comments at the head of the source allow a warning.
    fn head_allows(&self, warning: Warning) -> bool
        ensures { result ≡ has_warning (codes_in_lines (head_of self.now.kind self.now.lines)) warning }
    {
        has_warning(self.head.as_slice(), warning)
    }
}

// Returns the head of a file: the comments and blank lines before anything else.
fn head_of<'l, 'a>(kind: SourceKind, lines: &'l [&'a [u8]]) -> &'l [&'a [u8]]
    ensures { map (λ line. line.now) result.now ≡ head_of kind (map (λ line. line.now) lines.entry.now) }
{
    &lines[..head_len(kind, lines)]
}

// Returns how many comments and blank lines are before anything else.
fn head_len(kind: SourceKind, lines: &[&[u8]]) -> usize
    ensures count { result ≡ prefix_len (λ line. is_comment_or_blank kind line.now) lines.now }
    ensures inside { result ≤ length lines.now }
{
    lines
        .iter()
        .take_while(|line| is_comment_or_blank(kind, line))
        .count()
}

// Returns the comments directly above the line with this number.
fn comments_above<'l, 'a>(kind: SourceKind, lines: &'l [&'a [u8]], number: u32) -> &'l [&'a [u8]]
    ensures { map (λ line. line.now) result.now ≡ comments_above kind (map (λ line. line.now) lines.entry.now) number }
{
    let before = (number as usize).saturating_sub(1);
    last_comments(kind, &lines[..before.min(lines.len())])
}

// Returns the comments that end lines.
fn last_comments<'l, 'a>(kind: SourceKind, lines: &'l [&'a [u8]]) -> &'l [&'a [u8]]
    ensures { map (λ line. line.now) result.now ≡ last_comments kind (map (λ line. line.now) lines.entry.now) }
{
    &lines[lines.len() - comments_at_end(kind, lines)..]
}

// Returns how many comments end lines.
fn comments_at_end(kind: SourceKind, lines: &[&[u8]]) -> usize
    ensures count { result ≡ suffix_len (λ line. is_comment kind line.now) lines.now }
    ensures inside { result ≤ length lines.now }
{
    lines
        .iter()
        .rev()
        .take_while(|line| is_comment(kind, line))
        .count()
}

// Returns whether a line is a comment, or blank.
fn is_comment_or_blank(kind: SourceKind, line: &[u8]) -> bool
    ensures { result ≡ is_comment_or_blank kind line.now }
{
    line_text(line).is_empty() || is_comment(kind, line)
}

// Returns whether a line is a comment.
fn is_comment(kind: SourceKind, line: &[u8]) -> bool
    ensures { result ≡ is_comment kind line.now }
{
    match line_text(line) {
        [first, ..] => begins_comment(kind, *first),
        [] => false,
    }
}

// Returns whether a byte begins a comment.
fn begins_comment(kind: SourceKind, byte: u8) -> bool
    ensures { result ≡ begins_comment kind byte }
{
    match kind {
        SourceKind::Timer => byte == b'#' || byte == b';',
        _ => byte == b'#',
    }
}

// Returns a line without the blanks at its start and one carriage return at its end.
fn line_text(line: &[u8]) -> &[u8]
    ensures { result.now ≡ line_text line.now }
{
    after_blanks(without_return(line))
}

// Returns a line without one carriage return at its end.
fn without_return(line: &[u8]) -> &[u8]
    ensures { result.now ≡ strip_carriage_return line.now }
{
    match line {
        [front @ .., b'\r'] => front,
        _ => line,
    }
}

// Returns a text without the blanks at its start.
fn after_blanks(text: &[u8]) -> &[u8]
    ensures { result.now ≡ after_blanks text.now }
{
    &text[blanks_in_front(text)..]
}

// Returns how many blanks a text begins with.
fn blanks_in_front(text: &[u8]) -> usize
    ensures count { result ≡ prefix_len is_blank text.now }
    ensures inside { result ≤ length text.now }
{
    text.iter().take_while(|byte| is_blank(**byte)).count()
}

// Returns whether a byte is a space or a tab.
fn is_blank(byte: u8) -> bool
    ensures { result ≡ is_blank byte }
{
    byte == b' ' || byte == b'\t'
}

// Returns the codes that comments name, each once.
fn codes_in_lines(alloc: Global, lines: &[&[u8]]) -> Result<Vec<Code>, AllocError>
    ensures { IfOk result (λ codes. AreSame codes.items (codes_in_lines (map (λ line. line.now) lines.now))) }
{
    let mut codes = Vec::new(alloc);
    for line in lines {
        add_codes(alloc, line, &mut codes)?;
    }
    Ok(codes)
}

// Adds the codes that a comment names.
fn add_codes(alloc: Global, line: &[u8], codes: &mut Vec<Code>) -> Result<(), AllocError>
    ensures { OnOk result (AreSame codes.new.items (codes.old.items ++ codes_in_comment line.now)) }
{
    let words = words(alloc, after_mark(line))?;
    add_words(words.as_slice(), codes)
}

// Returns what follows the first byte of a line, without the blanks before that.
fn after_mark(line: &[u8]) -> &[u8]
    ensures { result.now ≡ drop 1 (line_text line.now) }
{
    match line_text(line) {
        [_, rest @ ..] => rest,
        [] => &[],
    }
}

// Adds the codes that the words of a comment name.
fn add_words(words: &[&[u8]], codes: &mut Vec<Code>) -> Result<(), AllocError>
    ensures { OnOk result (AreSame codes.new.items (codes.old.items ++ codes_in_words (map (λ word. word.now) words.now))) }
{
    match words {
        [first, second, names @ ..] if *first == AGENDA && *second == ALLOW => add_names(
            names, codes,
        ),
        _ => Ok(()),
    }
}

// Adds the codes that have these names. Other names are ignored.
fn add_names(names: &[&[u8]], codes: &mut Vec<Code>) -> Result<(), AllocError>
    ensures { OnOk result (AreSame codes.new.items (codes.old.items ++ filter_map code_named (map (λ name. name.now) names.now))) }
{
    for name in names {
        add_name(name, codes)?;
    }
    Ok(())
}

// Adds the code that has this name, if there is one.
fn add_name(name: &[u8], codes: &mut Vec<Code>) -> Result<(), AllocError>
    ensures { OnOk result (AreSame codes.new.items (codes.old.items ++ filter_map code_named (name.now ∷ []))) }
{
    match Code::of_bytes(name) {
        Some(code) => add_code(codes, code),
        None => Ok(()),
    }
}

// Adds a code, unless it is there.
fn add_code(codes: &mut Vec<Code>, code: Code) -> Result<(), AllocError>
    ensures { OnOk result (AreSame codes.new.items (codes.old.items ++ code ∷ [])) }
{
    if !has_code(codes.as_slice(), code) {
        codes.push(code)?;
    }
    Ok(())
}

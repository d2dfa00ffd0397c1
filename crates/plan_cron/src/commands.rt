//! How cron reads and changes the command of a job (cron 3.0pl1, crontab(5)).

ghost use Rattle.std.specs.Prelude.{◌≡◌, ◌<◌, ◌≤◌, ◌++◌, IfOk, drop, length};
ghost use Rattle.std.specs.List.{suffix_len};
ghost use Rattle.plan_cron.specs.Commands.{after_rule, begins_with_star, cut_command, has_bare_percent, has_two_backslashes, is_backslash, is_bare_percent, is_escapable, is_second_backslash, is_too_long, shell_command};

use crate::lines::{MOST_KEPT, before_nul};
use crate::words::{after_word, after_words};
use plan_rules::Kind;
use plan_texts::begins_with;
use plan_texts::lines::after_blanks;
use std::alloc::{AllocError, Global};

/// Returns whether the command of a job's line has more bytes than cron keeps, so that cron ignores the crontab.
#[tactic(auto, using(crate::proofs::CommandLemmas::never_too_long), unfolding(crate::specs::Commands::is_too_long))]
pub fn is_too_long(kind: Kind, line: &str) -> bool
    ensures { result ≡ is_too_long kind line.now }
{
    line.len() > MOST_KEPT && before_nul(cut_command(kind, line)).len() > MOST_KEPT
}

/// Returns whether a command begins with `*` in a user's crontab, so that cron ignores the crontab.
pub fn begins_with_star(kind: Kind, command: &str) -> bool
    ensures { result ≡ begins_with_star kind command.now }
{
    match kind {
        Kind::User => begins_with(command.as_bytes(), b'*'),
        Kind::System => false,
    }
}

/// Returns whether a command has a `%` after an even number of backslashes: cron ends the command there (crontab(5)).
pub fn has_bare_percent(command: &[u8]) -> bool
    ensures { result ≡ has_bare_percent command.now }
{
    (0..command.len()).any(|i| is_bare_percent(command, i))
}

/// Returns whether a command has two backslashes in a row, of which cron removes one.
pub fn has_two_backslashes(command: &[u8]) -> bool
    ensures { result ≡ has_two_backslashes command.now }
{
    (1..command.len()).any(|i| is_second_backslash(command, i))
}

/// Returns what the shell gets of a command: what comes before the first `%` that no backslash takes, where `\%` and `\\` are
/// `%` and `\` (child_process of cron 3.0pl1; crontab(5)).
///
/// # Errors
///
/// `AllocError` if an allocation fails.
pub fn shell_command(alloc: Global, command: &[u8]) -> Result<Vec<u8>, AllocError>
    ensures { IfOk result (λ given. given.items ≡ shell_command command.now) }
{
    let mut given = Vec::new(alloc);
    let mut escaped = false;
    for byte in command {
        if escaped {
            if !is_escapable(*byte) {
                given.push(b'\\')?;
            }
            given.push(*byte)?;
            escaped = false;
        } else if *byte == b'%' {
            return Ok(given);
        } else if *byte == b'\\' {
            escaped = true;
        } else {
            given.push(*byte)?;
        }
    }
    if escaped {
        given.push(b'\\')?;
    }
    Ok(given)
}

// Returns whether cron removes a backslash before a byte.
fn is_escapable(byte: u8) -> bool
    ensures { result ≡ is_escapable byte }
{
    byte == b'%' || byte == b'\\'
}

// Returns the command as cron cuts it from a line.
fn cut_command(kind: Kind, line: &str) -> &[u8]
    ensures { result.now ≡ cut_command kind line.now }
{
    match kind {
        Kind::User => after_blanks(after_rule(line)).as_bytes(),
        Kind::System => after_first_byte(after_word(after_rule(line)).as_bytes()),
    }
}

// Returns what follows the rule of a line.
fn after_rule(line: &str) -> &str
    ensures { result.now ≡ after_rule line.now }
{
    if begins_with(after_blanks(line).as_bytes(), b'@') {
        after_words(line, 1)
    } else {
        after_words(line, 5)
    }
}

// Returns a text without its first byte.
fn after_first_byte(text: &[u8]) -> &[u8]
    ensures { result.now ≡ drop 1 text.now }
{
    match text {
        [_, rest @ ..] => rest,
        [] => text,
    }
}

// Returns whether the byte at a position is a `%` after an even number of backslashes.
fn is_bare_percent(command: &[u8], i: usize) -> bool
    requires { i < length command.now }
    ensures { result ≡ is_bare_percent command.now i }
{
    command[i] == b'%' && backslashes_at_end(&command[..i]) % 2 == 0
}

// Returns how many backslashes a text ends with.
fn backslashes_at_end(text: &[u8]) -> usize
    ensures { result ≡ suffix_len is_backslash text.now }
{
    text.iter().rev().take_while(|byte| **byte == b'\\').count()
}

// Returns whether the byte at a position, from 1, is a backslash after another one.
fn is_second_backslash(command: &[u8], i: usize) -> bool
    requires from { 1 ≤ i }
    requires within { i < length command.now }
    ensures { result ≡ is_second_backslash command.now i }
{
    command[i - 1] == b'\\' && command[i] == b'\\'
}

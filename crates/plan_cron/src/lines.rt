//! What cron takes as a line, and which lines it reads (cron 3.0pl1).

ghost use Rattle.std.specs.Prelude.{◌≡◌, ◌≤◌, ◌==◌, drop, length, map, not};
ghost use Rattle.std.specs.List.{after_last, position_or_len, prefix_len, suffix_len};
ghost use Rattle.std.specs.Str.{byte};
ghost use Rattle.plan_texts.specs.Limits.{most_bytes};
ghost use Rattle.plan_texts.specs.Text.{is_blank};
ghost use Rattle.plan_cron.specs.Lines.{before_nul, ends_at_nul, first_beyond, is_nul, is_read, is_unended, last_line};

// The number of bytes of a command, or of a line that is a setting, that cron keeps.
pub(crate) const MOST_KEPT: usize = 998;

// The number of the last line on which cron accepts a job or a setting.
const LAST_LINE: usize = 10_003;

/// Returns whether cron ends a line at a NUL byte, and takes the rest as another line: not if the line is a comment.
#[tactic(auto, unfolding(crate::specs::Lines::ends_at_nul))]
pub fn ends_at_nul(line: &str) -> bool
    ensures { result ≡ ends_at_nul line.now }
{
    is_read(line.as_bytes()) && line.as_bytes().contains(&0)
}

/// Returns whether the last line of a text has no newline, and cron reads it, so that cron ignores the crontab.
#[tactic(auto, unfolding(crate::specs::Lines::is_unended))]
pub fn is_unended(text: &str) -> bool
    ensures { result ≡ is_unended text.now }
{
    is_read(last_piece(text.as_bytes()))
}

/// Returns the number of the first line, from 10,004, that cron reads, so that it ignores the crontab.
pub fn first_beyond(lines: &[&str]) -> Option<u32>
    requires { length lines.now ≤ most_bytes }
    ensures { result ≡ first_beyond (map (λ line. line.now) lines.now) }
{
    if lines.len() <= LAST_LINE {
        return None;
    }
    let beyond = after_last_line(lines);
    let unread = unread_in_front(beyond);
    if unread == beyond.len() {
        return None;
    }
    Some((LAST_LINE + 1 + unread) as u32)
}

// Returns the lines after the last one on which cron accepts a job or a setting.
fn after_last_line<'a, 'b>(lines: &'a [&'b str]) -> &'a [&'b str]
    requires { last_line ≤ length lines.now }
    ensures lines { result.now ≡ drop last_line lines.now }
    ensures fewer { length result.now ≤ length lines.now }
{
    &lines[LAST_LINE..]
}

// Returns how many lines come before the first one that cron reads.
fn unread_in_front(lines: &[&str]) -> usize
    ensures count { result ≡ prefix_len (λ line. not (is_read line.now)) lines.now }
    ensures inside { result ≤ length lines.now }
{
    lines
        .iter()
        .take_while(|line| !is_read(line.as_bytes()))
        .count()
}

// Returns whether cron reads a line: not if it has nothing but blanks, or is a comment.
pub(crate) fn is_read(line: &[u8]) -> bool
    ensures { result ≡ is_read line.now }
{
    match &line[blanks_in_front(line)..] {
        [first, ..] => *first != b'#',
        [] => false,
    }
}

// Returns how many blanks a line begins with.
fn blanks_in_front(line: &[u8]) -> usize
    ensures count { result ≡ prefix_len is_blank line.now }
    ensures inside { result ≤ length line.now }
{
    line.iter().take_while(|byte| is_blank(**byte)).count()
}

// Returns whether a byte is a space or a tab.
fn is_blank(byte: u8) -> bool
    ensures { result ≡ is_blank byte }
{
    byte == b' ' || byte == b'\t'
}

// Returns what follows the last newline of a text.
fn last_piece(text: &[u8]) -> &[u8]
    ensures { result.now ≡ after_last (λ b. b == byte "\n") text.now }
{
    &text[text.len() - last_len(text)..]
}

// Returns how many bytes follow the last newline of a text.
fn last_len(text: &[u8]) -> usize
    ensures count { result ≡ suffix_len (λ b. not (b == byte "\n")) text.now }
    ensures inside { result ≤ length text.now }
{
    text.iter().rev().take_while(|byte| **byte != b'\n').count()
}

// Returns what cron reads of a text.
pub(crate) fn before_nul(text: &[u8]) -> &[u8]
    ensures { result.now ≡ before_nul text.now }
{
    &text[..nul_at(text)]
}

// Returns how many bytes come before the first NUL byte.
fn nul_at(text: &[u8]) -> usize
    ensures count { result ≡ position_or_len is_nul text.now }
    ensures inside { result ≤ length text.now }
{
    text.iter().take_while(|byte| **byte != 0).count()
}

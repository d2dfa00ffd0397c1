//! Why a line of a crontab may be rejected: it is written for another program.

ghost use Rattle.std.specs.Prelude.{◌≡◌, ◌==◌, option_map};
ghost use Rattle.std.specs.List.{list_any, range_with_len};
ghost use Rattle.std.specs.Str.{byte};
ghost use Rattle.plan_cron.specs.Hints.{has_mark, hint, is_field, is_foreign, is_hash, is_quartz};
ghost use Rattle.plan_cron.specs.Words.{word_at};

use crate::words::word_at;

/// Returns a hint for the rejected line of a crontab with a number, from 1, or `None`: the file begins with a byte order
/// mark, or the line has a rule of Quartz, of Jenkins, or with `@every`.
pub fn hint(number: u32, line: &str) -> Option<&'static str>
    ensures { option_map (λ hint. hint.now) result ≡ hint number line.now }
{
    if has_mark(number, line) {
        return Some("the file begins with a byte order mark");
    }
    if is_quartz(line) {
        return Some("Quartz has a field for seconds; crontab has none");
    }
    if is_foreign(line) {
        return Some("Jenkins' H and @every are not cron's");
    }
    None
}

// Returns whether a line is the first one of its file, and begins with a byte order mark.
fn has_mark(number: u32, line: &str) -> bool
    ensures { result ≡ has_mark number line.now }
{
    number == 1 && line.as_bytes().starts_with(b"\xEF\xBB\xBF")
}

// Returns whether a line has the fields of a rule of Quartz.
fn is_quartz(line: &str) -> bool
    ensures { result ≡ is_quartz line.now }
{
    let week_day = word_at(line, 6);
    week_day == "?"
        || is_field(week_day.as_bytes())
            && (word_at(line, 4) == "?" || week_day.as_bytes().contains(&b'#'))
}

// Returns whether a word can be a field of Quartz.
fn is_field(word: &[u8]) -> bool
    ensures { result ≡ is_field word.now }
{
    match word {
        [first, ..] => first.is_ascii_digit() || *first == b'*' || first.is_ascii_uppercase(),
        [] => false,
    }
}

// Returns whether a line has a field of Jenkins, or begins with `@every`.
fn is_foreign(line: &str) -> bool
    ensures { result ≡ is_foreign line.now }
{
    has_hash(line) || word_at(line, 1) == "@every"
}

// Returns whether one of the first five words of a line is a field of Jenkins.
fn has_hash(line: &str) -> bool
    ensures { result ≡ list_any (λ place. is_hash (word_at line.now place)) (range_with_len 1 5) }
{
    (1..6).any(|place| is_hash(word_at(line, place)))
}

// Returns whether a word is `H`, or begins with it as in `H/15` and `H(0-29)`.
fn is_hash(word: &str) -> bool
    ensures { result ≡ is_hash word.now }
{
    word == "H" || word.starts_with("H/") || word.starts_with("H(")
}

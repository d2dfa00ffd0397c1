//! How many lines a text has.

ghost use Rattle.std.specs.Prelude.{◌≡◌, ◌==◌, length};
ghost use Rattle.std.specs.List.{count_by};
ghost use Rattle.std.specs.Str.{byte};
ghost use Rattle.plan_texts.specs.Lines.{lines};
ghost use Rattle.plan_parts.specs.Merging.{ends_line};

// Returns how many lines a text has.
#[tactic(auto, using(crate::proofs::LinesLemmas::lines_counted))]
pub(crate) fn line_count(text: &[u8]) -> usize
    ensures { result ≡ length (lines text.now) }
{
    let newlines = newlines(text);
    if ends_line(text) {
        newlines
    } else {
        newlines + 1
    }
}

// Returns how many newlines a text has.
fn newlines(text: &[u8]) -> usize
    ensures { result ≡ count_by (λ b. b == byte "\n") text.now }
{
    text.iter().filter(|byte| **byte == b'\n').count()
}

// Returns whether the last line of a text ends in a newline, or there is no line.
pub(crate) fn ends_line(text: &[u8]) -> bool
    ensures { result ≡ ends_line text.now }
{
    text.last().map_or(true, |last| *last == b'\n')
}

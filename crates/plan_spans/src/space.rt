//! The white space of time spans.

ghost use Rattle.std.specs.Prelude.{◌≡◌, ◌≤◌, length};
ghost use Rattle.std.specs.List.{prefix_len, suffix_len};
ghost use Rattle.plan_spans.specs.Spans.{is_whitespace, after_whitespace, before_whitespace};

// Returns whether a byte is a space, a tab, a newline or a carriage return.
pub(crate) fn is_whitespace(byte: u8) -> bool
    ensures { result ≡ is_whitespace byte }
{
    matches!(byte, b' ' | b'\t' | b'\n' | b'\r')
}

// Returns how many bytes of white space a text begins with.
fn whitespace_in_front(text: &[u8]) -> usize
    ensures count { result ≡ prefix_len is_whitespace text.now }
    ensures inside { result ≤ length text.now }
{
    text.iter().take_while(|byte| is_whitespace(**byte)).count()
}

// Returns how many bytes of white space a text ends with.
fn whitespace_at_end(text: &[u8]) -> usize
    ensures count { result ≡ suffix_len is_whitespace text.now }
    ensures inside { result ≤ length text.now }
{
    text.iter()
        .rev()
        .take_while(|byte| is_whitespace(**byte))
        .count()
}

// Returns a text without the white space at its start.
pub(crate) fn after_whitespace(text: &[u8]) -> &[u8]
    ensures { result.now ≡ after_whitespace text.now }
{
    &text[whitespace_in_front(text)..]
}

// Returns a text without the white space at its end.
pub(crate) fn before_whitespace(text: &[u8]) -> &[u8]
    ensures { result.now ≡ before_whitespace text.now }
{
    &text[..text.len() - whitespace_at_end(text)]
}

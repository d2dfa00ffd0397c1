//! Decides whether a name fits a pattern.
//!
//! It allocates nothing. Its time is at most proportional to the product of the two lengths, whatever the name is.

ghost use Rattle.std.specs.Prelude.{◌≡◌};
ghost use Rattle.agenda_patterns.specs.Head.{Says};
ghost use Rattle.agenda_patterns.specs.Pattern.{any_suffix, fits};

// What the head of a pattern, the bytes before its first `*`, says about a name.
enum Head<'a> {
    // The name fits. The pattern has no `*`.
    Fits,
    // The name doesn't fit, whatever follows these bytes.
    Differs,
    // The head fits the first bytes of the name. What follows the `*` decides, and the rest of the name.
    Star(&'a [u8], &'a [u8]),
}

/// Returns whether a name fits a pattern. In the pattern, `*` stands for any bytes, or none, and `?` for one byte.
/// Each other byte stands for itself, also `\`.
pub fn fits(pattern: &str, name: &str) -> bool
    ensures { result ≡ fits pattern.now name.now }
{
    let pattern = pattern.as_bytes();
    let name = name.as_bytes();
    match compare_head(pattern, name) {
        Head::Fits => true,
        Head::Differs => false,
        Head::Star(rest, end) => fits_at_end(rest, end),
    }
}

// Returns whether some end of a name fits a pattern: the whole name, the empty end, or one between.
//
// Where the bytes before a `*` fit, the first place is as good as any later one, so it never goes back to try another.
#[tactic(auto, using(crate::proofs::PatternLemmas::here))]
fn fits_at_end<'a>(mut pattern: &'a [u8], mut name: &'a [u8]) -> bool
    ensures { result ≡ any_suffix (fits pattern.now) name.now }
{
    loop {
        match compare_head(pattern, name) {
            Head::Fits => return true,
            Head::Differs => {
                if name.is_empty() {
                    return false;
                }
                name = &name[1..];
            }
            Head::Star(rest, end) => {
                pattern = rest;
                name = end;
            }
        }
    }
}

// Returns what the head of a pattern says about a name.
fn compare_head<'a>(pattern: &'a [u8], name: &'a [u8]) -> Head<'a>
    ensures { Says pattern.now name.now result }
{
    for (at, byte) in pattern.iter().enumerate() {
        if *byte == b'*' {
            return Head::Star(&pattern[at + 1..], &name[at..]);
        }
        if at == name.len() || (*byte != b'?' && *byte != name[at]) {
            return Head::Differs;
        }
    }
    if pattern.len() == name.len() {
        Head::Fits
    } else {
        Head::Differs
    }
}

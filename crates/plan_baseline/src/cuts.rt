//! Texts that are cut at a byte.

ghost use Rattle.std.specs.Prelude.{◌≡◌, ◌∷◌, ◌++◌, [], IfSome, option_map};
ghost use Rattle.plan_texts.specs.Text.{cut_at};

use memchr::memchr;

/// Returns what comes before and after the first such byte of a text.
#[inline(always)]
pub(crate) fn cut(text: &[u8], mark: u8) -> Option<(&[u8], &[u8])>
    ensures { option_map (λ parts. (parts.0.now, parts.1.now)) result ≡ cut_at (mark ∷ []) text.now }
{
    let Some(place) = memchr(mark, text) else {
        return None;
    };
    Some((&text[..place], &text[place + 1..]))
}

/// Returns the first bytes of a text, so many, and what follows the byte after them, if that is such a one.
#[inline(always)]
pub(crate) fn cut_after(text: &[u8], size: usize, mark: u8) -> Option<(&[u8], &[u8])>
    ensures { IfSome result (λ parts. text.now ≡ parts.0.now ++ mark ∷ parts.1.now) }
{
    if text.len() <= size || text[size] != mark {
        return None;
    }
    Some((&text[..size], &text[size + 1..]))
}
